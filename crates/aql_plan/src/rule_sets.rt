//! Sets of rules.

ghost use Rattle.std.specs.Prelude.{◌≡◌, ◌⊎◌, ◌↔◌, IsTrue};
ghost use Rattle.aql_plan.specs.declared.rules.RuleName.{RuleName};
ghost use Rattle.aql_plan.specs.RuleSets.{bit_of, Has};

use crate::rules::RuleName;

/// A set of rules. Contracts see whether it has a rule.
#[derive(Clone, Copy, Debug, PartialEq, Eq)]
pub struct Rules {
    bits: u32,
}

fn bit_of(rule: RuleName) -> u32
    ensures { result ≡ bit_of rule }
{
    rule as u32
}

impl Rules {
    /// All 26 rules.
    pub fn all() -> Rules
        ensures { (r : RuleName) → Has result r }
    {
        Rules { bits: 0x03ff_ffff }
    }

    /// No rule.
    pub fn none() -> Rules
        ensures { (r : RuleName) → Has result r → ⊥ }
    {
        Rules { bits: 0 }
    }

    /// The set with one more rule.
    pub fn with(self, rule: RuleName) -> Rules
        ensures { (r : RuleName) → Has result r ↔ ((r ≡ rule) ⊎ Has self r) }
    {
        Rules {
            bits: self.bits | 1 << bit_of(rule),
        }
    }

    /// Whether the set has a rule.
    pub fn has(&self, rule: RuleName) -> bool
        ensures { IsTrue result ↔ Has self.now rule }
    {
        (self.bits >> bit_of(rule)) & 1 == 1
    }
}
