//! The values of the options.

ghost use Rattle.std.specs.Prelude.{◌≡◌, ◌↔◌, IfOk, ℕ, Option, MatchOption, option_map};
ghost use Rattle.aql_plan.specs.declared.rule_sets.Rules.{Rules};
ghost use Rattle.aql_options.specs.Words.{IsNumber, IsServers, IsBatch, IsSchedule, IsFlag, IsGenerated, AreRules};

use crate::rule_lists::rules_of;
use aql_plan::Rules;
use aql_value::OutOfMemory;
use std::alloc::Global;

// The number that decimal digits stand for, where it is at least `least` and at most `most`.
fn number(text: &str, least: u32, most: u32) -> Option<u32>
    ensures { MatchOption result ((n : ℕ) → IsNumber least most text.now n → ⊥)
        (IsNumber least most text.now) }
{
    if text.as_bytes().first() == Some(&b'+') {
        return None;
    }
    match text.parse::<u32>() {
        Ok(n) if least <= n && n <= most => Some(n),
        _ => None,
    }
}

// The number that decimal digits stand for, where it has 64 bits at most.
fn long_number(text: &str) -> Option<u64>
    ensures { MatchOption result ((n : ℕ) → IsNumber 0 18446744073709551615 text.now n → ⊥)
        (IsNumber 0 18446744073709551615 text.now) }
{
    if text.as_bytes().first() == Some(&b'+') {
        return None;
    }
    text.parse::<u64>().ok()
}

pub(crate) fn servers_of(value: Option<&str>) -> Option<u32>
    ensures { MatchOption result
        ((n : ℕ) → IsServers (option_map (λ s. s.now) value.entry) n → ⊥)
        (IsServers (option_map (λ s. s.now) value.entry)) }
{
    match value {
        None => Some(0),
        Some(text) => number(text, 0, 16),
    }
}

pub(crate) fn batch_of(value: Option<&str>) -> Option<u32>
    ensures { MatchOption result
        ((n : ℕ) → IsBatch (option_map (λ s. s.now) value.entry) n → ⊥)
        (IsBatch (option_map (λ s. s.now) value.entry)) }
{
    match value {
        None => Some(1000),
        Some(text) => number(text, 1, 10_000),
    }
}

pub(crate) fn schedule_of(value: Option<&str>) -> Option<u64>
    ensures { MatchOption result
        ((n : ℕ) → IsSchedule (option_map (λ s. s.now) value.entry) n → ⊥)
        (IsSchedule (option_map (λ s. s.now) value.entry)) }
{
    match value {
        None => Some(0),
        Some(text) => long_number(text),
    }
}

pub(crate) fn rules_or_all(alloc: Global, value: Option<&str>) -> Result<Option<Rules>, OutOfMemory>
    ensures { IfOk result (λ rules. MatchOption rules
        ((others : Rules) → AreRules (option_map (λ s. s.now) value.entry) others → ⊥)
        (AreRules (option_map (λ s. s.now) value.entry))) }
{
    match value {
        None => Ok(Some(Rules::all())),
        Some(list) => rules_of(alloc, list),
    }
}

pub(crate) fn is_on(value: Option<&str>) -> bool
    ensures { IsFlag (option_map (λ s. s.now) value.entry) result }
{
    value == Some("true")
}

pub(crate) fn generate_of(value: Option<&str>) -> Option<Option<u32>>
    ensures { MatchOption result
        ((n : Option ℕ) → IsGenerated (option_map (λ s. s.now) value.entry) n → ⊥)
        (IsGenerated (option_map (λ s. s.now) value.entry)) }
{
    match value {
        None => Some(None),
        Some(text) => match number(text, 1, 100_000) {
            Some(n) => Some(Some(n)),
            None => None,
        },
    }
}
