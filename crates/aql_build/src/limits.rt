//! The law of this crate: the function's contract is the law, and its body is empty.

ghost use Rattle.aql_build.specs.TextLimits.{TextLimitsEnd};

/// The LIMITs of a query that a text spells end within the numbers of 64 bits.
pub fn text_limits_end()
    ensures { TextLimitsEnd }
{}
