//! The laws of the meaning: each function's contract is one of them.

ghost use Rattle.aql_meaning.specs.Theorems.{EqualPlainStandFor, EveryQueryHasAnAnswer, PermutationPasses};
ghost use Rattle.aql_meaning.specs.Theorems.{PlainHasOneValue, StandsAtAnyPlace, ValueNeedsOnlyWhatIsUsed};

/// Every query has an answer from every row.
pub fn every_query_has_an_answer()
    ensures { EveryQueryHasAnAnswer }
{}

/// An expression without a subquery has exactly one value.
pub fn plain_has_one_value()
    ensures { PlainHasOneValue }
{}

/// What FOR, FILTER and LET make of permuted rows is what they make of the rows, permuted.
pub fn permutation_passes()
    ensures { PermutationPasses }
{}

/// A value depends only on the variables that the expression uses.
pub fn value_needs_only_what_is_used()
    ensures { ValueNeedsOnlyWhatIsUsed }
{}

/// Two expressions with equal values everywhere may stand for each other at any place of a tree.
pub fn stands_at_any_place()
    ensures { StandsAtAnyPlace }
{}

/// Of expressions without a subquery the one value is all that counts.
pub fn equal_plain_stand_for()
    ensures { EqualPlainStandFor }
{}
