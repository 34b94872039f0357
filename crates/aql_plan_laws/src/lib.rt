//! The laws of plans (aql_plan). Each function's contract is a law, and its body is empty.
#![tactic(auto)]

ghost use Rattle.aql_plan_laws.specs.Theorems.{EveryPlanHasAList, PlanNeedsOnlyWhatIsUsed, FirstPlanAnswers};
ghost use Rattle.aql_plan_laws.specs.Theorems.{PartMayBeReplaced, BodyMayBeReplaced, ResultsAreValues};
ghost use Rattle.aql_plan_laws.specs.Theorems.{VariableMayBeRenamed, RenamedResultsAreValues, MergeDoesNotDescend};

/// Every plan gives a list from every row.
pub fn every_plan_has_a_list()
    ensures { EveryPlanHasAList }
{}

/// From rows that agree in what a plan needs it gives lists that agree in what is used of them.
pub fn plan_needs_only_what_is_used()
    ensures { PlanNeedsOnlyWhatIsUsed }
{}

/// A part of a plan outside fragments may be replaced by one that refines it for what the nodes
/// above use; so may the body of a subquery, and at the top the values are compared.
pub fn part_may_be_replaced()
    ensures part { PartMayBeReplaced }
    ensures body { BodyMayBeReplaced }
    ensures result { ResultsAreValues }
{}

/// A variable may go by another one in the nodes above a part, up to the top.
pub fn variable_may_be_renamed()
    ensures node { VariableMayBeRenamed }
    ensures result { RenamedResultsAreValues }
{}

/// Each list of the first plan of a scoped query is an answer of the query.
pub fn first_plan_answers()
    ensures { FirstPlanAnswers }
{}

/// Where no shard's list descends, what a Gather with keys makes of them does not descend.
pub fn merge_does_not_descend()
    ensures { MergeDoesNotDescend }
{}
