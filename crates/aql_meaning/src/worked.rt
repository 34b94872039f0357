//! Worked queries with what they print: each function's contract is a table of them, computed from
//! the definitions.

ghost use Rattle.aql_meaning.specs.worked.Expressions.{WorkedExpressions};
ghost use Rattle.aql_meaning.specs.worked.Clauses.{WorkedClauses};
ghost use Rattle.aql_meaning.specs.worked.Traversals.{WorkedTraversals};
ghost use Rattle.aql_meaning.specs.worked.Refuted.{RefutedAnswers};

/// Expressions and functions.
pub fn worked_expressions()
    ensures { WorkedExpressions }
{}

/// FOR, SORT, LIMIT, COLLECT and RETURN.
pub fn worked_clauses()
    ensures { WorkedClauses }
{}

/// Traversals.
pub fn worked_traversals()
    ensures { WorkedTraversals }
{}

/// Lists that are no answers.
pub fn refuted_answers()
    ensures { RefutedAnswers }
{}
