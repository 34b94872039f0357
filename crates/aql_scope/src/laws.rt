//! The laws of scoping: each function's contract is one of them.

ghost use Rattle.aql_scope.specs.Theorem.{EachNumberHasItsName, LiftedIsPlain, PlainTakesNothing};
ghost use Rattle.aql_scope.specs.Theorem.{ScopedAnswersAreAnswers, ScopedIsNumbered};

/// What the scoped query answers, the written one answers.
pub fn scoped_answers_are_answers()
    ensures { ScopedAnswersAreAnswers }
{}

/// A query says as many names as it takes numbers.
pub fn each_number_has_its_name()
    ensures { EachNumberHasItsName }
{}

/// Nothing is taken out of an expression without a subquery.
pub fn plain_takes_nothing()
    ensures { PlainTakesNothing }
{}

/// What scoping makes of an expression has no subquery; in a scoped query, and in each of its
/// subqueries, one stands only as the whole right side of a LET.
pub fn lifted_is_plain()
    ensures { LiftedIsPlain }
{}

/// The variables of a scoped query are numbers from 1 on.
pub fn scoped_is_numbered()
    ensures { ScopedIsNumbered }
{}
