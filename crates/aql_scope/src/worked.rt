//! Worked queries with what scoping makes of them, computed from the definitions.

ghost use Rattle.aql_scope.specs.Worked.{WorkedQueries};

/// Numbers, lifted subqueries, COLLECT and traversals.
pub fn worked_queries()
    ensures { WorkedQueries }
{}
