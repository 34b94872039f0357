ghost use Rattle.std.specs.Prelude.{◌≡◌, ◌⊎◌, List, [], None, Some, IfOk, IfErr};
ghost use Rattle.aql_value.specs.Datum.{Datum};
ghost use Rattle.aql_value.specs.Database.{Database};
ghost use Rattle.aql_tree.specs.View.{query_tree};
ghost use Rattle.aql_meaning.specs.Row.{empty_row};
ghost use Rattle.aql_meaning.specs.Meaning.{IsAnswer};
ghost use Rattle.aql_scope.specs.Lifting.{scope_query};
ghost use Rattle.aql_scope.specs.Faults as spec;
ghost use Rattle.aql_scope.specs.declared.faults.ScopeFault.TheVariants.{Memory};

use crate::clause_faults::in_query;
use crate::faults::ScopeFault;
use crate::lift_clauses::lift_query;
use crate::names::{At, Scope};
use crate::numbers::{LiftState, Numbers};
use aql_doc::Catalog;
use aql_tree::Query;
use aql_value::{Names, OutOfMemory, Seq};
use std::alloc::Global;

/// A query whose variables are numbers, from 1 on, and whose subqueries stand in LETs.
#[derive(Drop)]
pub struct Scoped {
    pub query: Query,
    /// The name of variable n stands at place n - 1; that of a subquery is `sub`.
    pub names: Names,
}

/// The first fault of a query in the order of the text.
pub fn first_fault(
    query: &Query,
    catalog: &Catalog,
    alloc: Global,
) -> Result<Option<ScopeFault>, OutOfMemory>
    ensures { IfOk result (λ f. f ≡ spec.first_fault catalog.now (query_tree query.now)) }
{
    let at = At {
        alloc,
        catalog,
        scope: &Scope::nothing(alloc),
        lifts: true,
    };
    match in_query(query, &at) {
        Ok(()) => Ok(None),
        Err(fault) => match &fault {
            ScopeFault::Memory => Err(OutOfMemory),
            _ => Ok(Some(fault)),
        },
    }
}

/// The query with numbers for its variables, and with each subquery that is not the whole right
/// side of a LET in a LET of its own before its clause (AQL fundamentals, Subqueries). It takes
/// every query: a name that is not visible becomes null, or after IN a collection.
pub fn lift(query: Query, alloc: Global) -> Result<Scoped, OutOfMemory>
    ensures query { IfOk result
        (λ s. query_tree s.query ≡ (scope_query [] 1 (query_tree query)).tree) }
    ensures names { IfOk result (λ s. s.names ≡ (scope_query [] 1 (query_tree query)).said) }
{
    let mut query = query;
    let mut walk = LiftState {
        numbers: Numbers::from(alloc, 1),
        lets: Seq::new(alloc),
    };
    lift_query(&mut query, &Scope::nothing(alloc), &mut walk)?;
    Ok(Scoped {
        query,
        names: walk.numbers.said,
    })
}

/// Numbers the variables of a query, tells collections from variables, and puts each subquery that
/// is not the whole right side of a LET into a LET of its own before its clause (AQL fundamentals,
/// Subqueries), or gives the first fault in the order of the text. Every answer of the query that
/// it gives is an answer of the query that it got.
pub fn scope(alloc: Global, query: Query, catalog: &Catalog) -> Result<Scoped, ScopeFault>
    ensures lifted { IfOk result
        (λ s. query_tree s.query ≡ (scope_query [] 1 (query_tree query)).tree) }
    ensures names { IfOk result (λ s. s.names ≡ (scope_query [] 1 (query_tree query)).said) }
    ensures no_fault { IfOk result (λ s. spec.first_fault catalog.now (query_tree query) ≡ None) }
    ensures fault { IfErr result (λ e.
        (e ≡ Memory) ⊎ (spec.first_fault catalog.now (query_tree query) ≡ Some e)) }
    ensures answers { IfOk result (λ s. (db : Database) (out : List Datum)
        → IsAnswer db (query_tree s.query) empty_row out
        → IsAnswer db (query_tree query) empty_row out) }
{
    match first_fault(&query, catalog, alloc)? {
        Some(fault) => Err(fault),
        None => Ok(lift(query, alloc)?),
    }
}
