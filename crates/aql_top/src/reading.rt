ghost use Rattle.std.specs.Prelude.{◌≡◌, ◌⊎◌, ◌<◌, ◌≤◌, length, MatchBool, List, None, IfOk, IfErr, Err, IsOkUnless};
ghost use Rattle.aql_value.specs.Datum.{Datum};
ghost use Rattle.aql_value.specs.Database.{Database};
ghost use Rattle.aql_tree.specs.Tree.{QueryTree};
ghost use Rattle.aql_tree.specs.View.{query_tree};
ghost use Rattle.aql_meaning.specs.Row.{empty_row};
ghost use Rattle.aql_meaning.specs.Meaning.{IsAnswer};
ghost use Rattle.aql_scope.specs.Faults.{first_fault};
ghost use Rattle.aql_top.specs.declared.query_faults.QueryFault.{QueryFault};
ghost use Rattle.aql_top.specs.Reading.{IsWritten, IsRefused, Refuses, IsScoped};

use crate::QueryFault;
use aql_doc::Catalog;
use aql_lex::lex;
use aql_parse::parse;
use aql_scope::{Scoped, scope};
use aql_tree::Query;
use std::alloc::Global;

/// The most bytes of a query.
const QUERY_BYTES: usize = 65_536;

fn is_too_long(text: &str) -> bool
    ensures { MatchBool result (65536 < length text.now) (length text.now ≤ 65536) }
{
    text.len() > QUERY_BYTES
}

// The query that a text spells.
fn query_in(alloc: Global, text: &str) -> Result<Query, QueryFault>
    ensures query { IfOk result (λ q. IsWritten text.now (query_tree q)) }
    ensures fault { IfErr result (λ e. (e ≡ QueryFault.Memory) ⊎ IsRefused text.now e) }
{
    if is_too_long(text) {
        return Err(QueryFault::TooLong);
    }
    let tokens = lex(alloc, text)?;
    Ok(parse(alloc, &tokens)?)
}

// The scoped query, or the first cause of a refusal.
fn judge(alloc: Global, text: &str, catalog: &Catalog) -> Result<Scoped, QueryFault>
    ensures query { IfOk result (λ s. IsScoped catalog.now text.now (query_tree s.query) s.names) }
    ensures answers { IfOk result (λ s. (q : QueryTree) × (IsWritten text.now q
        × ((db : Database) (out : List Datum)
        → IsAnswer db (query_tree s.query) empty_row out → IsAnswer db q empty_row out))) }
    ensures fault { IfErr result (λ e.
        (e ≡ QueryFault.Memory) ⊎ Refuses catalog.now text.now e) }
{
    let query = query_in(alloc, text)?;
    Ok(scope(alloc, query, catalog)?)
}

/// The scoped query of a text (AQL fundamentals; High-level operations), or the first cause of a
/// refusal: the text has at most 65,536 bytes, then tokens, then a tree within the limits of
/// `parse`, and then the names of this tree are looked up among its variables and the collections
/// of `catalog`. `Memory` may come at any time.
pub fn read_query(alloc: Global, text: &str, catalog: &Catalog) -> Result<Scoped, QueryFault>
    // What is given is the text's query, scoped.
    ensures query { IfOk result (λ s. IsScoped catalog.now text.now (query_tree s.query) s.names) }
    ensures answers { IfOk result (λ s. (q : QueryTree) → IsWritten text.now q
        → (db : Database) (out : List Datum)
        → IsAnswer db (query_tree s.query) empty_row out → IsAnswer db q empty_row out) }
    ensures fault { IfErr result (λ e.
        (e ≡ QueryFault.Memory) ⊎ Refuses catalog.now text.now e) }

    // A text with a query and no fault is not refused, and one with a fault is refused with it.
    ensures only_query { (q : QueryTree) → IsWritten text.now q → first_fault catalog.now q ≡ None
        → IsOkUnless result QueryFault.Memory }
    ensures only_fault { (fault : QueryFault) → Refuses catalog.now text.now fault
        → (result ≡ Err fault) ⊎ (result ≡ Err QueryFault.Memory) }
{
    judge(alloc, text, catalog)
}
