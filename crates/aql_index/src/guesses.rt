//! How many documents an index finds for a row, as far as can be told before a query runs.

ghost use Rattle.std.specs.Prelude.{◌≡◌, ◌+◌};
ghost use Rattle.std.specs.Int.{div_ceil};
ghost use Rattle.aql_tree.specs.View.{tree};
ghost use Rattle.aql_meaning.specs.View.{last_tree};
ghost use Rattle.aql_plan.specs.Fits.{exprs_in};
ghost use Rattle.aql_plan.specs.View.{expr_trees};
ghost use Rattle.aql_index.specs.Guess.{documents_in, largest_group, literal_elements, guess};

use aql_meaning::Last;
use aql_plan::{Facts, index_of};
use aql_tree::Expr;
use aql_value::CollNo;

/// How many documents a collection has, as the facts say; 0 where it is not declared.
pub fn documents_in(coll: CollNo, facts: &Facts) -> u64
    ensures { result ≡ documents_in facts.now coll.0 }
{
    match facts.collections.get(coll.0 as usize) {
        Some(collection) => collection.documents,
        None => 0,
    }
}

fn largest_group(coll: CollNo, index: u32, attributes: usize, facts: &Facts) -> u64
    ensures { result ≡ largest_group facts.now coll.0 index attributes }
{
    let Some(known) = index_of(facts, coll, index) else {
        return 0;
    };
    match known.widths.get(attributes) {
        Some(width) => *width,
        None => 0,
    }
}

// How many expressions there are.
#[tactic(auto, using(crate::specs::laws::Counted::counted))]
fn count(exprs: &[Expr]) -> u64
    ensures { result ≡ exprs_in (expr_trees exprs.now) }
{
    exprs.len() as u64
}

/// How many elements an array literal has; of another expression the number given.
pub fn literal_elements(expr: &Expr, other: u64) -> u64
    ensures { result ≡ literal_elements other (tree expr.now) }
{
    match expr {
        Expr::List(items) => count(items.as_slice()),
        _ => other,
    }
}

// The same by the number of equal attributes; `next` is one more.
fn guess_by(coll: CollNo, index: u32, equal: usize, next: usize, last: &Last, facts: &Facts) -> u64
    requires { next ≡ equal + 1 }
    ensures { result ≡ guess facts.now coll.0 index equal (last_tree last.now) }
{
    let found = largest_group(coll, index, equal, facts);
    match last {
        Last::None => {
            if equal == 0 {
                documents_in(coll, facts)
            } else {
                found
            }
        }
        Last::OneOf(list) => {
            let next_group = largest_group(coll, index, next, facts);
            let all = next_group.saturating_mul(literal_elements(list, 10));
            documents_in(coll, facts).min(all)
        }
        Last::Range { low, high } => match (low.is_some(), high.is_some()) {
            (false, false) => found,
            (true, true) => found.div_ceil(4),
            _ => found.div_ceil(2),
        },
    }
}

/// How many documents an index finds for a row between these bounds: the largest group of those that
/// are equal in so many attributes; so many for each element of an array, of which only a literal's
/// are counted; a half of them with one end of a range, rounded up, and a quarter with two. It takes
/// no memory.
pub fn guess(coll: CollNo, index: u32, equal: &[Expr], last: &Last, facts: &Facts) -> u64
    ensures { result ≡ guess facts.now coll.0 index (exprs_in (expr_trees equal.now))
        (last_tree last.now) }
{
    guess_by(coll, index, equal.len(), equal.len() + 1, last, facts)
}
