//! The choice of an index for a condition: which bounds the condition's items give to each index of
//! a collection, and which of those with a bound finds the fewest documents.

ghost use Rattle.std.specs.Prelude.{◌≡◌, Some, None, IsTrue, map, drop, slice_get, option_map, IfOk, MatchOption, []};
ghost use Rattle.aql_tree.specs.declared.syntax.Ident.TheVariants.{Num};
ghost use Rattle.aql_tree.specs.View.{tree};
ghost use Rattle.aql_meaning.specs.View.{last_tree, end_tree};
ghost use Rattle.aql_plan.specs.FirstPlan.{conjuncts};
ghost use Rattle.aql_rewrite.specs.ExprView.{lent};
ghost use Rattle.aql_rules_index.specs.Choice.{first_on as spec_first_on, end_of_item, one_or};
ghost use Rattle.aql_rules_index.specs.Choice.{range_between as spec_range_between, last_on as spec_last_on};
ghost use Rattle.aql_rules_index.specs.Choice.{sorted_bounds as spec_sorted_bounds};
ghost use Rattle.aql_rules_index.specs.Choice.{lookup_bounds as spec_lookup_bounds};
ghost use Rattle.aql_rules_index.specs.Choice.{bounds_for as spec_bounds_for};
ghost use Rattle.aql_rules_index.specs.Choice.{has_bound as spec_has_bound, candidates_from};
ghost use Rattle.aql_rules_index.specs.Choice.{items_of as spec_items_of, candidates, guess_of as spec_guess_of};
ghost use Rattle.aql_rules_index.specs.Choice.{is_inclusive as spec_is_inclusive, IsChosen};
ghost use Rattle.aql_rules_index.specs.inner.Views.{item_tree, bounds_tree, candidate_tree, gives_side};
ghost use Rattle.aql_rules_index.specs.inner.Least.{better as spec_better, best_of};

use crate::items::{Item, items_of, parts_of};
use aql_func::BinOp;
use aql_index::guess;
use aql_plan::{Edge, Facts, IndexFact, IndexKind, Last};
use aql_tree::{Expr, Exprs, copy_expr};
use aql_value::{CollNo, OutOfMemory, Seq, Text};
use std::alloc::Global;

/// The bounds of an index: the values of its first attributes, and the bound of the next one.
#[derive(Drop)]
pub(crate) struct Bounds {
    pub equal: Exprs,
    pub last: Last,
}

/// An index, by its number, with bounds.
#[derive(Drop)]
pub(crate) struct Candidate {
    pub index: u32,
    pub bounds: Bounds,
}

// What an item may give to the bounds.
#[derive(Clone, Copy)]
enum Side {
    Equal,
    Element,
    Low,
    High,
}

fn gives(side: Side, op: BinOp) -> bool
    ensures { result ≡ gives_side side op }
{
    match side {
        Side::Equal => matches!(op, BinOp::Eq),
        Side::Element => matches!(op, BinOp::IsIn),
        Side::Low => matches!(op, BinOp::Gt | BinOp::Ge),
        Side::High => matches!(op, BinOp::Lt | BinOp::Le),
    }
}

fn is_inclusive(op: BinOp) -> bool
    ensures { result ≡ spec_is_inclusive op }
{
    matches!(op, BinOp::Ge | BinOp::Le)
}

// The first item on an attribute that gives this side.
fn first_on<'a>(side: Side, name: &Text, items: &[Item<'a>]) -> Option<Item<'a>>
    ensures { option_map item_tree result
        ≡ spec_first_on (gives_side side) name.now (map item_tree items.now) }
{
    for item in items {
        if item.name.as_str() == name.as_str() && gives(side, item.op) {
            return Some(*item);
        }
    }
    None
}

fn end_of(alloc: Global, item: Option<Item<'_>>) -> Result<Option<Edge>, OutOfMemory>
    ensures { IfOk result (λ end. option_map end_tree end
        ≡ option_map end_of_item (option_map item_tree item.entry)) }
{
    match item {
        Some(item) => Ok(Some(Edge {
            expr: copy_expr(alloc, item.other)?,
            inclusive: is_inclusive(item.op),
        })),
        None => Ok(None),
    }
}

fn range_between(low: Option<Edge>, high: Option<Edge>) -> Last
    ensures { last_tree result
        ≡ spec_range_between (option_map end_tree low) (option_map end_tree high) }
{
    match (&low, &high) {
        (None, None) => Last::None,
        _ => Last::Range { low, high },
    }
}

// The elements of an array, where there is an item for them.
fn elements_of(alloc: Global, item: Option<Item<'_>>, other: Last) -> Result<Last, OutOfMemory>
    ensures { IfOk result
        (λ last. last_tree last ≡ one_or (option_map item_tree item.entry) (last_tree other)) }
{
    match item {
        Some(item) => Ok(Last::OneOf(copy_expr(alloc, item.other)?)),
        None => Ok(other),
    }
}

// The bound of the first attribute without an equality.
fn last_on(alloc: Global, name: &Text, items: &[Item<'_>]) -> Result<Last, OutOfMemory>
    ensures { IfOk result
        (λ last. last_tree last ≡ spec_last_on name.now (map item_tree items.now)) }
{
    let low = end_of(alloc, first_on(Side::Low, name, items))?;
    let high = end_of(alloc, first_on(Side::High, name, items))?;
    let range = range_between(low, high);
    let last = elements_of(alloc, first_on(Side::Element, name, items), range)?;
    Ok(last)
}

// The bounds of a sorted index over these attributes.
fn sorted_bounds(alloc: Global, names: &[Text], items: &[Item<'_>]) -> Result<Bounds, OutOfMemory>
    ensures { IfOk result
        (λ bounds. bounds_tree bounds ≡ spec_sorted_bounds names.now (map item_tree items.now)) }
{
    let mut equal = Seq::new(alloc);
    for name in names {
        match first_on(Side::Equal, name, items) {
            Some(item) => equal.push(copy_expr(alloc, item.other)?)?,
            None => {
                let last = last_on(alloc, name, items)?;
                return Ok(Bounds { equal, last });
            }
        }
    }
    Ok(Bounds {
        equal,
        last: Last::None,
    })
}

// The bounds of a lookup, which is by one attribute: an equality, else the elements of an array.
fn lookup_bounds(alloc: Global, names: &[Text], items: &[Item<'_>]) -> Result<Bounds, OutOfMemory>
    ensures { IfOk result
        (λ bounds. bounds_tree bounds ≡ spec_lookup_bounds names.now (map item_tree items.now)) }
{
    let mut equal = Seq::new(alloc);
    let Some((name, _)) = names.split_first() else {
        return Ok(Bounds {
            equal,
            last: Last::None,
        });
    };
    if let Some(item) = first_on(Side::Equal, name, items) {
        equal.push(copy_expr(alloc, item.other)?)?;
        return Ok(Bounds {
            equal,
            last: Last::None,
        });
    }
    let last = elements_of(alloc, first_on(Side::Element, name, items), Last::None)?;
    Ok(Bounds { equal, last })
}

fn bounds_for(alloc: Global, index: &IndexFact, items: &[Item<'_>]) -> Result<Bounds, OutOfMemory>
    ensures { IfOk result (λ bounds. bounds_tree bounds
        ≡ spec_bounds_for index.now.kind index.now.attributes (map item_tree items.now)) }
{
    let names = index.attributes.as_slice();
    match index.kind {
        IndexKind::Sorted => sorted_bounds(alloc, names, items),
        IndexKind::Primary | IndexKind::Edge => lookup_bounds(alloc, names, items),
    }
}

fn has_bound(bounds: &Bounds) -> bool
    ensures { result ≡ spec_has_bound (bounds_tree bounds.now).equal (bounds_tree bounds.now).last }
{
    if bounds.equal.len() != 0 {
        return true;
    }
    !matches!(bounds.last, Last::None)
}

fn guess_of(coll: CollNo, candidate: &Candidate, facts: &Facts) -> u64
    ensures { result ≡ spec_guess_of facts.now coll.0 (candidate_tree candidate.now) }
{
    let bounds = &candidate.bounds;
    guess(
        coll,
        candidate.index,
        bounds.equal.as_slice(),
        &bounds.last,
        facts,
    )
}

// The earlier candidate, unless the later one has a smaller guess.
fn better(coll: CollNo, first: Option<Candidate>, next: Candidate, facts: &Facts) -> Candidate
    ensures { candidate_tree result ≡ spec_better facts.now coll.0
        (option_map candidate_tree first) (candidate_tree next) }
{
    let Some(first) = first else {
        return next;
    };
    if guess_of(coll, &next, facts) < guess_of(coll, &first, facts) {
        return next;
    }
    first
}

// The best of the indexes with a bound. A list with more indexes than there are numbers for them
// does not fit into memory.
fn best_index(
    alloc: Global,
    coll: CollNo,
    indexes: &[IndexFact],
    items: &[Item<'_>],
    facts: &Facts,
) -> Result<Option<Candidate>, OutOfMemory>
    ensures { IfOk result (λ best. option_map candidate_tree best
        ≡ best_of facts.now coll.0 None
        (candidates_from 0 indexes.now (map item_tree items.now))) }
{
    let mut best = None;
    for (place, index) in indexes.iter().enumerate() {
        let bounds = bounds_for(alloc, index, items)?;
        if has_bound(&bounds) {
            let Ok(index) = u32::try_from(place) else {
                return Err(OutOfMemory);
            };
            best = Some(better(coll, best, Candidate { index, bounds }, facts));
        }
    }
    Ok(best)
}

/// The index for a condition on the documents of a collection, with the bounds that the condition's
/// items give to it: of those with a bound or more the one with the least guess, and of equal ones
/// the first. `None` exactly where no index has a bound.
pub(crate) fn choose(
    alloc: Global,
    var: u32,
    coll: CollNo,
    cond: &Expr,
    facts: &Facts,
) -> Result<Option<Candidate>, OutOfMemory>
    ensures { IfOk result (λ chosen. MatchOption chosen
        (candidates facts.now coll.0 (spec_items_of (Num var) (conjuncts (tree cond.now))) ≡ [])
        (λ c. IsChosen facts.now coll.0 (spec_items_of (Num var) (conjuncts (tree cond.now)))
        (candidate_tree c))) }
{
    let Some(known) = facts.collections.get(coll.0 as usize) else {
        return Ok(None);
    };
    let parts = parts_of(alloc, cond)?;
    let items = items_of(alloc, var, parts.as_slice())?;
    let indexes = known.indexes.as_slice();
    let best = best_index(alloc, coll, indexes, items.as_slice(), facts)?;
    Ok(best)
}
