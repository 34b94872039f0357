//! The items of a Filter over an Index go that are bounds of the Index, and with the last the
//! Filter.

ghost use Rattle.std.specs.Prelude.{◌≡◌, ◌↔◌, IsTrue, map, option_map, IfOk};
ghost use Rattle.aql_tree.specs.View.{tree};
ghost use Rattle.aql_meaning.specs.Plain.{IsPlain};
ghost use Rattle.aql_meaning.specs.View.{end_tree, last_tree};
ghost use Rattle.aql_plan.specs.View.{plan_tree, expr_trees};
ghost use Rattle.aql_rewrite.specs.ExprView.{lent};
ghost use Rattle.aql_rules_filter.specs.Conditions.{with_more};
ghost use Rattle.aql_rules_index.specs.RemoveFilterCoveredByIndex.{IsLow, IsHigh, IsLast, IsCovered};
ghost use Rattle.aql_rules_index.specs.inner.Covering.{begins_range as spec_begins_range};
ghost use Rattle.aql_rules_index.specs.inner.Covering.{ends_range as spec_ends_range};
ghost use Rattle.aql_rules_index.specs.inner.Covering.{PlainGoes, Sifts, HasPlainFilter, IsChange};
ghost use Rattle.aql_rules_index.specs.inner.Views.{item_tree, read_tree};

use crate::items::{Item, item_of, parts_of};
use crate::readers::{IndexRead, attributes_of, set_cond, whole_index};
use aql_func::BinOp;
use aql_plan::{Edge, Facts, Last, Plan, Uses};
use aql_rewrite::{PartRule, Rule, Swap, same_expr};
use aql_rules_filter::{filter_of, take_filter};
use aql_tree::{Expr, Link, copy_expr};
use aql_value::{OutOfMemory, Seq, Text};
use std::alloc::Global;

// Whether an operator is that of a low end that is inclusive, or is not.
fn begins_range(op: BinOp, inclusive: bool) -> bool
    ensures { result ≡ spec_begins_range op inclusive }
{
    match op {
        BinOp::Ge => inclusive,
        BinOp::Gt => !inclusive,
        _ => false,
    }
}

// The same of a high end.
fn ends_range(op: BinOp, inclusive: bool) -> bool
    ensures { result ≡ spec_ends_range op inclusive }
{
    match op {
        BinOp::Le => inclusive,
        BinOp::Lt => !inclusive,
        _ => false,
    }
}

fn is_low(low: &Option<Edge>, item: Item<'_>) -> bool
    ensures { IsTrue result ↔ (IsPlain (item_tree item.entry).other
        × IsLow (option_map end_tree low.now) (item_tree item.entry)) }
{
    match low {
        Some(end) => begins_range(item.op, end.inclusive) && same_expr(item.other, &end.expr),
        None => false,
    }
}

fn is_high(high: &Option<Edge>, item: Item<'_>) -> bool
    ensures { IsTrue result ↔ (IsPlain (item_tree item.entry).other
        × IsHigh (option_map end_tree high.now) (item_tree item.entry)) }
{
    match high {
        Some(end) => ends_range(item.op, end.inclusive) && same_expr(item.other, &end.expr),
        None => false,
    }
}

// Whether an item is the bound of the attribute that comes after the equalities.
fn is_last(last: &Last, item: Item<'_>) -> bool
    ensures { IsTrue result ↔ (IsPlain (item_tree item.entry).other
        × IsLast (last_tree last.now) (item_tree item.entry)) }
{
    match last {
        Last::None => false,
        Last::OneOf(list) => matches!(item.op, BinOp::IsIn) && same_expr(item.other, list),
        Last::Range { low, high } => is_low(low, item) || is_high(high, item),
    }
}

// Whether an item is one of the bounds of an index over these attributes.
fn is_covered(names: &[Text], equal: &[Expr], last: &Last, item: Item<'_>) -> bool
    ensures { IsTrue result ↔ (IsPlain (item_tree item.entry).other
        × IsCovered names.now (expr_trees equal.now) (last_tree last.now)
        (item_tree item.entry)) }
{
    let Some((name, more)) = names.split_first() else {
        return false;
    };
    let on_name = item.name.as_str() == name.as_str();
    let Some((expr, rest)) = equal.split_first() else {
        return on_name && is_last(last, item);
    };
    if on_name && matches!(item.op, BinOp::Eq) && same_expr(item.other, expr) {
        return true;
    }
    is_covered(more, rest, last, item)
}

// Whether a part of a condition is one of the bounds of an index over these attributes.
fn is_bound(
    alloc: Global,
    names: &[Text],
    read: IndexRead<'_>,
    part: &Expr,
) -> Result<bool, OutOfMemory>
    ensures { IfOk result (λ answer.
        IsTrue answer ↔ PlainGoes names.now (read_tree read.entry) (tree part.now)) }
{
    match item_of(alloc, read.var, part)? {
        Some(item) => Ok(is_covered(names, read.equal, read.last, item)),
        None => Ok(false),
    }
}

// The parts of a condition that are no bounds.
fn parts_left<'a>(
    alloc: Global,
    names: &[Text],
    read: IndexRead<'_>,
    parts: &[&'a Expr],
) -> Result<Vec<&'a Expr>, OutOfMemory>
    ensures { IfOk result (λ left. Sifts (PlainGoes names.now (read_tree read.entry))
        (map lent parts.now) (map lent left.items)) }
{
    let mut left = Vec::new(alloc);
    for part in parts {
        if !is_bound(alloc, names, read, *part)? {
            left.push(*part)?;
        }
    }
    Ok(left)
}

// Parts as one condition.
fn condition_of(alloc: Global, first: &Expr, more: &[&Expr]) -> Result<Expr, OutOfMemory>
    ensures { IfOk result (λ e. tree e ≡ with_more (tree first.now) (map lent more.now)) }
{
    let first = copy_expr(alloc, first)?;
    if more.len() == 0 {
        return Ok(first);
    }
    let mut rest = Seq::new(alloc);
    for part in more {
        rest.push(Link::new(BinOp::And, copy_expr(alloc, *part)?))?;
    }
    let cond = Expr::chain(alloc, first, rest)?;
    Ok(cond)
}

// What becomes of a Filter.
#[derive(Drop)]
enum Change {
    Stays,
    Shrinks(Expr),
    Goes,
}

fn change_at(alloc: Global, part: &Plan, facts: &Facts) -> Result<Change, OutOfMemory>
    requires { HasPlainFilter (plan_tree part.now) }
    ensures { IfOk result (λ change. IsChange facts.now (plan_tree part.now) change) }
{
    let Some((below, cond)) = filter_of(part) else {
        return Ok(Change::Stays);
    };
    let Some(read) = whole_index(below) else {
        return Ok(Change::Stays);
    };
    let names = attributes_of(facts, read.coll, read.index);
    let all = parts_of(alloc, cond)?;
    let parts = all.as_slice();
    let rest = parts_left(alloc, names, read, parts)?;
    let left = rest.as_slice();
    if left.len() == parts.len() {
        return Ok(Change::Stays);
    }
    match left.split_first() {
        Some((first, more)) => Ok(Change::Shrinks(condition_of(alloc, *first, more)?)),
        None => Ok(Change::Goes),
    }
}

/// The rule remove-filter-covered-by-index.
#[derive(Clone, Copy, Drop)]
pub struct RemoveFilterCoveredByIndex;

impl Rule for RemoveFilterCoveredByIndex {
    ghost use Rattle.std.specs.Prelude.{false};
    ghost use Rattle.aql_rewrite.specs.Sums.{total};
    ghost use Rattle.aql_rules_index.specs.Measures.{condition_size};
    ghost use Rattle.aql_rules_index.specs.RemoveFilterCoveredByIndex.{RemovesCovered};
    ghost use Rattle.aql_rules_index.specs.laws.Covered.{covered_refines};
    ghost use Rattle.aql_rules_index.specs.laws.ItemsRemoved.{covered_keep, covered_fall};

    ghost rewrites = { λ _ facts. RemovesCovered facts };

    ghost fragments = { λ _. false };

    ghost measure = { λ _. total condition_size };

    fn at(
        &self,
        alloc: Global,
        part: &Plan,
        above: &[Uses],
        facts: &Facts,
    ) -> Result<Option<Swap>, OutOfMemory> {
        let mut part = part.copy(alloc)?;
        if self.rewrite(alloc, &mut part, above, facts)? {
            return Ok(Some(Swap { part, rename: None }));
        }
        Ok(None)
    }

    ghost refines = { λ _ facts _ _ us p q r _ h. covered_refines facts us p q r h };

    ghost keeps = { λ _ facts outer away us p q r placed h.
        covered_keep facts outer away us p q r placed h };

    ghost falls = { λ _ facts p q r whole h. covered_fall facts p q r whole h };
}

impl PartRule for RemoveFilterCoveredByIndex {
    ghost use Rattle.std.specs.Prelude.{refl, false};
    ghost use Rattle.aql_rules_index.specs.Measures.{condition_size};
    ghost use Rattle.aql_rules_index.specs.laws.Shrinking.{covered_look, covered_shrink};

    ghost looks = { λ _. false };

    fn rewrite(
        &self,
        alloc: Global,
        part: &mut Plan,
        _above: &[Uses],
        facts: &Facts,
    ) -> Result<bool, OutOfMemory> {
        match change_at(alloc, part, facts)? {
            Change::Stays => Ok(false),
            Change::Shrinks(cond) => {
                set_cond(part, cond);
                Ok(true)
            }
            Change::Goes => {
                take_filter(part);
                Ok(true)
            }
        }
    }

    fn looks_above(&self) -> bool {
        false
    }

    ghost blind = { λ _ e facts us vs p q r h. (covered_look facts us vs p q r h).0 };

    ghost lone = { λ _. refl };

    ghost nameless = { λ _ facts us p q r h. (covered_look facts us us p q r h).1 };

    ghost size = { λ _. condition_size };

    ghost lowers = { λ _ facts us p q r h. covered_shrink facts us p q r h };
}
