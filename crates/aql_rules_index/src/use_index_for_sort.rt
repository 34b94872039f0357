//! A Sort without limit goes where a node that reads for one row can give its documents in the
//! Sort's order by a sorted index.

ghost use Rattle.std.specs.Prelude.{◌≡◌, ◌↔◌, ℕ, drop, IsTrue, Some, None, false, option_map, IfOk, MatchOption};
ghost use Rattle.aql_tree.specs.declared.syntax.Ident.TheVariants.{Num};
ghost use Rattle.aql_tree.specs.Tree.{variable, access, name_then, no_steps};
ghost use Rattle.aql_tree.specs.View.{tree};
ghost use Rattle.aql_meaning.specs.View.{last_tree};
ghost use Rattle.aql_plan.specs.declared.facts.IndexKind.TheVariants.{Sorted};
ghost use Rattle.aql_plan.specs.Plan as spec;
ghost use Rattle.aql_plan.specs.Plan.{top};
ghost use Rattle.aql_plan.specs.View.{node_tree, plan_tree, directions, key_trees};
ghost use Rattle.aql_rules_order.specs.InlineSubqueries.{is_single as spec_is_single};
ghost use Rattle.aql_rules_order.specs.Readers.{Becomes, InputBecomes, is_open_sort, input_of};
ghost use Rattle.aql_rules_index.specs.UseIndexForSort.{IsSorted, is_one_of as spec_is_one_of};
ghost use Rattle.aql_rules_index.specs.UseIndexForSort.{leaves_order as spec_leaves_order};
ghost use Rattle.aql_rules_index.specs.inner.Ordering.{AreAttributes, KeysAreFirst, AllGo};
ghost use Rattle.aql_rules_index.specs.inner.Ordering.{KeysBegin, KeysBeginFirst, MayOrder};
ghost use Rattle.aql_rules_index.specs.inner.Ordering.{OrdersTo, OrdersBy, SortOrders, plan_ordered};
ghost use Rattle.aql_rules_index.specs.inner.Ordering.{ordered};
ghost use Rattle.aql_rules_index.specs.inner.Ordering.{whole_enumeration as spec_whole_enumeration};
ghost use Rattle.aql_rules_index.specs.inner.Readers.{var_and_coll};
ghost use Rattle.aql_rules_index.specs.inner.Views.{read_tree};

use crate::choice::{Bounds, Candidate};
use crate::items::attribute_of;
use crate::readers::{IndexRead, attributes_of, set_index, whole_index};
use aql_plan::{Facts, IndexFact, IndexKind, Last, Node, Plan, Uses, index_of};
use aql_rewrite::{PartRule, Rule, Swap, replace_below};
use aql_rules_order::is_single;
use aql_tree::{Expr, Key};
use aql_value::{CollNo, OutOfMemory, Seq, Text};
use std::alloc::Global;

// ---- keys

// Whether an expression is `x.name`, where x is the variable of this number.
fn is_attribute(var: u32, name: &Text, expr: &Expr) -> bool
    ensures { IsTrue result
        ↔ (tree expr.now ≡ access (variable (Num var)) (name_then name.now no_steps)) }
{
    match attribute_of(var, expr) {
        Some(found) => found.as_str() == name.as_str(),
        None => false,
    }
}

// Whether the keys are so many first ones of these attributes.
fn are_attributes(var: u32, keys: &[Key], names: &[Text]) -> bool
    ensures { IsTrue result ↔ AreAttributes (Num var) (key_trees keys.now) names.now }
{
    let Some((key, more)) = keys.split_first() else {
        return true;
    };
    let Some((name, rest)) = names.split_first() else {
        return false;
    };
    if !is_attribute(var, name, &key.expr) {
        return false;
    }
    are_attributes(var, more, rest)
}

// The same, and one or more.
fn are_first(var: u32, keys: &[Key], names: &[Text]) -> bool
    ensures { IsTrue result ↔ KeysAreFirst (Num var) (key_trees keys.now) names.now }
{
    if keys.len() == 0 {
        return false;
    }
    are_attributes(var, keys, names)
}

// Whether all keys are descending, or all ascending.
fn all_go(descending: bool, keys: &[Key]) -> bool
    ensures { IsTrue result ↔ AllGo descending (directions keys.now) }
{
    let Some((key, more)) = keys.split_first() else {
        return true;
    };
    if key.descending != descending {
        return false;
    }
    all_go(descending, more)
}

// ---- indexes

// The first sorted index of a collection that begins with the keys. A list with more indexes than
// there are numbers for them does not fit into memory.
fn first_index(
    var: u32,
    coll: CollNo,
    keys: &[Key],
    facts: &Facts,
) -> Result<Option<u32>, OutOfMemory>
    ensures { IfOk result (λ found. MatchOption found
        ((n : ℕ) → KeysBegin facts.now coll.0 (Num var) (key_trees keys.now) n → ⊥)
        (λ n. KeysBeginFirst facts.now coll.0 (Num var) (key_trees keys.now) n)) }
{
    let Some(known) = facts.collections.get(coll.0 as usize) else {
        return Ok(None);
    };
    let indexes = known.indexes.as_slice();
    for (place, index) in indexes.iter().enumerate() {
        if begins(var, keys, index) {
            let Ok(number) = u32::try_from(place) else {
                return Err(OutOfMemory);
            };
            return Ok(Some(number));
        }
    }
    Ok(None)
}

// Whether an index is sorted and begins with the keys.
fn begins(var: u32, keys: &[Key], index: &IndexFact) -> bool
    ensures { IsTrue result ↔ ((index.now.kind ≡ Sorted)
        × KeysAreFirst (Num var) (key_trees keys.now) index.now.attributes) }
{
    match index.kind {
        IndexKind::Sorted => are_first(var, keys, index.attributes.as_slice()),
        IndexKind::Primary | IndexKind::Edge => false,
    }
}

fn are_behind(var: u32, keys: &[Key], equal: usize, names: &[Text]) -> bool
    ensures { IsTrue result ↔ KeysAreFirst (Num var) (key_trees keys.now) (drop equal names.now) }
{
    if equal >= names.len() {
        return false;
    }
    are_first(var, keys, &names[equal..])
}

// Whether there is such an index, and it is sorted.
fn is_sorted(coll: CollNo, index: u32, facts: &Facts) -> bool
    ensures { IsTrue result ↔ IsSorted facts.now coll.0 index }
{
    match index_of(facts, coll, index) {
        Some(known) => matches!(known.kind, IndexKind::Sorted),
        None => false,
    }
}

fn is_one_of(last: &Last) -> bool
    ensures { result ≡ spec_is_one_of (last_tree last.now) }
{
    matches!(last, Last::OneOf(_))
}

// Whether an Index may give the order of the keys.
fn may_order(read: IndexRead<'_>, keys: &[Key], facts: &Facts) -> bool
    ensures { IsTrue result ↔ MayOrder facts.now (read_tree read.entry) (key_trees keys.now) }
{
    if read.ordered.is_some() || !is_sorted(read.coll, read.index, facts) || is_one_of(read.last) {
        return false;
    }
    let names = attributes_of(facts, read.coll, read.index);
    are_first(read.var, keys, names) || are_behind(read.var, keys, read.equal.len(), names)
}

// ---- the node at the foot

fn node_whole_enumeration(node: &Node) -> Option<(u32, CollNo)>
    ensures { option_map (λ r. (Num r.0, r.1.0)) result
        ≡ var_and_coll (spec_whole_enumeration (node_tree node.now)) }
{
    match node {
        Node::EnumerateCollection {
            var,
            coll,
            attrs: None,
            ..
        } => Some((*var, *coll)),
        _ => None,
    }
}

// The variable and the collection of an EnumerateCollection that keeps all attributes.
fn whole_enumeration(plan: &Plan) -> Option<(u32, CollNo)>
    ensures { option_map (λ r. (Num r.0, r.1.0)) result
        ≡ var_and_coll (spec_whole_enumeration (top (plan_tree plan.now))) }
{
    match plan {
        Plan::Over { node, .. } => node_whole_enumeration(node),
        _ => None,
    }
}

fn set_node_order(node: &mut Node, descending: bool)
    ensures { node_tree node.new ≡ ordered descending (node_tree node.old) }
{
    if let Node::Index { ordered, .. } = node {
        *ordered = Some(descending);
    }
}

// Has an Index at the top of a plan give its order; any other node stays as it is.
fn set_order(plan: &mut Plan, descending: bool)
    ensures { plan_tree plan.new ≡ plan_ordered descending (plan_tree plan.old) }
{
    if let Plan::Over { node, .. } = plan {
        set_node_order(&mut **node, descending);
    }
}

// Whether a node reads for one row.
fn reads_once(plan: &Plan) -> bool
    ensures { result ≡ spec_is_single (input_of (plan_tree plan.now)) }
{
    match plan.below() {
        Some(below) => is_single(below),
        None => true,
    }
}

// Has the node at the top of a plan give its documents in the order of the keys; `false` exactly
// where it cannot.
fn order_reader(
    alloc: Global,
    plan: &mut Plan,
    keys: &[Key],
    descending: bool,
    facts: &Facts,
) -> Result<bool, OutOfMemory>
    requires { spec_leaves_order (top (plan_tree plan.old)) ≡ false }
    ensures { IfOk result (λ changed. Becomes (OrdersTo facts.now descending (key_trees keys.now))
        (plan_tree plan.old) (plan_tree plan.new) changed) }
{
    if !reads_once(plan) {
        return Ok(false);
    }
    if let Some((var, coll)) = whole_enumeration(plan) {
        let Some(index) = first_index(var, coll, keys, facts)? else {
            return Ok(false);
        };
        let bounds = Bounds {
            equal: Seq::new(alloc),
            last: Last::None,
        };
        set_index(plan, Candidate { index, bounds }, Some(descending));
        return Ok(true);
    }
    let Some(read) = whole_index(plan) else {
        return Ok(false);
    };
    if !may_order(read, keys, facts) {
        return Ok(false);
    }
    set_order(plan, descending);
    Ok(true)
}

// ---- the nodes between

fn node_leaves_order(node: &Node) -> bool
    ensures { result ≡ spec_leaves_order (node_tree node.now) }
{
    matches!(node, Node::Filter { .. } | Node::Calculation { .. })
}

fn leaves_order(plan: &Plan) -> bool
    ensures { result ≡ spec_leaves_order (top (plan_tree plan.now)) }
{
    match plan {
        Plan::Over { node, .. } => node_leaves_order(node),
        _ => false,
    }
}

// The same of the node below those that leave the order.
#[cycle(order)]
fn order_rows(
    alloc: Global,
    plan: &mut Plan,
    keys: &[Key],
    descending: bool,
    facts: &Facts,
) -> Result<bool, OutOfMemory>
    ensures { IfOk result (λ changed. Becomes (OrdersTo facts.now descending (key_trees keys.now))
        (plan_tree plan.old) (plan_tree plan.new) changed) }
{
    if !leaves_order(plan) {
        return order_reader(alloc, plan, keys, descending, facts);
    }
    let changed = order_input(alloc, plan, keys, descending, facts)?;
    Ok(changed)
}

#[cycle(order)]
fn order_input(
    alloc: Global,
    plan: &mut Plan,
    keys: &[Key],
    descending: bool,
    facts: &Facts,
) -> Result<bool, OutOfMemory>
    ensures { IfOk result
        (λ changed. InputBecomes (OrdersTo facts.now descending (key_trees keys.now))
        (plan_tree plan.old) (plan_tree plan.new) changed) }
{
    match plan {
        Plan::Singleton => Ok(false),
        Plan::Over { below, .. } => {
            let changed = order_rows(alloc, &mut **below, keys, descending, facts)?;
            Ok(changed)
        }
        Plan::Subquery { below, .. } => {
            let changed = order_rows(alloc, &mut **below, keys, descending, facts)?;
            Ok(changed)
        }
    }
}

// The same for keys of any directions.
fn order_by(
    alloc: Global,
    plan: &mut Plan,
    keys: &[Key],
    facts: &Facts,
) -> Result<bool, OutOfMemory>
    ensures { IfOk result
        (λ changed. Becomes (OrdersBy facts.now (directions keys.now) (key_trees keys.now))
        (plan_tree plan.old) (plan_tree plan.new) changed) }
{
    let Some((first, _)) = keys.split_first() else {
        return Ok(false);
    };
    let descending = first.descending;
    if !all_go(descending, keys) {
        return Ok(false);
    }
    let changed = order_rows(alloc, plan, keys, descending, facts)?;
    Ok(changed)
}

// ---- the Sort

fn node_open_keys(node: &Node) -> Option<&[Key]>
    ensures { MatchOption result (is_open_sort (node_tree node.now) ≡ false)
        (λ keys. node_tree node.now
        ≡ spec.Sort (directions keys.now) (key_trees keys.now) None) }
{
    match node {
        Node::Sort { keys, limit: None } => Some(keys.as_slice()),
        _ => None,
    }
}

// Has the rows that a Sort without limit takes come in its order; `false` exactly where they cannot,
// or there is no such Sort.
fn order_sorted(alloc: Global, plan: &mut Plan, facts: &Facts) -> Result<bool, OutOfMemory>
    ensures { IfOk result (λ changed. Becomes (SortOrders facts.now)
        (plan_tree plan.old) (plan_tree plan.new) changed) }
{
    match plan {
        Plan::Over { below, node } => match node_open_keys(node) {
            Some(keys) => {
                let changed = order_by(alloc, &mut **below, keys, facts)?;
                Ok(changed)
            }
            None => Ok(false),
        },
        _ => Ok(false),
    }
}

/// The rule use-index-for-sort.
#[derive(Clone, Copy, Drop)]
pub struct UseIndexForSort;

impl Rule for UseIndexForSort {
    ghost use Rattle.std.specs.Prelude.{false};
    ghost use Rattle.aql_plan.specs.Nodes.{weight};
    ghost use Rattle.aql_rules_index.specs.UseIndexForSort.{SortsByIndex};
    ghost use Rattle.aql_rules_index.specs.laws.SortedByIndex.{sorts_refine};
    ghost use Rattle.aql_rules_index.specs.laws.SortReplaced.{sorts_keep, sorts_fall};

    ghost rewrites = { λ _ facts. SortsByIndex facts };

    ghost fragments = { λ _. false };

    ghost measure = { λ _. weight };

    fn at(
        &self,
        alloc: Global,
        part: &Plan,
        above: &[Uses],
        facts: &Facts,
    ) -> Result<Option<Swap>, OutOfMemory> {
        let mut part = part.copy(alloc)?;
        if self.rewrite(alloc, &mut part, above, facts)? {
            return Ok(Some(Swap { part, rename: None }));
        }
        Ok(None)
    }

    ghost refines = { λ _ facts outer away us p q r placed h.
        sorts_refine facts outer away us p q r placed h };

    ghost keeps = { λ _ facts outer away us p q r placed h.
        sorts_keep facts outer away us p q r placed h };

    ghost falls = { λ _ facts p q r whole h. sorts_fall facts p q r whole h };
}

impl PartRule for UseIndexForSort {
    ghost use Rattle.std.specs.Prelude.{refl, false};
    ghost use Rattle.aql_rules_index.specs.Measures.{nothing};
    ghost use Rattle.aql_rules_index.specs.laws.Shrinking.{sorts_look, sorts_shrink};

    ghost looks = { λ _. false };

    fn rewrite(
        &self,
        alloc: Global,
        part: &mut Plan,
        _above: &[Uses],
        facts: &Facts,
    ) -> Result<bool, OutOfMemory> {
        if !order_sorted(alloc, part, facts)? {
            return Ok(false);
        }
        let below = replace_below(part, Plan::Singleton);
        *part = below;
        Ok(true)
    }

    fn looks_above(&self) -> bool {
        false
    }

    ghost blind = { λ _ e facts us vs p q r h. (sorts_look facts us vs p q r h).0 };

    ghost lone = { λ _. refl };

    ghost nameless = { λ _ facts us p q r h. (sorts_look facts us us p q r h).1 };

    ghost size = { λ _. nothing };

    ghost lowers = { λ _ facts us p q r h. sorts_shrink facts us p q r h };
}
