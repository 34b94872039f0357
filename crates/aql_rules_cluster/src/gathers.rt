//! Nodes that read a collection, and what they become in a fragment on all of its shards.

ghost use Rattle.std.specs.Prelude.{◌≡◌, IfOk, map, option_map};
ghost use Rattle.aql_tree.specs.declared.syntax.Ident.TheVariants.{Num};
ghost use Rattle.aql_tree.specs.View.{key_part};
ghost use Rattle.aql_plan.specs.Facts.{attributes_in};
ghost use Rattle.aql_plan.specs.Plan.{top};
ghost use Rattle.aql_plan.specs.View.{node_tree, plan_tree};
ghost use Rattle.aql_rules_cluster.specs.inner.Gathers.{gathering as spec_gathering};
ghost use Rattle.aql_rules_cluster.specs.inner.Gathers.{gathering_by, gathering_tree, key_by};
ghost use Rattle.aql_rules_cluster.specs.inner.Gathers.{IsOnAllShards};

use aql_plan::{Facts, Node, Plan, index_of};
use aql_rewrite::{replace_below, with_below};
use aql_tree::{Expr, Ident, Key, Keys, Step};
use aql_value::{CollNo, OutOfMemory, Seq, Text};
use std::alloc::Global;

/// The collection that a node reads, and the keys of the Gather over its fragment.
#[derive(Drop)]
pub(crate) struct Gathering {
    pub coll: CollNo,
    pub order: Keys,
}

// An attribute of a variable.
fn attribute_key(alloc: Global, var: u32, name: &Text, descending: bool) -> Result<Key, OutOfMemory>
    ensures { IfOk result (λ key. key_part key ≡ key_by (Num var) descending name.now) }
{
    let mut steps = Seq::new(alloc);
    steps.push(Step::Name(name.copy(alloc)?))?;
    let attribute = Expr::access(alloc, Expr::Var(Ident::Num(var)), steps)?;
    Ok(Key::new(attribute, descending))
}

fn attribute_keys(
    alloc: Global,
    var: u32,
    names: &[Text],
    descending: bool,
) -> Result<Keys, OutOfMemory>
    ensures { IfOk result
        (λ keys. map key_part keys ≡ map (key_by (Num var) descending) names.now) }
{
    let mut keys = Seq::new(alloc);
    for name in names {
        keys.push(attribute_key(alloc, var, name, descending)?)?;
    }
    Ok(keys)
}

// The attributes of an index.
fn index_keys(
    alloc: Global,
    var: u32,
    coll: CollNo,
    index: u32,
    descending: bool,
    facts: &Facts,
) -> Result<Keys, OutOfMemory>
    ensures { IfOk result (λ keys. map key_part keys
        ≡ map (key_by (Num var) descending) (attributes_in facts.now coll.0 index)) }
{
    match index_of(facts, coll, index) {
        None => Ok(Seq::new(alloc)),
        Some(known) => attribute_keys(alloc, var, known.attributes.as_slice(), descending),
    }
}

// An Index, in the order of its index or in any order.
fn index_gathering(
    alloc: Global,
    var: u32,
    coll: CollNo,
    index: u32,
    ordered: Option<bool>,
    facts: &Facts,
) -> Result<Gathering, OutOfMemory>
    ensures { IfOk result
        (λ g. gathering_tree g ≡ gathering_by facts.now (Num var) coll.0 index ordered) }
{
    let Some(descending) = ordered else {
        return Ok(Gathering {
            coll,
            order: Seq::new(alloc),
        });
    };
    let order = index_keys(alloc, var, coll, index, descending, facts)?;
    Ok(Gathering { coll, order })
}

fn node_gathering(
    alloc: Global,
    node: &Node,
    facts: &Facts,
) -> Result<Option<Gathering>, OutOfMemory>
    ensures { IfOk result
        (λ g. option_map gathering_tree g ≡ spec_gathering facts.now (node_tree node.now)) }
{
    match node {
        Node::EnumerateCollection { coll, .. } => Ok(Some(Gathering {
            coll: *coll,
            order: Seq::new(alloc),
        })),
        Node::Index {
            var,
            coll,
            index,
            ordered,
            ..
        } => Ok(Some(index_gathering(alloc, *var, *coll, *index, *ordered, facts)?)),
        _ => Ok(None),
    }
}

/// The collection that the top node of a plan reads, and the keys of the Gather over its fragment:
/// those of the index in whose order it reads, or none. `None` exactly where it reads no
/// collection.
pub(crate) fn gathering_of(
    alloc: Global,
    plan: &Plan,
    facts: &Facts,
) -> Result<Option<Gathering>, OutOfMemory>
    ensures { IfOk result
        (λ g. option_map gathering_tree g ≡ spec_gathering facts.now (top (plan_tree plan.now))) }
{
    match plan {
        Plan::Over { node, .. } => node_gathering(alloc, node, facts),
        _ => Ok(None),
    }
}

/// The top node of a plan over its input, in a fragment on all shards.
pub(crate) fn on_all_shards(
    alloc: Global,
    plan: Plan,
    gathering: Gathering,
) -> Result<Plan, OutOfMemory>
    ensures { IfOk result
        (λ q. IsOnAllShards (gathering_tree gathering) (plan_tree plan) (plan_tree q)) }
{
    let Gathering { coll, order } = gathering;
    let mut reader = plan;
    let below = replace_below(&mut reader, Plan::Singleton);
    let foot = Node::Scatter { coll, only: None }.over(alloc, below)?;
    let sent = Node::Remote.over(alloc, foot)?;
    let back = Node::Remote.over(alloc, with_below(reader, sent))?;
    Node::Gather { order }.over(alloc, back)
}
