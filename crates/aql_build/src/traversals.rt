//! The node of a traversal.

ghost use Rattle.std.specs.Prelude.{true, ◌≡◌, ◌<◌, ◌^◌, ◌++◌, ◌∷◌, IfOk, map, length, filter, not, bytes_eq, option_map, option_to_list};
ghost use Rattle.std.specs.List.{AllByRecursion, list_any};
ghost use Rattle.aql_value.specs.declared.lists.CollNo.{CollNo};
ghost use Rattle.aql_tree.specs.View.{traversal_part, traversal_clause};
ghost use Rattle.aql_meaning.specs.Visible.{each_once};
ghost use Rattle.aql_meaning.specs.Numbered.{IsNumber};
ghost use Rattle.aql_plan.specs.View.{plan_tree};
ghost use Rattle.aql_plan.specs.FirstPlan.{coll_number, after_clause};
ghost use Rattle.aql_build.specs.Resolved.{traversal_vars};

use crate::clauses::{collection_number, maybe_number, number, take};
use aql_plan::{Facts, Node, Plan, TraversalOptions};
use aql_tree::Traversal;
use aql_value::{CollNos, OutOfMemory, Seq, Text};
use std::alloc::Global;

fn is_among(names: &[Text], name: &str) -> bool
    ensures { result ≡ list_any (λ n. bytes_eq n name.now) names.now }
{
    names.iter().any(|other| other.as_str() == name)
}

// The numbers of collections; one that is named again counts the first time.
fn collection_numbers(alloc: Global, names: &[Text], facts: &Facts) -> Result<CollNos, OutOfMemory>
    requires { length facts.now.collections < 2 ^ 32 }
    ensures { IfOk result (λ ns. map (λ (c : CollNo). c.0) ns
        ≡ map (coll_number facts.now) (each_once names.now)) }
{
    let mut numbers = Seq::new(alloc);
    for (i, name) in names.iter().enumerate() {
        if !is_among(&names[..i], name.as_str()) {
            numbers.push(collection_number(name, facts))?;
        }
    }
    Ok(numbers)
}

/// FOR over paths. It has no conditions that could be split.
pub fn paths(
    traversal: &mut Traversal,
    below: Plan,
    alloc: Global,
    facts: &Facts,
) -> Result<Plan, OutOfMemory>
    requires few { length facts.now.collections < 2 ^ 32 }
    requires vars { AllByRecursion IsNumber (traversal_vars (traversal_part traversal.old).0) }
    ensures { IfOk result (λ p. plan_tree p ≡ after_clause facts.now true (plan_tree below)
        (traversal_clause (traversal_part traversal.old))) }
{
    let collections = collection_numbers(alloc, traversal.collections.as_slice(), facts)?;
    let node = Node::Traversal {
        vertex: number(&traversal.vertex),
        edge: maybe_number(&traversal.edge),
        path: maybe_number(&traversal.path),
        min: traversal.min,
        max: traversal.max,
        direction: traversal.direction,
        start: take(&mut traversal.start),
        collections,
        prune: traversal.prune.take(),
        options: TraversalOptions {
            edges: traversal.options.edges,
            vertices: traversal.options.vertices,
            bfs: traversal.options.bfs,
        },
        filter: None,
    };
    node.over(alloc, below)
}
