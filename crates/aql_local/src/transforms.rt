//! The transforms of nodes as one type, so that a proof that names the executors of plans looks into
//! this one alone.

ghost use Rattle.std.specs.Prelude.{refl};
ghost use Rattle.aql_value.specs.View.{datums_in};
ghost use Rattle.aql_tree.specs.declared.syntax.Ident.TheVariants.{Num};
ghost use Rattle.aql_tree.specs.View.{tree};
ghost use Rattle.aql_block.specs.Tables.{rows_of};
ghost use Rattle.aql_exec.specs.Filters.{some_keep};
ghost use Rattle.aql_exec.specs.FirstResults.{some_results};
ghost use Rattle.aql_exec_scan.specs.CollectionScans.{read_by};
ghost use Rattle.aql_exec_scan.specs.Lists.{left_of as elements_left};
ghost use Rattle.aql_exec_scan.specs.laws.Some.{some_index, some_list, some_scan};
ghost use Rattle.aql_exec_graph.specs.InProgress.{held_rows, maybe_left};
ghost use Rattle.aql_exec_graph.specs.laws.Lefts.{some_left as some_paths};
ghost use Rattle.aql_exec_rows.specs.Sorting.{some_left as some_order};
ghost use Rattle.aql_exec_rows.specs.laws.SomeGroups.{some_left as some_groups};

use crate::World;
use aql_block::{Block, Row, Tally};
use aql_exec::{FirstResults, Keep, Transform};
use aql_exec_graph::Paths;
use aql_exec_rows::{GroupRows, Order};
use aql_exec_scan::{Documents, Elements, Found};
use aql_value::OutOfMemory;
use std::alloc::Global;

/// The transform of a node over one input: of FILTER, RETURN DISTINCT, FOR over an array, over a
/// collection, by an index or over paths, of SORT, or of COLLECT.
pub enum NodeTransform {
    Filter(Keep),
    Distinct(FirstResults),
    List(Elements),
    Collection(Documents),
    Index(Found),
    Traversal(Paths),
    Sort(Order),
    Collect(GroupRows),
}

// Written, and not derived, so that a drop on a way out is one call.
impl Drop for NodeTransform {
    fn drop(self) {
        match self {
            NodeTransform::Filter(_)
            | NodeTransform::Distinct(_)
            | NodeTransform::List(_)
            | NodeTransform::Collection(_)
            | NodeTransform::Index(_)
            | NodeTransform::Traversal(_)
            | NodeTransform::Sort(_)
            | NodeTransform::Collect(_) => {}
        }
    }
}

impl Transform<World> for NodeTransform {
    ghost use Rattle.aql_local.specs.inner.Transforms.{on, On, each};

    ghost node = { on ⟦<Keep as Transform<World>>⟧.node
        ⟦<FirstResults as Transform<World>>⟧.node
        ⟦<Elements as Transform<World>>⟧.node
        ⟦<Documents as Transform<World>>⟧.node
        ⟦<Found as Transform<World>>⟧.node
        ⟦<Paths as Transform<World>>⟧.node
        ⟦<Order as Transform<World>>⟧.node
        ⟦<GroupRows as Transform<World>>⟧.node };

    ghost left = { λ s w rows r. On (λ t. ⟦<Keep as Transform<World>>⟧.left t w rows r)
        (λ t. ⟦<FirstResults as Transform<World>>⟧.left t w rows r)
        (λ t. ⟦<Elements as Transform<World>>⟧.left t w rows r)
        (λ t. ⟦<Documents as Transform<World>>⟧.left t w rows r)
        (λ t. ⟦<Found as Transform<World>>⟧.left t w rows r)
        (λ t. ⟦<Paths as Transform<World>>⟧.left t w rows r)
        (λ t. ⟦<Order as Transform<World>>⟧.left t w rows r)
        (λ t. ⟦<GroupRows as Transform<World>>⟧.left t w rows r) s };

    ghost held = { λ s w. on (λ t. ⟦<Keep as Transform<World>>⟧.held t w)
        (λ t. ⟦<FirstResults as Transform<World>>⟧.held t w)
        (λ t. ⟦<Elements as Transform<World>>⟧.held t w)
        (λ t. ⟦<Documents as Transform<World>>⟧.held t w)
        (λ t. ⟦<Found as Transform<World>>⟧.held t w)
        (λ t. ⟦<Paths as Transform<World>>⟧.held t w)
        (λ t. ⟦<Order as Transform<World>>⟧.held t w)
        (λ t. ⟦<GroupRows as Transform<World>>⟧.held t w) s };

    ghost ready = { On ⟦<Keep as Transform<World>>⟧.ready
        ⟦<FirstResults as Transform<World>>⟧.ready
        ⟦<Elements as Transform<World>>⟧.ready
        ⟦<Documents as Transform<World>>⟧.ready
        ⟦<Found as Transform<World>>⟧.ready
        ⟦<Paths as Transform<World>>⟧.ready
        ⟦<Order as Transform<World>>⟧.ready
        ⟦<GroupRows as Transform<World>>⟧.ready };

    ghost closed = { on ⟦<Keep as Transform<World>>⟧.closed
        ⟦<FirstResults as Transform<World>>⟧.closed
        ⟦<Elements as Transform<World>>⟧.closed
        ⟦<Documents as Transform<World>>⟧.closed
        ⟦<Found as Transform<World>>⟧.closed
        ⟦<Paths as Transform<World>>⟧.closed
        ⟦<Order as Transform<World>>⟧.closed
        ⟦<GroupRows as Transform<World>>⟧.closed };

    ghost valid = { λ s w. On (λ t. ⟦<Keep as Transform<World>>⟧.valid t w)
        (λ t. ⟦<FirstResults as Transform<World>>⟧.valid t w)
        (λ t. ⟦<Elements as Transform<World>>⟧.valid t w)
        (λ t. ⟦<Documents as Transform<World>>⟧.valid t w)
        (λ t. ⟦<Found as Transform<World>>⟧.valid t w)
        (λ t. ⟦<Paths as Transform<World>>⟧.valid t w)
        (λ t. ⟦<Order as Transform<World>>⟧.valid t w)
        (λ t. ⟦<GroupRows as Transform<World>>⟧.valid t w) s };

    fn begin(&mut self, alloc: Global, start: &Row) -> Result<(), OutOfMemory> {
        match self {
            NodeTransform::Filter(t) => Transform::<World>::begin(t, alloc, start),
            NodeTransform::Distinct(t) => Transform::<World>::begin(t, alloc, start),
            NodeTransform::List(t) => Transform::<World>::begin(t, alloc, start),
            NodeTransform::Collection(t) => Transform::<World>::begin(t, alloc, start),
            NodeTransform::Index(t) => Transform::<World>::begin(t, alloc, start),
            NodeTransform::Traversal(t) => Transform::<World>::begin(t, alloc, start),
            NodeTransform::Sort(t) => Transform::<World>::begin(t, alloc, start),
            NodeTransform::Collect(t) => Transform::<World>::begin(t, alloc, start),
        }
    }

    fn put(&mut self, alloc: Global, block: Block) -> Result<(), OutOfMemory> {
        match self {
            NodeTransform::Filter(t) => Transform::<World>::put(t, alloc, block),
            NodeTransform::Distinct(t) => Transform::<World>::put(t, alloc, block),
            NodeTransform::List(t) => Transform::<World>::put(t, alloc, block),
            NodeTransform::Collection(t) => Transform::<World>::put(t, alloc, block),
            NodeTransform::Index(t) => Transform::<World>::put(t, alloc, block),
            NodeTransform::Traversal(t) => Transform::<World>::put(t, alloc, block),
            NodeTransform::Sort(t) => Transform::<World>::put(t, alloc, block),
            NodeTransform::Collect(t) => Transform::<World>::put(t, alloc, block),
        }
    }

    fn close(&mut self) {
        match self {
            NodeTransform::Filter(t) => Transform::<World>::close(t),
            NodeTransform::Distinct(t) => Transform::<World>::close(t),
            NodeTransform::List(t) => Transform::<World>::close(t),
            NodeTransform::Collection(t) => Transform::<World>::close(t),
            NodeTransform::Index(t) => Transform::<World>::close(t),
            NodeTransform::Traversal(t) => Transform::<World>::close(t),
            NodeTransform::Sort(t) => Transform::<World>::close(t),
            NodeTransform::Collect(t) => Transform::<World>::close(t),
        }
    }

    fn next(
        &mut self,
        alloc: Global,
        world: &mut World,
        most: u64,
        tally: &mut Tally,
    ) -> Result<Block, OutOfMemory> {
        match self {
            NodeTransform::Filter(t) => t.next(alloc, world, most, tally),
            NodeTransform::Distinct(t) => t.next(alloc, world, most, tally),
            NodeTransform::List(t) => t.next(alloc, world, most, tally),
            NodeTransform::Collection(t) => t.next(alloc, world, most, tally),
            NodeTransform::Index(t) => t.next(alloc, world, most, tally),
            NodeTransform::Traversal(t) => t.next(alloc, world, most, tally),
            NodeTransform::Sort(t) => t.next(alloc, world, most, tally),
            NodeTransform::Collect(t) => t.next(alloc, world, most, tally),
        }
    }

    fn skip(
        &mut self,
        alloc: Global,
        world: &mut World,
        most: u64,
        tally: &mut Tally,
    ) -> Result<u64, OutOfMemory> {
        match self {
            NodeTransform::Filter(t) => t.skip(alloc, world, most, tally),
            NodeTransform::Distinct(t) => t.skip(alloc, world, most, tally),
            NodeTransform::List(t) => t.skip(alloc, world, most, tally),
            NodeTransform::Collection(t) => t.skip(alloc, world, most, tally),
            NodeTransform::Index(t) => t.skip(alloc, world, most, tally),
            NodeTransform::Traversal(t) => t.skip(alloc, world, most, tally),
            NodeTransform::Sort(t) => t.skip(alloc, world, most, tally),
            NodeTransform::Collect(t) => t.skip(alloc, world, most, tally),
        }
    }

    ghost not_handed_on = { each _ (λ _. refl) (λ _. refl) (λ _. refl) (λ _. refl) (λ _. refl)
        (λ _. refl) (λ _. refl) (λ _. refl) };

    ghost some = { each _
        (λ s _ rows _. some_keep (tree s.condition) s.judged (rows_of s.block) rows)
        (λ s _ rows _.
        some_results (tree s.expr) s.made (datums_in s.seen.keys) (rows_of s.block) rows)
        (λ s _ rows _. some_list (Num s.var) (tree s.list) (elements_left s) rows)
        (λ s w rows _. some_scan (read_by w s.reading) s rows)
        (λ s w rows _. some_index w s rows)
        (λ s w rows _. some_paths w s.search (maybe_left w s.search s.walk) (held_rows s) rows)
        (λ s _ rows _. some_order s rows)
        (λ s _ rows is. some_groups s rows is) };
}
