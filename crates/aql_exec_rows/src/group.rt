//! One group: what is kept of its members, and what comes of them.

ghost use Rattle.std.specs.Prelude.{◌≡◌, ℕ, ◌<◌, List, [], ◌∷◌, ◌++◌, length, map, option_to_list, slice_set, slice_index_or, IfOk, OnOk};
ghost use Rattle.std.specs.List.{All};
ghost use Rattle.aql_value.specs.Datum.{Datum, null};
ghost use Rattle.aql_value.specs.View.{datum_of, datums_in};
ghost use Rattle.aql_func.specs.Arguments.{argument};
ghost use Rattle.aql_meaning.specs.Groups.{GroupedRow};
ghost use Rattle.aql_aggregate.specs.Staged.{Staged};
ghost use Rattle.aql_aggregate.specs.declared.staged.StagedKind.{StagedKind};
ghost use Rattle.aql_exec_rows.specs.GroupStates.{AccumulatesAt, IsGroup, Takes, finished_of, result_of_members};
ghost use Rattle.aql_exec_rows.specs.declared.group.Group.{Group};

use aql_aggregate::{StagedAccumulator, StagedKind};
use aql_value::{Items, OutOfMemory, Value};
use std::alloc::Global;

/// What is kept of the members of a group: what each aggregate keeps, and what INTO took.
#[derive(Drop)]
pub(crate) struct Group {
    accumulators: Vec<StagedAccumulator>,
    taken: Items,
}

/// A group with all its members: its criteria as one array, the values of its aggregates, and what
/// INTO took.
#[derive(Drop)]
pub(crate) struct Finished {
    pub(crate) criteria: Value,
    pub(crate) aggregates: Vec<Value>,
    pub(crate) taken: Items,
}

impl Finished {
    /// Without criteria, aggregates and values of INTO.
    pub(crate) fn empty(alloc: Global) -> Finished
        ensures { finished_of result
            ≡ record { criteria = null; aggregates = []; taken = [] } }
    {
        Finished {
            criteria: Value::Null,
            aggregates: Vec::new(alloc),
            taken: Items::new(alloc),
        }
    }
}

impl Group {
    /// Without members.
    pub(crate) fn new(alloc: Global, kinds: &[StagedKind]) -> Result<Group, OutOfMemory>
        ensures { IfOk result (λ group. IsGroup kinds.now [] [] group) }
    {
        let mut accumulators = Vec::with_capacity(alloc, kinds.len())?;
        for kind in kinds {
            accumulators.push(StagedAccumulator::new(alloc, *kind))?;
        }
        Ok(Group {
            accumulators,
            taken: Items::new(alloc),
        })
    }

    /// Takes one member more: its arguments, and what INTO takes of it.
    pub(crate) fn add(
        &mut self,
        alloc: Global,
        arguments: &[Value],
        taken: Option<Value>,
    ) -> Result<(), OutOfMemory>
        requires { length arguments.now ≡ length self.old.accumulators.items }
        ensures { OnOk result (Takes (datums_in arguments.now)
            (map datum_of (option_to_list taken)) self.old self.new) }
    {
        add_all(alloc, &mut self.accumulators, arguments)?;
        if let Some(value) = taken {
            self.taken.push(value)?;
        }
        Ok(())
    }

    /// What comes of the members, under these criteria.
    pub(crate) fn finish(self, alloc: Global, criteria: Value) -> Result<Finished, OutOfMemory>
        ensures { IfOk result (λ f. (kinds : List StagedKind) (members : List GroupedRow)
            (taken : List Datum) → IsGroup kinds members taken self
            → finished_of f ≡ result_of_members kinds (datum_of criteria) members taken) }
    {
        let Group {
            accumulators,
            taken,
        } = self;
        let mut aggregates = Vec::with_capacity(alloc, accumulators.len())?;
        for accumulator in accumulators {
            aggregates.push(accumulator.finish(alloc)?)?;
        }
        Ok(Finished {
            criteria,
            aggregates,
            taken,
        })
    }
}

// Gives each accumulator the argument at its place.
fn add_all(
    alloc: Global,
    accumulators: &mut [StagedAccumulator],
    arguments: &[Value],
) -> Result<(), OutOfMemory>
    requires { length arguments.now ≡ length accumulators.old }
    ensures kept { OnOk result ((n : ℕ) (kind : Staged) (ts : List Datum)
        → AccumulatesAt accumulators.old n kind ts
        → AccumulatesAt accumulators.new n kind (ts ++ argument (datums_in arguments.now) n ∷ [])) }
    ensures count { length accumulators.new ≡ length accumulators.old }
{
    for (at, argument) in arguments.iter().enumerate() {
        accumulators[at].add(alloc, argument)?;
    }
    Ok(())
}

/// Gives the group at a place one member more.
pub(crate) fn add_member(
    alloc: Global,
    groups: &mut [Group],
    at: usize,
    arguments: &[Value],
    taken: Option<Value>,
) -> Result<(), OutOfMemory>
    requires place { at < length groups.old }
    requires count { All (λ (g : Group). length arguments.now ≡ length g.accumulators.items)
        groups.old }
    ensures added { OnOk result ((g : Group) × (groups.new ≡ slice_set groups.old at g)
        × Takes (datums_in arguments.now) (map datum_of (option_to_list taken))
        (slice_index_or groups.old at g) g) }
    ensures count { length groups.new ≡ length groups.old }
{
    groups[at].add(alloc, arguments, taken)?;
    Ok(())
}
