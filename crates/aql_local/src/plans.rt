//! A run of a plan.

ghost use Rattle.std.specs.Prelude.{◌≡◌, ◌≤◌, IfOk};
ghost use Rattle.aql_net.specs.Logs.{picks_in};
ghost use Rattle.aql_net.specs.Traffic.{no_traffic};
ghost use Rattle.aql_plan.specs.View.{plan_tree};
ghost use Rattle.aql_engine.specs.OperatorsOf.{operators_of};
ghost use Rattle.aql_shard.specs.Datasets.{stock};
ghost use Rattle.aql_engine.specs.EachFits.{FewShards};
ghost use Rattle.aql_engine.specs.Engine.{CanRun, IsRunOver, OwnCounted};
ghost use Rattle.aql_engine.specs.Run.{PickedBy};
ghost use Rattle.aql_local.specs.inner.Running.{HasRun};

use crate::World;
use crate::building::{PlanExecutor, UnlinkedExecutor, tree_of};
use crate::fragments::ShardExecutor;
use crate::gathers::OfNode;
use crate::nodes::UnlinkedNode;
use crate::reach::recall_few_shards;
use crate::results::results_of;
use crate::shard_nodes::{OnShard, UnlinkedOnShard, UnlinkedShardExecutor};
use aql_block::{Row, Tally};
use aql_doc::Catalog;
use aql_engine::{Ran, Tree, run_feed};
use aql_exec::{Delivers, Picker};
use aql_plan::Plan;
use aql_shard::{Servers, split};
use aql_value::OutOfMemory;
use std::alloc::Global;
use std::mem;

/// Runs a plan from the empty row over the documents of the servers, in steps of at most `batch`
/// rows, with messages delivered in the order that the picker picks.
pub fn run_plan<P: Picker>(
    alloc: Global,
    plan: Plan,
    servers: &mut Servers,
    picker: &mut P,
    batch: u32,
) -> Result<Ran, OutOfMemory>
    requires plan { CanRun (stock servers.old) plan }
    requires batch { (1 ≤ batch) × (batch ≤ 10000) }
    ensures stock { stock servers.new ≡ stock servers.old }
    ensures run { IfOk result (λ ran. (ran.plan ≡ plan) × (ran.batch ≡ batch)
        × IsRunOver (stock servers.old) ran) }
    ensures counted { IfOk result
        (λ ran. OwnCounted servers.old.counts servers.new.counts ran.tally) }
    ensures picked { IfOk result
        (λ ran. PickedBy P.picks picker.old (picks_in ran.log) picker.new) }
{
    run_on::<UnlinkedOnShard, P>(alloc, plan, servers, picker, batch)
}

// The same by executors of any such type of nodes that own no link, on shards. Each of these
// functions names one type of executors, since a proof looks into those that a call is made at.
fn run_on<U: UnlinkedShardExecutor, P: Picker>(
    alloc: Global,
    plan: Plan,
    servers: &mut Servers,
    picker: &mut P,
    batch: u32,
) -> Result<Ran, OutOfMemory>
    requires plan { CanRun (stock servers.old) plan }
    requires batch { (1 ≤ batch) × (batch ≤ 10000) }
    ensures { HasRun P.picks plan batch servers.old servers.new picker.old picker.new result }
{
    run_on_shards::<OnShard<U>, P>(alloc, plan, servers, picker, batch)
}

// The same by executors of any such type on shards.
fn run_on_shards<X: ShardExecutor, P: Picker>(
    alloc: Global,
    plan: Plan,
    servers: &mut Servers,
    picker: &mut P,
    batch: u32,
) -> Result<Ran, OutOfMemory>
    requires plan { CanRun (stock servers.old) plan }
    requires batch { (1 ≤ batch) × (batch ≤ 10000) }
    ensures { HasRun P.picks plan batch servers.old servers.new picker.old picker.new result }
{
    run_by::<UnlinkedNode, X, P>(alloc, plan, servers, picker, batch)
}

// The same by executors of any such types of nodes that own no link, and of nodes on shards.
fn run_by<U: UnlinkedExecutor, X: ShardExecutor, P: Picker>(
    alloc: Global,
    plan: Plan,
    servers: &mut Servers,
    picker: &mut P,
    batch: u32,
) -> Result<Ran, OutOfMemory>
    requires plan { CanRun (stock servers.old) plan }
    requires batch { (1 ≤ batch) × (batch ≤ 10000) }
    ensures { HasRun P.picks plan batch servers.old servers.new picker.old picker.new result }
{
    run_with::<OfNode<U, X>, P>(alloc, plan, servers, picker, batch)
}

// The same by executors of any such type.
fn run_with<X: PlanExecutor, P: Picker>(
    alloc: Global,
    plan: Plan,
    servers: &mut Servers,
    picker: &mut P,
    batch: u32,
) -> Result<Ran, OutOfMemory>
    requires plan { CanRun (stock servers.old) plan }
    requires batch { (1 ≤ batch) × (batch ≤ 10000) }
    ensures stock { stock servers.new ≡ stock servers.old }
    ensures run { IfOk result (λ ran. (ran.plan ≡ plan) × (ran.batch ≡ batch)
        × IsRunOver (stock servers.old) ran) }
    ensures counted { IfOk result
        (λ ran. OwnCounted servers.old.counts servers.new.counts ran.tally) }
    ensures picked { IfOk result
        (λ ran. PickedBy P.picks picker.old (picks_in ran.log) picker.new) }
{
    recall_few_shards(servers);
    let mut tree: Tree<X> = tree_of(alloc, servers, &plan)?;
    let none = split(alloc, Catalog::new(alloc), 0)?;
    let mut world = World::new(alloc, mem::replace(servers, none), batch);
    let ran = run_operators(alloc, plan, &mut tree, &mut world, picker, batch);
    *servers = world.into_servers();
    ran
}

// Runs a feed, which runs the operators of a plan, from the empty row.
fn run_operators<F: Delivers<World>, P: Picker>(
    alloc: Global,
    plan: Plan,
    feed: &mut F,
    world: &mut World,
    picker: &mut P,
    batch: u32,
) -> Result<Ran, OutOfMemory>
    requires feed { F.plan feed.old
        ≡ operators_of (stock world.old.servers).facts (plan_tree plan) }
    requires plan { CanRun (stock world.old.servers) plan }
    requires few { FewShards (stock world.old.servers).facts }
    requires batch { (1 ≤ batch) × (batch ≤ 10000) }
    requires fresh { world.old.net ≡ no_traffic batch }
    ensures stock { stock world.new.servers ≡ stock world.old.servers }
    ensures run { IfOk result (λ ran. (ran.plan ≡ plan) × (ran.batch ≡ batch)
        × IsRunOver (stock world.old.servers) ran) }
    ensures counted { IfOk result
        (λ ran. OwnCounted world.old.servers.counts world.new.servers.counts ran.tally) }
    ensures picked { IfOk result
        (λ ran. PickedBy P.picks picker.old (picks_in ran.log) picker.new) }
{
    let mut tally = Tally::new();
    let start = Row::new(alloc);
    let blocks = run_feed(alloc, feed, &start, world, picker, batch, &mut tally)?;
    let log = world.take_log(alloc);
    let values = results_of(alloc, blocks)?;
    Ok(Ran {
        plan,
        batch,
        values,
        log,
        tally,
    })
}
