//! From a loaded script to what is printed of it.

ghost use Rattle.std.specs.Prelude.{◌≡◌, ◌≢◌, ◌⊎◌, ◌≤◌, true, [], List, ℕ, IfOk, OnOk, IfErr};
ghost use Rattle.aql_plan.specs.View.{plan_tree};
ghost use Rattle.aql_show.specs.PlanText.{plan_text};
ghost use Rattle.aql_shard.specs.Datasets.{stock};
ghost use Rattle.aql_engine.specs.Engine.{CanRun};
ghost use Rattle.aql_top.specs.Forms.{HasQuery};
ghost use Rattle.aql_top.specs.Output.{IsOutput, run_text};
ghost use Rattle.aql_top.specs.inner.Ready.{Added};
ghost use Rattle.aql_top.specs.Faults.{HasNoLines};
ghost use Rattle.aql_top.specs.declared.faults.RunFault.TheVariants.{Memory};

use crate::faults::RunFault;
use crate::planning::{Planned, plan_query};
use crate::printing::run_text;
use aql_engine::Engine;
use aql_net::Schedule;
use aql_opt::Optimised;
use aql_options::Settings;
use aql_plan::Plan;
use aql_script::Loaded;
use aql_shard::Servers;
use aql_show::plan_text;
use aql_value::OutOfMemory;
use std::alloc::Global;
use std::mem;

/// What is printed of a script: the text of the plan that is chosen for its query, or what the run
/// of this plan by the engine gives; or the fault where there is none.
pub(crate) fn output<G: Engine<Schedule>>(
    alloc: Global,
    script: Loaded,
    settings: &Settings,
    engine: &mut G,
) -> Result<Vec<u8>, RunFault>
    requires batch { (1 ≤ settings.now.batch) × (settings.now.batch ≤ 10000) }
    requires servers { settings.now.servers ≤ 16 }
    ensures query { OnOk result (HasQuery script) }
    ensures output { IfOk result (λ text. IsOutput settings.now script
        (G.entries engine.old) (G.entries engine.new) text.items) }
    ensures none { IfErr result (λ fault. HasNoLines script fault) }
    ensures idle { IfErr result (λ fault. fault ≢ Memory → engine.new ≡ engine.old) }
    ensures at_most { (G.entries engine.new ≡ G.entries engine.old)
        ⊎ ((text : List ℕ) × IsOutput settings.now script
        (G.entries engine.old) (G.entries engine.new) text) }
    ensures not_run { settings.now.explain ≡ true → engine.new ≡ engine.old }
{
    let planned = plan_query(alloc, script, settings)?;
    if settings.explain {
        return Ok(explain(alloc, &planned)?);
    }
    let Planned {
        chosen,
        servers,
        ..
    } = planned;
    let Optimised { plan, .. } = chosen;
    Ok(run_on(alloc, servers, plan, settings, engine)?)
}

// The text of a plan.
fn explain(alloc: Global, planned: &Planned) -> Result<Vec<u8>, OutOfMemory>
    ensures { IfOk result (λ text. text.items ≡ plan_text planned.now.names planned.now.facts
        (plan_tree planned.now.chosen.plan) planned.now.chosen.applied planned.now.chosen.cost) }
{
    let Planned {
        chosen,
        names,
        facts,
        ..
    } = planned;
    plan_text(
        alloc,
        &chosen.plan,
        names,
        facts,
        &chosen.applied,
        chosen.cost,
    )
}

// Has the engine run a plan over the documents of servers, and gives what is printed of its entry.
fn run_on<G: Engine<Schedule>>(
    alloc: Global,
    mut servers: Servers,
    plan: Plan,
    settings: &Settings,
    engine: &mut G,
) -> Result<Vec<u8>, OutOfMemory>
    requires batch { (1 ≤ settings.now.batch) × (settings.now.batch ≤ 10000) }
    requires plan { CanRun (stock servers) plan }
    ensures added { IfOk result (λ text. (added : Added settings.now (stock servers) plan
        (G.entries engine.old) (G.entries engine.new))
        × (text.items ≡ run_text settings.now added.adds.ran)) }
    ensures at_most { (G.entries engine.new ≡ G.entries engine.old)
        ⊎ Added settings.now (stock servers) plan (G.entries engine.old) (G.entries engine.new) }
{
    let before = engine.held().len();
    let mut schedule = Schedule::new(settings.schedule);
    engine.run(alloc, plan, &mut servers, &mut schedule, settings.batch)?;
    // the program ends soon, and the system then takes all documents back at once
    mem::forget(servers);
    match engine.held().get(before) {
        Some(ran) => run_text(alloc, settings, ran),
        None => unreachable!(),
    }
}
