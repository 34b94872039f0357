//! The plan that is chosen for the query of a script.

ghost use Rattle.std.specs.Prelude.{◌≤◌, IfOk, OnOk, IfErr};
ghost use Rattle.aql_top.specs.Forms.{HasQuery};
ghost use Rattle.aql_top.specs.inner.Ready.{IsReady};
ghost use Rattle.aql_top.specs.Faults.{HasNoLines};

use crate::faults::RunFault;
use crate::read_query;
use aql_build::initial_plan;
use aql_build::laws::scoping_gives_it;
use aql_build::limits::text_limits_end;
use aql_opt::{Optimised, optimise};
use aql_options::Settings;
use aql_plan::Facts;
use aql_script::Loaded;
use aql_shard::laws::facts_fit;
use aql_shard::{Servers, split};
use aql_value::Names;
use std::alloc::Global;

/// The plan that is chosen for a query, with the names of its variables, what is known of the
/// collections, and the servers that hold their documents.
#[derive(Drop)]
pub(crate) struct Planned {
    pub(crate) chosen: Optimised,
    pub(crate) names: Names,
    pub(crate) facts: Facts,
    pub(crate) servers: Servers,
}

/// Plans the query of a script, whose documents the servers of the settings take.
#[tactic(auto, using(crate::proofs::Answering::refused))]
pub(crate) fn plan_query(
    alloc: Global,
    script: Loaded,
    settings: &Settings,
) -> Result<Planned, RunFault>
    requires { settings.now.servers ≤ 16 }
    ensures query { OnOk result (HasQuery script) }
    ensures ready { IfOk result (IsReady settings.now script) }
    ensures none { IfErr result (λ fault. HasNoLines script fault) }
{
    let scoped = read_query(alloc, script.query.as_str(), &script.catalog)?;
    script.catalog.recall_limits();
    let Loaded { catalog, query: _ } = script;
    let servers = split(alloc, catalog, settings.servers)?;
    let facts = servers.facts(alloc)?;
    facts_fit();
    scoping_gives_it();
    text_limits_end();
    let plan = initial_plan(alloc, scoped.query, &facts)?;
    let chosen = optimise(alloc, plan, &settings.rules, &facts)?;
    Ok(Planned {
        chosen,
        names: scoped.names,
        facts,
        servers,
    })
}
