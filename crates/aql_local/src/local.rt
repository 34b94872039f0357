//! The engine that runs plans on this machine.

ghost use Rattle.std.specs.Prelude.{◌≡◌, []};

use crate::plans::run_plan;
use aql_engine::{Engine, Ran, Rans};
use aql_exec::Picker;
use aql_plan::Plan;
use aql_shard::Servers;
use aql_value::{OutOfMemory, Seq};
use std::alloc::Global;

/// An engine that runs plans on this machine, over servers that it models.
#[derive(Drop)]
pub struct Local {
    runs: Rans,
}

impl Local {
    /// With no runs.
    pub fn new(alloc: Global) -> Local
        ensures { result.runs ≡ [] }
    {
        Local {
            runs: Seq::new(alloc),
        }
    }
}

impl<P: Picker> Engine<P> for Local {
    ghost entries = { λ s. s.runs };

    fn run(
        &mut self,
        alloc: Global,
        plan: Plan,
        servers: &mut Servers,
        picker: &mut P,
        batch: u32,
    ) -> Result<(), OutOfMemory> {
        let ran = run_plan(alloc, plan, servers, picker, batch)?;
        self.runs.push(ran)?;
        Ok(())
    }

    fn held(&self) -> &Rans {
        &self.runs
    }
}
