//! What runs plans, and keeps what came of each.

ghost use Rattle.std.specs.Prelude.{◌≡◌, ◌≤◌, OnOk, OnErr};
ghost use Rattle.aql_shard.specs.Datasets.{stock};
ghost use Rattle.aql_net.specs.Logs.{picks_in};
ghost use Rattle.aql_engine.specs.Engine.{CanRun, Adds, OwnCounted};
ghost use Rattle.aql_engine.specs.Run.{PickedBy};

use aql_block::Tally;
use aql_exec::Picker;
use aql_net::Log;
use aql_plan::Plan;
use aql_shard::Servers;
use aql_value::{Items, OutOfMemory, Seq};
use std::alloc::Global;

/// What came of a run of a plan: the entry of an engine's list.
#[derive(Drop)]
pub struct Ran {
    /// The plan that was run.
    pub plan: Plan,
    /// How many rows a step of it gave at most.
    pub batch: u32,
    /// The values that it gave, in order.
    pub values: Items,
    /// The messages that were sent and taken on the way.
    pub log: Log,
    /// What was counted on the way.
    pub tally: Tally,
}

/// The runs of an engine, the first one first.
pub type Rans = Seq<Ran>;

/// What runs plans over documents on servers, with messages delivered in the order that a picker
/// picks, and keeps a list of its runs.
pub trait Engine<P: Picker> {
    ghost use Rattle.std.specs.Prelude.{List, [], ◌∷◌, ◌++◌};
    ghost use Rattle.aql_engine.specs.declared.engine.Ran.{Ran};

    /// the runs so far, the first one first
    ghost entries: { Self → List Ran };

    /// Runs a plan from the empty row, in steps of at most `batch` rows, and appends one entry with
    /// the values that it gave. Where memory runs out the list stays as it was.
    fn run(
        &mut self,
        alloc: Global,
        plan: Plan,
        servers: &mut Servers,
        picker: &mut P,
        batch: u32,
    ) -> Result<(), OutOfMemory>
        requires plan { CanRun (stock servers.old) plan }
        requires batch { (1 ≤ batch) × (batch ≤ 10000) }
        ensures ok { OnOk result
            (Adds (stock servers.old) plan batch (entries self.old) (entries self.new)) }
        ensures picked { OnOk result ((ran : Ran) × (entries self.new ≡ entries self.old ++ ran ∷ [])
            × PickedBy P.picks picker.old (picks_in ran.log) picker.new) }
        ensures counted { OnOk result
            ((ran : Ran) × (entries self.new ≡ entries self.old ++ ran ∷ [])
            × OwnCounted servers.old.counts servers.new.counts ran.tally) }
        ensures err { OnErr result (entries self.new ≡ entries self.old) }
        ensures stock { stock servers.new ≡ stock servers.old };

    /// The runs so far. It takes no memory.
    fn held(&self) -> &Rans
        ensures { result.now ≡ entries self.now };
}
