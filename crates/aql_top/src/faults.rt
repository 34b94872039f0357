use crate::QueryFault;
use aql_io::WriteFailed;
use aql_script::LoadFault;
use aql_value::OutOfMemory;

/// Why a run ends before all lines of an answer were written.
pub(crate) enum RunFault {
    /// The program does not take the words.
    Words,
    /// A read failed.
    Read,
    /// The script has a fault.
    Script(LoadFault),
    /// The script's query has a fault.
    Query(QueryFault),
    /// A write to the output failed.
    Write,
    /// Memory ran out.
    Memory,
}

impl Drop for RunFault {
    fn drop(self) {
        match self {
            RunFault::Words
            | RunFault::Read
            | RunFault::Script(_)
            | RunFault::Query(_)
            | RunFault::Write
            | RunFault::Memory => {}
        }
    }
}

impl From<LoadFault> for RunFault {
    ghost use Rattle.std.specs.Prelude.{◌≡◌};
    ghost use Rattle.aql_top.specs.Faults.{of_load};

    ghost from_gives = { λ fault given. given ≡ of_load fault };

    fn from(fault: LoadFault) -> RunFault {
        match fault {
            LoadFault::Read => RunFault::Read,
            LoadFault::Memory => RunFault::Memory,
            LoadFault::Line { .. } | LoadFault::Limit(_) => RunFault::Script(fault),
        }
    }
}

impl From<QueryFault> for RunFault {
    ghost use Rattle.std.specs.Prelude.{◌≡◌};
    ghost use Rattle.aql_top.specs.Faults.{of_query};

    ghost from_gives = { λ fault given. given ≡ of_query fault };

    fn from(fault: QueryFault) -> RunFault {
        match &fault {
            QueryFault::Memory => RunFault::Memory,
            _ => RunFault::Query(fault),
        }
    }
}

impl From<WriteFailed> for RunFault {
    ghost use Rattle.std.specs.Prelude.{◌≡◌};
    ghost use Rattle.aql_top.specs.declared.faults.RunFault.TheVariants.{Write};

    ghost from_gives = { λ _ given. given ≡ Write };

    fn from(_: WriteFailed) -> RunFault {
        RunFault::Write
    }
}

impl From<OutOfMemory> for RunFault {
    ghost use Rattle.std.specs.Prelude.{◌≡◌};
    ghost use Rattle.aql_top.specs.declared.faults.RunFault.TheVariants.{Memory};

    ghost from_gives = { λ _ given. given ≡ Memory };

    fn from(_: OutOfMemory) -> RunFault {
        RunFault::Memory
    }
}
