use aql_value::{OutOfMemory, Text};

/// The first fault of a query, in the order of its text.
pub enum ScopeFault {
    /// A name in an expression is no visible variable, or one after KEEP none of the same query.
    UnknownName { name: Text },
    /// A declared name is visible already, or declared earlier in the same clause.
    Redeclared { name: Text },
    /// A name of WITH, a single name after IN or an edge collection is no collection.
    UnknownCollection { name: Text },
    /// There is no such function, or after AGGREGATE no such aggregate.
    UnknownFunction { name: Text },
    /// A function does not take this number of arguments.
    WrongArity { name: Text, given: u32 },
    /// A document collection stands among the edge collections of a traversal.
    NotEdge { name: Text },
    /// A subquery stands within PRUNE, OPTIONS or an inline expression.
    SubqueryNotAllowed,
    /// A depth of a traversal descends (`depth`), or a setting of OPTIONS may not stand there.
    BadOption { name: Text },
    /// Memory ran out.
    Memory,
}

impl From<OutOfMemory> for ScopeFault {
    ghost use Rattle.std.specs.Prelude.{◌≡◌};
    ghost use Rattle.aql_scope.specs.declared.faults.ScopeFault.TheVariants.{Memory};

    ghost from_gives = { λ _ fault. fault ≡ Memory };

    fn from(_: OutOfMemory) -> ScopeFault {
        ScopeFault::Memory
    }
}

impl Drop for ScopeFault {
    fn drop(self) {
        match self {
            ScopeFault::UnknownName { name: _ }
            | ScopeFault::Redeclared { name: _ }
            | ScopeFault::UnknownCollection { name: _ }
            | ScopeFault::UnknownFunction { name: _ }
            | ScopeFault::WrongArity { name: _, given: _ }
            | ScopeFault::NotEdge { name: _ }
            | ScopeFault::SubqueryNotAllowed
            | ScopeFault::BadOption { name: _ }
            | ScopeFault::Memory => {}
        }
    }
}
