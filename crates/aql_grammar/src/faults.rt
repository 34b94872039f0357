use aql_value::OutOfMemory;
use std::alloc::{AllocError, AllocFailed};
use thiserror::Error;

/// Why a list of tokens is refused. Where several causes hold, the first of this list is told.
#[derive(Debug, Clone, Copy, PartialEq, Eq, Drop, Error)]
pub enum ParseFault {
    /// More than 64 brackets, ternaries and signs are open at once.
    #[error("nested too deeply")]
    TooDeep,
    /// More than 256 clause words and assignments.
    #[error("too many clauses")]
    TooManyClauses,
    /// The grammar has no tree for the tokens.
    #[error("not in the grammar")]
    NotInGrammar,
    /// A traversal goes deeper than 32 edges.
    #[error("a traversal goes too deep")]
    TraversalTooDeep,
    #[error("out of memory")]
    Memory,
}

impl From<OutOfMemory> for ParseFault {
    ghost use Rattle.std.specs.Prelude.{◌≡◌};
    ghost use Rattle.aql_grammar.specs.declared.faults.ParseFault.TheVariants.{Memory};

    ghost from_gives = { λ _ fault. fault ≡ Memory };

    fn from(_: OutOfMemory) -> ParseFault {
        ParseFault::Memory
    }
}

impl From<AllocError> for ParseFault {
    ghost use Rattle.std.specs.Prelude.{◌≡◌};
    ghost use Rattle.aql_grammar.specs.declared.faults.ParseFault.TheVariants.{Memory};

    ghost from_gives = { λ _ fault. fault ≡ Memory };

    fn from(_: AllocError) -> ParseFault {
        ParseFault::Memory
    }
}

impl<T: Drop> From<AllocFailed<T>> for ParseFault {
    ghost use Rattle.std.specs.Prelude.{◌≡◌};
    ghost use Rattle.aql_grammar.specs.declared.faults.ParseFault.TheVariants.{Memory};

    ghost from_gives = { λ _ fault. fault ≡ Memory };

    fn from(_: AllocFailed<T>) -> ParseFault {
        ParseFault::Memory
    }
}
