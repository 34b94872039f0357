use aql_lex::{LexFault, LexKind};
use aql_parse::ParseFault;
use aql_scope::ScopeFault;

/// Why a text gives no query. Where several causes hold, the first of this list is told.
pub enum QueryFault {
    /// The text has more than 65,536 bytes.
    TooLong,
    /// At this place, counted in bytes from 0, no token can be taken.
    Lexical { place: u32, kind: LexKind },
    /// More than 64 brackets, ternaries and signs are open at once.
    TooDeep,
    /// There are more than 256 clause words and assignments.
    TooManyClauses,
    /// The grammar has no query with these tokens.
    NotInGrammar,
    /// A traversal goes deeper than 32 edges.
    TraversalTooDeep,
    /// A name, a number of arguments, a subquery or a setting that may not stand where it does; the
    /// first in the order of the text.
    Scope(ScopeFault),
    /// Memory ran out.
    Memory,
}

impl Drop for QueryFault {
    fn drop(self) {
        match self {
            QueryFault::TooLong
            | QueryFault::Lexical { place: _, kind: _ }
            | QueryFault::TooDeep
            | QueryFault::TooManyClauses
            | QueryFault::NotInGrammar
            | QueryFault::TraversalTooDeep
            | QueryFault::Scope(_)
            | QueryFault::Memory => {}
        }
    }
}

impl From<LexFault> for QueryFault {
    ghost use Rattle.std.specs.Prelude.{◌≡◌};
    ghost use Rattle.aql_top.specs.Causes.{of_lex};

    ghost from_gives = { λ fault given. given ≡ of_lex fault };

    fn from(fault: LexFault) -> QueryFault {
        match fault {
            LexFault::At { place, kind } => QueryFault::Lexical { place, kind },
            LexFault::Memory => QueryFault::Memory,
        }
    }
}

impl From<ParseFault> for QueryFault {
    ghost use Rattle.std.specs.Prelude.{◌≡◌};
    ghost use Rattle.aql_top.specs.Causes.{of_parse};

    ghost from_gives = { λ fault given. given ≡ of_parse fault };

    fn from(fault: ParseFault) -> QueryFault {
        match fault {
            ParseFault::TooDeep => QueryFault::TooDeep,
            ParseFault::TooManyClauses => QueryFault::TooManyClauses,
            ParseFault::NotInGrammar => QueryFault::NotInGrammar,
            ParseFault::TraversalTooDeep => QueryFault::TraversalTooDeep,
            ParseFault::Memory => QueryFault::Memory,
        }
    }
}

impl From<ScopeFault> for QueryFault {
    ghost use Rattle.std.specs.Prelude.{◌≡◌};
    ghost use Rattle.aql_top.specs.Causes.{of_scope};

    ghost from_gives = { λ fault given. given ≡ of_scope fault };

    fn from(fault: ScopeFault) -> QueryFault {
        match &fault {
            ScopeFault::Memory => QueryFault::Memory,
            _ => QueryFault::Scope(fault),
        }
    }
}
