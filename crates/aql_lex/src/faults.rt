use aql_value::OutOfMemory;
use std::fmt;

/// What stands in a text where no token can be taken.
#[derive(Debug, Clone, Copy, PartialEq, Eq, Drop)]
pub enum LexKind {
    /// A character that begins no token, or the first backtick of an empty name.
    BadChar,
    /// A text or a quoted name without its end.
    OpenString,
    /// A comment without its `*/`.
    OpenComment,
    /// A backslash that begins no escape, or one half of a pair of surrogates alone.
    BadEscape,
    /// A number with a fraction or an exponent.
    Fraction,
    /// A whole number above 9223372036854775807.
    NumberTooLarge,
}

impl fmt::Display for LexKind {
    ghost use Rattle.std.specs.Prelude.{Some};
    ghost use Rattle.aql_lex.specs.Faults.{lex_text};

    ghost output = { λ kind. Some (lex_text kind) };

    fn fmt<W: fmt::Write>(&self, f: &mut fmt::Formatter<W>) -> fmt::Result {
        f.write_str(match self {
            LexKind::BadChar => "bad character",
            LexKind::OpenString => "open string",
            LexKind::OpenComment => "open comment",
            LexKind::BadEscape => "bad escape",
            LexKind::Fraction => "fraction",
            LexKind::NumberTooLarge => "number too large",
        })
    }
}

/// Why a text gives no tokens: a fault at a place, counted in bytes from 0, or no memory.
#[derive(Debug, Clone, Copy, PartialEq, Eq, Drop)]
pub enum LexFault {
    At { place: u32, kind: LexKind },
    Memory,
}

impl From<OutOfMemory> for LexFault {
    ghost use Rattle.std.specs.Prelude.{◌≡◌};
    ghost use Rattle.aql_lex.specs.declared.faults.LexFault.TheVariants.{Memory};

    ghost from_gives = { λ _ fault. fault ≡ Memory };

    fn from(_: OutOfMemory) -> LexFault {
        LexFault::Memory
    }
}
