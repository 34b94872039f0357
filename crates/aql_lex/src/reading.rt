ghost use Rattle.std.specs.Prelude.{◌≡◌, ◌≤◌, ◌⊎◌, ℕ, List, length, All, IfOk, Ok, Err};
ghost use Rattle.aql_lex.specs.declared.kinds.Token.{Token};
ghost use Rattle.aql_lex.specs.declared.faults.LexKind.{LexKind};
ghost use Rattle.aql_lex.specs.declared.faults.LexFault.{LexFault};
ghost use Rattle.aql_lex.specs.Tokens.{IsUnsigned};
ghost use Rattle.aql_lex.specs.Reading.{Lexes, Stops, HasOneReading};

use crate::characters::first_character;
use crate::scans::{Scan, take};
use crate::{LexFault, Token, Tokens};
use aql_value::OutOfMemory;
use std::alloc::Global;

/// The tokens of a query's text of at most 65,536 bytes (AQL fundamentals, Syntax), or the first
/// fault in it with its place. `Memory` may come at any time.
pub fn lex(alloc: Global, text: &str) -> Result<Tokens, LexFault>
    requires { length text.now ≤ 65536 }
    ensures found { IfOk result (Lexes text.now) }
    ensures fault { (place : ℕ) (kind : LexKind)
        → result ≡ Err (LexFault.At place kind) → Stops text.now place kind }

    // A text that has tokens gives them, and one whose reading stops gives that fault.
    ensures tokens { (tokens : List Token) → Lexes text.now tokens
        → (result ≡ Ok tokens) ⊎ (result ≡ Err LexFault.Memory) }
    ensures stops { (place : ℕ) (kind : LexKind) → Stops text.now place kind
        → (result ≡ Err (LexFault.At place kind)) ⊎ (result ≡ Err LexFault.Memory) }

    // No token is empty, and no number is below 0.
    ensures few { IfOk result (λ tokens. length tokens ≤ length text.now) }
    ensures unsigned { IfOk result (All (λ token. IsUnsigned token.kind)) }
{
    let mut tokens = Tokens::new(alloc);
    let mut left = text;
    while let Some((character, inner)) = first_character(left) {
        let start = (text.len() - left.len()) as u32;
        match take(alloc, left, character, inner) {
            Ok(Scan::Separator(rest)) => left = rest,
            Ok(Scan::Token(kind, rest)) => {
                let end = (text.len() - rest.len()) as u32;
                tokens.push(Token { start, end, kind })?;
                left = rest;
            }
            Ok(Scan::Fault(kind, at)) => {
                let place = (text.len() - at.len()) as u32;
                return Err(LexFault::At { place, kind });
            }
            Err(OutOfMemory) => return Err(LexFault::Memory),
        }
    }
    Ok(tokens)
}

/// A text is read in one way: no two lists of tokens, and no two faults, are its reading.
pub fn text_has_one_reading()
    ensures { HasOneReading }
{}
