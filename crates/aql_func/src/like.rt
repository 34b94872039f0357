// The operator LIKE.
ghost use Rattle.std.specs.Prelude.{[], ◌+◌, ◌<◌, ◌∷◌, ◌≡◌, ◌≤◌, chars, cond, drop, IfOk, length, List, map};
ghost use Rattle.aql_value.specs.View.{datum_of};
ghost use Rattle.aql_func.specs.Like as spec;
ghost use Rattle.aql_func.specs.inner.Pieces as pieces_spec;
ghost use Rattle.aql_func.specs.inner.Pieces.{ors, piece_of, row_of, shift};

use crate::texts::characters;
use aql_value::{OutOfMemory, Value};
use std::alloc::Global;

// One character, any run of characters, or this character.
#[derive(Clone, Copy)]
pub(crate) enum Piece {
    One,
    Run,
    This(char),
}

fn simple_piece(c: char) -> Piece
    ensures { piece_of result ≡ spec.piece c }
{
    match c {
        '_' => Piece::One,
        '%' => Piece::Run,
        _ => Piece::This(c),
    }
}

// The first piece of a pattern that begins with `c`, and whether it takes a second character.
fn first_piece(c: char, rest: &[char]) -> (Piece, bool)
    ensures piece { spec.pieces (c ∷ rest.now)
        ≡ piece_of result.0 ∷ spec.pieces (drop (cond result.1 1 0) rest.now) }
    ensures within { cond result.1 1 0 ≤ length rest.now }
{
    match rest.split_first() {
        None => (simple_piece(c), false),
        Some((d, _)) => {
            if c == '\\' && (*d == '_' || *d == '%' || *d == '\\') {
                (Piece::This(*d), true)
            } else {
                (simple_piece(c), false)
            }
        }
    }
}

fn pieces(alloc: Global, pattern: &[char]) -> Result<Vec<Piece>, OutOfMemory>
    ensures { IfOk result (λ w. map piece_of w.items ≡ spec.pieces pattern.now) }
{
    let mut out = Vec::new(alloc);
    let mut rest = pattern;
    while let Some((c, after)) = rest.split_first() {
        let (piece, escaped) = first_piece(*c, after);
        out.push(piece)?;
        rest = if escaped { &after[1..] } else { after };
    }
    Ok(out)
}

// Whether the pieces, in order, make up all of the text. Of the pieces from `at` on, `row` says at
// each place of the text whether they make up what stands from there on.
fn fits(alloc: Global, pieces: &[Piece], text: &[char]) -> Result<bool, OutOfMemory>
    ensures { IfOk result (λ b. b ≡ spec.fits (map piece_of pieces.now) text.now) }
{
    let mut row = last_row(alloc, text)?;
    let mut at = pieces.len();
    while at > 0 {
        at -= 1;
        put_before(pieces[at], text, &mut row);
    }
    Ok(row[0])
}

// No piece makes up the empty text alone.
fn last_row(alloc: Global, text: &[char]) -> Result<Vec<bool>, OutOfMemory>
    ensures { IfOk result (λ row. row.items ≡ row_of [] text.now) }
{
    let mut row = Vec::new(alloc);
    for _c in text {
        row.push(false)?;
    }
    row.push(true)?;
    Ok(row)
}

fn put_before(piece: Piece, text: &[char], row: &mut Vec<bool>)
    requires { length row.old.items ≡ length text.now + 1 }
    ensures len { length row.new.items ≡ length row.old.items }
    ensures row { (ps : List spec.Piece) → row.old.items ≡ row_of ps text.now
        → row.new.items ≡ row_of (piece_of piece ∷ ps) text.now }
{
    match piece {
        Piece::Run => put_run(row),
        Piece::One => put_one(piece, text, row),
        Piece::This(_) => put_one(piece, text, row),
    }
}

fn put_run(row: &mut Vec<bool>)
    requires { 0 < length row.old.items }
    ensures { row.new.items ≡ ors row.old.items }
{
    let mut at = row.len() - 1;
    while at > 0 {
        at -= 1;
        let later = row[at + 1];
        row[at] |= later;
    }
}

fn put_one(piece: Piece, text: &[char], row: &mut Vec<bool>)
    requires { length row.old.items ≡ length text.now + 1 }
    ensures { row.new.items ≡ shift (piece_of piece) text.now row.old.items }
{
    for (at, c) in text.iter().enumerate() {
        let later = row[at + 1];
        row[at] = takes(piece, *c) & later;
    }
    row[text.len()] = false;
}

fn takes(piece: Piece, c: char) -> bool
    ensures { result ≡ pieces_spec.takes (piece_of piece) c }
{
    match piece {
        Piece::This(wanted) => c == wanted,
        Piece::One => true,
        Piece::Run => true,
    }
}

pub(crate) fn is_like(alloc: Global, a: &Value, b: &Value) -> Result<bool, OutOfMemory>
    ensures { IfOk result (λ r. r ≡ spec.is_like (datum_of a.now) (datum_of b.now)) }
{
    match a {
        Value::Text(s) => match b {
            Value::Text(pattern) => is_text_like(alloc, s.as_str(), pattern.as_str()),
            _ => Ok(false),
        },
        _ => Ok(false),
    }
}

fn is_text_like(alloc: Global, s: &str, pattern: &str) -> Result<bool, OutOfMemory>
    ensures { IfOk result (λ r. r ≡ spec.fits (spec.pieces (chars pattern.now)) (chars s.now)) }
{
    let pattern = characters(alloc, pattern)?;
    let pieces = pieces(alloc, &pattern)?;
    let text = characters(alloc, s)?;
    fits(alloc, &pieces, &text)
}
