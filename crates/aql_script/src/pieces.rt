//! Bytes cut into pieces: lines, words and lists of names.

ghost use Rattle.std.specs.Prelude.{◌≡◌, IfOk, map, option_map};
ghost use Rattle.aql_script.specs.Pieces.{cut_at, pieces, is_blank, words, first_of};

use aql_value::OutOfMemory;
use memchr::memchr;
use std::alloc::Global;

// What stands before and after the first place of a byte.
pub(crate) fn cut_at(at: u8, bytes: &[u8]) -> Option<(&[u8], &[u8])>
    ensures { option_map (λ p. (p.0.now, p.1.now)) result ≡ cut_at at bytes.now }
{
    match memchr(at, bytes) {
        Some(place) => Some((&bytes[..place], &bytes[place + 1..])),
        None => None,
    }
}

// The pieces between the places of a byte.
pub(crate) fn pieces<'a>(
    alloc: Global,
    at: u8,
    bytes: &'a [u8],
) -> Result<Vec<&'a [u8]>, OutOfMemory>
    ensures { IfOk result (λ ps. map (λ p. p.now) ps.items ≡ pieces at bytes.now) }
{
    let found: Vec<&'a [u8]> = bytes.split(|b| *b == at).collect(alloc)?;
    Ok(found)
}

fn is_blank(b: u8) -> bool
    ensures { result ≡ is_blank b }
{
    b == b' ' || b == b'\t'
}

// The words of a line, separated by spaces and tabs.
pub(crate) fn words<'a>(alloc: Global, line: &'a [u8]) -> Result<Vec<&'a [u8]>, OutOfMemory>
    ensures { IfOk result (λ ws. map (λ w. w.now) ws.items ≡ words line.now) }
{
    let pieces = line.split(|b| is_blank(*b));
    let found: Vec<&'a [u8]> = pieces.filter(|word| !word.is_empty()).collect(alloc)?;
    Ok(found)
}

// The first byte that is no blank.
pub(crate) fn first_of(line: &[u8]) -> Option<u8>
    ensures { result ≡ first_of line.now }
{
    line.iter().copied().find(|b| !is_blank(*b))
}
