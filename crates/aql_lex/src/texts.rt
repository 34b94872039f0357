ghost use Rattle.std.specs.Prelude.{◌≡◌, ◌≤◌, ◌<◌, ◌∷◌, ◌==◌, true, length, drop, IfOk, IfSome};
ghost use Rattle.std.specs.Prelude.{IsUtf8, option_map, slice_index};
ghost use Rattle.std.specs.Char.{digit_value};
ghost use Rattle.std.specs.Char.Utf16.{is_high_surrogate};
ghost use Rattle.aql_lex.specs.Characters.{is_quote};
ghost use Rattle.aql_lex.specs.Texts.{simple_escape, code_unit, second_half, escape, unicode_escape};
ghost use Rattle.aql_lex.specs.inner.Scans.{Takes, EndsInAscii, Leaves};
ghost use Rattle.std.specs.Option.{SomeIff};

use crate::characters::first_character;
use crate::scans::Scan;
use crate::{LexKind, TokenKind};
use aql_value::{OutOfMemory, Text};
use std::alloc::Global;

fn simple_escape(byte: u8) -> Option<char>
    ensures { result ≡ simple_escape byte }
{
    match byte {
        b'"' | b'\'' | b'/' | b'\\' => Some(char::from(byte)),
        b'b' => Some('\u{8}'),
        b'f' => Some('\u{c}'),
        b'n' => Some('\n'),
        b'r' => Some('\r'),
        b't' => Some('\t'),
        _ => None,
    }
}

fn hex_digit(byte: u8) -> Option<u32>
    ensures value { SomeIff result (digit_value byte < 16) (digit_value byte) }
    ensures ascii { IfSome result (λ n. (n < 16) × (byte < 128)) }
{
    char::from(byte).to_digit(16)
}

// The number that four hexadecimal digits write.
fn code_unit(text: &[u8]) -> Option<u32>
    ensures value { code_unit text.now ≡ option_map (λ unit. (unit, drop 4 text.now)) result }
    ensures small { IfSome result (λ unit. unit < 65536) }
    ensures ascii { IfSome result (λ _. EndsInAscii text.now 4) }
{
    match text {
        [a, b, c, d, ..] => {
            let (a, b) = (hex_digit(*a)?, hex_digit(*b)?);
            let (c, d) = (hex_digit(*c)?, hex_digit(*d)?);
            Some(((a * 16 + b) * 16 + c) * 16 + d)
        }
        _ => None,
    }
}

// After the first half of a pair of surrogates: the character of both halves, if the second half
// stands here, in six bytes.
fn second_half(first: u32, text: &[u8]) -> Option<char>
    requires { is_high_surrogate first ≡ true }
    ensures value { second_half first text.now ≡ option_map (λ c. (c, drop 6 text.now)) result }
    ensures ascii { IfSome result (λ _. EndsInAscii text.now 6) }
{
    match text {
        [b'\\', b'u', digits @ ..] => {
            let second = code_unit(digits)?;
            if second < 0xdc00 || second >= 0xe000 {
                return None;
            }
            char::from_u32(0x10000 + (first - 0xd800) * 0x400 + (second - 0xdc00))
        }
        _ => None,
    }
}

// After `\u`: the character, and in how many bytes it is written.
fn unicode_escape(text: &[u8]) -> Option<(char, usize)>
    ensures value { unicode_escape (code_unit text.now)
        ≡ option_map (λ p. (p.0, drop p.1 text.now)) result }
    ensures ascii { IfSome result (λ p. EndsInAscii text.now p.1) }
{
    let unit = code_unit(text)?;
    if unit < 0xd800 || unit >= 0xe000 {
        return Some((char::from_u32(unit)?, 4));
    }
    if unit >= 0xdc00 {
        return None;
    }
    let (_, rest) = text.split_at(4);
    Some((second_half(unit, rest)?, 10))
}

// After a backslash: the character, and in how many bytes it is written.
fn escape_len(text: &[u8]) -> Option<(char, usize)>
    ensures value { escape text.now ≡ option_map (λ p. (p.0, drop p.1 text.now)) result }
    ensures ascii { IfSome result (λ p. EndsInAscii text.now p.1) }
{
    match text {
        [b'u', unit @ ..] => {
            let (character, len) = unicode_escape(unit)?;
            Some((character, len + 1))
        }
        [byte, ..] => Some((simple_escape(*byte)?, 1)),
        [] => None,
    }
}

// The character that is written after a backslash, and what is left after it.
fn escape(text: &str) -> Option<(char, &str)>
    ensures value { escape text.now ≡ option_map (λ p. (p.0, p.1.now)) result }
    ensures utf8 { IfSome result (λ p. IsUtf8 p.1.now) }
    ensures shorter { IfSome result (λ p. length p.1.now < length text.now) }
{
    let (character, len) = escape_len(text.as_bytes())?;
    let (_, rest) = text.split_at(len);
    Some((character, rest))
}

// The text token or the fault after an opening quote, which `text` begins with.
pub(crate) fn text_scan<'a>(
    alloc: Global,
    text: &'a str,
    quote: char,
    inner: &'a str,
) -> Result<Scan<'a>, OutOfMemory>
    requires quote { is_quote quote ≡ true }
    requires split { text.now ≡ quote ∷ inner.now }
    ensures takes { IfOk result (λ step. Takes text.now step) }
    ensures leaves { IfOk result (λ step. Leaves text.now step) }
{
    let mut value = String::new(alloc);
    let mut left = inner;
    while let Some((character, after)) = first_character(left) {
        if character == quote {
            return Ok(Scan::Token(TokenKind::Text(Text::from_string(value)?), after));
        }
        if character == '\\' {
            match escape(after) {
                Some((meant, rest)) => {
                    value.push(meant)?;
                    left = rest;
                }
                None => return Ok(Scan::Fault(LexKind::BadEscape, left)),
            }
        } else {
            value.push(character)?;
            left = after;
        }
    }
    Ok(Scan::Fault(LexKind::OpenString, text))
}
