ghost use Rattle.std.specs.Prelude.{◌≡◌, ◌<◌, ◌∷◌, ◌++◌, true, false, length, IfOk, IfSome, IfNone};
ghost use Rattle.std.specs.Prelude.{MatchOption, encode_utf8, IsUtf8};
ghost use Rattle.aql_lex.specs.declared.vocabulary.Keyword.{Keyword};
ghost use Rattle.aql_lex.specs.Characters.{begins, backtick, is_letter};
ghost use Rattle.aql_lex.specs.Numbers.{begins_digit};
ghost use Rattle.aql_lex.specs.Vocabulary.{name_of, IsReserved, spelling_of};
ghost use Rattle.aql_lex.specs.inner.Scans.{Takes, Leaves, begins_comment, is_other, lines_of};
ghost use Rattle.aql_lex.specs.inner.Scans.{IsTable, longer_first, NoSymbol, IsLongestSymbol};

use crate::characters::{digits_len, is_blank, is_fraction, is_letter, is_quote, word_len};
use crate::texts::text_scan;
use crate::vocabulary::{KEYWORDS, SYMBOLS};
use crate::{Keyword, LexKind, Symbol, TokenKind};
use aql_value::{OutOfMemory, Text};
use std::alloc::Global;

// What stands at the front of a text, and what is left after it; of a fault, what is left from
// its place on.
#[derive(Drop)]
pub(crate) enum Scan<'a> {
    Separator(&'a str),
    Fault(LexKind, &'a str),
    Token(TokenKind, &'a str),
}

// The keyword that a word is by the table of them, in any letter case.
fn keyword_in(lines: &[(&str, Keyword)], word: &str) -> Option<Keyword>
    requires { IsTable name_of (lines_of lines.now) }
    ensures { MatchOption result ((keyword : Keyword) → IsReserved word.now keyword → ⊥)
        (IsReserved word.now) }
{
    for (name, keyword) in lines {
        if name.eq_ignore_ascii_case(word) {
            return Some(*keyword);
        }
    }
    None
}

/// The keyword that a word is, in any letter case.
pub fn keyword(word: &str) -> Option<Keyword>
    ensures { MatchOption result ((keyword : Keyword) → IsReserved word.now keyword → ⊥)
        (IsReserved word.now) }
{
    keyword_in(&KEYWORDS, word)
}

// The longest word, which may be a keyword.
fn word<'a>(alloc: Global, text: &'a str) -> Result<Scan<'a>, OutOfMemory>
    requires { begins is_letter text.now ≡ true }
    ensures takes { IfOk result (λ step. Takes text.now step) }
    ensures leaves { IfOk result (λ step. Leaves text.now step) }
{
    let (word, rest) = text.split_at(word_len(text.as_bytes()));
    let kind = match keyword(word) {
        Some(keyword) => TokenKind::Keyword(keyword),
        None => TokenKind::Word(Text::new(alloc, word)?),
    };
    Ok(Scan::Token(kind, rest))
}

// The longest number, or its fault.
fn number<'a>(text: &'a str) -> Scan<'a>
    requires { begins_digit text.now ≡ true }
    ensures takes { Takes text.now result }
    ensures leaves { Leaves text.now result }
{
    let (digits, rest) = text.split_at(digits_len(text.as_bytes()));
    if is_fraction(rest.as_bytes()) {
        return Scan::Fault(LexKind::Fraction, text);
    }
    match digits.parse::<i64>() {
        Ok(number) => Scan::Token(TokenKind::Number(number), rest),
        Err(_) => Scan::Fault(LexKind::NumberTooLarge, text),
    }
}

// The quoted name after a backtick.
fn quoted_name<'a>(alloc: Global, text: &'a str, inner: &'a str) -> Result<Scan<'a>, OutOfMemory>
    requires { text.now ≡ backtick ∷ inner.now }
    ensures takes { IfOk result (λ step. Takes text.now step) }
    ensures leaves { IfOk result (λ step. Leaves text.now step) }
{
    match inner.split_once('`') {
        None => Ok(Scan::Fault(LexKind::OpenString, text)),
        Some((name, rest)) => {
            if name.is_empty() {
                return Ok(Scan::Fault(LexKind::BadChar, text));
            }
            Ok(Scan::Token(TokenKind::Quoted(Text::new(alloc, name)?), rest))
        }
    }
}

// The comment that stands here.
fn comment<'a>(text: &'a str) -> Option<Scan<'a>>
    ensures takes { MatchOption result (begins_comment text.now ≡ false) (Takes text.now) }
    ensures leaves { IfSome result (λ step. Leaves text.now step) }
{
    if let Some(words) = text.strip_prefix("//") {
        return match words.split_once('\n') {
            Some((_, rest)) => Some(Scan::Separator(rest)),
            None => Some(Scan::Separator("")),
        };
    }
    let words = text.strip_prefix("/*")?;
    match words.split_once("*/") {
        Some((_, rest)) => Some(Scan::Separator(rest)),
        None => Some(Scan::Fault(LexKind::OpenComment, text)),
    }
}

// The longest symbol at the front of a text by the table of them, and what is left after it.
fn symbol_in<'a>(lines: &[(&str, Symbol)], text: &'a str) -> Option<(Symbol, &'a str)>
    requires table { IsTable spelling_of (lines_of lines.now) }
    requires order { longer_first (lines_of lines.now) ≡ true }
    ensures longest { MatchOption result (NoSymbol text.now)
        (λ p. IsLongestSymbol text.now p.0 p.1.now) }
    ensures utf8 { IfSome result (λ p. IsUtf8 p.1.now) }
{
    for (spelling, symbol) in lines {
        if let Some(rest) = text.strip_prefix(*spelling) {
            return Some((*symbol, rest));
        }
    }
    None
}

// The longest symbol.
fn symbol<'a>(text: &'a str) -> Scan<'a>
    requires other { begins is_other text.now ≡ true }
    requires no_comment { begins_comment text.now ≡ false }
    ensures takes { Takes text.now result }
    ensures leaves { Leaves text.now result }
{
    match symbol_in(&SYMBOLS, text) {
        Some((symbol, rest)) => Scan::Token(TokenKind::Symbol(symbol), rest),
        None => Scan::Fault(LexKind::BadChar, text),
    }
}

// What stands at the front of a text that begins with this character, which stands before `inner`.
pub(crate) fn take<'a>(
    alloc: Global,
    text: &'a str,
    first: char,
    inner: &'a str,
) -> Result<Scan<'a>, OutOfMemory>
    requires { text.now ≡ encode_utf8 first ++ inner.now }
    ensures takes { IfOk result (λ step. Takes text.now step) }
    ensures leaves { IfOk result (λ step. Leaves text.now step) }
{
    if is_blank(first) {
        Ok(Scan::Separator(inner))
    } else if is_letter(first) {
        word(alloc, text)
    } else if first.is_ascii_digit() {
        Ok(number(text))
    } else if is_quote(first) {
        text_scan(alloc, text, first, inner)
    } else if first == '`' {
        quoted_name(alloc, text, inner)
    } else if let Some(step) = comment(text) {
        Ok(step)
    } else {
        Ok(symbol(text))
    }
}
