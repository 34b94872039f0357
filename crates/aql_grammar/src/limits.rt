//! The limits on a query's tokens that are judged before the grammar.

ghost use Rattle.std.specs.Prelude.{◌≡◌, ◌≤◌, ◌<◌, ◌+◌, IfOk, OnOk, nat_lt};
ghost use Rattle.aql_grammar.specs.Kinds.{kinds_of};
ghost use Rattle.aql_grammar.specs.Limits as spec;

use aql_lex::{Keyword, Symbol, Token, TokenKind};
use aql_value::OutOfMemory;
use std::alloc::Global;
use std::marker::Model;

/// What a token does to the brackets, ternaries and signs that are open.
#[derive(Clone, Copy, Debug, PartialEq, Eq)]
pub enum Effect {
    OpensBracket,
    ClosesBracket,
    OpensTernary,
    ClosesTernaries,
    OpensSign,
    ClosesSigns,
}

// What is open after some tokens.
#[derive(Drop)]
struct Open {
    // The ternaries of the innermost bracket.
    inner: usize,
    // Those of the places around it, one number for each open bracket, the innermost last.
    outer: Vec<usize>,
    // How many brackets and ternaries of the places around it are open.
    around: usize,
    // The signs that stand last.
    signs: usize,
}

impl Model for Open {
    ghost use Rattle.aql_grammar.specs.Limits as limits;

    ghost Value = { limits.Open };

    ghost use Rattle.std.specs.Prelude.{reverse, ◌≡◌, ◌+◌, length};

    ghost view = { λ o. record {
      inner = o.inner;
      outer = reverse o.outer.items;
      signs = o.signs;
    } };

    ghost invariant = { λ o. o.around ≡ length (reverse o.outer.items)
        + limits.total (reverse o.outer.items) };
}

impl Open {
    fn new(alloc: Global) -> Open
        ensures { result ≡ spec.nothing_open }
    {
        Open {
            inner: 0,
            outer: Vec::new(alloc),
            around: 0,
            signs: 0,
        }
    }

    fn count(&self) -> usize
        requires { spec.open_now self.now < 1000 }
        ensures { result ≡ spec.open_now self.now }
    {
        self.around + (self.inner + self.signs)
    }

    // Where memory runs out this is of no further use.
    #[tactic(auto, using(crate::specs::laws::LimitLaws::reverse_push))]
    fn change(&mut self, effect: Effect) -> Result<(), OutOfMemory>
        requires { spec.open_now self.old < 1000 }
        ensures { OnOk result (self.new ≡ spec.change effect self.old) }
    {
        self.signs = match effect {
            Effect::OpensSign => self.signs + 1,
            _ => 0,
        };
        match effect {
            Effect::OpensBracket => {
                self.outer.push(self.inner)?;
                self.around = self.around + self.inner + 1;
                self.inner = 0;
            }
            Effect::ClosesBracket => match self.outer.pop() {
                Some(inner) => {
                    self.around = self.around - inner - 1;
                    self.inner = inner;
                }
                None => self.inner = 0,
            },
            Effect::OpensTernary => self.inner = self.inner + 1,
            Effect::ClosesTernaries => self.inner = 0,
            Effect::OpensSign | Effect::ClosesSigns => {}
        }
        Ok(())
    }
}

fn effect_of_symbol(symbol: Symbol) -> Effect
    ensures { result ≡ spec.effect_of_symbol symbol }
{
    match symbol {
        Symbol::OpenParen | Symbol::OpenBracket | Symbol::OpenBrace => Effect::OpensBracket,
        Symbol::CloseParen | Symbol::CloseBracket | Symbol::CloseBrace => Effect::ClosesBracket,
        Symbol::Question => Effect::OpensTernary,
        Symbol::Comma => Effect::ClosesTernaries,
        Symbol::Not | Symbol::Plus | Symbol::Minus => Effect::OpensSign,
        _ => Effect::ClosesSigns,
    }
}

fn is_clause_word(keyword: Keyword) -> bool
    ensures { result ≡ spec.is_clause_word keyword }
{
    matches!(
        keyword,
        Keyword::For
            | Keyword::Filter
            | Keyword::Let
            | Keyword::Sort
            | Keyword::Limit
            | Keyword::Collect
            | Keyword::Return
    )
}

fn effect_of_keyword(keyword: Keyword) -> Effect
    ensures { result ≡ spec.effect_of_keyword keyword }
{
    match keyword {
        Keyword::Not => Effect::OpensSign,
        other => {
            if is_clause_word(other) {
                Effect::ClosesTernaries
            } else {
                Effect::ClosesSigns
            }
        }
    }
}

fn effect_of(token: &TokenKind) -> Effect
    ensures { result ≡ spec.effect_of token.now }
{
    match token {
        TokenKind::Symbol(symbol) => effect_of_symbol(*symbol),
        TokenKind::Keyword(keyword) => effect_of_keyword(*keyword),
        _ => Effect::ClosesSigns,
    }
}

fn is_mark(token: &TokenKind) -> bool
    ensures { result ≡ spec.is_mark token.now }
{
    match token {
        TokenKind::Keyword(keyword) => is_clause_word(*keyword),
        TokenKind::Symbol(Symbol::Assign) => true,
        _ => false,
    }
}

/// The most brackets, ternaries and signs that are open at once.
const NESTING: usize = 64;

/// The most clause marks.
const MARKS: usize = 256;

/// Whether more than 64 brackets, ternaries and signs are open at once.
pub fn nests_too_deep(alloc: Global, tokens: &[Token]) -> Result<bool, OutOfMemory>
    ensures { IfOk result (λ found. found ≡ nat_lt 64 (spec.nesting (kinds_of tokens.now))) }
{
    let mut open = Open::new(alloc);
    let mut left = tokens;
    while let [first, rest @ ..] = left {
        if open.count() > NESTING {
            return Ok(true);
        }
        open.change(effect_of(&first.kind))?;
        left = rest;
    }
    Ok(open.count() > NESTING)
}

/// Whether there are more than 256 clause marks.
pub fn has_too_many_marks(tokens: &[Token]) -> bool
    ensures { result ≡ nat_lt 256 (spec.marks (kinds_of tokens.now)) }
{
    let mut found: usize = 0;
    let mut left = tokens;
    while let [first, rest @ ..] = left {
        if is_mark(&first.kind) {
            if found == MARKS {
                return true;
            }
            found += 1;
        }
        left = rest;
    }
    false
}
