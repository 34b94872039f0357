//! What is left of a list of tokens, and the parts of the grammar that hold no expression.

ghost use Rattle.std.specs.Prelude.{◌≡◌, length, option_copied, ℕ, List};
ghost use Rattle.aql_grammar.specs.Input as input;
ghost use Rattle.aql_grammar.specs.Input.{Reads};
ghost use Rattle.aql_grammar.specs.Kinds.{kinds_of};
ghost use Rattle.aql_grammar.specs.Reader as reader;

use crate::ParseFault;
use aql_func::BinOp;
use aql_lex::{Keyword, Symbol, Token, TokenKind};
use aql_tree::{Direction, QuantKind};
use aql_value::{Names, Seq, Text};
use std::alloc::Global;
use std::marker::Model;

/// The tokens that are left. Contracts see their kinds.
#[derive(Drop)]
pub struct Cursor<'a> {
    rest: &'a [Token],
}

impl<'a> Model for Cursor<'a> {
    ghost use Rattle.std.specs.Prelude.{List};
    ghost use Rattle.aql_lex.specs.declared.kinds.TokenKind.{TokenKind};

    ghost Value = { List TokenKind };

    ghost use Rattle.aql_grammar.specs.Kinds.{kinds_of};

    ghost view = { λ c. kinds_of c.rest.now };
}

impl<'a> Cursor<'a> {
    /// Before the first of the tokens.
    pub fn new(tokens: &'a [Token]) -> Cursor<'a>
        ensures { result ≡ kinds_of tokens.now }
    {
        Cursor { rest: tokens }
    }

    /// A cursor of its own at the same place, to look ahead with.
    pub fn ahead(&self) -> Cursor<'a>
        ensures { result ≡ self.now }
    {
        Cursor { rest: self.rest }
    }

    /// How many tokens are left.
    pub fn remaining(&self) -> usize
        ensures { result ≡ length self.now }
    {
        self.rest.len()
    }

    /// The next token, if there is one.
    pub fn peek(&self) -> Option<&'a TokenKind>
        ensures { option_copied result ≡ input.head self.now }
    {
        match self.rest {
            [] => None,
            [first, ..] => Some(&first.kind),
        }
    }

    /// The token after the next.
    pub fn peek_second(&self) -> Option<&'a TokenKind>
        ensures { option_copied result ≡ input.head (input.next self.now) }
    {
        match self.rest {
            [_, second, ..] => Some(&second.kind),
            _ => None,
        }
    }

    /// Passes the next token.
    pub fn take(&mut self)
        ensures { self.new ≡ input.next self.old }
    {
        if let [_, rest @ ..] = self.rest {
            self.rest = rest;
        }
    }

    #[tactic(auto, unfolding(crate::specs::Input::sees, crate::specs::Input::same_symbol))]
    pub fn sees(&self, symbol: Symbol) -> bool
        ensures { result ≡ input.sees symbol self.now }
    {
        match self.peek() {
            Some(TokenKind::Symbol(found)) => *found == symbol,
            _ => false,
        }
    }

    #[tactic(auto, unfolding(crate::specs::Input::sees_keyword, crate::specs::Input::same_keyword))]
    pub fn sees_keyword(&self, keyword: Keyword) -> bool
        ensures { result ≡ input.sees_keyword keyword self.now }
    {
        match self.peek() {
            Some(TokenKind::Keyword(found)) => *found == keyword,
            _ => false,
        }
    }

    /// Whether an unquoted name stands there that means this word, in any letter case.
    #[tactic(auto, unfolding(crate::specs::Input::sees_word))]
    pub fn sees_word(&self, meant: &str) -> bool
        ensures { result ≡ input.sees_word meant.now self.now }
    {
        match self.peek() {
            Some(TokenKind::Word(found)) => found.as_str().eq_ignore_ascii_case(meant),
            _ => false,
        }
    }

    /// Takes a symbol where it stands there.
    #[tactic(auto, unfolding(crate::specs::Input::after))]
    pub fn eat(&mut self, symbol: Symbol) -> bool
        ensures found { result ≡ input.sees symbol self.old }
        ensures after { self.new ≡ input.after symbol self.old }
    {
        let found = self.sees(symbol);
        if found {
            self.take();
        }
        found
    }

    #[tactic(auto, unfolding(crate::specs::Input::after_keyword))]
    pub fn eat_keyword(&mut self, keyword: Keyword) -> bool
        ensures found { result ≡ input.sees_keyword keyword self.old }
        ensures after { self.new ≡ input.after_keyword keyword self.old }
    {
        let found = self.sees_keyword(keyword);
        if found {
            self.take();
        }
        found
    }

    #[tactic(auto, unfolding(crate::specs::Input::after_word))]
    pub fn eat_word(&mut self, meant: &str) -> bool
        ensures found { result ≡ input.sees_word meant.now self.old }
        ensures after { self.new ≡ input.after_word meant.now self.old }
    {
        let found = self.sees_word(meant);
        if found {
            self.take();
        }
        found
    }

    /// Takes a symbol that must stand there.
    #[tactic(auto, unfolding(crate::specs::Input::expect))]
    pub fn expect(&mut self, symbol: Symbol) -> Result<(), ParseFault>
        ensures { Reads (input.expect symbol self.old) result self.new }
    {
        if self.sees(symbol) {
            self.take();
            Ok(())
        } else {
            Err(ParseFault::NotInGrammar)
        }
    }

    #[tactic(auto, unfolding(crate::specs::Input::expect_keyword))]
    pub fn expect_keyword(&mut self, keyword: Keyword) -> Result<(), ParseFault>
        ensures { Reads (input.expect_keyword keyword self.old) result self.new }
    {
        if self.sees_keyword(keyword) {
            self.take();
            Ok(())
        } else {
            Err(ParseFault::NotInGrammar)
        }
    }

    #[tactic(auto, unfolding(crate::specs::Input::expect_word))]
    pub fn expect_word(&mut self, meant: &str) -> Result<(), ParseFault>
        ensures { Reads (input.expect_word meant.now self.old) result self.new }
    {
        if self.sees_word(meant) {
            self.take();
            Ok(())
        } else {
            Err(ParseFault::NotInGrammar)
        }
    }

    /// A name, quoted or not.
    #[tactic(auto, unfolding(crate::specs::Input::name))]
    pub fn name(&mut self, alloc: Global) -> Result<Text, ParseFault>
        ensures { Reads (input.name self.old) result self.new }
    {
        match self.peek() {
            Some(TokenKind::Word(found)) => {
                self.take();
                Ok(found.copy(alloc)?)
            }
            Some(TokenKind::Quoted(found)) => {
                self.take();
                Ok(found.copy(alloc)?)
            }
            _ => Err(ParseFault::NotInGrammar),
        }
    }

    /// An unquoted name.
    #[tactic(auto, unfolding(crate::specs::Reader::word))]
    pub fn word(&mut self, alloc: Global) -> Result<Text, ParseFault>
        ensures { Reads (reader.word self.old) result self.new }
    {
        match self.peek() {
            Some(TokenKind::Word(found)) => {
                self.take();
                Ok(found.copy(alloc)?)
            }
            _ => Err(ParseFault::NotInGrammar),
        }
    }

    /// A number that isn't negative.
    #[tactic(auto, unfolding(crate::specs::Input::natural))]
    pub fn natural(&mut self) -> Result<u64, ParseFault>
        ensures { Reads (input.natural self.old) result self.new }
    {
        match self.peek() {
            Some(TokenKind::Number(number)) if *number >= 0 => {
                self.take();
                Ok(*number as u64)
            }
            _ => Err(ParseFault::NotInGrammar),
        }
    }

    /// One or more names, with commas between.
    #[tactic(auto, unfolding(crate::specs::Input::comma_list_onto, crate::specs::Input::comma_list_from))]
    pub fn names(&mut self, alloc: Global) -> Result<Names, ParseFault>
        ensures { Reads (input.comma_list input.name self.old) result self.new }
    {
        let mut found = Seq::new(alloc);
        for _turn in 0..self.remaining() {
            found.push(self.name(alloc)?)?;
            if !self.eat(Symbol::Comma) {
                return Ok(found);
            }
        }
        Err(ParseFault::NotInGrammar)
    }
}
