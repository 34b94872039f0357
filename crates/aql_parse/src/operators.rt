//! Operators, from the tightest on, and the ternary.

ghost use Rattle.aql_grammar.specs.Input.{ReadsAs, many};
ghost use Rattle.aql_parse.specs.Deeper.{ReadsDeeper};
ghost use Rattle.aql_tree.specs.View.{tree, link_part};
ghost use Rattle.std.specs.Prelude.{◌≡◌, IfOk, map};
ghost use Rattle.aql_grammar.specs.Reader as reader;

use crate::parser::Parser;
use aql_grammar::{Cursor, ParseFault, Precedence, begins_quantifier, unary_at};
use aql_lex::Symbol;
use aql_tree::{Expr, Link, Links};
use aql_value::{OutOfMemory, Seq};
use std::alloc::Global;

/// An expression with the links after it, if there are any.
#[tactic(auto, unfolding(aql_grammar::specs::Reader::chain_of))]
pub fn chain_of(alloc: Global, first: Expr, rest: Links) -> Result<Expr, OutOfMemory>
    ensures { IfOk result (λ e. tree e ≡ reader.chain_of (tree first) (map link_part rest)) }
{
    if rest.len() == 0 {
        return Ok(first);
    }
    Expr::chain(alloc, first, rest)
}

impl<F: Fn(Global, &mut Cursor<'_>, usize, bool) -> Result<Expr, ParseFault>> Parser<F> {
    // The turns bound the operators.
    fn unary_from(&self, tokens: &mut Cursor<'_>, turns: usize) -> Result<Expr, ParseFault>
        requires { ReadsDeeper self.now.depth (F.pre self.now.deeper) (F.post self.now.deeper) }
        ensures { ReadsAs tree (reader.unary_from (reader.expr self.now.depth) self.now.inside turns
            tokens.old) result tokens.new }
    {
        if turns == 0 {
            return Err(ParseFault::NotInGrammar);
        }
        match unary_at(tokens.peek()) {
            Some(op) => {
                tokens.take();
                let of = self.unary_from(tokens, turns - 1)?;
                Ok(Expr::unary(self.alloc, op, of)?)
            }
            None => self.postfix(tokens),
        }
    }

    #[tactic(auto, unfolding(aql_grammar::specs::Reader::unary))]
    fn unary(&self, tokens: &mut Cursor<'_>) -> Result<Expr, ParseFault>
        requires { ReadsDeeper self.now.depth (F.pre self.now.deeper) (F.post self.now.deeper) }
        ensures { ReadsAs tree (reader.unary (reader.expr self.now.depth) self.now.inside
            tokens.old) result tokens.new }
    {
        let turns = tokens.remaining();
        self.unary_from(tokens, turns)
    }

    // An operator of this precedence and its right side.
    #[cycle(level)]
    #[tactic(auto, unfolding(aql_grammar::specs::Reader::link))]
    fn link(&self, tokens: &mut Cursor<'_>, precedence: Precedence) -> Result<Link, ParseFault>
        requires { ReadsDeeper self.now.depth (F.pre self.now.deeper) (F.post self.now.deeper) }
        ensures { ReadsAs link_part (reader.link (reader.operand (reader.expr self.now.depth)
            self.now.inside precedence) tokens.old) result tokens.new }
    {
        let op = tokens.operator()?;
        let right = self.operand(tokens, precedence)?;
        Ok(Link::new(op, right))
    }

    #[cycle(level)]
    fn links(&self, tokens: &mut Cursor<'_>, precedence: Precedence) -> Result<Links, ParseFault>
        requires { ReadsDeeper self.now.depth (F.pre self.now.deeper) (F.post self.now.deeper) }
        ensures { ReadsAs (map link_part) (many (reader.sees_operator precedence) (reader.link
            (reader.operand (reader.expr self.now.depth) self.now.inside precedence)) tokens.old)
            result tokens.new }
    {
        let mut found = Seq::new(self.alloc);
        for _turn in 0..tokens.remaining() {
            if !tokens.sees_operator(precedence) {
                return Ok(found);
            }
            found.push(self.link(tokens, precedence)?)?;
        }
        Ok(found)
    }

    #[cycle(level)]
    #[tactic(auto, unfolding(aql_grammar::specs::Reader::chain))]
    fn chain(&self, tokens: &mut Cursor<'_>, precedence: Precedence) -> Result<Expr, ParseFault>
        requires { ReadsDeeper self.now.depth (F.pre self.now.deeper) (F.post self.now.deeper) }
        ensures { ReadsAs tree (reader.chain precedence (reader.operand (reader.expr self.now.depth)
            self.now.inside precedence) tokens.old) result tokens.new }
    {
        let first = self.operand(tokens, precedence)?;
        let rest = self.links(tokens, precedence)?;
        Ok(chain_of(self.alloc, first, rest)?)
    }

    #[cycle(level)]
    #[tactic(auto, unfolding(aql_grammar::specs::Reader::range))]
    fn range(&self, tokens: &mut Cursor<'_>) -> Result<Expr, ParseFault>
        requires { ReadsDeeper self.now.depth (F.pre self.now.deeper) (F.post self.now.deeper) }
        ensures { ReadsAs tree (reader.range (reader.operand (reader.expr self.now.depth)
            self.now.inside Precedence.Range) tokens.old) result tokens.new }
    {
        let low = self.operand(tokens, Precedence::Range)?;
        if tokens.eat(Symbol::Range) {
            let high = self.operand(tokens, Precedence::Range)?;
            Ok(Expr::range(self.alloc, low, high)?)
        } else {
            Ok(low)
        }
    }

    #[cycle(level)]
    #[tactic(auto, unfolding(aql_grammar::specs::Reader::array_comparison))]
    fn array_comparison(&self, tokens: &mut Cursor<'_>) -> Result<Expr, ParseFault>
        requires { ReadsDeeper self.now.depth (F.pre self.now.deeper) (F.post self.now.deeper) }
        ensures { ReadsAs tree (reader.array_comparison (reader.operand (reader.expr self.now.depth)
            self.now.inside Precedence.ArrayComparison) tokens.old) result tokens.new }
    {
        let left = self.operand(tokens, Precedence::ArrayComparison)?;
        if !begins_quantifier(tokens.peek()) {
            return Ok(left);
        }
        let kind = tokens.quantifier()?;
        let op = tokens.comparison()?;
        let right = self.operand(tokens, Precedence::ArrayComparison)?;
        Ok(Expr::array_comparison(self.alloc, left, kind, op, right)?)
    }

    // An expression whose operators have this precedence or a tighter one.
    #[cycle(level)]
    fn level(&self, tokens: &mut Cursor<'_>, precedence: Precedence) -> Result<Expr, ParseFault>
        requires { ReadsDeeper self.now.depth (F.pre self.now.deeper) (F.post self.now.deeper) }
        ensures { ReadsAs tree (reader.level_at (reader.expr self.now.depth) self.now.inside
            precedence tokens.old) result tokens.new }
    {
        match precedence {
            Precedence::Range => self.range(tokens),
            Precedence::ArrayComparison => self.array_comparison(tokens),
            _ => self.chain(tokens, precedence),
        }
    }

    // What stands on both sides of an operator of this precedence.
    #[cycle(level)]
    fn operand(&self, tokens: &mut Cursor<'_>, precedence: Precedence) -> Result<Expr, ParseFault>
        requires { ReadsDeeper self.now.depth (F.pre self.now.deeper) (F.post self.now.deeper) }
        ensures { ReadsAs tree (reader.operand (reader.expr self.now.depth) self.now.inside
            precedence tokens.old) result tokens.new }
    {
        match precedence.tighter() {
            Some(tighter) => self.level(tokens, tighter),
            None => self.unary(tokens),
        }
    }

    // What stands after the question mark of a ternary.
    #[tactic(auto, unfolding(aql_grammar::specs::Reader::ternary_of))]
    fn ternary_of(&self, tokens: &mut Cursor<'_>, test: Expr) -> Result<Expr, ParseFault>
        requires { ReadsDeeper self.now.depth (F.pre self.now.deeper) (F.post self.now.deeper) }
        ensures { ReadsAs tree (reader.ternary_of (reader.expr self.now.depth) self.now.inside (tree
            test) tokens.old) result tokens.new }
    {
        if tokens.eat(Symbol::Colon) {
            let no = self.expr(tokens)?;
            return Ok(Expr::conditional(self.alloc, test, None, no)?);
        }
        let yes = self.expr_up_to(tokens, Symbol::Colon)?;
        let no = self.expr(tokens)?;
        Ok(Expr::conditional(self.alloc, test, Some(yes), no)?)
    }

    /// An expression whose brackets hold expressions one bracket deeper.
    #[tactic(auto, unfolding(aql_grammar::specs::Reader::conditional))]
    pub fn conditional(&self, tokens: &mut Cursor<'_>) -> Result<Expr, ParseFault>
        requires { ReadsDeeper self.now.depth (F.pre self.now.deeper) (F.post self.now.deeper) }
        ensures { ReadsAs tree (reader.conditional (reader.expr self.now.depth) self.now.inside
            tokens.old) result tokens.new }
    {
        let test = self.level(tokens, Precedence::Disjunction)?;
        if tokens.eat(Symbol::Question) {
            self.ternary_of(tokens, test)
        } else {
            Ok(test)
        }
    }
}
