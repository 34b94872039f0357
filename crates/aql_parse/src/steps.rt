//! The steps after an expression: attributes, elements and inline expressions.

ghost use Rattle.aql_grammar.specs.Input.{ReadsAs, many, at_front};
ghost use Rattle.aql_parse.specs.Deeper.{ReadsDeeper};
ghost use Rattle.aql_tree.specs.View.{tree, step_part};
ghost use Rattle.std.specs.Prelude.{◌≡◌, IfOk, map, option_map};
ghost use Rattle.aql_grammar.specs.Reader as reader;

use crate::parser::Parser;
use aql_grammar::{Cursor, ParseFault, begins_step};
use aql_lex::{Keyword, Symbol, TokenKind};
use aql_tree::{Expr, Step, Steps};
use aql_value::{OutOfMemory, Seq};
use std::alloc::Global;

/// An expression with the steps after it, if there are any.
#[tactic(auto, unfolding(aql_grammar::specs::Reader::access_of))]
pub fn access_of(alloc: Global, of: Expr, steps: Steps) -> Result<Expr, OutOfMemory>
    ensures { IfOk result (λ e. tree e ≡ reader.access_of (tree of) (map step_part steps)) }
{
    if steps.len() == 0 {
        return Ok(of);
    }
    Expr::access(alloc, of, steps)
}

impl<F: Fn(Global, &mut Cursor<'_>, usize, bool) -> Result<Expr, ParseFault>> Parser<F> {
    // What a keyword introduces in an inline expression.
    #[tactic(auto, unfolding(aql_grammar::specs::Reader::element))]
    fn element(&self, tokens: &mut Cursor<'_>, keyword: Keyword) -> Result<Option<Expr>, ParseFault>
        requires { ReadsDeeper self.now.depth (F.pre self.now.deeper) (F.post self.now.deeper) }
        ensures { ReadsAs (option_map tree) (reader.element (reader.expr self.now.depth)
            self.now.inside keyword tokens.old) result tokens.new }
    {
        if tokens.eat_keyword(keyword) {
            Ok(Some(self.element_expr(tokens)?))
        } else {
            Ok(None)
        }
    }

    #[tactic(auto, unfolding(aql_grammar::specs::Reader::bracket_step))]
    fn bracket_step(&self, tokens: &mut Cursor<'_>) -> Result<Step, ParseFault>
        requires { ReadsDeeper self.now.depth (F.pre self.now.deeper) (F.post self.now.deeper) }
        ensures { ReadsAs step_part (reader.bracket_step (reader.expr self.now.depth)
            self.now.inside tokens.old) result tokens.new }
    {
        if tokens.eat(Symbol::Star) {
            let filter = self.element(tokens, Keyword::Filter)?;
            let project = self.element(tokens, Keyword::Return)?;
            tokens.expect(Symbol::CloseBracket)?;
            Ok(Step::each(filter, project))
        } else {
            Ok(Step::At(self.expr_up_to(tokens, Symbol::CloseBracket)?))
        }
    }

    #[tactic(auto, unfolding(aql_grammar::specs::Reader::step))]
    fn step(&self, tokens: &mut Cursor<'_>) -> Result<Step, ParseFault>
        requires { ReadsDeeper self.now.depth (F.pre self.now.deeper) (F.post self.now.deeper) }
        ensures { ReadsAs step_part (reader.step (reader.expr self.now.depth) self.now.inside
            tokens.old) result tokens.new }
    {
        match tokens.peek() {
            Some(TokenKind::Symbol(Symbol::Dot)) => {
                tokens.take();
                Ok(Step::Name(tokens.name(self.alloc)?))
            }
            Some(TokenKind::Symbol(Symbol::OpenBracket)) => {
                tokens.take();
                self.bracket_step(tokens)
            }
            _ => Err(ParseFault::NotInGrammar),
        }
    }

    /// The steps after an expression, if there are any.
    pub fn steps(&self, tokens: &mut Cursor<'_>) -> Result<Steps, ParseFault>
        requires { ReadsDeeper self.now.depth (F.pre self.now.deeper) (F.post self.now.deeper) }
        ensures { ReadsAs (map step_part) (many (at_front reader.begins_step) (reader.step
            (reader.expr self.now.depth) self.now.inside) tokens.old) result tokens.new }
    {
        let mut found = Seq::new(self.alloc);
        for _turn in 0..tokens.remaining() {
            if !begins_step(tokens.peek()) {
                return Ok(found);
            }
            found.push(self.step(tokens)?)?;
        }
        Ok(found)
    }
}
