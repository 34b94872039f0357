//! Objects and lists: what stands in braces and in brackets.

ghost use Rattle.aql_grammar.specs.Input.{ReadsAs, items};
ghost use Rattle.aql_grammar.specs.Objects.{word_value};
ghost use Rattle.aql_parse.specs.Deeper.{ReadsDeeper};
ghost use Rattle.aql_tree.specs.View.{tree, member_part};
ghost use Rattle.std.specs.Prelude.{map};
ghost use Rattle.aql_grammar.specs.Reader as reader;
ghost use Rattle.aql_lex.specs.declared.vocabulary.Symbol.TheVariants as symbol;

use crate::parser::Parser;
use crate::primaries::word_value;
use aql_grammar::{Cursor, ParseFault};
use aql_lex::{Symbol, TokenKind};
use aql_tree::{Expr, Exprs, Field, Fields};
use aql_value::{Seq, Text};
use std::alloc::Global;

impl<F: Fn(Global, &mut Cursor<'_>, usize, bool) -> Result<Expr, ParseFault>> Parser<F> {
    // After the name of a member; a name alone stands for the value of this name.
    #[tactic(auto, unfolding(aql_grammar::specs::Reader::named_member))]
    fn named_member(
        &self,
        tokens: &mut Cursor<'_>,
        name: Text,
        inside: bool,
    ) -> Result<Field, ParseFault>
        requires { ReadsDeeper self.now.depth (F.pre self.now.deeper) (F.post self.now.deeper) }
        ensures { ReadsAs member_part (reader.named_member (reader.expr self.now.depth)
            self.now.inside name (word_value inside name) tokens.old) result tokens.new }
    {
        let value = if tokens.eat(Symbol::Colon) {
            self.expr(tokens)?
        } else {
            word_value(inside, name.copy(self.alloc)?)
        };
        Ok(Field::Named { name, value })
    }

    #[tactic(auto, unfolding(aql_grammar::specs::Reader::text_member))]
    fn text_member(&self, tokens: &mut Cursor<'_>, name: Text) -> Result<Field, ParseFault>
        requires { ReadsDeeper self.now.depth (F.pre self.now.deeper) (F.post self.now.deeper) }
        ensures { ReadsAs member_part (reader.text_member (reader.expr self.now.depth)
            self.now.inside name tokens.old) result tokens.new }
    {
        let value = self.value(tokens)?;
        Ok(Field::Named { name, value })
    }

    #[tactic(auto, unfolding(aql_grammar::specs::Reader::computed_member))]
    fn computed_member(&self, tokens: &mut Cursor<'_>) -> Result<Field, ParseFault>
        requires { ReadsDeeper self.now.depth (F.pre self.now.deeper) (F.post self.now.deeper) }
        ensures { ReadsAs member_part (reader.computed_member (reader.expr self.now.depth)
            self.now.inside tokens.old) result tokens.new }
    {
        let name = self.expr_up_to(tokens, Symbol::CloseBracket)?;
        let value = self.value(tokens)?;
        Ok(Field::Computed { name, value })
    }

    #[tactic(auto, unfolding(aql_grammar::specs::Reader::member))]
    fn member(&self, tokens: &mut Cursor<'_>) -> Result<Field, ParseFault>
        requires { ReadsDeeper self.now.depth (F.pre self.now.deeper) (F.post self.now.deeper) }
        ensures { ReadsAs member_part (reader.member (reader.expr self.now.depth) self.now.inside
            tokens.old) result tokens.new }
    {
        match tokens.peek() {
            Some(TokenKind::Word(name)) => {
                tokens.take();
                self.named_member(tokens, name.copy(self.alloc)?, self.inside)
            }
            Some(TokenKind::Quoted(name)) => {
                tokens.take();
                // A quoted CURRENT is a name as any other.
                self.named_member(tokens, name.copy(self.alloc)?, false)
            }
            Some(TokenKind::Text(name)) => {
                tokens.take();
                self.text_member(tokens, name.copy(self.alloc)?)
            }
            Some(TokenKind::Symbol(Symbol::OpenBracket)) => {
                tokens.take();
                self.computed_member(tokens)
            }
            _ => Err(ParseFault::NotInGrammar),
        }
    }

    /// The members of an object, after the opening brace.
    pub fn members(&self, tokens: &mut Cursor<'_>) -> Result<Fields, ParseFault>
        requires { ReadsDeeper self.now.depth (F.pre self.now.deeper) (F.post self.now.deeper) }
        ensures { ReadsAs (map member_part) (reader.members (reader.expr self.now.depth)
            self.now.inside tokens.old) result tokens.new }
    {
        let mut found = Seq::new(self.alloc);
        for _turn in 0..tokens.remaining() {
            if tokens.eat(Symbol::CloseBrace) {
                return Ok(found);
            }
            found.push(self.member(tokens)?)?;
            if !tokens.eat(Symbol::Comma) {
                tokens.expect(Symbol::CloseBrace)?;
                return Ok(found);
            }
        }
        Err(ParseFault::NotInGrammar)
    }

    /// The items of a list, after the opening bracket.
    pub fn items(&self, tokens: &mut Cursor<'_>) -> Result<Exprs, ParseFault>
        requires { ReadsDeeper self.now.depth (F.pre self.now.deeper) (F.post self.now.deeper) }
        ensures { ReadsAs (map tree) (items symbol.CloseBracket (reader.expr self.now.depth
            self.now.inside) tokens.old) result tokens.new }
    {
        let mut found = Seq::new(self.alloc);
        for _turn in 0..tokens.remaining() {
            if tokens.eat(Symbol::CloseBracket) {
                return Ok(found);
            }
            found.push(self.expr(tokens)?)?;
            if !tokens.eat(Symbol::Comma) {
                tokens.expect(Symbol::CloseBracket)?;
                return Ok(found);
            }
        }
        Err(ParseFault::NotInGrammar)
    }
}
