//! What an operator stands between: literals, names, calls, subqueries and what is in
//! parentheses, with the steps after it.

ghost use Rattle.aql_grammar.specs.Input.{ReadsAs, comma_list};
ghost use Rattle.aql_grammar.specs.Objects.{word_value};
ghost use Rattle.aql_parse.specs.Deeper.{ReadsDeeper};
ghost use Rattle.aql_tree.specs.View.{tree};
ghost use Rattle.std.specs.Prelude.{◌≡◌, map};
ghost use Rattle.aql_grammar.specs.Reader as reader;

use crate::parser::Parser;
use crate::steps::access_of;
use aql_grammar::{Cursor, ParseFault, begins_query};
use aql_lex::{Keyword, Symbol, TokenKind};
use aql_tree::{Expr, Exprs, Ident};
use aql_value::{Seq, Text, Value};
use std::alloc::Global;

/// A name as a value: the word CURRENT is the element at hand inside an inline expression.
pub fn word_value(inside: bool, name: Text) -> Expr
    ensures { tree result ≡ word_value inside name }
{
    if inside && name.as_str() == "CURRENT" {
        Expr::Current
    } else {
        Expr::Var(Ident::Name(name))
    }
}

impl<F: Fn(Global, &mut Cursor<'_>, usize, bool) -> Result<Expr, ParseFault>> Parser<F> {
    // An expression, or a query without brackets of its own.
    #[tactic(auto, unfolding(aql_grammar::specs::Reader::argument))]
    fn argument(&self, tokens: &mut Cursor<'_>) -> Result<Expr, ParseFault>
        requires { ReadsDeeper self.now.depth (F.pre self.now.deeper) (F.post self.now.deeper) }
        ensures { ReadsAs tree (reader.argument (reader.expr self.now.depth) self.now.inside
            tokens.old) result tokens.new }
    {
        if begins_query(tokens.peek()) {
            let query = self.query(tokens, Seq::new(self.alloc))?;
            Ok(Expr::subquery(self.alloc, query)?)
        } else {
            self.expr(tokens)
        }
    }

    fn argument_list(&self, tokens: &mut Cursor<'_>) -> Result<Exprs, ParseFault>
        requires { ReadsDeeper self.now.depth (F.pre self.now.deeper) (F.post self.now.deeper) }
        ensures { ReadsAs (map tree) (comma_list (reader.argument (reader.expr self.now.depth)
            self.now.inside) tokens.old) result tokens.new }
    {
        let mut found = Seq::new(self.alloc);
        for _turn in 0..tokens.remaining() {
            found.push(self.argument(tokens)?)?;
            if !tokens.eat(Symbol::Comma) {
                return Ok(found);
            }
        }
        Err(ParseFault::NotInGrammar)
    }

    // After the opening parenthesis of a call.
    #[tactic(auto, unfolding(aql_grammar::specs::Reader::arguments))]
    fn arguments(&self, tokens: &mut Cursor<'_>) -> Result<Exprs, ParseFault>
        requires { ReadsDeeper self.now.depth (F.pre self.now.deeper) (F.post self.now.deeper) }
        ensures { ReadsAs (map tree) (reader.arguments (reader.expr self.now.depth) self.now.inside
            tokens.old) result tokens.new }
    {
        if tokens.eat(Symbol::CloseParen) {
            return Ok(Seq::new(self.alloc));
        }
        let found = self.argument_list(tokens)?;
        tokens.expect(Symbol::CloseParen)?;
        Ok(found)
    }

    // After a word: a call, or a name.
    #[tactic(auto, unfolding(aql_grammar::specs::Reader::call_or_name))]
    fn call_or_name(&self, tokens: &mut Cursor<'_>, name: Text) -> Result<Expr, ParseFault>
        requires { ReadsDeeper self.now.depth (F.pre self.now.deeper) (F.post self.now.deeper) }
        ensures { ReadsAs tree (reader.call_or_name (reader.expr self.now.depth) self.now.inside
            name tokens.old) result tokens.new }
    {
        if tokens.eat(Symbol::OpenParen) {
            let args = self.arguments(tokens)?;
            Ok(Expr::Call { name, args })
        } else {
            Ok(word_value(self.inside, name))
        }
    }

    #[tactic(auto, unfolding(aql_grammar::specs::Reader::parentheses))]
    fn parentheses(&self, tokens: &mut Cursor<'_>) -> Result<Expr, ParseFault>
        requires { ReadsDeeper self.now.depth (F.pre self.now.deeper) (F.post self.now.deeper) }
        ensures { ReadsAs tree (reader.parentheses (reader.expr self.now.depth) self.now.inside
            tokens.old) result tokens.new }
    {
        let found = self.argument(tokens)?;
        tokens.expect(Symbol::CloseParen)?;
        Ok(found)
    }

    #[tactic(auto, unfolding(aql_grammar::specs::Reader::primary))]
    fn primary(&self, tokens: &mut Cursor<'_>) -> Result<Expr, ParseFault>
        requires { ReadsDeeper self.now.depth (F.pre self.now.deeper) (F.post self.now.deeper) }
        ensures { ReadsAs tree (reader.primary (reader.expr self.now.depth) self.now.inside
            tokens.old) result tokens.new }
    {
        match tokens.peek() {
            Some(TokenKind::Number(number)) => {
                tokens.take();
                Ok(Expr::Lit(Value::Num(*number)))
            }
            Some(TokenKind::Text(text)) => {
                tokens.take();
                Ok(Expr::Lit(Value::Text(text.copy(self.alloc)?)))
            }
            Some(TokenKind::Quoted(name)) => {
                tokens.take();
                Ok(Expr::Var(Ident::Name(name.copy(self.alloc)?)))
            }
            Some(TokenKind::Word(name)) => {
                tokens.take();
                self.call_or_name(tokens, name.copy(self.alloc)?)
            }
            Some(TokenKind::Keyword(Keyword::Null)) => {
                tokens.take();
                Ok(Expr::Lit(Value::Null))
            }
            Some(TokenKind::Keyword(Keyword::True)) => {
                tokens.take();
                Ok(Expr::Lit(Value::Bool(true)))
            }
            Some(TokenKind::Keyword(Keyword::False)) => {
                tokens.take();
                Ok(Expr::Lit(Value::Bool(false)))
            }
            Some(TokenKind::Symbol(Symbol::OpenParen)) => {
                tokens.take();
                self.parentheses(tokens)
            }
            Some(TokenKind::Symbol(Symbol::OpenBracket)) => {
                tokens.take();
                Ok(Expr::List(self.items(tokens)?))
            }
            Some(TokenKind::Symbol(Symbol::OpenBrace)) => {
                tokens.take();
                Ok(Expr::Object(self.members(tokens)?))
            }
            _ => Err(ParseFault::NotInGrammar),
        }
    }

    #[tactic(auto, unfolding(aql_grammar::specs::Reader::postfix))]
    pub fn postfix(&self, tokens: &mut Cursor<'_>) -> Result<Expr, ParseFault>
        requires { ReadsDeeper self.now.depth (F.pre self.now.deeper) (F.post self.now.deeper) }
        ensures { ReadsAs tree (reader.postfix (reader.expr self.now.depth) self.now.inside
            tokens.old) result tokens.new }
    {
        let of = self.primary(tokens)?;
        let steps = self.steps(tokens)?;
        Ok(access_of(self.alloc, of, steps)?)
    }
}
