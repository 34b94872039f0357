//! The state that all rules share, and the expressions one bracket deeper.

ghost use Rattle.aql_grammar.specs.Input.{ReadsAs};
ghost use Rattle.aql_parse.specs.Deeper.{ReadsDeeper};
ghost use Rattle.aql_parse.specs.Phrases.{up_to, value};
ghost use Rattle.aql_tree.specs.View.{tree};
ghost use Rattle.std.specs.Prelude.{true};
ghost use Rattle.aql_grammar.specs.Reader as reader;

use aql_grammar::{Cursor, ParseFault};
use aql_lex::Symbol;
use aql_tree::Expr;
use std::alloc::Global;

/// What the rules of the grammar share. Each rule reads the tokens that it is given, and calls
/// `deeper` for the expressions in its brackets; so the rules are no cycle of functions.
#[derive(Clone, Copy)]
pub struct Parser<F> {
    pub alloc: Global,
    /// How deep expressions may still nest.
    pub depth: usize,
    /// Whether the place is in the FILTER or RETURN of an inline expression.
    pub inside: bool,
    /// Reads an expression one bracket deeper.
    pub deeper: F,
}

impl<F: Fn(Global, &mut Cursor<'_>, usize, bool) -> Result<Expr, ParseFault>> Parser<F> {
    /// An expression one bracket deeper.
    pub fn expr(&self, tokens: &mut Cursor<'_>) -> Result<Expr, ParseFault>
        requires { ReadsDeeper self.now.depth (F.pre self.now.deeper) (F.post self.now.deeper) }
        ensures { ReadsAs tree (reader.expr self.now.depth self.now.inside tokens.old) result
            tokens.new }
    {
        (self.deeper)(self.alloc, tokens, self.depth, self.inside)
    }

    /// An expression of an inline expression.
    pub fn element_expr(&self, tokens: &mut Cursor<'_>) -> Result<Expr, ParseFault>
        requires { ReadsDeeper self.now.depth (F.pre self.now.deeper) (F.post self.now.deeper) }
        ensures { ReadsAs tree (reader.expr self.now.depth true tokens.old) result tokens.new }
    {
        (self.deeper)(self.alloc, tokens, self.depth, true)
    }

    /// An expression with the symbol that ends it.
    pub fn expr_up_to(&self, tokens: &mut Cursor<'_>, close: Symbol) -> Result<Expr, ParseFault>
        requires { ReadsDeeper self.now.depth (F.pre self.now.deeper) (F.post self.now.deeper) }
        ensures { ReadsAs tree (up_to close (reader.expr self.now.depth self.now.inside) tokens.old)
            result tokens.new }
    {
        let found = self.expr(tokens)?;
        tokens.expect(close)?;
        Ok(found)
    }

    /// A colon with the expression after it.
    pub fn value(&self, tokens: &mut Cursor<'_>) -> Result<Expr, ParseFault>
        requires { ReadsDeeper self.now.depth (F.pre self.now.deeper) (F.post self.now.deeper) }
        ensures { ReadsAs tree (value (reader.expr self.now.depth self.now.inside) tokens.old)
            result tokens.new }
    {
        tokens.expect(Symbol::Colon)?;
        self.expr(tokens)
    }
}
