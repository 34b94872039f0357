//! Whole queries.

ghost use Rattle.aql_grammar.specs.Input.{ReadsAs};
ghost use Rattle.aql_parse.specs.Deeper.{ReadsDeeper};
ghost use Rattle.aql_parse.specs.Phrases.{return_part};
ghost use Rattle.aql_tree.specs.View.{tree, query_tree};
ghost use Rattle.aql_grammar.specs.Reader as reader;

use crate::parser::Parser;
use aql_grammar::{Cursor, ParseFault};
use aql_lex::Keyword;
use aql_tree::{Expr, Query};
use aql_value::Names;
use std::alloc::Global;

impl<F: Fn(Global, &mut Cursor<'_>, usize, bool) -> Result<Expr, ParseFault>> Parser<F> {
    // What stands after RETURN: whether there is a DISTINCT, and the expression.
    fn return_part(&self, tokens: &mut Cursor<'_>) -> Result<(bool, Expr), ParseFault>
        requires { ReadsDeeper self.now.depth (F.pre self.now.deeper) (F.post self.now.deeper) }
        ensures { ReadsAs (λ r. (r.0, tree r.1)) (return_part (reader.expr self.now.depth
            self.now.inside) tokens.old) result tokens.new }
    {
        let distinct = tokens.eat_keyword(Keyword::Distinct);
        let result = self.expr(tokens)?;
        Ok((distinct, result))
    }

    /// A query, after the names of a WITH.
    #[tactic(auto, unfolding(aql_grammar::specs::Reader::query))]
    pub fn query(&self, tokens: &mut Cursor<'_>, with: Names) -> Result<Query, ParseFault>
        requires { ReadsDeeper self.now.depth (F.pre self.now.deeper) (F.post self.now.deeper) }
        ensures { ReadsAs query_tree (reader.query (reader.expr self.now.depth) self.now.inside with
            tokens.old) result tokens.new }
    {
        let clauses = self.clauses(tokens)?;
        tokens.expect_keyword(Keyword::Return)?;
        let (distinct, result) = self.return_part(tokens)?;
        Ok(Query::new(self.alloc, with, clauses, distinct, result)?)
    }
}
