//! Clauses.

ghost use Rattle.aql_grammar.specs.Input.{ReadsAs, comma_list, comma_list_onto};
ghost use Rattle.aql_parse.specs.Deeper.{ReadsDeeper};
ghost use Rattle.aql_parse.specs.inner.Shapes.{lone_vertex};
ghost use Rattle.aql_tree.specs.View.{clause_tree, key_part};
ghost use Rattle.std.specs.Prelude.{◌≡◌, ◌∷◌, ◌++◌, IfOk, map, []};
ghost use Rattle.aql_grammar.specs.Reader as reader;

use crate::parser::Parser;
use aql_grammar::{Cursor, ParseFault, TraversalNames, begins_clause};
use aql_lex::{Keyword, Symbol, TokenKind};
use aql_tree::{Clause, Clauses, Expr, Ident, Key, Keys, Let};
use aql_value::{OutOfMemory, Seq, Text};
use std::alloc::Global;

// The variable, where no edge is named beside it.
fn lone_vertex(names: TraversalNames) -> Option<Text>
    ensures { result ≡ lone_vertex names.vertex names.edge }
{
    match names.edge {
        Some(_) => None,
        None => Some(names.vertex),
    }
}

// A clause after those that were found.
fn with_clause(mut found: Clauses, clause: Clause) -> Result<Clauses, OutOfMemory>
    ensures { IfOk result (λ cs. map clause_tree cs ≡ map clause_tree found ++ clause_tree clause ∷
        []) }
{
    found.push(clause)?;
    Ok(found)
}

impl<F: Fn(Global, &mut Cursor<'_>, usize, bool) -> Result<Expr, ParseFault>> Parser<F> {
    #[tactic(auto, unfolding(aql_grammar::specs::Reader::let_clause))]
    fn let_clause(&self, tokens: &mut Cursor<'_>) -> Result<Clause, ParseFault>
        requires { ReadsDeeper self.now.depth (F.pre self.now.deeper) (F.post self.now.deeper) }
        ensures { ReadsAs clause_tree (reader.let_clause (reader.expr self.now.depth)
            self.now.inside tokens.old) result tokens.new }
    {
        let name = tokens.name(self.alloc)?;
        tokens.expect(Symbol::Assign)?;
        let expr = self.expr(tokens)?;
        let var = Ident::Name(name);
        Ok(Clause::Let { var, expr })
    }

    // The assignments of LET, one clause each, after those that were found.
    fn let_clauses(
        &self,
        tokens: &mut Cursor<'_>,
        mut found: Clauses,
    ) -> Result<Clauses, ParseFault>
        requires { ReadsDeeper self.now.depth (F.pre self.now.deeper) (F.post self.now.deeper) }
        ensures { ReadsAs (map clause_tree) (comma_list_onto (reader.let_clause (reader.expr
            self.now.depth) self.now.inside) (map clause_tree found) tokens.old) result tokens.new }
    {
        for _turn in 0..tokens.remaining() {
            found.push(self.let_clause(tokens)?)?;
            if !tokens.eat(Symbol::Comma) {
                return Ok(found);
            }
        }
        Err(ParseFault::NotInGrammar)
    }

    // A key of SORT with its direction.
    #[tactic(auto, unfolding(aql_grammar::specs::Reader::sort_key))]
    fn sort_key(&self, tokens: &mut Cursor<'_>) -> Result<Key, ParseFault>
        requires { ReadsDeeper self.now.depth (F.pre self.now.deeper) (F.post self.now.deeper) }
        ensures { ReadsAs key_part (reader.sort_key (reader.expr self.now.depth) self.now.inside
            tokens.old) result tokens.new }
    {
        let expr = self.expr(tokens)?;
        if tokens.eat_keyword(Keyword::Desc) {
            return Ok(Key::new(expr, true));
        }
        tokens.eat_keyword(Keyword::Asc);
        Ok(Key::new(expr, false))
    }

    fn sort_keys(&self, tokens: &mut Cursor<'_>) -> Result<Keys, ParseFault>
        requires { ReadsDeeper self.now.depth (F.pre self.now.deeper) (F.post self.now.deeper) }
        ensures { ReadsAs (map key_part) (comma_list (reader.sort_key (reader.expr self.now.depth)
            self.now.inside) tokens.old) result tokens.new }
    {
        let mut found = Seq::new(self.alloc);
        for _turn in 0..tokens.remaining() {
            found.push(self.sort_key(tokens)?)?;
            if !tokens.eat(Symbol::Comma) {
                return Ok(found);
            }
        }
        Err(ParseFault::NotInGrammar)
    }

    // After FOR.
    #[tactic(auto, unfolding(aql_grammar::specs::Reader::for_clause))]
    fn for_clause(&self, tokens: &mut Cursor<'_>) -> Result<Clause, ParseFault>
        requires { ReadsDeeper self.now.depth (F.pre self.now.deeper) (F.post self.now.deeper) }
        ensures { ReadsAs clause_tree (reader.for_clause (reader.expr self.now.depth)
            self.now.inside tokens.old) result tokens.new }
    {
        let names = tokens.traversal_names(self.alloc)?;
        tokens.expect_keyword(Keyword::In)?;
        if tokens.begins_traversal() {
            return self.traversal(tokens, names);
        }
        let name = lone_vertex(names).ok_or(ParseFault::NotInGrammar)?;
        let list = self.expr(tokens)?;
        Ok(Clause::For {
            var: Ident::Name(name),
            list,
        })
    }

    // A clause, after those that were found.
    #[tactic(auto, unfolding(aql_grammar::specs::Reader::clause))]
    fn clause(&self, tokens: &mut Cursor<'_>, found: Clauses) -> Result<Clauses, ParseFault>
        requires { ReadsDeeper self.now.depth (F.pre self.now.deeper) (F.post self.now.deeper) }
        ensures { ReadsAs (map clause_tree) (reader.clause (reader.expr self.now.depth)
            self.now.inside (map clause_tree found) tokens.old) result tokens.new }
    {
        let Some(TokenKind::Keyword(word)) = tokens.peek() else {
            return Err(ParseFault::NotInGrammar);
        };
        let word = *word;
        tokens.take();
        let clause = match word {
            Keyword::For => self.for_clause(tokens)?,
            Keyword::Filter => Clause::Filter(self.expr(tokens)?),
            Keyword::Let => return self.let_clauses(tokens, found),
            Keyword::Sort => Clause::Sort(self.sort_keys(tokens)?),
            Keyword::Limit => tokens.limit()?,
            Keyword::Collect => self.collect(tokens)?,
            _ => return Err(ParseFault::NotInGrammar),
        };
        Ok(with_clause(found, clause)?)
    }

    /// The clauses that stand there, if there are any.
    pub fn clauses(&self, tokens: &mut Cursor<'_>) -> Result<Clauses, ParseFault>
        requires { ReadsDeeper self.now.depth (F.pre self.now.deeper) (F.post self.now.deeper) }
        ensures { ReadsAs (map clause_tree) (reader.clauses (reader.expr self.now.depth)
            self.now.inside tokens.old) result tokens.new }
    {
        let mut found = Seq::new(self.alloc);
        for _turn in 0..tokens.remaining() {
            if !begins_clause(tokens.peek()) {
                return Ok(found);
            }
            found = self.clause(tokens, found)?;
        }
        Ok(found)
    }
}
