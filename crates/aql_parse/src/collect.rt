//! The parts of COLLECT.

ghost use Rattle.aql_grammar.specs.Clauses.{says};
ghost use Rattle.aql_grammar.specs.Input.{ReadsAs, comma_list};
ghost use Rattle.aql_parse.specs.Deeper.{ReadsDeeper};
ghost use Rattle.aql_tree.specs.View.{tree, clause_tree, let_part, aggregate_part};
ghost use Rattle.aql_tree.specs.View.{into_part};
ghost use Rattle.std.specs.Prelude.{◌≡◌, ◌∷◌, IfOk, map, option_map, option_copied, codes, None};
ghost use Rattle.std.specs.Prelude.{[]};
ghost use Rattle.aql_grammar.specs.Reader as reader;
ghost use Rattle.aql_tree.specs.Build as build;

use crate::parser::Parser;
use aql_grammar::{Cursor, ParseFault, is_name};
use aql_lex::{Keyword, Symbol};
use aql_tree::{AggregateItem, Aggregates, Clause, Expr, Ident, Into, Let, Lets};
use aql_value::{OutOfMemory, Seq, Text};
use std::alloc::Global;

// The aggregate that WITH COUNT INTO stands for.
fn count_aggregate(alloc: Global, name: Text) -> Result<Aggregates, OutOfMemory>
    ensures { IfOk result
        (λ gs. map aggregate_part gs ≡ build.aggregate_as name (codes "LENGTH") None
        ∷ []) }
{
    let mut aggregates = Seq::new(alloc);
    let length = Text::new(alloc, "LENGTH")?;
    aggregates.push(AggregateItem::new(Ident::Name(name), length, None))?;
    Ok(aggregates)
}

// Whether COLLECT says anything.
fn says(groups: &Lets, aggregates: &Aggregates, into: Option<&Into>) -> bool
    ensures { result ≡ says (map let_part groups.now) (map aggregate_part aggregates.now)
        (option_map into_part (option_copied into.entry)) }
{
    groups.len() > 0 || aggregates.len() > 0 || into.is_some()
}

impl<F: Fn(Global, &mut Cursor<'_>, usize, bool) -> Result<Expr, ParseFault>> Parser<F> {
    #[tactic(auto, unfolding(aql_grammar::specs::Reader::assignment))]
    fn assignment(&self, tokens: &mut Cursor<'_>) -> Result<Let, ParseFault>
        requires { ReadsDeeper self.now.depth (F.pre self.now.deeper) (F.post self.now.deeper) }
        ensures { ReadsAs let_part (reader.assignment (reader.expr self.now.depth) self.now.inside
            tokens.old) result tokens.new }
    {
        let name = tokens.name(self.alloc)?;
        tokens.expect(Symbol::Assign)?;
        let expr = self.expr(tokens)?;
        Ok(Let::new(Ident::Name(name), expr))
    }

    fn assignments(&self, tokens: &mut Cursor<'_>) -> Result<Lets, ParseFault>
        requires { ReadsDeeper self.now.depth (F.pre self.now.deeper) (F.post self.now.deeper) }
        ensures { ReadsAs (map let_part) (comma_list (reader.assignment (reader.expr self.now.depth)
            self.now.inside) tokens.old) result tokens.new }
    {
        let mut found = Seq::new(self.alloc);
        for _turn in 0..tokens.remaining() {
            found.push(self.assignment(tokens)?)?;
            if !tokens.eat(Symbol::Comma) {
                return Ok(found);
            }
        }
        Err(ParseFault::NotInGrammar)
    }

    #[tactic(auto, unfolding(aql_grammar::specs::Reader::groups))]
    fn groups(&self, tokens: &mut Cursor<'_>) -> Result<Lets, ParseFault>
        requires { ReadsDeeper self.now.depth (F.pre self.now.deeper) (F.post self.now.deeper) }
        ensures { ReadsAs (map let_part) (reader.groups (reader.expr self.now.depth) self.now.inside
            tokens.old) result tokens.new }
    {
        if is_name(tokens.peek()) {
            self.assignments(tokens)
        } else {
            Ok(Seq::new(self.alloc))
        }
    }

    // After the opening parenthesis of an aggregate.
    #[tactic(auto, unfolding(aql_grammar::specs::Reader::optional_argument))]
    fn optional_argument(&self, tokens: &mut Cursor<'_>) -> Result<Option<Expr>, ParseFault>
        requires { ReadsDeeper self.now.depth (F.pre self.now.deeper) (F.post self.now.deeper) }
        ensures { ReadsAs (option_map tree) (reader.optional_argument (reader.expr self.now.depth)
            self.now.inside tokens.old) result tokens.new }
    {
        if tokens.eat(Symbol::CloseParen) {
            return Ok(None);
        }
        Ok(Some(self.expr_up_to(tokens, Symbol::CloseParen)?))
    }

    #[tactic(auto, unfolding(aql_grammar::specs::Reader::aggregate))]
    fn aggregate(&self, tokens: &mut Cursor<'_>) -> Result<AggregateItem, ParseFault>
        requires { ReadsDeeper self.now.depth (F.pre self.now.deeper) (F.post self.now.deeper) }
        ensures { ReadsAs aggregate_part (reader.aggregate (reader.expr self.now.depth)
            self.now.inside tokens.old) result tokens.new }
    {
        let var = tokens.name(self.alloc)?;
        tokens.expect(Symbol::Assign)?;
        let name = tokens.word(self.alloc)?;
        tokens.expect(Symbol::OpenParen)?;
        let arg = self.optional_argument(tokens)?;
        Ok(AggregateItem::new(Ident::Name(var), name, arg))
    }

    fn aggregate_list(&self, tokens: &mut Cursor<'_>) -> Result<Aggregates, ParseFault>
        requires { ReadsDeeper self.now.depth (F.pre self.now.deeper) (F.post self.now.deeper) }
        ensures { ReadsAs (map aggregate_part) (comma_list (reader.aggregate (reader.expr
            self.now.depth) self.now.inside) tokens.old) result tokens.new }
    {
        let mut found = Seq::new(self.alloc);
        for _turn in 0..tokens.remaining() {
            found.push(self.aggregate(tokens)?)?;
            if !tokens.eat(Symbol::Comma) {
                return Ok(found);
            }
        }
        Err(ParseFault::NotInGrammar)
    }

    #[tactic(auto, unfolding(aql_grammar::specs::Reader::aggregates))]
    fn aggregates(&self, tokens: &mut Cursor<'_>) -> Result<Aggregates, ParseFault>
        requires { ReadsDeeper self.now.depth (F.pre self.now.deeper) (F.post self.now.deeper) }
        ensures { ReadsAs (map aggregate_part) (reader.aggregates (reader.expr self.now.depth)
            self.now.inside tokens.old) result tokens.new }
    {
        if tokens.eat_keyword(Keyword::Aggregate) {
            self.aggregate_list(tokens)
        } else {
            Ok(Seq::new(self.alloc))
        }
    }

    // What stands after INTO.
    #[tactic(auto, unfolding(aql_grammar::specs::Reader::into_part))]
    fn into_part(&self, tokens: &mut Cursor<'_>) -> Result<Into, ParseFault>
        requires { ReadsDeeper self.now.depth (F.pre self.now.deeper) (F.post self.now.deeper) }
        ensures { ReadsAs into_part (reader.into_part (reader.expr self.now.depth) self.now.inside
            tokens.old) result tokens.new }
    {
        let var = Ident::Name(tokens.name(self.alloc)?);
        if tokens.eat(Symbol::Assign) {
            let what = self.expr(tokens)?;
            return Ok(Into::new(var, Some(what), Seq::new(self.alloc)));
        }
        if tokens.eat_word("KEEP") {
            let keep = tokens.names(self.alloc)?;
            return Ok(Into::new(var, None, keep));
        }
        Ok(Into::new(var, None, Seq::new(self.alloc)))
    }

    #[tactic(auto, unfolding(aql_grammar::specs::Reader::into))]
    fn into(&self, tokens: &mut Cursor<'_>) -> Result<Option<Into>, ParseFault>
        requires { ReadsDeeper self.now.depth (F.pre self.now.deeper) (F.post self.now.deeper) }
        ensures { ReadsAs (option_map into_part) (reader.into (reader.expr self.now.depth)
            self.now.inside tokens.old) result tokens.new }
    {
        if tokens.eat_keyword(Keyword::Into) {
            Ok(Some(self.into_part(tokens)?))
        } else {
            Ok(None)
        }
    }

    /// After COLLECT.
    #[tactic(auto, unfolding(aql_grammar::specs::Reader::collect))]
    pub fn collect(&self, tokens: &mut Cursor<'_>) -> Result<Clause, ParseFault>
        requires { ReadsDeeper self.now.depth (F.pre self.now.deeper) (F.post self.now.deeper) }
        ensures { ReadsAs clause_tree (reader.collect (reader.expr self.now.depth) self.now.inside
            tokens.old) result tokens.new }
    {
        let groups = self.groups(tokens)?;
        if tokens.eat_keyword(Keyword::With) {
            let name = tokens.count_name(self.alloc)?;
            let aggregates = count_aggregate(self.alloc, name)?;
            return Ok(Clause::collect(groups, aggregates, None));
        }
        let aggregates = self.aggregates(tokens)?;
        let into = self.into(tokens)?;
        let says = says(&groups, &aggregates, into.as_ref());
        let clause = Clause::collect(groups, aggregates, into);
        says.then_some(clause).ok_or(ParseFault::NotInGrammar)
    }
}
