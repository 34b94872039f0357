//! From tokens to the query that they spell.

ghost use Rattle.aql_grammar.specs.Input.{ReadsAs};
ghost use Rattle.aql_grammar.specs.Kinds.{kinds_of};
ghost use Rattle.aql_grammar.specs.Limits.{nesting, marks};
ghost use Rattle.aql_grammar.specs.Tree.{Tree};
ghost use Rattle.aql_lex.specs.declared.kinds.TokenKind.{TokenKind};
ghost use Rattle.aql_parse.specs.Parses.{WithinLimits, IsShallow, HasNoTree, TraversesTooDeep};
ghost use Rattle.aql_parse.specs.Parses.{Gives, Parses, ReadsWhole};
ghost use Rattle.aql_tree.specs.Tree.{QueryTree};
ghost use Rattle.aql_tree.specs.View.{tree, query_tree};
ghost use Rattle.std.specs.Prelude.{◌≡◌, ◌≤◌, ◌<◌, IfOk, IsErrOf, List};
ghost use Rattle.aql_grammar.specs.Reader as reader;

use crate::depths::traversals_within;
use crate::parser::Parser;
use aql_grammar::{Cursor, ParseFault, has_too_many_marks, nests_too_deep};
use aql_lex::{Keyword, Tokens};
use aql_tree::{Expr, Query};
use aql_value::Seq;
use std::alloc::Global;

// An expression in which at most `depth` nest.
fn expr(
    alloc: Global,
    tokens: &mut Cursor<'_>,
    depth: usize,
    inside: bool,
) -> Result<Expr, ParseFault>
    ensures { ReadsAs tree (reader.expr depth inside tokens.old) result tokens.new }
{
    if depth == 0 {
        return Err(ParseFault::NotInGrammar);
    }
    let parser = Parser {
        alloc,
        depth: depth - 1,
        inside,
        deeper: expr,
    };
    parser.conditional(tokens)
}

// A whole query, after the list of WITH if there is one.
#[tactic(auto, unfolding(aql_grammar::specs::Reader::top))]
fn query_after_with(
    alloc: Global,
    tokens: &mut Cursor<'_>,
    depth: usize,
) -> Result<Query, ParseFault>
    ensures { ReadsAs query_tree (reader.top depth tokens.old) result tokens.new }
{
    let parser = Parser {
        alloc,
        depth,
        inside: false,
        deeper: expr,
    };
    if tokens.eat_keyword(Keyword::With) {
        let names = tokens.names(alloc)?;
        parser.query(tokens, names)
    } else {
        parser.query(tokens, Seq::new(alloc))
    }
}

// The query that all the tokens spell.
#[tactic(auto, unfolding(aql_grammar::specs::Reader::whole_query))]
fn whole_query(alloc: Global, tokens: &Tokens) -> Result<Query, ParseFault>
    ensures { ReadsWhole (reader.whole_query (kinds_of tokens.now)) result }
{
    let mut cursor = Cursor::new(tokens.as_slice());
    let depth = cursor.remaining();
    let query = query_after_with(alloc, &mut cursor, depth)?;
    if cursor.remaining() == 0 {
        Ok(query)
    } else {
        Err(ParseFault::NotInGrammar)
    }
}

/// The most edges from the start of a traversal.
const TRAVERSAL_DEPTH: u32 = 32;

// The tree within the limits, or the first cause of a refusal.
#[tactic(auto, using(aql_grammar::specs::laws::TreeLaws::whole_tree, crate::proofs::ParseLaws::refused))]
fn judge(alloc: Global, tokens: &Tokens) -> Result<Query, ParseFault>
    ensures { Parses (kinds_of tokens.now) result }
{
    if nests_too_deep(alloc, tokens.as_slice())? {
        return Err(ParseFault::TooDeep);
    }
    if has_too_many_marks(tokens.as_slice()) {
        return Err(ParseFault::TooManyClauses);
    }
    let query = whole_query(alloc, tokens)?;
    if traversals_within(&query, TRAVERSAL_DEPTH) {
        Ok(query)
    } else {
        Err(ParseFault::TraversalTooDeep)
    }
}

/// The syntax tree of a list of tokens.
///
/// At most 64 brackets, ternaries (`?`) and signs (`!`, NOT, `+`, `-`) may be open at once, at most
/// 256 clause words and `=` may stand in the list, and no traversal may go deeper than 32 edges.
/// Where several causes of a refusal hold, the first in the order of `ParseFault` is told.
pub fn parse(alloc: Global, tokens: &Tokens) -> Result<Query, ParseFault>
    // What is given is the tree of the tokens, within all limits.
    ensures tree { IfOk result (λ q. Tree (kinds_of tokens.now) (query_tree q)) }
    ensures within { IfOk result (λ q. WithinLimits (kinds_of tokens.now)
        × IsShallow (query_tree q)) }
    // A tree within the limits is given, unless memory runs out.
    ensures only { (q : QueryTree) → Tree (kinds_of tokens.now) q
        → WithinLimits (kinds_of tokens.now) → IsShallow q → Gives q result }
    // Each refusal has its cause, and none that is told before it.
    ensures too_deep { IsErrOf result ParseFault.TooDeep → 64 < nesting (kinds_of tokens.now) }
    ensures too_many_clauses { IsErrOf result ParseFault.TooManyClauses
        → (nesting (kinds_of tokens.now) ≤ 64) × (256 < marks (kinds_of tokens.now)) }
    ensures none { IsErrOf result ParseFault.NotInGrammar → WithinLimits (kinds_of tokens.now)
        × HasNoTree (kinds_of tokens.now) }
    ensures traversal_too_deep { IsErrOf result ParseFault.TraversalTooDeep
        → WithinLimits (kinds_of tokens.now) × TraversesTooDeep (kinds_of tokens.now) }
{
    judge(alloc, tokens)
}

/// No list of tokens has two trees.
pub fn one_tree()
    ensures { (tokens : List TokenKind) (x y : QueryTree) → Tree tokens x → Tree tokens y → x ≡ y }
{}
