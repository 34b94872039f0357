//! The traversals of FOR.

ghost use Rattle.aql_grammar.specs.Input.{ReadsAs};
ghost use Rattle.aql_grammar.specs.Names.{traversal_names};
ghost use Rattle.aql_parse.specs.Deeper.{ReadsDeeper};
ghost use Rattle.aql_parse.specs.inner.Shapes.{shape_of, shape_with};
ghost use Rattle.aql_tree.specs.Build.{default_options, shape_by_names};
ghost use Rattle.aql_tree.specs.View.{tree, clause_tree, member_part, traversal_clause, options_part};
ghost use Rattle.aql_tree.specs.View.{traversal_part};
ghost use Rattle.std.specs.Prelude.{◌≡◌, map, option_map};
ghost use Rattle.aql_grammar.specs.Reader as reader;
ghost use Rattle.aql_tree.specs.Build as build;

use crate::parser::Parser;
use aql_grammar::{Cursor, Depth, ParseFault, TraversalNames};
use aql_lex::Symbol;
use aql_tree::{
    Clause, Direction, Expr, Fields, Ident, Options, Traversal, UniqueEdges, UniqueVertices,
};
use aql_value::{Names, Seq, Text};
use std::alloc::Global;

fn ident_of(name: Option<Text>) -> Option<Ident>
    ensures { result ≡ build.maybe_name name }
{
    match name {
        Some(name) => Some(Ident::Name(name)),
        None => None,
    }
}

// What a traversal says beside its expressions and its edge collections.
#[derive(Drop)]
struct Shape {
    vertex: Ident,
    edge: Option<Ident>,
    path: Option<Ident>,
    depth: Depth,
    direction: Direction,
}

// Options as they are written: settings alone.
fn options_of(settings: Fields) -> Options
    ensures { options_part result ≡ (map member_part settings, default_options) }
{
    Options {
        settings,
        edges: UniqueEdges::Path,
        vertices: UniqueVertices::None,
        bfs: false,
    }
}

fn traversal_of(
    shape: Shape,
    start: Expr,
    collections: Names,
    prune: Option<Expr>,
    options: Options,
) -> Traversal
    ensures { traversal_part result ≡ (
      shape_with shape (options_part options).1,
      tree start,
      collections,
      option_map tree prune,
      (options_part options).0,
    ) }
{
    Traversal {
        vertex: shape.vertex,
        edge: shape.edge,
        path: shape.path,
        min: shape.depth.least,
        max: shape.depth.greatest,
        direction: shape.direction,
        start,
        collections,
        prune,
        options,
    }
}

fn traversal_node(traversal: Traversal) -> Clause
    ensures { clause_tree result ≡ traversal_clause (traversal_part traversal) }
{
    Clause::Traversal(traversal)
}

fn traversal_clause(
    shape: Shape,
    start: Expr,
    collections: Names,
    prune: Option<Expr>,
    settings: Fields,
) -> Clause
    ensures { clause_tree result ≡ traversal_clause (
      shape_of shape,
      tree start,
      collections,
      option_map tree prune,
      map member_part settings,
    ) }
{
    let options = options_of(settings);
    traversal_node(traversal_of(shape, start, collections, prune, options))
}

fn traversal_shape(names: TraversalNames, depth: Depth, direction: Direction) -> Shape
    ensures { shape_of result ≡ shape_by_names (traversal_names names) depth.least depth.greatest
        direction }
{
    Shape {
        vertex: Ident::Name(names.vertex),
        edge: ident_of(names.edge),
        path: ident_of(names.path),
        depth,
        direction,
    }
}

impl<F: Fn(Global, &mut Cursor<'_>, usize, bool) -> Result<Expr, ParseFault>> Parser<F> {
    #[tactic(auto, unfolding(aql_grammar::specs::Reader::prune))]
    fn prune(&self, tokens: &mut Cursor<'_>) -> Result<Option<Expr>, ParseFault>
        requires { ReadsDeeper self.now.depth (F.pre self.now.deeper) (F.post self.now.deeper) }
        ensures { ReadsAs (option_map tree) (reader.prune (reader.expr self.now.depth)
            self.now.inside tokens.old) result tokens.new }
    {
        if tokens.eat_word("PRUNE") {
            Ok(Some(self.expr(tokens)?))
        } else {
            Ok(None)
        }
    }

    #[tactic(auto, unfolding(aql_grammar::specs::Reader::settings))]
    fn settings(&self, tokens: &mut Cursor<'_>) -> Result<Fields, ParseFault>
        requires { ReadsDeeper self.now.depth (F.pre self.now.deeper) (F.post self.now.deeper) }
        ensures { ReadsAs (map member_part) (reader.settings (reader.expr self.now.depth)
            self.now.inside tokens.old) result tokens.new }
    {
        if tokens.eat_word("OPTIONS") {
            tokens.expect(Symbol::OpenBrace)?;
            self.members(tokens)
        } else {
            Ok(Seq::new(self.alloc))
        }
    }

    /// A traversal, after IN.
    #[tactic(auto, unfolding(aql_grammar::specs::Reader::traversal))]
    pub fn traversal(
        &self,
        tokens: &mut Cursor<'_>,
        names: TraversalNames,
    ) -> Result<Clause, ParseFault>
        requires { ReadsDeeper self.now.depth (F.pre self.now.deeper) (F.post self.now.deeper) }
        ensures { ReadsAs clause_tree (reader.traversal (reader.expr self.now.depth)
            self.now.inside (traversal_names names) tokens.old) result tokens.new }
    {
        let depth = tokens.traversal_depth()?;
        let direction = tokens.traversal_direction()?;
        let shape = traversal_shape(names, depth, direction);
        let start = self.expr(tokens)?;
        let collections = tokens.names(self.alloc)?;
        let prune = self.prune(tokens)?;
        let settings = self.settings(tokens)?;
        Ok(traversal_clause(shape, start, collections, prune, settings))
    }
}
