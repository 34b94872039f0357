//! The options that the settings of a traversal choose.

ghost use Rattle.std.specs.Prelude.{◌≡◌, [], map};
ghost use Rattle.aql_value.specs.Datum.{text};
ghost use Rattle.aql_value.specs.Contents.{same};
ghost use Rattle.aql_value.specs.View.{datum_of};
ghost use Rattle.aql_tree.specs.Build.{default_options};
ghost use Rattle.aql_tree.specs.View.{members, member_part, options_part};
ghost use Rattle.aql_meaning.specs.Options as spec;

use aql_tree::{Expr, Field, Options, UniqueEdges, UniqueVertices};
use aql_value::{Seq, Text, Value};
use std::alloc::Global;

/// What the settings of a traversal choose.
#[derive(Clone, Copy)]
struct Chosen {
    edges: UniqueEdges,
    vertices: UniqueVertices,
    bfs: bool,
}

/// The options of a traversal: what its settings write, and its own where none is written.
pub fn chosen_options(options: &Options, alloc: Global) -> Options
    ensures { options_part result ≡ (
      [],
      spec.options_of (members (map member_part options.now.settings)) (options_part options.now).1,
    ) }
{
    let chosen = all_chosen(options);
    Options {
        settings: Seq::new(alloc),
        edges: chosen.edges,
        vertices: chosen.vertices,
        bfs: chosen.bfs,
    }
}

fn all_chosen(options: &Options) -> Chosen
    ensures { record { edges = result.edges; vertices = result.vertices; bfs = result.bfs }
        ≡ spec.options_of (members (map member_part options.now.settings))
        (options_part options.now).1 }
{
    if options.settings.len() == 0 {
        return Chosen {
            edges: options.edges,
            vertices: options.vertices,
            bfs: options.bfs,
        };
    }
    chosen_by(options.settings.as_slice())
}

fn chosen_by(settings: &[Field]) -> Chosen
    ensures { record { edges = result.edges; vertices = result.vertices; bfs = result.bfs }
        ≡ spec.set_all default_options (members (map member_part settings.now)) }
{
    let mut chosen = Chosen {
        edges: UniqueEdges::Path,
        vertices: UniqueVertices::None,
        bfs: false,
    };
    for setting in settings {
        if let Field::Named { name, value } = setting {
            if let Expr::Lit(value) = value {
                chosen = chosen.with(name, value);
            }
        }
    }
    chosen
}

impl Chosen {
    // One more setting; the last of a name counts.
    fn with(self, name: &Text, value: &Value) -> Chosen
        ensures { record { edges = result.edges; vertices = result.vertices; bfs = result.bfs }
            ≡ spec.set_by name.now (datum_of value.now)
            (record { edges = self.edges; vertices = self.vertices; bfs = self.bfs }) }
    {
        let mut chosen = self;
        if name.as_str() == "uniqueEdges" {
            chosen.edges = edges_setting(value);
        } else if name.as_str() == "uniqueVertices" {
            chosen.vertices = vertices_setting(value);
        } else if name.as_str() == "order" {
            chosen.bfs = is_text(value, "bfs");
        } else if name.as_str() == "bfs" {
            chosen.bfs = matches!(value, Value::Bool(true));
        }
        chosen
    }
}

fn edges_setting(value: &Value) -> UniqueEdges
    ensures { result ≡ spec.edges_setting (datum_of value.now) }
{
    if is_text(value, "none") {
        UniqueEdges::None
    } else {
        UniqueEdges::Path
    }
}

fn vertices_setting(value: &Value) -> UniqueVertices
    ensures { result ≡ spec.vertices_setting (datum_of value.now) }
{
    if is_text(value, "global") {
        UniqueVertices::Global
    } else if is_text(value, "path") {
        UniqueVertices::Path
    } else {
        UniqueVertices::None
    }
}

// Whether the value is this text.
fn is_text(value: &Value, meant: &str) -> bool
    ensures { result ≡ same (datum_of value.now) (text meant.now) }
{
    match value {
        Value::Text(text) => text.as_str() == meant,
        _ => false,
    }
}
