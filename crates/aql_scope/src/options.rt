//! The settings of a traversal's OPTIONS.

ghost use Rattle.std.specs.Prelude.{◌≡◌};
ghost use Rattle.aql_value.specs.View.{datum_of};
ghost use Rattle.aql_scope.specs.Options as spec;

use aql_tree::{UniqueEdges, UniqueVertices};
use aql_value::Value;

/// The settings that are written.
#[derive(Clone, Copy)]
pub struct Written {
    pub edges: Option<UniqueEdges>,
    pub vertices: Option<UniqueVertices>,
    /// `order`: whether it is "bfs".
    pub order: Option<bool>,
    /// `bfs`.
    pub bfs: Option<bool>,
}

fn edges_in(value: &Value) -> Option<UniqueEdges>
    ensures { result ≡ spec.edges_in (datum_of value.now) }
{
    match value {
        Value::Text(text) if text.as_str() == "path" => Some(UniqueEdges::Path),
        Value::Text(text) if text.as_str() == "none" => Some(UniqueEdges::None),
        _ => None,
    }
}

fn vertices_in(value: &Value) -> Option<UniqueVertices>
    ensures { result ≡ spec.vertices_in (datum_of value.now) }
{
    match value {
        Value::Text(text) if text.as_str() == "none" => Some(UniqueVertices::None),
        Value::Text(text) if text.as_str() == "path" => Some(UniqueVertices::Path),
        Value::Text(text) if text.as_str() == "global" => Some(UniqueVertices::Global),
        _ => None,
    }
}

fn order_in(value: &Value) -> Option<bool>
    ensures { result ≡ spec.order_in (datum_of value.now) }
{
    match value {
        Value::Text(text) if text.as_str() == "bfs" => Some(true),
        Value::Text(text) if text.as_str() == "dfs" => Some(false),
        _ => None,
    }
}

fn bfs_in(value: &Value) -> Option<bool>
    ensures { result ≡ spec.bfs_in (datum_of value.now) }
{
    match value {
        Value::Bool(bfs) => Some(*bfs),
        _ => None,
    }
}

impl Written {
    /// Nothing is written.
    pub fn nothing() -> Written
        ensures { result ≡ spec.no_settings }
    {
        Written {
            edges: None,
            vertices: None,
            order: None,
            bfs: None,
        }
    }

    /// These settings with one more; `None` where its name or its value is none, or it is there
    /// already.
    pub fn with(self, name: &str, value: &Value) -> Option<Written>
        ensures { result ≡ spec.with_setting name.now (datum_of value.now) self }
    {
        let mut now = self;
        if name == "uniqueEdges" {
            now.edges = edges_in(value);
            if self.edges.is_some() || now.edges.is_none() {
                return None;
            }
        } else if name == "uniqueVertices" {
            now.vertices = vertices_in(value);
            if self.vertices.is_some() || now.vertices.is_none() {
                return None;
            }
        } else if name == "order" {
            now.order = order_in(value);
            if self.order.is_some() || now.order.is_none() {
                return None;
            }
        } else if name == "bfs" {
            now.bfs = bfs_in(value);
            if self.bfs.is_some() || now.bfs.is_none() {
                return None;
            }
        } else {
            return None;
        }
        Some(now)
    }

    /// Whether `order` and `bfs` say the same, where both are there.
    pub fn agrees(&self) -> bool
        ensures { result ≡ spec.agree self.now.order self.now.bfs }
    {
        match (self.order, self.bfs) {
            (Some(order), Some(bfs)) => order == bfs,
            _ => true,
        }
    }

    /// Whether the traversal goes breadth first.
    pub fn is_breadth(&self) -> bool
        ensures { result ≡ spec.is_breadth_first self.now.order self.now.bfs }
    {
        match (self.order, self.bfs) {
            (Some(order), _) => order,
            (None, Some(bfs)) => bfs,
            _ => false,
        }
    }

    /// Whether "global" is not written, or goes with breadth first.
    pub fn fits(&self) -> bool
        ensures { result ≡ spec.global_fits self.now.vertices
            (spec.is_breadth_first self.now.order self.now.bfs) }
    {
        match self.vertices {
            Some(UniqueVertices::Global) => self.is_breadth(),
            _ => true,
        }
    }
}
