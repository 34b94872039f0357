//! Operators, directions and options as a query writes them.

ghost use Rattle.std.specs.Prelude.{◌≡◌};
ghost use Rattle.aql_show.specs.Words as spec;

use aql_plan::IndexKind;
use aql_tree::{Direction, QuantKind, UniqueEdges, UniqueVertices};
use aql_value::{BinOp, UnaryOp};

pub fn operator_text(op: BinOp) -> &'static [u8]
    ensures { result.now ≡ spec.operator_text op }
{
    match op {
        BinOp::And => b"&&",
        BinOp::Or => b"||",
        BinOp::Eq => b"==",
        BinOp::Ne => b"!=",
        BinOp::Lt => b"<",
        BinOp::Le => b"<=",
        BinOp::Gt => b">",
        BinOp::Ge => b">=",
        BinOp::IsIn => b"IN",
        BinOp::NotIn => b"NOT IN",
        BinOp::Like => b"LIKE",
        BinOp::NotLike => b"NOT LIKE",
        BinOp::Add => b"+",
        BinOp::Sub => b"-",
        BinOp::Mul => b"*",
        BinOp::Div => b"/",
        BinOp::Rem => b"%",
    }
}

pub fn sign_text(op: UnaryOp) -> &'static [u8]
    ensures { result.now ≡ spec.sign_text op }
{
    match op {
        UnaryOp::Plus => b"+",
        UnaryOp::Minus => b"-",
        UnaryOp::Not => b"!",
    }
}

pub fn quantifier_text(kind: QuantKind) -> &'static [u8]
    ensures { result.now ≡ spec.quantifier_text kind }
{
    match kind {
        QuantKind::All => b"ALL",
        QuantKind::Any => b"ANY",
        QuantKind::None => b"NONE",
    }
}

pub fn direction_text(direction: Direction) -> &'static [u8]
    ensures { result.now ≡ spec.direction_text direction }
{
    match direction {
        Direction::Outbound => b"OUTBOUND",
        Direction::Inbound => b"INBOUND",
        Direction::Any => b"ANY",
    }
}

pub fn edges_text(edges: UniqueEdges) -> &'static [u8]
    ensures { result.now ≡ spec.edges_text edges }
{
    match edges {
        UniqueEdges::Path => b"path",
        UniqueEdges::None => b"none",
    }
}

pub fn vertices_text(vertices: UniqueVertices) -> &'static [u8]
    ensures { result.now ≡ spec.vertices_text vertices }
{
    match vertices {
        UniqueVertices::None => b"none",
        UniqueVertices::Path => b"path",
        UniqueVertices::Global => b"global",
    }
}

pub fn order_text(bfs: bool) -> &'static [u8]
    ensures { result.now ≡ spec.order_text bfs }
{
    if bfs { b"bfs" } else { b"dfs" }
}

pub fn kind_text(kind: IndexKind) -> &'static [u8]
    ensures { result.now ≡ spec.kind_text kind }
{
    match kind {
        IndexKind::Primary => b"primary",
        IndexKind::Edge => b"edge",
        IndexKind::Sorted => b"sorted",
    }
}

pub fn sorting_text(descending: bool) -> &'static [u8]
    ensures { result.now ≡ spec.sorting_text descending }
{
    if descending { b" DESC" } else { b" ASC" }
}
