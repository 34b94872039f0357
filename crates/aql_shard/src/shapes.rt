//! Which indexes a collection has.

ghost use Rattle.std.specs.Prelude.{◌≡◌, IfOk};
ghost use Rattle.aql_shard.specs.Known.{lookup, lookups, shapes};

use aql_doc::CollInfo;
use aql_plan::IndexKind;
use aql_tree::copy_texts;
use aql_value::{Names, OutOfMemory, Seq, Text};
use std::alloc::Global;

/// How an index finds documents, and by which attributes.
#[derive(Drop)]
pub(crate) struct Shape {
    pub(crate) kind: IndexKind,
    pub(crate) attributes: Names,
}

/// A list of shapes, in the order of the indexes.
pub(crate) type Shapes = Seq<Shape>;

fn lookup(alloc: Global, kind: IndexKind, name: &str) -> Result<Shape, OutOfMemory>
    ensures { IfOk result (λ shape. shape ≡ lookup kind name.now) }
{
    let mut attributes = Names::new(alloc);
    attributes.push(Text::new(alloc, name)?)?;
    Ok(Shape { kind, attributes })
}

// The lookups of a collection, by whether it has edges.
fn lookups(alloc: Global, edge: bool) -> Result<Shapes, OutOfMemory>
    ensures { IfOk result (λ all. all ≡ lookups edge) }
{
    let mut all = Shapes::new(alloc);
    all.push(lookup(alloc, IndexKind::Primary, "_key")?)?;
    all.push(lookup(alloc, IndexKind::Primary, "_id")?)?;
    if edge {
        all.push(lookup(alloc, IndexKind::Edge, "_from")?)?;
        all.push(lookup(alloc, IndexKind::Edge, "_to")?)?;
    }
    Ok(all)
}

/// The shapes of all indexes of a collection: its lookups, and then the sorted indexes as they were
/// declared.
pub(crate) fn shapes_of(alloc: Global, info: &CollInfo) -> Result<Shapes, OutOfMemory>
    ensures { IfOk result (λ all. all ≡ shapes info.now) }
{
    let mut all = lookups(alloc, info.edge)?;
    for attributes in info.indexes.as_slice() {
        all.push(Shape {
            kind: IndexKind::Sorted,
            attributes: copy_texts(alloc, attributes.as_slice())?,
        })?;
    }
    Ok(all)
}
