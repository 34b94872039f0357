//! A collection of a catalog.

ghost use Rattle.std.specs.Prelude.{◌≡◌, ◌<◌, length, slice_get, Some};
ghost use Rattle.aql_value.specs.View.{datum_of};
ghost use Rattle.aql_doc.specs.Held.{documents_at};
ghost use Rattle.aql_doc.specs.Limits.{IsDeclared};
ghost use Rattle.aql_shard.specs.Known.{shard_count};

use aql_doc::{Catalog, CollInfo};
use aql_value::{CollNo, DocNo, Items, Value};

/// How a declared collection was declared, and its documents.
pub(crate) fn collection_at(catalog: &Catalog, coll: CollNo) -> (&CollInfo, &Items)
    requires { coll.0 < length catalog.now }
    ensures held { slice_get catalog.now coll.0
        ≡ Some (record { info = result.0.now; documents = result.1.now }) }
    ensures limits { IsDeclared result.0.now }
{
    let Some(info) = catalog.info(coll) else {
        unreachable!()
    };
    let Some(documents) = catalog.documents(coll) else {
        unreachable!()
    };
    (info, documents)
}

/// How many shards a collection has: those of its declaration, if there are servers.
pub(crate) fn shard_count(servers: u32, info: &CollInfo) -> u32
    ensures { result ≡ shard_count servers info.now }
{
    if servers == 0 { 1 } else { info.shards }
}

/// The document at a place of a collection.
pub(crate) fn document_at(catalog: &Catalog, coll: CollNo, place: u32) -> &Value
    requires { place < length (documents_at catalog.now coll.0) }
    ensures { slice_get (documents_at catalog.now coll.0) place ≡ Some (datum_of result.now) }
{
    let Some(document) = catalog.document(coll, DocNo(place)) else {
        unreachable!()
    };
    document
}
