//! How much a catalog takes.

ghost use Rattle.std.specs.Prelude.{◌≡◌, nat_lt};

/// The most collections of a catalog.
const COLLECTIONS: usize = 64;

/// The most documents of a catalog.
const DOCUMENTS: u32 = 200_000;

/// The most sorted indexes of a collection.
const INDEXES: usize = 16;

/// The most bytes of a document's key.
pub(crate) const KEY_BYTES: usize = 254;

/// Whether one more collection may stand beside `count` others.
pub(crate) fn takes_collection(count: usize) -> bool
    ensures { result ≡ nat_lt count 64 }
{
    count < COLLECTIONS
}

/// Whether one more document may stand beside `total` others.
pub(crate) fn takes_document(total: u32) -> bool
    ensures { result ≡ nat_lt total 200000 }
{
    total < DOCUMENTS
}

/// Whether one more index may stand beside `count` others.
pub(crate) fn takes_index(count: usize) -> bool
    ensures { result ≡ nat_lt count 16 }
{
    count < INDEXES
}
