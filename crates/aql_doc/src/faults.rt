use aql_value::{OutOfMemory, Text};
use std::alloc::{AllocError, AllocFailed};
use thiserror::Error;

/// Why a collection or an index is not declared. Where several hold, the first of these is
/// answered.
#[derive(Debug, Clone, Copy, PartialEq, Eq, Drop, Error)]
pub enum CatalogFault {
    /// A collection of this name is declared.
    #[error("declared twice")]
    Twice,
    /// 64 collections are declared, or 16 sorted indexes on this collection.
    #[error("too many")]
    TooMany,
    /// Memory ran out.
    #[error("out of memory")]
    Memory,
}

impl From<OutOfMemory> for CatalogFault {
    ghost use Rattle.std.specs.Prelude.{◌≡◌};
    ghost use Rattle.aql_doc.specs.declared.faults.CatalogFault.TheVariants.{Memory};

    ghost from_gives = { λ _ f. f ≡ Memory };

    fn from(_: OutOfMemory) -> CatalogFault {
        CatalogFault::Memory
    }
}

impl<T: Drop> From<AllocFailed<T>> for CatalogFault {
    ghost use Rattle.std.specs.Prelude.{◌≡◌};
    ghost use Rattle.aql_doc.specs.declared.faults.CatalogFault.TheVariants.{Memory};

    ghost from_gives = { λ _ f. f ≡ Memory };

    fn from(_: AllocFailed<T>) -> CatalogFault {
        CatalogFault::Memory
    }
}

/// Why a document is not held. Where several hold, the first of these is answered.
#[derive(Drop)]
pub enum DocFault {
    /// The value is no object.
    NotObject,
    /// The `_key` is no allowed text, or both `_key` and `_id` are missing.
    BadKey,
    /// The `_id` is not the text of the collection's name, `/` and the key; or, where `_key` is
    /// missing, it is not the text of the name, `/` and an allowed key.
    IdMismatch,
    /// `_from` or `_to` of an edge is no text with exactly one `/` and neither side empty.
    BadEdge,
    /// The collection holds a document under this key.
    DuplicateKey {
        /// The key.
        key: Text,
    },
    /// 200,000 documents are held.
    TooMany,
    /// Memory ran out.
    Memory,
}

impl From<OutOfMemory> for DocFault {
    ghost use Rattle.std.specs.Prelude.{◌≡◌};
    ghost use Rattle.aql_doc.specs.declared.faults.DocFault.TheVariants.{Memory};

    ghost from_gives = { λ _ f. f ≡ Memory };

    fn from(_: OutOfMemory) -> DocFault {
        DocFault::Memory
    }
}

impl From<AllocError> for DocFault {
    ghost use Rattle.std.specs.Prelude.{◌≡◌};
    ghost use Rattle.aql_doc.specs.declared.faults.DocFault.TheVariants.{Memory};

    ghost from_gives = { λ _ f. f ≡ Memory };

    fn from(_: AllocError) -> DocFault {
        DocFault::Memory
    }
}
