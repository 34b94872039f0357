//! What an index says of the documents that it was built of: each function's contract is a law of
//! this crate, and its body is empty.

ghost use Rattle.aql_index.specs.Theorems.{DocumentsAreInOrder, SpanIsOfDocuments};
ghost use Rattle.aql_index.specs.Theorems.{SpansAreOfDocuments, WidestIsOfDocuments};
ghost use Rattle.aql_index.specs.Theorems.{DealtIsOfDocuments, FoundIsIndexed};

/// The documents of an index's entries are those that it was built of, each once, and ascend by
/// the index's attributes.
pub fn documents_are_in_order()
    ensures { DocumentsAreInOrder }
{}

/// A span of exactly the entries within some bounds is one of exactly the documents in them.
pub fn span_is_of_documents()
    ensures { SpanIsOfDocuments }
{}

/// Spans of exactly the entries within some bounds are those of exactly the documents in them.
pub fn spans_are_of_documents()
    ensures { SpansAreOfDocuments }
{}

/// The size of the largest group of entries is what is known of the index when a query is planned.
pub fn widest_is_of_documents()
    ensures { WidestIsOfDocuments }
{}

/// What an Index reads, row after row the documents in the bounds in the order of the index or
/// against it, is what this node may give.
pub fn found_is_indexed()
    ensures { FoundIsIndexed }
{}

/// What is dealt to a shard of an index of documents is the index of the documents on that shard.
pub fn dealt_is_of_documents()
    ensures { DealtIsOfDocuments }
{}
