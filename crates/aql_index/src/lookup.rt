//! Lookups by one attribute.

ghost use Rattle.std.specs.Prelude.{◌≡◌, ◌<◌, ◌^◌, ◌∷◌, [], length, option_map, slice_get, IfOk};
ghost use Rattle.aql_value.specs.View.{datum_of};
ghost use Rattle.aql_meaning.specs.Documents.{no_last};
ghost use Rattle.aql_index.specs.Entries.{entries_within};
ghost use Rattle.aql_index.specs.IndexOrder.{index_of};
ghost use Rattle.aql_index.specs.Spans.{spanned, IsSpan};

use crate::bounds::{Span, Tail};
use crate::entries::{Entry, sorted_entries, span_of};
use aql_value::{Items, OutOfMemory, Text, Value};
use std::alloc::Global;
use std::marker::Model;
use std::slice;

/// The documents of a collection, or of one shard of it, by the values of one attribute, where one
/// that a document lacks counts as null (AQL manual, Indexing: the primary index and the edge
/// index). Contracts see the entries in the order of these values.
pub struct Lookup {
    entries: Vec<Entry>,
}

impl Drop for Lookup {
    fn drop(self) {
        let Lookup { entries: _ } = self;
    }
}

impl Model for Lookup {
    ghost use Rattle.aql_index.specs.Entries.{IndexView, coded_index, IsIndex};

    ghost Value = { IndexView };

    ghost coded = { coded_index };

    ghost view = { λ s. record { width = 1; entries = s.entries.items } };

    ghost invariant = { λ s. IsIndex 1 s.entries.items };
}

impl Lookup {
    /// The lookup of these documents by this attribute: at most 4,294,967,295 documents, of any
    /// kind of value. Only want of memory is refused.
    pub fn build(alloc: Global, docs: &Items, attribute: &Text) -> Result<Lookup, OutOfMemory>
        requires { length docs.now < 2 ^ 32 }
        ensures { IfOk result (λ lookup. lookup ≡ index_of (attribute.now ∷ []) docs.now) }
    {
        let entries = sorted_entries(alloc, docs.as_slice(), slice::from_ref(attribute))?;
        Ok(Lookup { entries })
    }

    /// The places, in the lookup, of exactly the documents that have this value. It takes no
    /// memory and refuses nothing; where no document has the value the span is empty.
    pub fn find(&self, value: &Value) -> Span
        ensures within { IsSpan (length self.now.entries) result }
        ensures exactly { spanned self.now.entries result
            ≡ entries_within (datum_of value.now ∷ []) no_last self.now.entries }
    {
        span_of(self.entries.as_slice(), &[], &Tail::One(value))
    }

    /// The place, in the list that the lookup was built of, of the document at this place of the
    /// lookup; `None` exactly where the lookup has no such place.
    pub fn doc_at(&self, place: u32) -> Option<u32>
        ensures { result ≡ option_map (λ e. e.place) (slice_get self.now.entries place) }
    {
        match self.entries.get(place as usize) {
            Some(entry) => Some(entry.place),
            None => None,
        }
    }
}
