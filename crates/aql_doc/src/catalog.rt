ghost use Rattle.std.specs.Prelude.{◌≡◌, ◌⊎◌, ◌<◌, ◌≤◌, [], length, option_map, slice_get, IfOk, IfSome, IfErr, OnOk, OnErr, Ok, Err};
ghost use Rattle.aql_value.specs.View.{datum_of};
ghost use Rattle.aql_doc.specs.Held.{Held, documents_at};
ghost use Rattle.aql_doc.specs.Declarations.{collection_index, declare, add_index};
ghost use Rattle.aql_doc.specs.Documents.{add};
ghost use Rattle.aql_doc.specs.Limits.{IsDeclared, IsWithinLimits};
ghost use Rattle.aql_doc.specs.Meets.{Refuses};
ghost use Rattle.aql_doc.specs.declared.faults.CatalogFault.TheVariants.{Memory as NoMemory};

use crate::collection::Collection;
use crate::limits::takes_collection;
use crate::{CatalogFault, CollInfo, DocFault, IndexLists};
use aql_value::{CollNo, DocNo, Items, Names, Text, Value};
use std::alloc::Global;
use std::marker::Model;

/// The collections of a script, in the order of their declaration, and their documents. Contracts
/// see the list of the collections, each with its declaration and its documents. It keeps within
/// the limits of `IsWithinLimits`: at most 64 collections and 200,000 documents in all; of each
/// collection 1 to 32 shards, one to eight shard keys, and at most 16 sorted indexes over one to
/// eight attributes each, no two alike.
pub struct Catalog {
    collections: Vec<Collection>,
    total: u32,
}

impl Drop for Catalog {
    fn drop(self) {
        let Catalog {
            collections: _,
            total: _,
        } = self;
    }
}

impl Model for Catalog {
    ghost use Rattle.std.specs.Prelude.{◌≡◌, List};
    ghost use Rattle.std.specs.Coded.{coded_list};
    ghost use Rattle.aql_doc.specs.Held.{Held, coded_held, documents_in};
    ghost use Rattle.aql_doc.specs.Limits.{IsWithinLimits};

    ghost Value = { List Held };

    ghost coded = { coded_list coded_held };

    ghost view = { λ c. c.collections.items };

    ghost invariant = { λ c. (c.total ≡ documents_in c.collections.items)
        × IsWithinLimits c.collections.items };
}

impl Catalog {
    /// No collections.
    pub fn new(alloc: Global) -> Catalog
        ensures { result ≡ [] }
    {
        Catalog {
            collections: Vec::new(alloc),
            total: 0,
        }
    }

    /// How many collections are declared.
    pub fn len(&self) -> usize
        ensures value { result ≡ length self.now }
        ensures most { result ≤ 64 }
    {
        self.collections.len()
    }

    /// Recalls, for a proof, the limits that every catalog keeps.
    pub fn recall_limits(&self)
        ensures { IsWithinLimits self.now }
    {
        let _total = self.total;
    }

    /// The number of the collection with a name; `None` exactly where there is none.
    pub fn find(&self, name: &str) -> Option<CollNo>
        ensures value { option_map (λ n. n.0) result ≡ collection_index self.now name.now }
        ensures within { IfSome result (λ n. n.0 < length self.now) }
    {
        for (i, collection) in self.collections.iter().enumerate() {
            if collection.is_named(name) {
                return Some(CollNo(i as u32));
            }
        }
        None
    }

    /// Declares a collection without indexes and documents, with 1 to 32 shards and one to eight
    /// shard keys. What is refused leaves the catalog as it was.
    pub fn declare(
        &mut self,
        alloc: Global,
        name: Text,
        edge: bool,
        shards: u32,
        keys: Names,
    ) -> Result<CollNo, CatalogFault>
        requires shards { (1 ≤ shards) × (shards ≤ 32) }
        requires keys { (1 ≤ length keys) × (length keys ≤ 8) }
        ensures ok { IfOk result (λ n. (n.0 ≡ length self.old)
            × (declare self.old name edge shards keys ≡ Ok self.new)) }
        ensures err { IfErr result (λ e.
            (e ≡ NoMemory) ⊎ (declare self.old name edge shards keys ≡ Err e)) }
        ensures unchanged { OnErr result (self.new ≡ self.old) }
    {
        if self.find(name.as_str()).is_some() {
            return Err(CatalogFault::Twice);
        }
        let at = self.collections.len();
        if !takes_collection(at) {
            return Err(CatalogFault::TooMany);
        }
        let info = CollInfo {
            name,
            edge,
            shards,
            keys,
            indexes: IndexLists::new(alloc),
        };
        self.collections.push(Collection::new(alloc, info))?;
        Ok(CollNo(at as u32))
    }

    /// Gives a declared collection a sorted index over one to eight attributes. An index that it
    /// has already is accepted and kept once. What is refused leaves the catalog as it was.
    pub fn add_index(&mut self, coll: CollNo, attributes: Names) -> Result<(), CatalogFault>
        requires coll { coll.0 < length self.old }
        requires attributes { (1 ≤ length attributes) × (length attributes ≤ 8) }
        ensures ok { OnOk result (add_index self.old coll.0 attributes ≡ Ok self.new) }
        ensures err { IfErr result (λ e.
            (e ≡ NoMemory) ⊎ (add_index self.old coll.0 attributes ≡ Err e)) }
        ensures unchanged { OnErr result (self.new ≡ self.old) }
    {
        let collection = &mut self.collections[coll.0 as usize];
        collection.add_index(attributes)
    }

    /// Holds a document in a declared collection, with its `_key` and its `_id`, and gives its
    /// number. What is refused leaves the catalog as it was.
    pub fn add_document(
        &mut self,
        alloc: Global,
        coll: CollNo,
        doc: Value,
    ) -> Result<DocNo, DocFault>
        requires { coll.0 < length self.old }
        ensures ok { IfOk result (λ n. (n.0 ≡ length (documents_at self.old coll.0))
            × (add self.old coll.0 (datum_of doc) ≡ Ok self.new)) }
        ensures err { IfErr result (λ e. Refuses e (add self.old coll.0 (datum_of doc))) }
        ensures unchanged { OnErr result (self.new ≡ self.old) }
    {
        let total = self.total;
        let collection = &mut self.collections[coll.0 as usize];
        match collection.add(alloc, total, doc) {
            Ok(at) => {
                self.total = total + 1;
                Ok(at)
            }
            Err(fault) => Err(fault),
        }
    }

    /// How many documents a collection has: none where it is not declared.
    pub fn count(&self, coll: CollNo) -> u64
        ensures { result ≡ length (documents_at self.now coll.0) }
    {
        match self.documents(coll) {
            Some(documents) => documents.len() as u64,
            None => 0,
        }
    }

    /// A document of a collection, by its number; `None` exactly where there is none.
    pub fn document(&self, coll: CollNo, doc: DocNo) -> Option<&Value>
        ensures { option_map (λ v. datum_of v.now) result
            ≡ slice_get (documents_at self.now coll.0) doc.0 }
    {
        match self.documents(coll) {
            Some(documents) => documents.get(doc.0 as usize),
            None => None,
        }
    }

    /// How a collection was declared; `None` exactly where it is not.
    pub fn info(&self, coll: CollNo) -> Option<&CollInfo>
        ensures value { option_map (λ i. i.now) result
            ≡ option_map (λ (h : Held). h.info) (slice_get self.now coll.0) }
        ensures limits { IfSome result (λ i. IsDeclared i.now) }
    {
        match self.collections.get(coll.0 as usize) {
            Some(collection) => Some(collection.info()),
            None => None,
        }
    }

    /// The documents of a collection, by number; `None` exactly where it is not declared.
    pub fn documents(&self, coll: CollNo) -> Option<&Items>
        ensures { option_map (λ d. d.now) result
            ≡ option_map (λ (h : Held). h.documents) (slice_get self.now coll.0) }
    {
        match self.collections.get(coll.0 as usize) {
            Some(collection) => Some(collection.documents()),
            None => None,
        }
    }
}
