//! A collection, with the keys that its documents take.

ghost use Rattle.std.specs.Prelude.{◌≡◌, ◌⊎◌, ◌++◌, ◌∷◌, ◌<◌, ◌≤◌, ◌+◌, [], length, IfOk, IfErr, OnOk, OnErr, IfSome, Ok, Err, bytes_eq, codes, false, string_bytes};
ghost use Rattle.aql_value.specs.Attributes.{attribute};
ghost use Rattle.aql_value.specs.Datum.{object_of, text};
ghost use Rattle.aql_value.specs.View.{datum_of};
ghost use Rattle.aql_value.specs.WellFormed.{FieldsWellFormed};
ghost use Rattle.aql_doc.specs.KeySet.{has_key};
ghost use Rattle.aql_doc.specs.Documents.{fill, with_members, with_document};
ghost use Rattle.aql_doc.specs.Meets.{Refuses};
ghost use Rattle.aql_doc.specs.Declarations.{are_same, has_index, with_index};
ghost use Rattle.aql_doc.specs.declared.faults.CatalogFault.TheVariants.{Memory as NoMemory};

use crate::document::fill;
use crate::keys::{has_ends, key_in};
use crate::limits::{takes_document, takes_index};
use crate::{CatalogFault, CollInfo, DocFault};
use aql_value::{DocNo, Items, Members, Names, OutOfMemory, Text, Value, recall_well_formed};
use std::alloc::Global;
use std::collections::HashSet;
use std::marker::Model;

// A key is looked up among the keys that are taken, and not among the documents.
pub(crate) struct Collection {
    info: CollInfo,
    documents: Items,
    taken: HashSet<String>,
}

impl Drop for Collection {
    fn drop(self) {
        let Collection {
            info: _,
            documents: _,
            taken: _,
        } = self;
    }
}

impl Model for Collection {
    ghost use Rattle.aql_doc.specs.Held.{Held, coded_held};

    ghost Value = { Held };

    ghost coded = { coded_held };

    ghost view = { λ c. record { info = c.info; documents = c.documents } };

    ghost use Rattle.aql_doc.specs.KeySet.{Takes};

    ghost invariant = { λ c. Takes c.taken c.documents };
}

impl Collection {
    #[tactic(auto, unfolding(crate::specs::KeySet::has_key))]
    pub(crate) fn new(alloc: Global, info: CollInfo) -> Collection
        ensures { result ≡ record { info = info; documents = [] } }
    {
        Collection {
            info,
            documents: Items::new(alloc),
            taken: HashSet::new(alloc),
        }
    }

    pub(crate) fn info(&self) -> &CollInfo
        ensures { result.now ≡ self.now.info }
    {
        &self.info
    }

    pub(crate) fn documents(&self) -> &Items
        ensures { result.now ≡ self.now.documents }
    {
        &self.documents
    }

    pub(crate) fn is_named(&self, name: &str) -> bool
        ensures { result ≡ bytes_eq self.now.info.name name.now }
    {
        self.info.name.as_str() == name
    }

    // Adds a document, where so many are held in all.
    pub(crate) fn add(&mut self, alloc: Global, total: u32, doc: Value) -> Result<DocNo, DocFault>
        requires { length self.old.documents ≤ total }
        ensures ok { IfOk result (λ n. (n.0 ≡ length self.old.documents)
            × (with_document self.old total (datum_of doc) ≡ Ok self.new)) }
        ensures room { OnOk result ((total < 200000)
            × (length self.new.documents ≡ length self.old.documents + 1)) }
        ensures info { self.new.info ≡ self.old.info }
        ensures err { IfErr result (λ e. Refuses e (with_document self.old total (datum_of doc))) }
        ensures unchanged { OnErr result (self.new ≡ self.old) }
    {
        recall_well_formed(&doc);
        match doc.into_members() {
            Some(members) => self.add_object(alloc, total, members),
            None => Err(DocFault::NotObject),
        }
    }

    fn add_object(&mut self, alloc: Global, total: u32, members: Members) -> Result<DocNo, DocFault>
        requires few { length self.old.documents ≤ total }
        requires names { FieldsWellFormed (object_of members) }
        ensures ok { IfOk result (λ n. (n.0 ≡ length self.old.documents)
            × (with_members self.old total members ≡ Ok self.new)) }
        ensures room { OnOk result ((total < 200000)
            × (length self.new.documents ≡ length self.old.documents + 1)) }
        ensures info { self.new.info ≡ self.old.info }
        ensures err { IfErr result (λ e. Refuses e (with_members self.old total members)) }
        ensures unchanged { OnErr result (self.new ≡ self.old) }
    {
        let key = match key_in(alloc, &self.info.name, &members) {
            Ok(key) => key,
            Err(fault) => return Err(fault),
        };
        if self.info.edge && !has_ends(&members) {
            return Err(DocFault::BadEdge);
        }
        if self.taken.contains(key) {
            let key = Text::new(alloc, key)?;
            return Err(DocFault::DuplicateKey { key });
        }
        if !takes_document(total) {
            return Err(DocFault::TooMany);
        }
        let key = String::from_str(alloc, key)?;
        match self.put(alloc, key, members) {
            Ok(at) => Ok(at),
            Err(_) => Err(DocFault::Memory),
        }
    }

    // Holds a document under a key that is not taken.
    fn put(&mut self, alloc: Global, key: String, members: Members) -> Result<DocNo, OutOfMemory>
        requires free { has_key self.old.documents (string_bytes key) ≡ false }
        requires few { length self.old.documents < 200000 }
        requires names { FieldsWellFormed (object_of members) }
        requires key { IfSome (attribute (codes "_key") members)
            (λ t. t ≡ text (string_bytes key)) }
        ensures ok { IfOk result (λ n. (n.0 ≡ length self.old.documents)
            × (self.new ≡ record self.old {
              documents = self.old.documents
                  ++ fill self.old.info.name (string_bytes key) members ∷ [];
            })) }
        ensures unchanged { OnErr result (self.new ≡ self.old) }
    {
        let at = self.documents.len() as u32;
        let filled = fill(alloc, &self.info.name, key.as_str(), members)?;
        self.taken.reserve(1)?;
        self.documents.push(filled)?;
        // There is room for the key.
        match self.taken.insert(key) {
            Ok(_) => Ok(DocNo(at)),
            Err(_) => unreachable!(),
        }
    }

    // Adds a sorted index; one that is there is kept once.
    pub(crate) fn add_index(&mut self, attributes: Names) -> Result<(), CatalogFault>
        ensures ok { OnOk result (with_index self.old attributes ≡ Ok self.new) }
        ensures documents { self.new.documents ≡ self.old.documents }
        ensures err { IfErr result (λ e.
            (e ≡ NoMemory) ⊎ (with_index self.old attributes ≡ Err e)) }
        ensures unchanged { OnErr result (self.new ≡ self.old) }
    {
        if has_index(&self.info, &attributes) {
            return Ok(());
        }
        if !takes_index(self.info.indexes.len()) {
            return Err(CatalogFault::TooMany);
        }
        self.info.indexes.push(attributes)?;
        Ok(())
    }
}

fn has_index(info: &CollInfo, attributes: &Names) -> bool
    ensures { result ≡ has_index info.now.indexes attributes.now }
{
    let same = |index: &Names| are_same(index.as_slice(), attributes.as_slice());
    info.indexes.as_slice().iter().any(same)
}

// Whether two lists have the same names in the same order.
fn are_same(names: &[Text], others: &[Text]) -> bool
    ensures { result ≡ are_same names.now others.now }
{
    if names.len() != others.len() {
        return false;
    }
    for (i, name) in names.iter().enumerate() {
        if name.as_str() != others[i].as_str() {
            return false;
        }
    }
    true
}
