ghost use Rattle.std.specs.Prelude.{◌≡◌, [], ℕ, List, filter, bytes_eq, option_map, IfOk, IfSome, OnOk, OnErr};
ghost use Rattle.std.specs.List.{list_any};
ghost use Rattle.std.specs.Ordering.{nat_cmp};
ghost use Rattle.std.specs.Cmp.Lexicographic.{slice_cmp};
ghost use Rattle.aql_value.specs.Datum.{Datum, object_of};
ghost use Rattle.aql_value.specs.View.{datum_of};
ghost use Rattle.aql_value.specs.Attributes.{with_attribute, attribute};
ghost use Rattle.aql_value.specs.Fields.{fields_in};
ghost use Rattle.aql_value.specs.inner.NameSearch.{IsSearchResult};
ghost use Rattle.aql_value.specs.WellFormed.{FieldsWellFormed};

use crate::copying::{copy_entries, copy_member};
use crate::texts::recall_utf8;
use crate::values::{Member, entries_in, recall_well_formed};
use crate::{Members, Names, OutOfMemory, Text, Value};
use std::alloc::Global;
use std::cmp::Ordering;
use std::rc::Rc;

// So many attributes are looked through one after another.
const FEW: usize = 8;

impl Members {
    ghost use Rattle.std.specs.Prelude.{length, slice_get};

    /// No attributes.
    pub fn new(_alloc: Global) -> Members
        ensures { result ≡ [] }
    {
        Members { entries: None }
    }

    /// How many attributes there are.
    pub fn len(&self) -> usize
        ensures { result ≡ length self.now }
    {
        entries_in(&self.entries).len()
    }

    /// The name at a place in the order of the names, counted from 0; `None` exactly where there
    /// is no such place.
    pub fn name(&self, at: usize) -> Option<&Text>
        ensures { option_map (λ t. t.now) result ≡ option_map (λ f. f.0) (slice_get self.now at) }
    {
        let entry = entries_in(&self.entries).get(at)?;
        Some(&entry.name)
    }

    /// The value at a place in the order of the names, counted from 0; `None` exactly where there
    /// is no such place.
    pub fn value_at(&self, at: usize) -> Option<&Value>
        ensures { option_map (λ v. datum_of v.now) result
            ≡ option_map (λ f. f.1) (slice_get self.now at) }
    {
        let entry = entries_in(&self.entries).get(at)?;
        Some(&entry.value)
    }

    /// The value of a name; `None` exactly where there is no attribute of this name.
    pub fn value(&self, name: &str) -> Option<&Value>
        ensures { option_map (λ v. datum_of v.now) result ≡ attribute name.now self.now }
    {
        let entries = entries_in(&self.entries);
        if entries.len() <= FEW {
            return value_among(entries, name);
        }
        match find_name(entries, name) {
            Ok(at) => Some(&entries[at].value),
            Err(_) => None,
        }
    }

    /// The attributes of these names alone.
    pub fn only(&self, alloc: Global, names: &Names) -> Result<Members, OutOfMemory>
        ensures { IfOk result (λ ms. ms ≡ filter
            (λ (attribute : List ℕ × Datum). list_any (bytes_eq attribute.0) names.now) self.now) }
    {
        let entries = entries_in(&self.entries);
        let mut found = Vec::with_capacity(alloc, names.len().min(entries.len()))?;
        for entry in entries {
            if is_among(names, &entry.name) {
                found.push(copy_member(alloc, entry)?)?;
            }
        }
        Ok(Members {
            entries: Some(Rc::new(alloc, found)?),
        })
    }

    /// Makes room for so many more attributes, and no more than that, where there are some and no
    /// copy shares them.
    pub fn reserve(&mut self, more: usize) -> Result<(), OutOfMemory>
        ensures { self.new ≡ self.old }
    {
        if let Some(shared) = &mut self.entries {
            if let Some(entries) = Rc::get_mut(shared) {
                entries.reserve_exact(more)?;
            }
        }
        Ok(())
    }

    /// Sets an attribute, in place of the one of this name if there is one. Where memory runs out
    /// all stays as it was.
    pub fn set(&mut self, name: Text, value: Value) -> Result<(), OutOfMemory>
        ensures ok { OnOk result (self.new ≡ with_attribute name (datum_of value) self.old) }
        ensures err { OnErr result (self.new ≡ self.old) }
    {
        recall_well_formed(&value);
        recall_utf8(&name);
        if let Some(shared) = &mut self.entries {
            if let Some(entries) = Rc::get_mut(shared) {
                return set_in(entries, name, value);
            }
        }
        let alloc = name.allocator();
        let mut entries = copy_entries(alloc, entries_in(&self.entries))?;
        set_in(&mut entries, name, value)?;
        self.entries = Some(Rc::new(alloc, entries)?);
        Ok(())
    }
}

// The place of a name, or the place where it would be put.
fn find_name(entries: &[Member], name: &str) -> Result<usize, usize>
    requires { FieldsWellFormed (object_of (fields_in entries.now)) }
    ensures { IsSearchResult result name.now (fields_in entries.now) }
{
    entries.binary_search_by(
        |entry: &Member| -> Ordering
            ensures { result ≡ slice_cmp nat_cmp entry.now.name name.entry.now }
        { entry.name.as_str().cmp(name) },
    )
}

// The same, for names that often come in their order: the last one is looked at first.
fn place_of(entries: &[Member], name: &str) -> Result<usize, usize>
    requires { FieldsWellFormed (object_of (fields_in entries.now)) }
    ensures { IsSearchResult result name.now (fields_in entries.now) }
{
    match entries.last() {
        Some(last) if last.name.as_str().cmp(name).is_lt() => Err(entries.len()),
        _ => find_name(entries, name),
    }
}

fn is_among(names: &Names, name: &Text) -> bool
    ensures { result ≡ list_any (bytes_eq name.now) names.now }
{
    let name = name.as_str();
    names.as_slice().iter().any(|other| name == other.as_str())
}

// The value of a name, by looking at each.
fn value_among<'a>(entries: &'a [Member], name: &str) -> Option<&'a Value>
    ensures { option_map (λ v. datum_of v.now) result
        ≡ attribute name.now (fields_in entries.now) }
{
    for entry in entries {
        if entry.name.as_str() == name {
            return Some(&entry.value);
        }
    }
    None
}

/// An object of these attributes; `None` where memory runs out.
pub(crate) fn shared(alloc: Global, entries: Vec<Member>) -> Option<Members>
    requires { FieldsWellFormed (object_of (fields_in entries.items)) }
    ensures { IfSome result (λ ms. ms ≡ fields_in entries.items) }
{
    match Rc::new(alloc, entries) {
        Ok(entries) => Some(Members {
            entries: Some(entries),
        }),
        Err(_) => None,
    }
}

/// Sets an attribute, in place of the one of this name if there is one. Where memory runs out all
/// stays as it was.
pub(crate) fn set_in(entries: &mut Vec<Member>, name: Text, value: Value) -> Result<(), OutOfMemory>
    requires { FieldsWellFormed (object_of (fields_in entries.old.items)) }
    ensures ok { OnOk result
        (fields_in entries.new.items
        ≡ with_attribute name (datum_of value) (fields_in entries.old.items)) }
    ensures err { OnErr result (entries.new.items ≡ entries.old.items) }
{
    match place_of(entries, name.as_str()) {
        Ok(at) => {
            entries[at].value = value;
            Ok(())
        }
        Err(at) => {
            if at == entries.len() {
                entries.push(Member { name, value })?;
            } else {
                entries.insert(at, Member { name, value })?;
            }
            Ok(())
        }
    }
}
