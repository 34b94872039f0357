//! Entries of an index whose values are all numbers, one or two for each document. They are sorted
//! as numbers, and take no list of their own until they are in order.

ghost use Rattle.std.specs.Prelude.{◌≡◌, ◌<◌, ◌^◌, length, map, IfOk, OnOk, MatchOption};
ghost use Rattle.aql_value.specs.View.{datum_of, datums_in};
ghost use Rattle.aql_value.specs.Datum.{number};
ghost use Rattle.aql_value.specs.Compare.{compare};
ghost use Rattle.aql_value.specs.Contents.{list, at_name};
ghost use Rattle.aql_meaning.specs.Documents.{index_keys};
ghost use Rattle.aql_index.specs.Entries.{entries_of, is_before};
ghost use Rattle.aql_index.specs.IndexOrder.{index_entries, sort};
ghost use Rattle.aql_index.specs.inner.Numbers.{entry_of};

use crate::entries::Entry;
use crate::keys::Keys;
use aql_value::{OutOfMemory, Text, Value, copy_attribute};
use std::alloc::Global;
use std::cmp::Ordering;

/// One or two numbers that a document has as the values of an index's attributes, and its place.
#[derive(Clone, Copy)]
pub(crate) struct Numbers {
    first: i64,
    second: Option<i64>,
    place: u32,
}

// The number that a document has of an attribute; `None` only where its value is none.
fn number_of(alloc: Global, document: &Value, name: &Text) -> Result<Option<i64>, OutOfMemory>
    ensures { IfOk result (λ found. MatchOption found (Unit {0})
        (λ n. at_name (datum_of document.now) name.now ≡ number n)) }
{
    let value = copy_attribute(alloc, document, name.as_str())?;
    match &value {
        Value::Num(number) => Ok(Some(*number)),
        _ => Ok(None),
    }
}

// The numbers of one document; `None` where some value is none, or there are more than two.
fn numbers_of(
    alloc: Global,
    document: &Value,
    place: u32,
    names: &[Text],
) -> Result<Option<Numbers>, OutOfMemory>
    ensures { IfOk result (λ found. MatchOption found (Unit {0}) (λ n. entry_of n
        ≡ record { keys = index_keys names.now (datum_of document.now); place = place })) }
{
    let (name, next) = match names {
        [name] => (name, None),
        [name, next] => (name, Some(next)),
        _ => return Ok(None),
    };
    let Some(first) = number_of(alloc, document, name)? else {
        return Ok(None);
    };
    let second = match next {
        None => None,
        Some(name) => match number_of(alloc, document, name)? {
            None => return Ok(None),
            found => found,
        },
    };
    Ok(Some(Numbers {
        first,
        second,
        place,
    }))
}

// The numbers of each document, in the order of the documents.
fn all_numbers(
    alloc: Global,
    documents: &[Value],
    names: &[Text],
) -> Result<Option<Vec<Numbers>>, OutOfMemory>
    requires { length documents.now < 2 ^ 32 }
    ensures { IfOk result (λ found. MatchOption found (Unit {0}) (λ numbers.
        map entry_of numbers.items ≡ entries_of names.now (datums_in documents.now))) }
{
    let mut all = Vec::with_capacity(alloc, documents.len())?;
    for (place, document) in documents.iter().enumerate() {
        match numbers_of(alloc, document, place as u32, names)? {
            None => return Ok(None),
            Some(numbers) => all.push(numbers)?,
        }
    }
    Ok(Some(all))
}

fn compare_numbers(left: &Numbers, right: &Numbers) -> Ordering
    ensures { result ≡ compare (list (entry_of left.now).keys) (list (entry_of right.now).keys) }
{
    match left.first.cmp(&right.first) {
        Ordering::Equal => left.second.cmp(&right.second),
        order => order,
    }
}

// Sorts documents by their numbers; those with the same ones keep their order.
fn sort_numbers(all: &mut Vec<Numbers>) -> Result<(), OutOfMemory>
    ensures { OnOk result
        (map entry_of all.new.items ≡ sort is_before (map entry_of all.old.items)) }
{
    all.sort_by(|a, b| compare_numbers(a, b))?;
    Ok(())
}

// The entries of these documents.
fn entries_from(alloc: Global, all: &[Numbers]) -> Result<Vec<Entry>, OutOfMemory>
    ensures { IfOk result (λ entries. entries.items ≡ map entry_of all.now) }
{
    let mut entries = Vec::with_capacity(alloc, all.len())?;
    for numbers in all {
        entries.push(Entry {
            keys: Keys::from_numbers(alloc, numbers.first, numbers.second)?,
            place: numbers.place,
        })?;
    }
    Ok(entries)
}

/// The entries of the documents, in the order of the values of these attributes; `None` only where
/// one of them is no number, or there are more than two attributes.
pub(crate) fn number_entries(
    alloc: Global,
    documents: &[Value],
    names: &[Text],
) -> Result<Option<Vec<Entry>>, OutOfMemory>
    requires { length documents.now < 2 ^ 32 }
    ensures { IfOk result (λ found. MatchOption found (Unit {0})
        (λ entries. entries.items ≡ index_entries names.now (datums_in documents.now))) }
{
    let Some(mut numbers) = all_numbers(alloc, documents, names)? else {
        return Ok(None);
    };
    sort_numbers(&mut numbers)?;
    let entries = entries_from(alloc, numbers.as_slice())?;
    Ok(Some(entries))
}
