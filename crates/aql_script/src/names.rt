//! The names and numbers in directives.

ghost use Rattle.std.specs.Prelude.{◌≡◌, ◌≤◌, ◌+◌, ◌*◌, ◌-◌, IfOk, true, min, length, map};
ghost use Rattle.std.specs.List.{list_all};
ghost use Rattle.aql_script.specs.Names.{is_letter, is_name_byte, is_attribute_byte, is_attribute, is_digit};
ghost use Rattle.aql_script.specs.Names.{name_in, attribute_in, all_attributes, names_of, names_in, decimal, shard_count};

use crate::pieces::pieces;
use aql_value::{Names, OutOfMemory, Text};
use std::alloc::Global;
use std::marker::Model;

/// The most attributes of an index, and of the shard keys.
const ATTRIBUTES: usize = 8;

/// The most shards of a collection.
pub(crate) const SHARDS: u32 = 32;

/// One to eight names of attributes. Contracts see the list.
#[derive(Drop)]
pub(crate) struct Attributes {
    names: Names,
}

impl Model for Attributes {
    ghost use Rattle.std.specs.Prelude.{◌≤◌, List, ℕ, length};

    ghost Value = { List (List ℕ) };

    ghost view = { λ a. a.names };

    ghost invariant = { λ a. (1 ≤ length a.names) × (length a.names ≤ 8) };
}

impl Attributes {
    pub(crate) fn into_names(self) -> Names
        ensures value { result ≡ self }
        ensures count { (1 ≤ length result) × (length result ≤ 8) }
    {
        let Attributes { names } = self;
        names
    }
}

/// A number of shards, at least 1. Each that is too large counts as 33. Contracts see the number.
#[derive(Drop)]
pub(crate) struct ShardCount {
    count: u32,
}

impl Model for ShardCount {
    ghost use Rattle.std.specs.Prelude.{◌≤◌, ℕ};

    ghost Value = { ℕ };

    ghost view = { λ n. n.count };

    ghost invariant = { λ n. 1 ≤ n.count };
}

impl ShardCount {
    pub(crate) fn get(&self) -> u32
        ensures value { result ≡ self.now }
        ensures some { 1 ≤ result }
    {
        self.count
    }
}

#[tactic(auto, unfolding(crate::specs::Names::is_letter))]
fn is_letter(b: u8) -> bool
    ensures { result ≡ is_letter b }
{
    b.is_ascii_alphabetic() || b == b'_'
}

#[tactic(auto, unfolding(crate::specs::Names::is_attribute_byte))]
fn is_attribute_byte(b: u8) -> bool
    ensures { result ≡ is_attribute_byte b }
{
    b.is_ascii_alphanumeric() || b == b'_'
}

#[tactic(auto, unfolding(crate::specs::Names::is_name_byte))]
fn is_name_byte(b: u8) -> bool
    ensures { result ≡ is_name_byte b }
{
    is_attribute_byte(b) || b == b'-'
}

fn has_name_bytes(name: &[u8]) -> bool
    ensures { result ≡ list_all is_name_byte name.now }
{
    name.iter().all(|b| is_name_byte(*b))
}

fn has_attribute_bytes(name: &[u8]) -> bool
    ensures { result ≡ list_all is_attribute_byte name.now }
{
    name.iter().all(|b| is_attribute_byte(*b))
}

fn is_attribute(name: &[u8]) -> bool
    ensures { result ≡ is_attribute name.now }
{
    name.len() > 0 && has_attribute_bytes(name)
}

// The name of a collection that a word is.
pub(crate) fn name_in(alloc: Global, word: &[u8]) -> Result<Option<Text>, OutOfMemory>
    ensures { IfOk result (λ name. name ≡ name_in word.now) }
{
    match word.first() {
        Some(first) => if is_letter(*first) && has_name_bytes(word) {
            Ok(Some(text_of(alloc, word)?))
        } else {
            Ok(None)
        },
        None => Ok(None),
    }
}

// The name of an attribute that a piece is.
fn attribute_in(alloc: Global, piece: &[u8]) -> Result<Option<Text>, OutOfMemory>
    ensures { IfOk result (λ name. name ≡ attribute_in piece.now) }
{
    if is_attribute(piece) {
        Ok(Some(text_of(alloc, piece)?))
    } else {
        Ok(None)
    }
}

// The text of bytes that a name may have.
fn text_of(alloc: Global, name: &[u8]) -> Result<Text, OutOfMemory>
    requires { list_all is_name_byte name.now ≡ true }
    ensures { IfOk result (λ t. t ≡ name.now) }
{
    match str::from_utf8(name) {
        Ok(text) => Text::new(alloc, text),
        Err(_) => unreachable!(),
    }
}

// The names that a word lists, separated by commas.
#[tactic(auto, unfolding(crate::specs::Names::names_in))]
pub(crate) fn names_in(alloc: Global, word: &[u8]) -> Result<Option<Attributes>, OutOfMemory>
    ensures { IfOk result (λ names. names ≡ names_in word.now) }
{
    let parts = pieces(alloc, b',', word)?;
    names_of(alloc, parts.as_slice())
}

fn names_of(alloc: Global, parts: &[&[u8]]) -> Result<Option<Attributes>, OutOfMemory>
    requires { 1 ≤ length parts.now }
    ensures { IfOk result (λ names. names ≡ names_of (map (λ p. p.now) parts.now)) }
{
    if parts.len() > ATTRIBUTES {
        return Ok(None);
    }
    let named = all_attributes(alloc, parts)?;
    match named {
        Some(names) => Ok(Some(Attributes { names })),
        None => Ok(None),
    }
}

// The pieces as names, where each is the name of an attribute.
fn all_attributes(alloc: Global, parts: &[&[u8]]) -> Result<Option<Names>, OutOfMemory>
    ensures { IfOk result (λ names. names ≡ all_attributes (map (λ p. p.now) parts.now)) }
{
    let mut names = Names::new(alloc);
    for part in parts {
        let Some(name) = attribute_in(alloc, part)? else {
            return Ok(None);
        };
        names.push(name)?;
    }
    Ok(Some(names))
}

// The number that digits write, or 33 where it is larger.
fn count_in(digits: &[u8]) -> u32
    ensures { result ≡ min (decimal 0 digits.now) 33 }
{
    let mut count: u32 = 0;
    for b in digits {
        let next = count_with(count, *b);
        count = next;
    }
    count
}

// The count with one more digit.
fn count_with(count: u32, digit: u8) -> u32
    requires { count ≤ 33 }
    ensures { result ≡ min (10 * count + (digit - 48)) 33 }
{
    (10 * count + u32::from(digit.saturating_sub(b'0'))).min(SHARDS + 1)
}

fn has_digits(digits: &[u8]) -> bool
    ensures { result ≡ list_all is_digit digits.now }
{
    digits.iter().all(|b| b.is_ascii_digit())
}

// The number of shards that a word writes.
#[tactic(auto, unfolding(crate::specs::Names::shard_count))]
pub(crate) fn shard_count(digits: &[u8]) -> Option<ShardCount>
    ensures { result ≡ shard_count digits.now }
{
    let count = count_in(digits);
    if has_digits(digits) && count > 0 {
        Some(ShardCount { count })
    } else {
        None
    }
}
