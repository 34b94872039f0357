//! The options of a declaration.

ghost use Rattle.std.specs.Prelude.{◌≡◌, IfOk, Some, None, map, option_map, bytes_eq, drop};
ghost use Rattle.std.specs.Bool.{MatchBool};
ghost use Rattle.aql_script.specs.Directives.{option_with, options_in, with_shards, with_keys};

use crate::names::{Attributes, ShardCount, names_in, shard_count};
use aql_value::OutOfMemory;
use std::alloc::Global;

/// The options of a declaration, as far as they are given.
#[derive(Drop)]
pub(crate) struct Options {
    pub(crate) shards: Option<ShardCount>,
    pub(crate) keys: Option<Attributes>,
}

// The options that words give, each at most once and in any order.
pub(crate) fn options_in(alloc: Global, words: &[&[u8]]) -> Result<Option<Options>, OutOfMemory>
    ensures { IfOk result (λ o. o
        ≡ options_in (Some (record { shards = None; keys = None })) (map (λ w. w.now) words.now)) }
{
    let mut options = Options {
        shards: None,
        keys: None,
    };
    for word in words {
        if !add_option(alloc, &mut options, word)? {
            return Ok(None);
        }
    }
    Ok(Some(options))
}

// Takes one more option, or says that the word is none.
fn add_option(alloc: Global, options: &mut Options, word: &[u8]) -> Result<bool, OutOfMemory>
    ensures { IfOk result (λ taken. MatchBool taken
        (option_with options.old word.now ≡ Some options.new)
        (option_with options.old word.now ≡ None)) }
{
    if let Some(digits) = word.strip_prefix(b"shards=") {
        return Ok(add_shards(options, digits));
    }
    match word.strip_prefix(b"keys=") {
        Some(names) => add_keys(alloc, options, names),
        None => Ok(false),
    }
}

fn add_shards(options: &mut Options, digits: &[u8]) -> bool
    ensures { MatchBool result
        (with_shards options.old digits.now ≡ Some options.new)
        (with_shards options.old digits.now ≡ None) }
{
    if options.shards.is_some() {
        return false;
    }
    match shard_count(digits) {
        Some(count) => {
            options.shards = Some(count);
            true
        }
        None => false,
    }
}

fn add_keys(alloc: Global, options: &mut Options, names: &[u8]) -> Result<bool, OutOfMemory>
    ensures { IfOk result (λ taken. MatchBool taken
        (with_keys options.old names.now ≡ Some options.new)
        (with_keys options.old names.now ≡ None)) }
{
    if options.keys.is_some() {
        return Ok(false);
    }
    match names_in(alloc, names)? {
        Some(keys) => {
            options.keys = Some(keys);
            Ok(true)
        }
        None => Ok(false),
    }
}
