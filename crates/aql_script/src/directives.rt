//! The lines that begin with `%`.

ghost use Rattle.std.specs.Prelude.{◌≡◌, IfOk, map, bytes_eq};
ghost use Rattle.aql_script.specs.Directives.{directive, declaration, index, query_alone};

use crate::names::{Attributes, name_in, names_in};
use crate::options::{Options, options_in};
use aql_value::{OutOfMemory, Text};
use std::alloc::Global;

/// What a line that begins with `%` asks for.
#[derive(Drop)]
pub(crate) enum Directive {
    /// `%document` or `%edge`.
    Declare {
        edge: bool,
        name: Text,
        options: Options,
    },
    /// `%index`.
    Index {
        name: Text,
        attributes: Attributes,
    },
    /// `%query`.
    Query,
}

// The directive that the words of a line are.
pub(crate) fn directive_in(alloc: Global, words: &[&[u8]]) -> Result<Option<Directive>, OutOfMemory>
    ensures { IfOk result (λ d. d ≡ directive (map (λ w. w.now) words.now)) }
{
    let Some((first, others)) = words.split_first() else {
        return Ok(None);
    };
    if is_word(first, b"%document") {
        return declaration(alloc, false, others);
    }
    if is_word(first, b"%edge") {
        return declaration(alloc, true, others);
    }
    if is_word(first, b"%index") {
        return index(alloc, others);
    }
    if is_word(first, b"%query") {
        return Ok(query_alone(others));
    }
    Ok(None)
}

// `%query` stands alone on its line.
fn query_alone(words: &[&[u8]]) -> Option<Directive>
    ensures { result ≡ query_alone (map (λ w. w.now) words.now) }
{
    match words {
        [] => Some(Directive::Query),
        _ => None,
    }
}

fn is_word(word: &[u8], wanted: &[u8]) -> bool
    ensures { result ≡ bytes_eq word.now wanted.now }
{
    word == wanted
}

fn declaration(alloc: Global, edge: bool, words: &[&[u8]]) -> Result<Option<Directive>, OutOfMemory>
    ensures { IfOk result (λ d. d ≡ declaration edge (map (λ w. w.now) words.now)) }
{
    let Some((name, options)) = words.split_first() else {
        return Ok(None);
    };
    let Some(name) = name_in(alloc, name)? else {
        return Ok(None);
    };
    let Some(options) = options_in(alloc, options)? else {
        return Ok(None);
    };
    Ok(Some(Directive::Declare {
        edge,
        name,
        options,
    }))
}

fn index(alloc: Global, words: &[&[u8]]) -> Result<Option<Directive>, OutOfMemory>
    ensures { IfOk result (λ d. d ≡ index (map (λ w. w.now) words.now)) }
{
    let [name, attributes] = words else {
        return Ok(None);
    };
    let Some(name) = name_in(alloc, name)? else {
        return Ok(None);
    };
    let Some(attributes) = names_in(alloc, attributes)? else {
        return Ok(None);
    };
    Ok(Some(Directive::Index { name, attributes }))
}
