//! Names as a query writes them.

ghost use Rattle.std.specs.Prelude.{◌≡◌, ◌++◌, ◌-◌, [], map, OnOk, slice_get, unwrap_or, option_map};
ghost use Rattle.std.specs.Prelude.{codes};
ghost use Rattle.std.specs.List.{list_all};
ghost use Rattle.aql_lex.specs.Vocabulary.{is_word};
ghost use Rattle.aql_lex.specs.Characters.{is_letter, is_word_part};
ghost use Rattle.aql_show.specs.Lists.{listed};
ghost use Rattle.aql_show.specs.Names.{is_plain, name_text, variable_text, collection_text};
ghost use Rattle.aql_plan.specs.declared.facts.CollFact.{CollFact};
ghost use Rattle.aql_tree.specs.declared.syntax.Ident.TheVariants.{Num};

use crate::writing::{put, write_number};
use aql_lex::keyword;
use aql_plan::Facts;
use aql_tree::Ident;
use aql_value::{CollNo, Names, OutOfMemory, Text};

fn is_letter(byte: u8) -> bool
    ensures { result ≡ is_letter byte }
{
    byte.is_ascii_alphabetic() || byte == b'_'
}

fn is_word_part(byte: u8) -> bool
    ensures { result ≡ is_word_part byte }
{
    is_letter(byte) || byte.is_ascii_digit()
}

fn are_word_parts(bytes: &[u8]) -> bool
    ensures { result ≡ list_all is_word_part bytes.now }
{
    bytes.iter().all(|byte| is_word_part(*byte))
}

fn is_word(name: &[u8]) -> bool
    ensures { result ≡ is_word name.now }
{
    match name {
        [first, more @ ..] => is_letter(*first) && are_word_parts(more),
        [] => false,
    }
}

// Whether a name needs no backticks.
#[tactic(auto, using(crate::proofs::Reserved::is_reserved_or_not))]
fn is_plain(name: &str) -> bool
    ensures { result ≡ is_plain name.now }
{
    is_word(name.as_bytes()) && keyword(name).is_none()
}

pub fn write_name(name: &str, out: &mut Vec<u8>) -> Result<(), OutOfMemory>
    ensures { OnOk result (out.new.items ≡ out.old.items ++ name_text name.now) }
{
    if is_plain(name) {
        return put(name.as_bytes(), out);
    }
    put(b"`", out)?;
    put(name.as_bytes(), out)?;
    put(b"`", out)
}

/// Appends names in a row.
pub fn write_names(front: &[u8], names: &[Text], out: &mut Vec<u8>) -> Result<(), OutOfMemory>
    ensures { OnOk result (out.new.items
        ≡ out.old.items ++ listed front.now (codes ",") (map name_text names.now)) }
{
    let mut lead: &[u8] = front;
    for name in names {
        put(lead, out)?;
        write_name(name.as_str(), out)?;
        lead = b",";
    }
    Ok(())
}

// The name of a variable; empty where it has none.
fn name_of(var: u32, names: &Names) -> &str
    ensures { result.now ≡ unwrap_or (slice_get names.now (var - 1)) [] }
{
    match names.get((var as usize).saturating_sub(1)) {
        Some(name) => name.as_str(),
        None => "",
    }
}

pub fn write_variable(var: u32, names: &Names, out: &mut Vec<u8>) -> Result<(), OutOfMemory>
    ensures { OnOk result (out.new.items
        ≡ out.old.items ++ variable_text names.now (Num var)) }
{
    write_name(name_of(var, names), out)?;
    put(b"#", out)?;
    write_number(u64::from(var), out)
}

pub fn write_ident(ident: &Ident, names: &Names, out: &mut Vec<u8>) -> Result<(), OutOfMemory>
    ensures { OnOk result (out.new.items ≡ out.old.items ++ variable_text names.now ident.now) }
{
    match ident {
        Ident::Num(var) => write_variable(*var, names, out),
        Ident::Name(name) => write_name(name.as_str(), out),
    }
}

// The name of a collection; empty where there is none.
fn collection_name(coll: CollNo, facts: &Facts) -> &str
    ensures { result.now ≡ unwrap_or
        (option_map (λ (c : CollFact). c.name) (slice_get facts.now.collections coll.0)) [] }
{
    match facts.collections.get(coll.0 as usize) {
        Some(collection) => collection.name.as_str(),
        None => "",
    }
}

pub fn write_collection(coll: CollNo, facts: &Facts, out: &mut Vec<u8>) -> Result<(), OutOfMemory>
    ensures { OnOk result (out.new.items ≡ out.old.items ++ collection_text facts.now coll.0) }
{
    write_name(collection_name(coll, facts), out)
}
