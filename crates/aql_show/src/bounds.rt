//! Indexes and their bounds.

ghost use Rattle.std.specs.Prelude.{◌≡◌, ◌++◌, [], option_map, option_copied, unwrap_or};
ghost use Rattle.std.specs.Prelude.{slice_get, OnOk, codes};
ghost use Rattle.aql_tree.specs.View.{tree};
ghost use Rattle.aql_tree.specs.declared.syntax.Ident.TheVariants.{Num};
ghost use Rattle.aql_meaning.specs.View.{end_tree, last_tree};
ghost use Rattle.aql_plan.specs.declared.facts.IndexFact.{IndexFact};
ghost use Rattle.aql_plan.specs.Facts.{indexes_in};
ghost use Rattle.aql_plan.specs.View.{expr_trees};
ghost use Rattle.aql_show.specs.Exprs.{expr_text};
ghost use Rattle.aql_show.specs.Lists.{listed};
ghost use Rattle.aql_show.specs.Names.{variable_text};
ghost use Rattle.aql_show.specs.Nodes.{index_text, attribute_text, end_texts, last_texts, bound_texts, use_text};
ghost use Rattle.aql_show.specs.Words.{right_text};

use crate::exprs::write_right;
use crate::known::Known;
use crate::names::{write_name, write_names, write_variable};
use crate::words::kind_text;
use crate::writing::put;
use aql_meaning::{Edge, Last};
use aql_plan::{Facts, IndexFact};
use aql_tree::Expr;
use aql_value::{BinOp, CollNo, Names, OutOfMemory, Text};

/// An attribute of the document that is a variable.
#[derive(Clone, Copy)]
struct Attribute<'a> {
    var: u32,
    name: &'a Text,
}

// An index of a collection, by its number.
fn index_of(coll: CollNo, index: u32, facts: &Facts) -> Option<&IndexFact>
    ensures { option_copied result ≡ slice_get (indexes_in facts.now coll.0) index }
{
    let collection = facts.collections.get(coll.0 as usize)?;
    collection.indexes.get(index as usize)
}

// The attributes of an index; none where there is no index.
fn attributes_of(index: Option<&IndexFact>) -> &[Text]
    ensures { result.now ≡ unwrap_or
        (option_map (λ (i : IndexFact). i.attributes) (option_copied index.entry)) [] }
{
    match index {
        Some(index) => index.attributes.as_slice(),
        None => &[],
    }
}

// An index with its attributes.
fn write_index(index: Option<&IndexFact>, out: &mut Vec<u8>) -> Result<(), OutOfMemory>
    ensures { OnOk result
        (out.new.items ≡ out.old.items ++ index_text (option_copied index.entry)) }
{
    match index {
        Some(index) => {
            put(kind_text(index.kind), out)?;
            put(b"(", out)?;
            write_names(b"", index.attributes.as_slice(), out)?;
            put(b")", out)
        }
        None => Ok(()),
    }
}

// A bound: an attribute with an operator and a value.
fn write_bound(
    attribute: Attribute<'_>,
    op: BinOp,
    value: &Expr,
    known: &Known<'_>,
    out: &mut Vec<u8>,
) -> Result<(), OutOfMemory>
    ensures { OnOk result (out.new.items ≡ out.old.items
        ++ attribute_text (variable_text known.now.names.now (Num attribute.entry.var))
        attribute.entry.name.now
        ++ right_text op (expr_text known.now.names.now (tree value.now))) }
{
    write_variable(attribute.var, known.names, out)?;
    put(b".", out)?;
    write_name(attribute.name.as_str(), out)?;
    write_right(op, value, known, out)
}

// The bound of an end of a range, by one operator where it belongs to the range, else by another.
fn write_end(
    lead: &[u8],
    attribute: Attribute<'_>,
    inclusive: BinOp,
    strict: BinOp,
    end: &Option<Edge>,
    known: &Known<'_>,
    out: &mut Vec<u8>,
) -> Result<(), OutOfMemory>
    ensures { OnOk result (out.new.items ≡ out.old.items ++ listed lead.now (codes " && ")
        (end_texts known.now.names.now
        (attribute_text (variable_text known.now.names.now (Num attribute.entry.var))
        attribute.entry.name.now)
        inclusive strict (option_map end_tree end.now))) }
{
    match end {
        Some(end) => {
            put(lead, out)?;
            let op = if end.inclusive { inclusive } else { strict };
            write_bound(attribute, op, &end.expr, known, out)
        }
        None => Ok(()),
    }
}

// The bound of the attribute after the equalities.
fn write_last(
    lead: &[u8],
    attribute: Attribute<'_>,
    last: &Last,
    known: &Known<'_>,
    out: &mut Vec<u8>,
) -> Result<(), OutOfMemory>
    ensures { OnOk result (out.new.items ≡ out.old.items ++ listed lead.now (codes " && ")
        (last_texts known.now.names.now
        (attribute_text (variable_text known.now.names.now (Num attribute.entry.var))
        attribute.entry.name.now)
        (last_tree last.now))) }
{
    match last {
        Last::None => Ok(()),
        Last::OneOf(list) => {
            put(lead, out)?;
            write_bound(attribute, BinOp::IsIn, list, known, out)
        }
        Last::Range { low, high } => {
            write_end(lead, attribute, BinOp::Ge, BinOp::Gt, low, known, out)?;
            let next = if low.is_some() { b" && " } else { lead };
            write_end(next, attribute, BinOp::Le, BinOp::Lt, high, known, out)
        }
    }
}

// The bounds of an index, in the order of its attributes.
fn write_bounds(
    var: u32,
    index: Option<&IndexFact>,
    equal: &[Expr],
    last: &Last,
    known: &Known<'_>,
    out: &mut Vec<u8>,
) -> Result<(), OutOfMemory>
    ensures { OnOk result (out.new.items ≡ out.old.items ++ listed [] (codes " && ")
        (bound_texts known.now.names.now (variable_text known.now.names.now (Num var))
        (unwrap_or (option_map (λ (i : IndexFact). i.attributes) (option_copied index.entry)) [])
        (expr_trees equal.now) (last_tree last.now))) }
{
    let attributes = attributes_of(index);
    let mut lead: &[u8] = b"";
    for (i, value) in equal.iter().enumerate() {
        let Some(name) = attributes.get(i) else {
            return Ok(());
        };
        put(lead, out)?;
        write_bound(Attribute { var, name }, BinOp::Eq, value, known, out)?;
        lead = b" && ";
    }
    match attributes.get(equal.len()) {
        Some(name) => write_last(lead, Attribute { var, name }, last, known, out),
        None => Ok(()),
    }
}

/// Appends an index of a collection with its bounds.
pub fn write_use(
    var: u32,
    coll: CollNo,
    index: u32,
    equal: &[Expr],
    last: &Last,
    known: &Known<'_>,
    out: &mut Vec<u8>,
) -> Result<(), OutOfMemory>
    ensures { OnOk result (out.new.items ≡ out.old.items
        ++ use_text known.now.names.now known.now.facts.now (Num var) coll.0 index
        (expr_trees equal.now) (last_tree last.now)) }
{
    let index = index_of(coll, index, known.facts);
    put(b" USING ", out)?;
    write_index(index, out)?;
    put(b" (", out)?;
    write_bounds(var, index, equal, last, known, out)?;
    put(b")", out)
}
