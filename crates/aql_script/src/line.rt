//! One line of a script, taken into the catalog.

ghost use Rattle.std.specs.Prelude.{◌≡◌, ◌≤◌, length, IfOk, IfErr, OnOk, MatchResult};
ghost use Rattle.std.specs.Bool.{MatchBool};
ghost use Rattle.aql_script.specs.Lines.{next, query};
ghost use Rattle.aql_script.specs.inner.Meets.{Refuses};
ghost use Rattle.aql_script.specs.LineEffects.{line_effect, directive_effect, declaration, index, document};
ghost use Rattle.aql_script.specs.LineEffects.{keys_of, shards_of, declare_fault, index_fault, doc_fault, json_fault};
ghost use Rattle.aql_script.specs.declared.faults.LoadFault.TheVariants.{Line};

use crate::directives::{Directive, directive_in};
use crate::names::{Attributes, SHARDS};
use crate::options::Options;
use crate::pieces::{first_of, words};
use crate::{LimitKind, LineKind, LoadFault};
use aql_doc::{Catalog, CatalogFault, DocFault};
use aql_value::{CollNo, JsonFault, LineReader, Names, OutOfMemory, Text};
use std::alloc::Global;

/// The most bytes of a line before the query.
const LINE_BYTES: usize = 1_048_576;

// Takes one line, and says whether more lines follow: none after `%query`.
#[tactic(auto, unfolding(crate::specs::LineEffects::line_effect))]
pub(crate) fn take_line(
    alloc: Global,
    line: u32,
    reader: &mut LineReader,
    catalog: &mut Catalog,
    bytes: &[u8],
) -> Result<bool, LoadFault>
    ensures { MatchResult result
        (λ more. MatchBool more (line_effect line catalog.old bytes.now ≡ next catalog.new)
        ((line_effect line catalog.old bytes.now ≡ query) × (catalog.new ≡ catalog.old)))
        (λ e. Refuses e (line_effect line catalog.old bytes.now)) }
{
    if bytes.len() > LINE_BYTES {
        return Err(LoadFault::Limit(LimitKind::LineBytes { line }));
    }
    let Some(first) = first_of(bytes) else {
        return Ok(true);
    };
    if first == b'%' {
        take_directive(alloc, line, catalog, bytes)
    } else {
        take_document(alloc, line, reader, catalog, bytes)?;
        Ok(true)
    }
}

#[tactic(auto, unfolding(crate::specs::LineEffects::directive_effect))]
fn take_directive(
    alloc: Global,
    line: u32,
    catalog: &mut Catalog,
    bytes: &[u8],
) -> Result<bool, LoadFault>
    ensures { MatchResult result
        (λ more. MatchBool more (directive_effect line catalog.old bytes.now ≡ next catalog.new)
        ((directive_effect line catalog.old bytes.now ≡ query) × (catalog.new ≡ catalog.old)))
        (λ e. Refuses e (directive_effect line catalog.old bytes.now)) }
{
    let words = words(alloc, bytes)?;
    match directive_in(alloc, words.as_slice())? {
        None => Err(fault_at(line, LineKind::BadDirective)),
        Some(Directive::Query) => Ok(false),
        Some(
            Directive::Declare {
                edge,
                name,
                options,
            },
        ) => {
            declare(alloc, line, catalog, edge, name, options)?;
            Ok(true)
        }
        Some(Directive::Index { name, attributes }) => {
            add_index(line, catalog, name, attributes)?;
            Ok(true)
        }
    }
}

fn fault_at(line: u32, kind: LineKind) -> LoadFault
    ensures { result ≡ Line line kind }
{
    LoadFault::Line { line, kind }
}

// How many shards the options ask for: one where they do not say.
fn shards_of(options: &Options) -> u32
    ensures value { result ≡ shards_of options.now }
    ensures some { 1 ≤ result }
{
    match &options.shards {
        Some(count) => count.get(),
        None => 1,
    }
}

// The shard keys that the options ask for: `_key` where they do not say.
fn keys_of(alloc: Global, options: Options) -> Result<Names, OutOfMemory>
    ensures value { IfOk result (λ keys. keys ≡ keys_of options) }
    ensures count { IfOk result (λ keys. (1 ≤ length keys) × (length keys ≤ 8)) }
{
    let Options { shards: _, keys } = options;
    match keys {
        Some(keys) => Ok(keys.into_names()),
        None => {
            let mut names = Names::new(alloc);
            names.push(Text::new(alloc, "_key")?)?;
            Ok(names)
        }
    }
}

fn declare(
    alloc: Global,
    line: u32,
    catalog: &mut Catalog,
    edge: bool,
    name: Text,
    options: Options,
) -> Result<(), LoadFault>
    ensures ok { OnOk result (declaration line catalog.old edge name options ≡ next catalog.new) }
    ensures err { IfErr result (λ e. Refuses e (declaration line catalog.old edge name options)) }
{
    if catalog.find(name.as_str()).is_some() {
        return Err(fault_at(line, LineKind::DeclaredTwice));
    }
    let shards = shards_of(&options);
    if shards > SHARDS {
        return Err(LoadFault::Limit(LimitKind::Shards { line }));
    }
    let keys = keys_of(alloc, options)?;
    match catalog.declare(alloc, name, edge, shards, keys) {
        Ok(_) => Ok(()),
        Err(fault) => Err(declare_fault(line, fault)),
    }
}

fn add_index(
    line: u32,
    catalog: &mut Catalog,
    name: Text,
    attributes: Attributes,
) -> Result<(), LoadFault>
    ensures ok { OnOk result (index line catalog.old name attributes ≡ next catalog.new) }
    ensures err { IfErr result (λ e. Refuses e (index line catalog.old name attributes)) }
{
    let Some(coll) = catalog.find(name.as_str()) else {
        return Err(fault_at(line, LineKind::UnknownCollection));
    };
    match catalog.add_index(coll, attributes.into_names()) {
        Ok(()) => Ok(()),
        Err(fault) => Err(index_fault(line, fault)),
    }
}

// Adds the line's document to the collection declared last.
fn take_document(
    alloc: Global,
    line: u32,
    reader: &mut LineReader,
    catalog: &mut Catalog,
    bytes: &[u8],
) -> Result<(), LoadFault>
    ensures ok { OnOk result (document line catalog.old bytes.now ≡ next catalog.new) }
    ensures err { IfErr result (λ e. Refuses e (document line catalog.old bytes.now)) }
{
    let declared = catalog.len();
    if declared == 0 {
        return Err(fault_at(line, LineKind::NoCollection));
    }
    let last = CollNo((declared - 1) as u32);
    match reader.read(alloc, bytes) {
        Ok(value) => match catalog.add_document(alloc, last, value) {
            Ok(_) => Ok(()),
            Err(fault) => Err(doc_fault(line, &fault)),
        },
        Err(fault) => Err(json_fault(line, fault)),
    }
}

fn declare_fault(line: u32, fault: CatalogFault) -> LoadFault
    ensures { result ≡ declare_fault line fault }
{
    match fault {
        CatalogFault::Twice => fault_at(line, LineKind::DeclaredTwice),
        CatalogFault::TooMany => LoadFault::Limit(LimitKind::Collections { line }),
        CatalogFault::Memory => LoadFault::Memory,
    }
}

fn index_fault(line: u32, fault: CatalogFault) -> LoadFault
    ensures { result ≡ index_fault line fault }
{
    match fault {
        CatalogFault::Twice | CatalogFault::TooMany => {
            LoadFault::Limit(LimitKind::Indexes { line })
        }
        CatalogFault::Memory => LoadFault::Memory,
    }
}

fn json_fault(line: u32, fault: JsonFault) -> LoadFault
    ensures { result ≡ json_fault line fault }
{
    match fault {
        JsonFault::NotJson => fault_at(line, LineKind::NotJson),
        JsonFault::TooDeep => LoadFault::Limit(LimitKind::JsonDepth { line }),
        JsonFault::NotWhole => fault_at(line, LineKind::NotWhole),
        JsonFault::Memory => LoadFault::Memory,
    }
}

fn doc_fault(line: u32, fault: &DocFault) -> LoadFault
    ensures { result ≡ doc_fault line fault.now }
{
    match fault {
        DocFault::NotObject => fault_at(line, LineKind::NotObject),
        DocFault::BadKey => fault_at(line, LineKind::BadKey),
        DocFault::IdMismatch => fault_at(line, LineKind::IdMismatch),
        DocFault::BadEdge => fault_at(line, LineKind::BadEdge),
        DocFault::DuplicateKey { .. } => fault_at(line, LineKind::DuplicateKey),
        DocFault::TooMany => LoadFault::Limit(LimitKind::Documents { line }),
        DocFault::Memory => LoadFault::Memory,
    }
}
