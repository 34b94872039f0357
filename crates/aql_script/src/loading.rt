ghost use Rattle.std.specs.Prelude.{◌≡◌, ◌≢◌, ◌≤◌, ◌<◌, ⊤, ℕ, List, length, Err, IfOk, IfErr, OnErr};
ghost use Rattle.std.specs.Str.Lines.{strip_carriage_return};
ghost use Rattle.aql_script.specs.Lines.{last, with_query};
ghost use Rattle.aql_script.specs.inner.Meets.{Meets};
ghost use Rattle.aql_script.specs.Script.{lines, script, Loads, Hinders, HasFault, IsOfBytes};
ghost use Rattle.aql_io.specs.Bytes.{HandsOut};
ghost use Rattle.aql_script.specs.LineEffects.{line_effect};
ghost use Rattle.aql_script.specs.declared.faults.LoadFault.{LoadFault};
ghost use Rattle.aql_script.specs.declared.faults.LoadFault.TheVariants.{Line};
ghost use Rattle.aql_script.specs.declared.faults.LineKind.TheVariants.{NoQuery};

use crate::line::take_line;
use crate::pieces::cut_at;
use crate::{LimitKind, LineKind, LoadFault};
use aql_doc::Catalog;
use aql_io::{ReadAllFault, Source, read_all};
use aql_value::{LineReader, Text};
use std::alloc::Global;

/// The most bytes of a script.
const SCRIPT_BYTES: u64 = 67_108_864;

/// A script that was loaded.
#[derive(Drop)]
pub struct Loaded {
    /// The collections and their documents.
    pub catalog: Catalog,
    /// The text of the query.
    pub query: Text,
}

/// Reads a source to its end, and loads the script that it is. The first fault decides: that of the
/// reading, or else of the first line that has one.
pub fn load<S: Source>(alloc: Global, source: &mut S) -> Result<Loaded, LoadFault>
    ensures script { IfOk result (λ l. Loads l (S.left source.old) (S.left source.new)) }
    ensures fault { IfErr result (λ e. Hinders e (S.left source.old) (S.left source.new)
        (S.faults source.old) (S.faults source.new)) }
    ensures front { OnErr result
        (HandsOut (S.left source.old) (S.left source.new) (λ _. ⊤)) }
    ensures quiet { result ≢ Err LoadFault.Read → S.faults source.new ≡ S.faults source.old }
    ensures later { S.faults source.old ≤ S.faults source.new }
{
    match read_all(alloc, source, SCRIPT_BYTES) {
        Ok(bytes) => load_lines(alloc, &bytes),
        Err(ReadAllFault::Failed) => Err(LoadFault::Read),
        Err(ReadAllFault::TooLong) => Err(LoadFault::Limit(LimitKind::ScriptBytes)),
        Err(ReadAllFault::Memory) => Err(LoadFault::Memory),
    }
}

/// Loads the script that these bytes are. The first fault decides: more than 67,108,864 bytes, or
/// else that of the first line that has one.
pub fn load_bytes(alloc: Global, bytes: &[u8]) -> Result<Loaded, LoadFault>
    ensures { Meets result (script bytes.now) }
{
    if bytes.len() as u64 > SCRIPT_BYTES {
        return Err(LoadFault::Limit(LimitKind::ScriptBytes));
    }
    load_lines(alloc, bytes)
}

/// The fault of a script's bytes is that of a line or a limit: want of memory and a failed read
/// come to a call alone.
pub fn bytes_have_no_other_fault()
    ensures { (bytes : List ℕ) (fault : LoadFault) → HasFault bytes fault → IsOfBytes fault }
{}

// A carriage return at the end of a line is dropped.
fn without_cr(line: &[u8]) -> &[u8]
    ensures { result.now ≡ strip_carriage_return line.now }
{
    line.strip_suffix(b"\r").unwrap_or(line)
}

// The script whose query stands after a line.
fn with_query(alloc: Global, line: u32, catalog: Catalog, text: &[u8]) -> Result<Loaded, LoadFault>
    ensures { Meets result (with_query line catalog text.now) }
{
    match str::from_utf8(text) {
        Ok(text) => {
            let query = Text::new(alloc, text)?;
            Ok(Loaded { catalog, query })
        }
        Err(_) => Err(LoadFault::Line {
            line,
            kind: LineKind::QueryNotUtf8,
        }),
    }
}

// The script of these bytes.
fn load_lines(alloc: Global, bytes: &[u8]) -> Result<Loaded, LoadFault>
    requires { length bytes.now ≤ 67108864 }
    ensures { Meets result (lines bytes.now) }
{
    let mut catalog = Catalog::new(alloc);
    let mut reader = LineReader::new(alloc);
    let mut rest = bytes;
    let mut line: u32 = 0;
    'lines: loop {
        let Some((piece, after)) = cut_at(b'\n', rest) else {
            return load_last(alloc, line, &mut reader, catalog, rest);
        };
        line += 1;
        match take_line(alloc, line, &mut reader, &mut catalog, without_cr(piece)) {
            Ok(true) => {}
            Ok(false) => return with_query(alloc, line, catalog, after),
            Err(fault) => return Err(fault),
        }
        rest = after;
    }
}

// The script that ends with this line, which no line feed ends.
fn load_last(
    alloc: Global,
    before: u32,
    reader: &mut LineReader,
    catalog: Catalog,
    bytes: &[u8],
) -> Result<Loaded, LoadFault>
    requires { before < 67108865 }
    ensures { Meets result (last line_effect before catalog bytes.now) }
{
    if bytes.len() == 0 {
        return Err(no_query(before));
    }
    let line = before + 1;
    let mut held = catalog;
    match take_line(alloc, line, reader, &mut held, bytes) {
        Ok(true) => Err(no_query(line)),
        Ok(false) => with_query(alloc, line, held, b""),
        Err(fault) => Err(fault),
    }
}

fn no_query(line: u32) -> LoadFault
    ensures { result ≡ Line line NoQuery }
{
    LoadFault::Line {
        line,
        kind: LineKind::NoQuery,
    }
}
