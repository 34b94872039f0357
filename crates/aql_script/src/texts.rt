ghost use Rattle.std.specs.Prelude.{◌≡◌, IfOk};
ghost use Rattle.aql_script.specs.Texts.{at_line, fault_text, limit_text, line_text};

use crate::{LimitKind, LineKind, LoadFault};
use aql_value::{OutOfMemory, Text};
use std::alloc::Global;

/// The text of a fault, as it stands on the error output after `aql: `.
pub fn fault_text(alloc: Global, fault: LoadFault) -> Result<Text, OutOfMemory>
    ensures { IfOk result (λ t. t ≡ fault_text fault) }
{
    match fault {
        LoadFault::Read => Text::new(alloc, "read fault"),
        LoadFault::Limit(kind) => limit_text(alloc, kind),
        LoadFault::Line { line, kind } => at_line(alloc, "script: line ", line, line_text(kind)),
        LoadFault::Memory => Text::new(alloc, "out of memory"),
    }
}

/// The text of a limit that is exceeded, as it stands on the error output after `aql: `.
pub fn limit_text(alloc: Global, kind: LimitKind) -> Result<Text, OutOfMemory>
    ensures { IfOk result (λ t. t ≡ limit_text kind) }
{
    let front = "limit: line ";
    match kind {
        LimitKind::ScriptBytes => Text::new(alloc, "limit: script bytes"),
        LimitKind::LineBytes { line } => at_line(alloc, front, line, "line bytes"),
        LimitKind::Collections { line } => at_line(alloc, front, line, "collections"),
        LimitKind::Indexes { line } => at_line(alloc, front, line, "indexes"),
        LimitKind::Shards { line } => at_line(alloc, front, line, "shards"),
        LimitKind::Documents { line } => at_line(alloc, front, line, "documents"),
        LimitKind::JsonDepth { line } => at_line(alloc, front, line, "JSON depth"),
        LimitKind::QueryBytes => Text::new(alloc, "limit: query bytes"),
        LimitKind::Nesting => Text::new(alloc, "limit: nesting"),
        LimitKind::Clauses => Text::new(alloc, "limit: clauses"),
        LimitKind::TraversalDepth => Text::new(alloc, "limit: traversal depth"),
    }
}

fn at_line(alloc: Global, front: &str, line: u32, text: &str) -> Result<Text, OutOfMemory>
    ensures { IfOk result (λ t. t ≡ at_line front.now line text.now) }
{
    let whole = format!(in alloc; "{front}{line}: {text}")?;
    Text::from_string(whole)
}

fn line_text(kind: LineKind) -> &'static str
    ensures { result.now ≡ line_text kind }
{
    match kind {
        LineKind::BadDirective => "bad directive",
        LineKind::DeclaredTwice => "collection declared twice",
        LineKind::UnknownCollection => "unknown collection",
        LineKind::NoCollection => "document outside a collection",
        LineKind::NotJson => "not JSON",
        LineKind::NotWhole => "number not whole",
        LineKind::NotObject => "not an object",
        LineKind::BadKey => "bad key",
        LineKind::IdMismatch => "id mismatch",
        LineKind::BadEdge => "bad edge",
        LineKind::DuplicateKey => "duplicate key",
        LineKind::NoQuery => "no query",
        LineKind::QueryNotUtf8 => "query not UTF-8",
    }
}
