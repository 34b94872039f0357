ghost use Rattle.std.specs.Prelude.{◌≡◌, IfOk};
ghost use Rattle.aql_lex.specs.Faults.{lex_text};
ghost use Rattle.aql_top.specs.Texts.{query_fault_text, at_byte};
ghost use Rattle.aql_top.specs.Texts.{scope_text, of_name, wrong_arity};

use crate::QueryFault;
use aql_lex::LexKind;
use aql_scope::ScopeFault;
use aql_script::{LimitKind, limit_text};
use aql_value::{OutOfMemory, Text};
use std::alloc::Global;

/// The text of a fault, as it stands on the error output after `aql: `.
pub fn query_fault_text(alloc: Global, fault: &QueryFault) -> Result<Text, OutOfMemory>
    ensures { IfOk result (λ t. t ≡ query_fault_text fault.now) }
{
    match fault {
        QueryFault::TooLong => limit_text(alloc, LimitKind::QueryBytes),
        QueryFault::Lexical { place, kind } => at_byte(alloc, *place, *kind),
        QueryFault::TooDeep => limit_text(alloc, LimitKind::Nesting),
        QueryFault::TooManyClauses => limit_text(alloc, LimitKind::Clauses),
        QueryFault::NotInGrammar => Text::new(alloc, "query: not in the grammar"),
        QueryFault::TraversalTooDeep => limit_text(alloc, LimitKind::TraversalDepth),
        QueryFault::Scope(fault) => scope_text(alloc, fault),
        QueryFault::Memory => Text::new(alloc, "out of memory"),
    }
}

fn at_byte(alloc: Global, place: u32, kind: LexKind) -> Result<Text, OutOfMemory>
    ensures { IfOk result (λ t. t ≡ at_byte place (lex_text kind)) }
{
    let text = format!(in alloc; "query: byte {place}: {kind}")?;
    Text::from_string(text)
}

fn scope_text(alloc: Global, fault: &ScopeFault) -> Result<Text, OutOfMemory>
    ensures { IfOk result (λ t. t ≡ scope_text fault.now) }
{
    match fault {
        ScopeFault::UnknownName { name } => of_name(alloc, "unknown name", name),
        ScopeFault::Redeclared { name } => of_name(alloc, "declared twice", name),
        ScopeFault::UnknownCollection { name } => of_name(alloc, "unknown collection", name),
        ScopeFault::UnknownFunction { name } => of_name(alloc, "unknown function", name),
        ScopeFault::WrongArity { name, given } => wrong_arity(alloc, name, *given),
        ScopeFault::NotEdge { name } => of_name(alloc, "not an edge collection", name),
        ScopeFault::SubqueryNotAllowed => Text::new(alloc, "query: subquery not allowed"),
        ScopeFault::BadOption { name } => of_name(alloc, "bad option", name),
        ScopeFault::Memory => Text::new(alloc, "out of memory"),
    }
}

fn of_name(alloc: Global, what: &str, name: &Text) -> Result<Text, OutOfMemory>
    ensures { IfOk result (λ t. t ≡ of_name what.now name.now) }
{
    let name = name.as_str();
    let text = format!(in alloc; "query: {what} {name}")?;
    Text::from_string(text)
}

fn wrong_arity(alloc: Global, name: &Text, given: u32) -> Result<Text, OutOfMemory>
    ensures { IfOk result (λ t. t ≡ wrong_arity name.now given) }
{
    let name = name.as_str();
    let text = format!(in alloc; "query: wrong number of arguments {name} {given}")?;
    Text::from_string(text)
}
