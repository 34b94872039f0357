//! The faults of single names, calls and settings.

ghost use Rattle.std.specs.Prelude.{◌≡◌, [], option_map};
ghost use Rattle.aql_func.specs.Names.{function_named};
ghost use Rattle.aql_func.specs.Aggregates.{aggregate_named};
ghost use Rattle.aql_aggregate.specs.View.{aggregate_of};
ghost use Rattle.aql_tree.specs.View.{tree, maybe};
ghost use Rattle.aql_scope.specs.Numbering.{idents, text_of};
ghost use Rattle.aql_doc.specs.Declarations.{collection_index};
ghost use Rattle.aql_scope.specs.declared.faults.ScopeFault.TheVariants.{BadOption};
ghost use Rattle.aql_scope.specs.Faults as spec;
ghost use Rattle.aql_scope.specs.Contexts.{context_of, Judges};

use crate::ScopeFault;
use crate::names::{At, NameList, spelling};
use aql_aggregate::{AggregateKind, aggregate_kind};
use aql_doc::Catalog;
use aql_func::{arity, lookup};
use aql_tree::{Expr, Ident};
use aql_value::Text;
use std::alloc::Global;

/// Nothing where there is no fault, else the first one, or that memory ran out.
pub type Judged = Result<(), ScopeFault>;

/// A variable that is declared, where `earlier` were declared earlier in the same clause.
pub fn new_name(ident: &Ident, at: &At<'_>, earlier: &NameList) -> Judged
    ensures { Judges result (spec.new_name (spec.visible_variables (context_of at.now))
        (idents earlier.now) ident.now) }
{
    if at.scope.sees(ident) || earlier.has(ident) {
        let name = spelling(at.alloc, ident)?;
        return Err(ScopeFault::Redeclared { name });
    }
    Ok(())
}

/// A variable that is declared alone in its clause.
pub fn new_alone(ident: &Ident, at: &At<'_>) -> Judged
    ensures { Judges result
        (spec.new_name (spec.visible_variables (context_of at.now)) [] ident.now) }
{
    new_name(ident, at, &NameList::new(at.alloc))
}

/// A variable in an expression.
pub fn variable_fault(ident: &Ident, at: &At<'_>) -> Judged
    ensures { Judges result (spec.variable_fault (context_of at.now) ident.now) }
{
    if !at.scope.sees(ident) {
        let name = spelling(at.alloc, ident)?;
        return Err(ScopeFault::UnknownName { name });
    }
    Ok(())
}

/// A single name after IN, which is a variable or a collection.
pub fn source_fault(ident: &Ident, at: &At<'_>) -> Judged
    ensures { Judges result (spec.source_fault (context_of at.now) ident.now) }
{
    let Ident::Name(name) = ident else {
        return variable_fault(ident, at);
    };
    if at.scope.sees(ident) {
        return Ok(());
    }
    known_collection(name, at)
}

/// The collections of WITH.
pub fn known_collections(names: &[Text], at: &At<'_>) -> Judged
    ensures { Judges result (spec.known_collections at.now.catalog.now names.now) }
{
    for name in names {
        known_collection(name, at)?;
    }
    Ok(())
}

pub fn known_collection(name: &Text, at: &At<'_>) -> Judged
    ensures { Judges result (spec.known_collection at.now.catalog.now name.now) }
{
    if at.catalog.find(name.as_str()).is_none() {
        let name = name.copy(at.alloc)?;
        return Err(ScopeFault::UnknownCollection { name });
    }
    Ok(())
}

/// The edge collections of a traversal.
pub fn edge_collections(names: &[Text], at: &At<'_>) -> Judged
    ensures { Judges result (spec.edge_collections at.now.catalog.now names.now) }
{
    for name in names {
        edge_fault(name, at.alloc, at.catalog)?;
    }
    Ok(())
}

fn edge_fault(name: &Text, alloc: Global, catalog: &Catalog) -> Judged
    ensures { Judges result
        (spec.edge_fault catalog.now name.now (collection_index catalog.now name.now)) }
{
    let Some(number) = catalog.find(name.as_str()) else {
        let name = name.copy(alloc)?;
        return Err(ScopeFault::UnknownCollection { name });
    };
    match catalog.info(number) {
        Some(info) if info.edge => Ok(()),
        _ => {
            let name = name.copy(alloc)?;
            Err(ScopeFault::NotEdge { name })
        }
    }
}

/// A call with this number of arguments, at the function's name.
pub fn call_fault(given: usize, name: &Text, alloc: Global) -> Judged
    ensures { Judges result (spec.call_fault (function_named name.now) name.now given) }
{
    let Some(function) = lookup(name.as_str()) else {
        let name = name.copy(alloc)?;
        return Err(ScopeFault::UnknownFunction { name });
    };
    if !arity(function).allows(given) {
        let Ok(given) = u32::try_from(given) else {
            return Err(ScopeFault::Memory);
        };
        let name = name.copy(alloc)?;
        return Err(ScopeFault::WrongArity { name, given });
    }
    Ok(())
}

// Whether an aggregate may have no argument.
#[tactic(auto, using(crate::proofs::Words::no_counting))]
fn is_counting(kind: AggregateKind) -> bool
    ensures { result ≡ spec.is_counting (aggregate_of kind) }
{
    matches!(kind, AggregateKind::Count)
}

/// An aggregate, at the function's name.
pub fn aggregate_fault(arg: &Option<Expr>, name: &Text, alloc: Global) -> Judged
    ensures { Judges result (spec.aggregate_fault (aggregate_named name.now) name.now
        (maybe (option_map tree arg.now))) }
{
    let Some(kind) = aggregate_kind(name.as_str()) else {
        let name = name.copy(alloc)?;
        return Err(ScopeFault::UnknownFunction { name });
    };
    if !is_counting(kind) && arg.is_none() {
        let name = name.copy(alloc)?;
        return Err(ScopeFault::WrongArity { name, given: 0 });
    }
    Ok(())
}

/// The names after KEEP, among the variables of the query.
pub fn keep_fault(keep: &[Text], at: &At<'_>) -> Judged
    ensures { Judges result (spec.keep_fault (idents at.now.scope.now.own) keep.now) }
{
    for name in keep {
        let ident = Ident::Name(name.copy(at.alloc)?);
        if !at.scope.own.has(&ident) {
            let name = name.copy(at.alloc)?;
            return Err(ScopeFault::UnknownName { name });
        }
    }
    Ok(())
}

/// A setting of OPTIONS, or the depth of a traversal, told by a name.
pub fn option_fault(name: &str, alloc: Global) -> Judged
    ensures { Judges result (Some (BadOption name.now)) }
{
    let name = Text::new(alloc, name)?;
    Err(ScopeFault::BadOption { name })
}
