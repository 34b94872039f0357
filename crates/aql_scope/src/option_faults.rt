//! The first fault of a traversal's names and settings.

ghost use Rattle.std.specs.Prelude.{◌≡◌, [], map, option_to_list};
ghost use Rattle.aql_tree.specs.View.{tree, members, member_part, traversal_part};
ghost use Rattle.aql_scope.specs.Numbering.{idents};
ghost use Rattle.aql_scope.specs.Options.{no_settings};
ghost use Rattle.aql_scope.specs.Faults as spec;
ghost use Rattle.aql_scope.specs.Contexts.{context_of, Judges};

use crate::checks::{Judged, new_name, option_fault};
use crate::expr_faults::in_expr;
use crate::names::{At, NameList};
use crate::options::Written;
use aql_tree::{Expr, Field, Ident, Traversal};
use aql_value::Text;
use std::alloc::Global;

/// The names that a traversal declares.
#[tactic(auto, using(crate::proofs::Words::new_append))]
pub fn new_traversal_names(traversal: &Traversal, at: &At<'_>) -> Judged
    ensures { Judges result (spec.new_names (spec.visible_variables (context_of at.now)) []
        (spec.traversal_variables (traversal_part traversal.now).0)) }
{
    let mut earlier = NameList::new(at.alloc);
    new_name(&traversal.vertex, at, &earlier)?;
    earlier.enter(at.alloc, &traversal.vertex, 0)?;
    new_maybe(&traversal.edge, at, &earlier)?;
    earlier.enter_maybe(at.alloc, &traversal.edge)?;
    new_maybe(&traversal.path, at, &earlier)
}

// A name that a traversal may have.
fn new_maybe(ident: &Option<Ident>, at: &At<'_>, earlier: &NameList) -> Judged
    ensures { Judges result (spec.new_names (spec.visible_variables (context_of at.now))
        (idents earlier.now) (option_to_list ident.now)) }
{
    match ident {
        Some(ident) => new_name(ident, at, earlier),
        None => Ok(()),
    }
}

/// The settings of a traversal: first the parts of each, then what it shows.
#[cycle(faults)]
pub fn in_options(settings: &[Field], at: &At<'_>) -> Judged
    ensures { Judges result
        (spec.in_settings (context_of at.now) no_settings (members (map member_part settings.now))) }
{
    let mut written = Written::nothing();
    for setting in settings {
        match setting {
            Field::Named { name, value } => {
                in_expr(value, at)?;
                let after = with_setting(value, name, written);
                setting_fault(name, &after, at.alloc)?;
                written = after.unwrap_or(written);
            }
            Field::Computed { name, value } => {
                in_expr(name, at)?;
                in_expr(value, at)?;
                return option_fault("computed", at.alloc);
            }
        }
    }
    if !written.fits() {
        return option_fault("uniqueVertices", at.alloc);
    }
    Ok(())
}

// The settings with one more; nothing where it may not stand there.
fn with_setting(value: &Expr, name: &Text, written: Written) -> Option<Written>
    ensures { result ≡ spec.setting_of name.now (tree value.now) written }
{
    match value {
        Expr::Lit(value) => written.with(name.as_str(), value),
        _ => None,
    }
}

// What one setting shows.
fn setting_fault(name: &Text, after: &Option<Written>, alloc: Global) -> Judged
    ensures { Judges result (spec.setting_fault name.now after.now) }
{
    match after {
        None => option_fault(name.as_str(), alloc),
        Some(written) if !written.agrees() => option_fault("order", alloc),
        Some(_) => Ok(()),
    }
}
