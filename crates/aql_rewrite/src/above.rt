//! What the nodes above a part of a plan use of its rows: a list for each of them, the nearest
//! node's last.

ghost use Rattle.std.specs.Prelude.{◌≡◌, ◌++◌, OnOk, IfOk};
ghost use Rattle.aql_tree.specs.declared.syntax.Ident.TheVariants.{Num};
ghost use Rattle.aql_meaning.specs.Row.{same_ident};
ghost use Rattle.aql_plan.specs.Needs.{result_uses as spec_result_uses};
ghost use Rattle.aql_plan.specs.Used.{use_tree, uses_tree};
ghost use Rattle.aql_meaning.specs.Uses.{is_used as spec_is_used};
ghost use Rattle.aql_rewrite.specs.View.{above_uses};

use aql_plan::{Use, Uses};
use aql_tree::{Ident, copy_ident};
use aql_value::{OutOfMemory, Seq};
use std::alloc::Global;

/// One list, alone.
pub fn only(alloc: Global, own: Uses) -> Result<Vec<Uses>, OutOfMemory>
    ensures { IfOk result (λ above. above_uses above.items ≡ uses_tree own) }
{
    let mut above = Vec::new(alloc);
    above.push(own)?;
    Ok(above)
}

/// What is used of the rows of a plan with a Return at its top.
pub fn result_uses(alloc: Global) -> Result<Vec<Uses>, OutOfMemory>
    ensures { IfOk result (λ above. above_uses above.items ≡ spec_result_uses) }
{
    let mut uses = Seq::new(alloc);
    uses.push(Use::Whole(Ident::Num(0)))?;
    only(alloc, uses)
}

fn is_number(var: u32, ident: &Ident) -> bool
    ensures { result ≡ same_ident (Num var) ident.now }
{
    match ident {
        Ident::Num(n) => var == *n,
        Ident::Name(_) => false,
    }
}

fn is_among(var: u32, uses: &[Use]) -> bool
    ensures { result ≡ spec_is_used (Num var) (uses_tree uses.now) }
{
    for used in uses {
        if is_number(var, used.variable()) {
            return true;
        }
    }
    false
}

/// Whether the nodes above use a variable, as a whole or in an attribute.
pub fn is_used(var: u32, above: &[Uses]) -> bool
    ensures { result ≡ spec_is_used (Num var) (above_uses above.now) }
{
    match above.split_last() {
        None => false,
        Some((own, further)) => {
            if is_among(var, own.as_slice()) {
                return true;
            }
            is_used(var, further)
        }
    }
}

fn copy_use(used: &Use, alloc: Global) -> Result<Use, OutOfMemory>
    ensures { IfOk result (λ u. use_tree u ≡ use_tree used.now) }
{
    match used {
        Use::Whole(var) => Ok(Use::Whole(copy_ident(alloc, var)?)),
        Use::Attribute(var, name) => {
            let var = copy_ident(alloc, var)?;
            Ok(Use::Attribute(var, name.copy(alloc)?))
        }
    }
}

fn add_copies(uses: &[Use], alloc: Global, to: &mut Uses) -> Result<(), OutOfMemory>
    ensures { OnOk result (uses_tree to.new ≡ uses_tree to.old ++ uses_tree uses.now) }
{
    for used in uses {
        to.push(copy_use(used, alloc)?)?;
    }
    Ok(())
}

/// Appends all that the nodes above use, the nearest node's first.
pub(crate) fn add_above(above: &[Uses], alloc: Global, to: &mut Uses) -> Result<(), OutOfMemory>
    ensures { OnOk result (uses_tree to.new ≡ uses_tree to.old ++ above_uses above.now) }
{
    match above.split_last() {
        None => Ok(()),
        Some((own, further)) => {
            add_copies(own.as_slice(), alloc, to)?;
            add_above(further, alloc, to)
        }
    }
}
