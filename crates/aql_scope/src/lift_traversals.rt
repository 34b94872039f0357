//! Traversals are lifted.

ghost use Rattle.std.specs.Prelude.{◌≡◌, suc, ◌∷◌, ◌++◌, map, option_map, option_to_list, OnOk};
ghost use Rattle.aql_tree.specs.View.{tree, maybe};
ghost use Rattle.aql_tree.specs.View.{traversal_part, traversal_clause};
ghost use Rattle.aql_tree.specs.declared.syntax.Ident.TheVariants.{Num};
ghost use Rattle.aql_scope.specs.Numbering.{text_of, maybe_number, enter, number_after};
ghost use Rattle.aql_scope.specs.Lifting as spec;
ghost use Rattle.aql_scope.specs.Lifts.{LiftsClause, visible};

use crate::Made;
use crate::lift_exprs::{lift_expr, lift_maybe};
use crate::lift_options::chosen_options;
use crate::names::{NameList, Scope};
use crate::numbers::{LiftState, Numbers};
use aql_tree::{Expr, Ident, Traversal};
use aql_value::Seq;

/// A traversal: its names are visible in its PRUNE.
#[cycle(lift)]
pub fn lift_traversal(
    traversal: &mut Traversal,
    scope: &mut Scope,
    walk: &mut LiftState,
) -> Made<()>
    ensures { LiftsClause scope.old walk.old result scope.new walk.new
        (traversal_clause (traversal_part traversal.old))
        (traversal_clause (traversal_part traversal.new)) }
{
    let mut own = scope.own.copy(walk.numbers.alloc)?;
    enter_names(
        &mut traversal.vertex,
        &mut traversal.edge,
        &mut traversal.path,
        &mut own,
        &mut walk.numbers,
    )?;
    lift_expr(&mut traversal.start, scope, walk)?;
    scope.own = own;
    lift_prune(&mut traversal.prune, scope, &walk.numbers)?;
    traversal.options = chosen_options(&traversal.options, walk.numbers.alloc);
    Ok(())
}

// PRUNE is asked at each path, so there is no clause before which a subquery of it could stand: it
// keeps its own LETs, and no number after it counts them.
#[cycle(lift)]
fn lift_prune(prune: &mut Option<Expr>, scope: &Scope, numbers: &Numbers) -> Made<()>
    ensures { OnOk result (maybe (option_map tree prune.new) ≡ (spec.maybe (visible scope.now)
        numbers.now.next (maybe (option_map tree prune.old))).tree) }
{
    let mut aside = LiftState {
        numbers: Numbers::from(numbers.alloc, numbers.next),
        lets: Seq::new(numbers.alloc),
    };
    lift_maybe(prune, scope, &mut aside)
}

// Numbers for the names of a traversal, which are then visible.
fn enter_names(
    vertex: &mut Ident,
    edge: &mut Option<Ident>,
    path: &mut Option<Ident>,
    own: &mut NameList,
    numbers: &mut Numbers,
) -> Made<()>
    ensures vertex { OnOk result (vertex.new ≡ Num numbers.old.next) }
    ensures edge { OnOk result (edge.new ≡ maybe_number (suc numbers.old.next) edge.old) }
    ensures path { OnOk result (path.new
        ≡ maybe_number (number_after (option_to_list edge.old) (suc numbers.old.next)) path.old) }
    ensures own { OnOk result (own.new ≡ enter (option_to_list path.old) (option_to_list path.new)
        (enter (option_to_list edge.old) (option_to_list edge.new)
        ((vertex.old, numbers.old.next) ∷ own.old))) }
    ensures next { OnOk result (numbers.new.next ≡ number_after (option_to_list path.old)
        (number_after (option_to_list edge.old) (suc numbers.old.next))) }
    ensures said { OnOk result (numbers.new.said ≡ numbers.old.said
        ++ map text_of (vertex.old ∷ (option_to_list edge.old ++ option_to_list path.old))) }
{
    numbers.enter(vertex, own)?;
    enter_maybe(edge, own, numbers)?;
    enter_maybe(path, own, numbers)
}

// The number of a name that a traversal may have, which is then visible.
fn enter_maybe(ident: &mut Option<Ident>, own: &mut NameList, numbers: &mut Numbers) -> Made<()>
    ensures number { OnOk result (ident.new ≡ maybe_number numbers.old.next ident.old) }
    ensures own { OnOk result (own.new ≡ enter (option_to_list ident.old)
        (option_to_list (maybe_number numbers.old.next ident.old)) own.old) }
    ensures next { OnOk result
        (numbers.new.next ≡ number_after (option_to_list ident.old) numbers.old.next) }
    ensures said { OnOk result
        (numbers.new.said ≡ numbers.old.said ++ map text_of (option_to_list ident.old)) }
{
    match ident {
        Some(ident) => numbers.enter(ident, own),
        None => Ok(()),
    }
}
