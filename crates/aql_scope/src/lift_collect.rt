//! COLLECT is lifted.

ghost use Rattle.std.specs.Prelude.{◌≡◌, map, option_map, option_to_list, IfOk, OnOk};
ghost use Rattle.aql_tree.specs.Tree.{object_literal};
ghost use Rattle.aql_tree.specs.View.{tree, trees, members, aggregates, into_tree, named};
ghost use Rattle.aql_tree.specs.View.{member_part, let_part, aggregate_part, into_part};
ghost use Rattle.aql_tree.specs.View.{collect_part, collect_clause};
ghost use Rattle.aql_tree.specs.declared.syntax.Ident.TheVariants.{Name};
ghost use Rattle.aql_meaning.specs.Groups.{into_names};
ghost use Rattle.aql_meaning.specs.Visible.{aggregate_vars, into_var};
ghost use Rattle.aql_scope.specs.Numbering.{number_of, numbered_variable, idents, enter, variable_members};
ghost use Rattle.aql_scope.specs.Lifting as spec;
ghost use Rattle.aql_scope.specs.Lifts.{LiftsNext, LiftsClause, visible};

use crate::Made;
use crate::lift_exprs::{lift_expr, lift_maybe, number_variable};
use crate::names::{NameList, Scope};
use crate::numbers::LiftState;
use aql_tree::{Aggregates, Collect, Expr, Field, Fields, Ident, Into, Lets};
use aql_value::{Seq, Text};
use std::alloc::Global;
use std::mem;

/// COLLECT: after it only its own names are left.
#[cycle(lift)]
pub fn lift_collect(collect: &mut Collect, scope: &mut Scope, walk: &mut LiftState) -> Made<()>
    ensures { LiftsClause scope.old walk.old result scope.new walk.new
        (collect_clause (collect_part collect.old)) (collect_clause (collect_part collect.new)) }
{
    let mut own = NameList::new(walk.numbers.alloc);
    lift_criteria(&mut collect.groups, scope, &mut own, walk)?;
    lift_aggregates(&mut collect.aggregates, scope, &mut own, walk)?;
    lift_into(&mut collect.into, scope, &mut own, walk)?;
    scope.own = own;
    Ok(())
}

#[cycle(lift)]
fn lift_criteria(
    groups: &mut Lets,
    scope: &Scope,
    own: &mut NameList,
    walk: &mut LiftState,
) -> Made<()>
    ensures criteria { LiftsNext walk.old result walk.new
        (map (λ l. l.0) (map let_part groups.new), trees (map (λ l. l.1) (map let_part groups.new)))
        (λ n. spec.criteria (visible scope.now) n (map (λ l. l.0) (map let_part groups.old))
        (trees (map (λ l. l.1) (map let_part groups.old)))) }
    ensures own { OnOk result (own.new ≡ enter (map (λ l. l.0) (map let_part groups.old))
        (spec.criteria (visible scope.now) walk.old.numbers.next
        (map (λ l. l.0) (map let_part groups.old))
        (trees (map (λ l. l.1) (map let_part groups.old)))).tree.0 own.old) }
{
    let items = groups.as_mut_slice();
    for group in items.iter_mut() {
        walk.numbers.enter(&mut group.var, own)?;
        lift_expr(&mut group.expr, scope, walk)?;
    }
    Ok(())
}

#[cycle(lift)]
fn lift_aggregates(
    all: &mut Aggregates,
    scope: &Scope,
    own: &mut NameList,
    walk: &mut LiftState,
) -> Made<()>
    ensures aggregates { LiftsNext walk.old result walk.new
        (aggregates (map aggregate_part all.new))
        (λ n. spec.aggregates (visible scope.now) n (aggregates (map aggregate_part all.old))) }
    ensures own { OnOk result
        (own.new ≡ enter (aggregate_vars (aggregates (map aggregate_part all.old)))
        (aggregate_vars (spec.aggregates (visible scope.now) walk.old.numbers.next
        (aggregates (map aggregate_part all.old))).tree) own.old) }
{
    let items = all.as_mut_slice();
    for item in items.iter_mut() {
        walk.numbers.enter(&mut item.var, own)?;
        lift_maybe(&mut item.arg, scope, walk)?;
    }
    Ok(())
}

// INTO, always with its expression.
#[cycle(lift)]
fn lift_into(
    into: &mut Option<Into>,
    scope: &Scope,
    own: &mut NameList,
    walk: &mut LiftState,
) -> Made<()>
    ensures into { LiftsNext walk.old result walk.new (into_tree (option_map into_part into.new))
        (λ n. spec.into_part scope.now.own (visible scope.now) n (into_tree
        (option_map into_part into.old))) }
    ensures own { OnOk result
        (own.new ≡ enter (option_to_list (into_var (into_tree (option_map into_part into.old))))
        (option_to_list (into_var (spec.into_part scope.now.own (visible scope.now)
        walk.old.numbers.next (into_tree (option_map into_part into.old))).tree)) own.old) }
{
    let Some(into) = into else {
        return Ok(());
    };
    walk.numbers.enter(&mut into.var, own)?;
    let keep = mem::replace(&mut into.keep, Seq::new(walk.numbers.alloc));
    if let Some(what) = &mut into.what {
        return lift_expr(what, scope, walk);
    }
    into.what = Some(variables_object(keep.as_slice(), scope, walk.numbers.alloc)?);
    Ok(())
}

// What INTO takes without an expression: the object of the query's own variables, or of those that
// KEEP names.
#[tactic(auto, using(crate::proofs::Words::kept_taken))]
fn variables_object(keep: &[Text], scope: &Scope, alloc: Global) -> Made<Expr>
    ensures { IfOk result (λ e. tree e ≡ object_literal (variable_members (visible scope.now)
        (into_names (idents scope.now.own) keep.now))) }
{
    if keep.len() == 0 {
        let own = scope.own.names(alloc)?;
        return object_with(own.as_slice(), scope, alloc);
    }
    object_with(keep, scope, alloc)
}

// The object of the variables of these names.
#[tactic(auto, using(crate::proofs::Words::object_members))]
fn object_with(names: &[Text], scope: &Scope, alloc: Global) -> Made<Expr>
    ensures { IfOk result
        (λ e. tree e ≡ object_literal (variable_members (visible scope.now) names.now)) }
{
    let mut fields = Seq::new(alloc);
    for name in names {
        fields.push(named_member(name, scope, alloc)?)?;
    }
    Ok(object(fields))
}

fn object(fields: Fields) -> Expr
    ensures { tree result ≡ object_literal (members (map member_part fields)) }
{
    Expr::Object(fields)
}

// A member with a variable by its name.
fn named_member(name: &Text, scope: &Scope, alloc: Global) -> Made<Field>
    ensures { IfOk result (λ f. member_part f
        ≡ named name.now (numbered_variable (number_of (visible scope.now) (Name name.now)))) }
{
    let ident = Ident::Name(name.copy(alloc)?);
    let value = number_variable(&ident, scope);
    Ok(Field::Named {
        name: name.copy(alloc)?,
        value,
    })
}
