//! A FOR over the values of a subquery becomes the subquery's own nodes.

ghost use Rattle.std.specs.Prelude.{◌≡◌, None, true, false, MatchOption};
ghost use Rattle.aql_tree.specs.declared.syntax.Ident.TheVariants.{Num};
ghost use Rattle.aql_tree.specs.Tree.{variable};
ghost use Rattle.aql_meaning.specs.Row.{same_ident};
ghost use Rattle.aql_plan.specs.Nodes.{body_in};
ghost use Rattle.aql_plan.specs.Plan as spec;
ghost use Rattle.aql_plan.specs.Plan.{top};
ghost use Rattle.aql_plan.specs.View.{node_tree, plan_tree};
ghost use Rattle.aql_rewrite.specs.Places.{Stays};
ghost use Rattle.aql_rewrite.specs.View.{above_uses};
ghost use Rattle.aql_rules_order.specs.InlineSubqueries.{Inlines, started_from};
ghost use Rattle.aql_rules_order.specs.InlineSubqueries.{is_single as spec_is_single};
ghost use Rattle.aql_rules_order.specs.InlineSubqueries.{has_collect as spec_has_collect};
ghost use Rattle.aql_rules_order.specs.Readers.{list_variable, as_value, with_value};
ghost use Rattle.aql_rules_order.specs.Readers.{is_calculation as spec_is_calculation};
ghost use Rattle.aql_rules_order.specs.Readers.{is_plain_return as spec_is_plain_return};
ghost use Rattle.aql_rules_order.specs.Readers.{may_inline as spec_may_inline};
ghost use Rattle.aql_rules_order.specs.Readers.{inline as spec_inline};

use aql_plan::{Facts, Node, Plan, Uses};
use aql_rewrite::{PartRule, Rule, Swap, is_collect, is_used, replace_below, replace_body};
use aql_tree::{Expr, Ident};
use aql_value::OutOfMemory;
use std::alloc::Global;
use std::mem;

fn variable_of(node: &Node) -> Option<(u32, &Ident)>
    ensures { MatchOption result (list_variable (node_tree node.now) ≡ None)
        (λ l. node_tree node.now ≡ spec.EnumerateList (Num l.0) (variable l.1.now)) }
{
    match node {
        Node::EnumerateList {
            var,
            list: Expr::Var(over),
        } => Some((*var, over)),
        _ => None,
    }
}

// A FOR over a variable: its input, its own variable and that one.
fn over_variable(plan: &Plan) -> Option<(&Plan, u32, &Ident)>
    ensures { MatchOption result (list_variable (top (plan_tree plan.now)) ≡ None)
        (λ l. plan_tree plan.now ≡ spec.Over (plan_tree l.0.now)
        (spec.EnumerateList (Num l.1) (variable l.2.now))) }
{
    match plan {
        Plan::Over { below, node } => {
            let (var, over) = variable_of(node)?;
            Some((below, var, over))
        }
        _ => None,
    }
}

// A Subquery: its input, its variable and its body.
fn subquery_of(plan: &Plan) -> Option<(&Plan, u32, &Plan)>
    ensures { MatchOption result (body_in (top (plan_tree plan.now)) ≡ None)
        (λ l. plan_tree plan.now ≡ spec.Over (plan_tree l.0.now)
        (spec.Subquery (Num l.1) (plan_tree l.2.now))) }
{
    match plan {
        Plan::Subquery { below, var, body } => Some((below, *var, body)),
        _ => None,
    }
}

fn is_plain_return(node: &Node) -> bool
    ensures { result ≡ spec_is_plain_return (node_tree node.now) }
{
    matches!(
        node,
        Node::Return {
            distinct: false,
            ..
        }
    )
}

// The input of a Return without DISTINCT.
fn below_return(plan: &Plan) -> Option<&Plan>
    ensures { MatchOption result (spec_is_plain_return (top (plan_tree plan.now)) ≡ false)
        (λ b. (plan_tree plan.now ≡ spec.Over (plan_tree b.now) (top (plan_tree plan.now)))
        × (spec_is_plain_return (top (plan_tree plan.now)) ≡ true)) }
{
    match plan {
        Plan::Over { below, node } if is_plain_return(node) => Some(below),
        _ => None,
    }
}

fn is_variable(var: u32, ident: &Ident) -> bool
    ensures { result ≡ same_ident (Num var) ident.now }
{
    match ident {
        Ident::Num(n) => var == *n,
        Ident::Name(_) => false,
    }
}

fn is_calculation(node: &Node) -> bool
    ensures { result ≡ spec_is_calculation (node_tree node.now) }
{
    matches!(node, Node::Calculation { .. })
}

/// Whether a plan gives its start row alone, with values that are set in it.
pub fn is_single(plan: &Plan) -> bool
    ensures { result ≡ spec_is_single (plan_tree plan.now) }
{
    match plan {
        Plan::Singleton => true,
        Plan::Over { below, node } => is_calculation(node) && is_single(below),
        Plan::Subquery { below, .. } => is_single(below),
    }
}

// Whether a Collect stands on the spine.
fn has_collect(plan: &Plan) -> bool
    ensures { result ≡ spec_has_collect (plan_tree plan.now) }
{
    match plan.below() {
        None => false,
        Some(below) => is_collect(plan) || has_collect(below),
    }
}

// Whether the nodes of a subquery may stand over its input.
fn may_inline(above: &[Uses], var: u32, start: &Plan, inner: &Plan) -> bool
    ensures { result ≡ spec_may_inline (above_uses above.now) (Num var) (plan_tree start.now)
        (plan_tree inner.now) }
{
    !is_used(var, above) && is_single(start) && !has_collect(inner)
}

// The variable of a FOR over the values of a subquery that may be inlined; `None` exactly where the
// rule does not apply.
fn inlined_at(part: &Plan, above: &[Uses]) -> Option<u32>
    ensures { MatchOption result (Stays Inlines (above_uses above.now) (plan_tree part.now))
        (λ x. Inlines (above_uses above.now) (plan_tree part.now)
        (spec_inline (Num x) (plan_tree part.now)) None) }
{
    let (node, var, over) = over_variable(part)?;
    let (start, own, body) = subquery_of(node)?;
    let inner = below_return(body)?;
    if is_variable(own, over) && may_inline(above, own, start, inner) {
        return Some(var);
    }
    None
}

// Puts a plan in the place of the start row of another one.
fn start_from(plan: &mut Plan, start: Plan)
    ensures { plan_tree plan.new ≡ started_from (plan_tree start) (plan_tree plan.old) }
{
    match plan {
        Plan::Singleton => *plan = start,
        Plan::Over { below, .. } => start_from(&mut **below, start),
        Plan::Subquery { below, .. } => start_from(&mut **below, start),
    }
}

// Makes a Calculation of a Return.
fn set_value(node: &mut Node, var: u32)
    ensures { node_tree node.new ≡ as_value (Num var) (node_tree node.old) }
{
    if let Node::Return { expr, .. } = node {
        let expr = mem::replace(expr, Expr::Current);
        *node = Node::Calculation { var, expr };
    }
}

fn set_value_at(plan: &mut Plan, var: u32)
    ensures { plan_tree plan.new ≡ with_value (Num var) (plan_tree plan.old) }
{
    if let Plan::Over { node, .. } = plan {
        set_value(&mut **node, var);
    }
}

// The nodes of the subquery in the place of a FOR over its values.
fn inline(part: &mut Plan, var: u32)
    ensures { plan_tree part.new ≡ spec_inline (Num var) (plan_tree part.old) }
{
    let mut node = replace_below(part, Plan::Singleton);
    let mut body = replace_body(&mut node, Plan::Singleton);
    let start = replace_below(&mut node, Plan::Singleton);
    start_from(&mut body, start);
    set_value_at(&mut body, var);
    *part = body;
}

/// The rule inline-subqueries.
#[derive(Clone, Copy, Drop)]
pub struct InlineSubqueries;

impl Rule for InlineSubqueries {
    ghost use Rattle.std.specs.Prelude.{false};
    ghost use Rattle.aql_plan.specs.Nodes.{weight};
    ghost use Rattle.aql_rules_order.specs.InlineSubqueries.{Inlines};
    ghost use Rattle.aql_rules_order.specs.laws.SubqueriesInlined.{inlines_refine, inlines_keep};
    ghost use Rattle.aql_rules_order.specs.laws.SubqueriesInlined.{inlines_fall};

    ghost rewrites = { λ _ _. Inlines };

    ghost fragments = { λ _. false };

    ghost measure = { λ _. weight };

    fn at(
        &self,
        alloc: Global,
        part: &Plan,
        above: &[Uses],
        facts: &Facts,
    ) -> Result<Option<Swap>, OutOfMemory> {
        let mut part = part.copy(alloc)?;
        if self.rewrite(alloc, &mut part, above, facts)? {
            return Ok(Some(Swap { part, rename: None }));
        }
        Ok(None)
    }

    ghost refines = { λ _ facts outer away us p q r placed h.
        inlines_refine facts outer away us p q r placed h };

    ghost keeps = { λ _ facts outer away us p q r placed h.
        inlines_keep facts outer away us p q r placed h };

    ghost falls = { λ _ facts p q r whole h. inlines_fall facts p q r whole h };
}

impl PartRule for InlineSubqueries {
    ghost use Rattle.std.specs.Prelude.{refl, true};
    ghost use Rattle.std.proofs.Common.{true≢false};
    ghost use Rattle.aql_rules_order.specs.laws.SubqueriesInlined.{nothing};
    ghost use Rattle.aql_rules_order.specs.laws.SubqueriesInlined.{inlines_nameless, inlines_shrink};

    ghost looks = { λ _. true };

    fn rewrite(
        &self,
        _alloc: Global,
        part: &mut Plan,
        above: &[Uses],
        _facts: &Facts,
    ) -> Result<bool, OutOfMemory> {
        match inlined_at(part, above) {
            None => Ok(false),
            Some(var) => {
                inline(part, var);
                Ok(true)
            }
        }
    }

    fn looks_above(&self) -> bool {
        true
    }

    ghost blind = { λ _ e facts us vs p q r h. absurd (true≢false e) };

    ghost lone = { λ _. refl };

    ghost nameless = { λ _ _ us p q r h. inlines_nameless us p q r h };

    ghost size = { λ _. nothing };

    ghost lowers = { λ _ _ us p q r h. inlines_shrink us p q r h };
}
