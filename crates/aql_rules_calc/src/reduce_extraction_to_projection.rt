//! Where at most five attributes of a document are looked at, only these are kept of it.

ghost use Rattle.std.specs.Prelude.{◌≡◌, ◌≤◌, ◌↔◌, ◌++◌, ◌∷◌, [], IfOk, OnOk, IsTrue, MatchOption};
ghost use Rattle.std.specs.Prelude.{Some, None, map, length};
ghost use Rattle.aql_tree.specs.declared.syntax.Ident.{Ident as spec_Ident};
ghost use Rattle.aql_tree.specs.declared.syntax.Ident.TheVariants.{Num};
ghost use Rattle.aql_meaning.specs.Row.{same_ident};
ghost use Rattle.aql_meaning.specs.Uses.{Attribute};
ghost use Rattle.aql_plan.specs.Plan.{top};
ghost use Rattle.aql_plan.specs.View.{node_tree, plan_tree};
ghost use Rattle.aql_plan.specs.Used.{use_tree, uses_tree};
ghost use Rattle.aql_rewrite.specs.Places.{Stays};
ghost use Rattle.aql_rewrite.specs.View.{above_uses};
ghost use Rattle.aql_rules_calc.specs.Projections.{node_with_attrs, with_attrs, AreAdded};
ghost use Rattle.aql_rules_calc.specs.Projections.{read_whole as spec_read_whole};
ghost use Rattle.aql_rules_calc.specs.Projections.{AreKept, order_of as spec_order_of};
ghost use Rattle.aql_rules_calc.specs.ReduceExtractionToProjection.{with_name, Reduces};

use aql_plan::{Facts, Node, Plan, Use, Uses, index_of};
use aql_rewrite::{ChangingRule, Rule, Swap};
use aql_tree::Ident;
use aql_value::{CollNo, Names, OutOfMemory, Seq, Text};
use std::alloc::Global;
use std::cmp::Ordering;

fn is_number(var: u32, ident: &Ident) -> bool
    ensures { result ≡ same_ident (Num var) ident.now }
{
    match ident {
        Ident::Num(n) => var == *n,
        Ident::Name(_) => false,
    }
}

fn add_copies(alloc: Global, names: &[Text], to: &mut Names) -> Result<(), OutOfMemory>
    ensures { OnOk result (to.new ≡ to.old ++ names.now) }
{
    for name in names {
        to.push(name.copy(alloc)?)?;
    }
    Ok(())
}

// Appends names in ascending order with one more, at its place.
fn add_with(alloc: Global, names: &[Text], name: &str, to: &mut Names) -> Result<(), OutOfMemory>
    ensures { OnOk result (to.new ≡ to.old ++ with_name names.now name.now) }
{
    match names.split_first() {
        None => to.push(Text::new(alloc, name)?),
        Some((first, rest)) => match name.cmp(first.as_str()) {
            Ordering::Less => {
                to.push(Text::new(alloc, name)?)?;
                add_copies(alloc, names, to)
            }
            Ordering::Equal => add_copies(alloc, names, to),
            Ordering::Greater => {
                to.push(first.copy(alloc)?)?;
                add_with(alloc, rest, name, to)
            }
        },
    }
}

// Adds a name to those in ascending order, unless it is there. Whether there are at most five.
fn add_name(alloc: Global, name: &str, names: &mut Names) -> Result<bool, OutOfMemory>
    ensures added { OnOk result (names.new ≡ with_name names.old name.now) }
    ensures few { IfOk result (λ few. IsTrue few ↔ (length names.new ≤ 5)) }
{
    let mut all = Seq::new(alloc);
    add_with(alloc, names.as_slice(), name, &mut all)?;
    *names = all;
    Ok(names.len() <= 5)
}

// Adds the name by which a variable is used, if it is used by one. `false` exactly where it is used
// as a whole, or there are more than five names.
fn add_use(alloc: Global, var: u32, used: &Use, names: &mut Names) -> Result<bool, OutOfMemory>
    requires { length names.old ≤ 5 }
    ensures { IfOk result
        (λ few. AreAdded few names.old (Num var) (use_tree used.now ∷ []) names.new) }
{
    match used {
        Use::Whole(own) => Ok(!is_number(var, own)),
        Use::Attribute(own, name) => {
            if !is_number(var, own) {
                return Ok(true);
            }
            add_name(alloc, name.as_str(), names)
        }
    }
}

// The same of one use after another, up to the first `false`.
fn add_uses(alloc: Global, var: u32, uses: &[Use], names: &mut Names) -> Result<bool, OutOfMemory>
    requires { length names.old ≤ 5 }
    ensures { IfOk result
        (λ few. AreAdded few names.old (Num var) (uses_tree uses.now) names.new) }
{
    for used in uses {
        if !add_use(alloc, var, used, names)? {
            return Ok(false);
        }
    }
    Ok(true)
}

// The same of what the nodes above use, the nearest node first.
fn add_above(
    alloc: Global,
    var: u32,
    above: &[Uses],
    names: &mut Names,
) -> Result<bool, OutOfMemory>
    requires { length names.old ≤ 5 }
    ensures { IfOk result
        (λ few. AreAdded few names.old (Num var) (above_uses above.now) names.new) }
{
    match above.split_last() {
        None => Ok(true),
        Some((own, further)) => {
            if !add_uses(alloc, var, own.as_slice(), names)? {
                return Ok(false);
            }
            add_above(alloc, var, further, names)
        }
    }
}

// The same of attributes of a variable that count as used.
fn add_attributes(alloc: Global, order: &[Text], names: &mut Names) -> Result<bool, OutOfMemory>
    requires { length names.old ≤ 5 }
    ensures { IfOk result (λ few. (x : spec_Ident)
        → AreAdded few names.old x (map (λ name. Attribute x name) order.now) names.new) }
{
    for name in order {
        if !add_name(alloc, name.as_str(), names)? {
            return Ok(false);
        }
    }
    Ok(true)
}

// The names by which a variable is used, `order` with them; `None` exactly where it is used as a
// whole, or there are more than five.
fn kept_names(
    alloc: Global,
    var: u32,
    order: &[Text],
    above: &[Uses],
) -> Result<Option<Names>, OutOfMemory>
    ensures { IfOk result (λ kept. AreKept kept (Num var)
        (above_uses above.now ++ map (λ name. Attribute (Num var) name) order.now)) }
{
    let mut names = Seq::new(alloc);
    if !add_above(alloc, var, above, &mut names)? {
        return Ok(None);
    }
    if !add_attributes(alloc, order, &mut names)? {
        return Ok(None);
    }
    Ok(Some(names))
}

// The attributes of an index, if it is ordered.
fn order_of(facts: &Facts, coll: CollNo, index: u32, ordered: Option<bool>) -> &[Text]
    ensures { result.now ≡ spec_order_of facts.now coll.0 index ordered }
{
    match ordered {
        None => &[],
        Some(_) => match index_of(facts, coll, index) {
            Some(known) => known.attributes.as_slice(),
            None => &[],
        },
    }
}

fn set_node_attrs(node: &mut Node, names: Names)
    ensures { node_tree node.new ≡ node_with_attrs names (node_tree node.old) }
{
    match node {
        Node::EnumerateCollection { attrs, .. } => *attrs = Some(names),
        Node::Index { attrs, .. } => *attrs = Some(names),
        _ => {}
    }
}

// Keeps these attributes alone at a node that reads; any other node stays as it is.
fn set_attrs(plan: &mut Plan, names: Names)
    ensures { plan_tree plan.new ≡ with_attrs names (plan_tree plan.old) }
{
    match plan {
        Plan::Over { node, .. } => set_node_attrs(node, names),
        _ => {}
    }
}

fn node_read_whole<'a>(node: &Node, facts: &'a Facts) -> Option<(u32, &'a [Text])>
    ensures { MatchOption result (spec_read_whole facts.now (node_tree node.now) ≡ None)
        (λ r. spec_read_whole facts.now (node_tree node.now) ≡ Some (Num r.0, r.1.now)) }
{
    match node {
        Node::EnumerateCollection {
            var,
            attrs: None,
            ..
        } => Some((*var, &[])),
        Node::Index {
            var,
            coll,
            attrs: None,
            index,
            ordered,
            ..
        } => Some((*var, order_of(facts, *coll, *index, *ordered))),
        _ => None,
    }
}

// The variable of a node that reads documents whole, and the attributes of its order; `None`
// exactly at every other node.
fn read_whole<'a>(plan: &Plan, facts: &'a Facts) -> Option<(u32, &'a [Text])>
    ensures { MatchOption result (spec_read_whole facts.now (top (plan_tree plan.now)) ≡ None)
        (λ r. spec_read_whole facts.now (top (plan_tree plan.now)) ≡ Some (Num r.0, r.1.now)) }
{
    match plan {
        Plan::Over { node, .. } => node_read_whole(node, facts),
        _ => None,
    }
}

// The names to keep at the top node of a part; `None` exactly where the rule does not apply there.
fn names_to_keep(
    alloc: Global,
    part: &Plan,
    above: &[Uses],
    facts: &Facts,
) -> Result<Option<Names>, OutOfMemory>
    ensures { IfOk result (λ kept. MatchOption kept
        (Stays (Reduces facts.now) (above_uses above.now) (plan_tree part.now))
        (λ names. Reduces facts.now (above_uses above.now) (plan_tree part.now)
        (with_attrs names (plan_tree part.now)) None)) }
{
    match read_whole(part, facts) {
        None => Ok(None),
        Some((var, order)) => kept_names(alloc, var, order, above),
    }
}

/// The rule reduce-extraction-to-projection.
#[derive(Clone, Copy, Drop)]
pub struct ReduceExtractionToProjection;

impl Rule for ReduceExtractionToProjection {
    ghost use Rattle.std.specs.Prelude.{false};
    ghost use Rattle.aql_rules_calc.specs.Measures.{whole_readers};
    ghost use Rattle.aql_rules_calc.specs.laws.Projected.{reduces_refine, reduces_keep};
    ghost use Rattle.aql_rules_calc.specs.laws.Projected.{reduces_fall};

    ghost rewrites = { λ _ facts. Reduces facts };

    ghost fragments = { λ _. false };

    ghost measure = { λ _. whole_readers };

    fn at(
        &self,
        alloc: Global,
        part: &Plan,
        above: &[Uses],
        facts: &Facts,
    ) -> Result<Option<Swap>, OutOfMemory> {
        match names_to_keep(alloc, part, above, facts)? {
            None => Ok(None),
            Some(names) => {
                let mut part = part.copy(alloc)?;
                set_attrs(&mut part, names);
                Ok(Some(Swap { part, rename: None }))
            }
        }
    }

    ghost refines = { λ _ facts _ _ us p q r _ h. reduces_refine facts us p q r h };

    ghost keeps = { λ _ facts outer away us p q r placed h.
        reduces_keep facts outer away us p q r placed h };

    ghost falls = { λ _ facts p q r whole h. reduces_fall facts p q r whole h };
}

impl ChangingRule for ReduceExtractionToProjection {
    ghost use Rattle.std.specs.Prelude.{refl};
    ghost use Rattle.aql_rules_calc.specs.laws.Projected.{reduces_changes};

    fn change(
        &self,
        alloc: Global,
        part: &mut Plan,
        above: &[Uses],
        facts: &Facts,
    ) -> Result<bool, OutOfMemory> {
        match names_to_keep(alloc, part, above, facts)? {
            None => Ok(false),
            Some(names) => {
                set_attrs(part, names);
                Ok(true)
            }
        }
    }

    ghost lone = { λ _. refl };

    ghost changes = { λ _ facts us p q r h. reduces_changes facts us p q r h };
}
