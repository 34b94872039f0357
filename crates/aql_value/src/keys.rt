// Values as keys of maps.
ghost use Rattle.std.specs.Prelude.{◌≡◌, fold};
ghost use Rattle.aql_value.specs.View.{datum_of};
ghost use Rattle.aql_value.specs.Datum.{array_of, object_of};
ghost use Rattle.aql_value.specs.HashInput.{datum_input, items_input, fields_input};

use crate::order::order;
use crate::values::entries_in;
use crate::{Items, Members, Value};
use std::cmp::Ordering;
use std::hash::{Hash, Hasher};

impl PartialEq for Value {
    ghost use Rattle.std.specs.Ordering.{on, eq_by_cmp};
    ghost use Rattle.std.specs.Cmp.{partial_equiv_from_equiv, eq_by_cmp_equiv};
    ghost use Rattle.std.proofs.lemmas.Cmp.{on_equiv};
    ghost use Rattle.aql_value.specs.View.{datum_of};
    ghost use Rattle.aql_value.specs.Compare.{compare};
    ghost use Rattle.aql_value.specs.laws.Strict.{compare_total};

    ghost eq = { on datum_of (eq_by_cmp compare) };

    ghost laws = { partial_equiv_from_equiv (on_equiv datum_of (eq_by_cmp_equiv compare_total)) };

    fn eq(&self, other: &Value) -> bool {
        order(self, other).is_eq()
    }
}

impl Eq for Value {
    ghost use Rattle.std.specs.Cmp.{eq_by_cmp_equiv};
    ghost use Rattle.std.proofs.lemmas.Cmp.{on_equiv};
    ghost use Rattle.aql_value.specs.View.{datum_of};
    ghost use Rattle.aql_value.specs.laws.Strict.{compare_total};

    ghost laws = { on_equiv datum_of (eq_by_cmp_equiv compare_total) };
}

impl Hash for Value {
    ghost use Rattle.aql_value.specs.View.{datum_of};
    ghost use Rattle.aql_value.specs.HashInput.{datum_input};
    ghost use Rattle.aql_value.specs.laws.Keyed.{same_input};

    ghost hash_input = { λ v. datum_input (datum_of v) };

    ghost respects_eq = { λ x y e. same_input (datum_of x) (datum_of y) e };

    fn hash<H: Hasher>(&self, state: &mut H) {
        feed(self, state)
    }
}

#[cycle(feeding)]
fn feed<H: Hasher>(v: &Value, state: &mut H)
    ensures { state.new ≡ fold H.write state.old (datum_input (datum_of v.now)) }
{
    match v {
        Value::Null => state.write_u8(0),
        Value::Bool(b) => {
            state.write_u8(1);
            b.hash(state);
        }
        Value::Num(n) => {
            state.write_u8(2);
            n.hash(state);
        }
        Value::Text(text) => {
            state.write_u8(3);
            text.as_str().hash(state);
        }
        Value::List(list) => {
            state.write_u8(4);
            feed_items(list, state);
        }
        Value::Object(members) => {
            state.write_u8(5);
            feed_members(members, state);
        }
    }
}

#[cycle(feeding)]
fn feed_items<H: Hasher>(list: &Items, state: &mut H)
    ensures { state.new ≡ fold H.write state.old (items_input (array_of list.now)) }
{
    for item in &list.items {
        feed(item, state);
    }
    state.write_u8(6);
}

#[cycle(feeding)]
fn feed_members<H: Hasher>(members: &Members, state: &mut H)
    ensures { state.new ≡ fold H.write state.old (fields_input (object_of members.now)) }
{
    for member in entries_in(&members.entries) {
        member.name.as_str().hash(state);
        feed(&member.value, state);
    }
    state.write_u8(6);
}

impl PartialOrd for Value {
    ghost use Rattle.std.specs.Ordering.{on, as_partial_cmp};
    ghost use Rattle.std.specs.Cmp.{po};
    ghost use Rattle.std.proofs.lemmas.Cmp.{on_total};
    ghost use Rattle.std.specs.Prelude.{refl};
    ghost use Rattle.aql_value.specs.View.{datum_of};
    ghost use Rattle.aql_value.specs.Compare.{compare};
    ghost use Rattle.aql_value.specs.laws.Strict.{compare_total};

    ghost partial_cmp = { as_partial_cmp (on datum_of compare) };

    ghost laws = { po (on_total datum_of compare_total) (λ x y. refl) };

    fn partial_cmp(&self, other: &Value) -> Option<Ordering> {
        Some(order(self, other))
    }
}

impl Ord for Value {
    ghost use Rattle.std.specs.Ordering.{on};
    ghost use Rattle.std.proofs.lemmas.Cmp.{on_total};
    ghost use Rattle.std.specs.Prelude.{refl};
    ghost use Rattle.aql_value.specs.View.{datum_of};
    ghost use Rattle.aql_value.specs.Compare.{compare};
    ghost use Rattle.aql_value.specs.laws.Strict.{compare_total};

    ghost cmp = { on datum_of compare };

    ghost total = { on_total datum_of compare_total };

    ghost matches_partial_cmp = { λ x y. refl };

    ghost matches_eq = { λ x y. refl };

    fn cmp(&self, other: &Value) -> Ordering {
        order(self, other)
    }
}
