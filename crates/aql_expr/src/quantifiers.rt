// Array comparison operators.
ghost use Rattle.std.specs.Prelude.{◌≡◌, IfOk, map};
ghost use Rattle.aql_value.specs.Truth.{truth};
ghost use Rattle.aql_value.specs.View.{datum_of, datums_in};
ghost use Rattle.aql_func.specs.Operators as operators;
ghost use Rattle.aql_meaning.specs.Expressions as spec;

use crate::contents::elements;
use aql_func::{BinOp, binary};
use aql_tree::QuantKind;
use aql_value::{OutOfMemory, Value, truthy};
use std::alloc::Global;

// `left kind op right`, as in `left ALL == right`.
pub(crate) fn quantify(
    alloc: Global,
    kind: QuantKind,
    op: BinOp,
    left: &Value,
    right: &Value,
) -> Result<Value, OutOfMemory>
    ensures { IfOk result (λ v. datum_of v
        ≡ spec.quantify kind op (datum_of left.now) (datum_of right.now)) }
{
    match left {
        Value::List(_) => {
            let holds = holds_for(alloc, kind, op, elements(left), right)?;
            Ok(Value::Bool(holds))
        }
        _ => Ok(Value::Bool(false)),
    }
}

fn holds_for(
    alloc: Global,
    kind: QuantKind,
    op: BinOp,
    elements: &[Value],
    right: &Value,
) -> Result<bool, OutOfMemory>
    ensures { IfOk result (λ b. b ≡ spec.holds_for kind
        (map (λ element. truth (operators.binary op element (datum_of right.now)))
        (datums_in elements.now))) }
{
    for element in elements {
        let holds = truthy(&binary(alloc, op, element, right)?);
        match kind {
            QuantKind::All => if !holds {
                return Ok(false);
            },
            QuantKind::Any => if holds {
                return Ok(true);
            },
            QuantKind::None => if holds {
                return Ok(false);
            },
        }
    }
    match kind {
        QuantKind::All | QuantKind::None => Ok(true),
        QuantKind::Any => Ok(false),
    }
}
