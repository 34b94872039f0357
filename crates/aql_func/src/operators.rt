ghost use Rattle.std.specs.Prelude.{◌≡◌, IfOk, IsOkAnd};
ghost use Rattle.aql_value.specs.Contents as contents;
ghost use Rattle.aql_value.specs.View.{datum_of};
ghost use Rattle.aql_func.specs.Operators as spec;

use crate::arguments::array;
use crate::arithmetic::{difference, negative, product, quotient, remainder, sum};
use crate::arrays::is_in;
use crate::like::is_like;
use aql_value::{BinOp, OutOfMemory, UnaryOp, Value, cmp, copy, to_number, truthy};
use std::alloc::Global;

/// The value of `a op b` (AQL fundamentals, Operators). `&&` and `||` give one of the two sides;
/// comparisons follow the order of all values; arithmetic converts both sides to numbers and is
/// null where it has no whole number of 64 bits.
pub fn binary(alloc: Global, op: BinOp, a: &Value, b: &Value) -> Result<Value, OutOfMemory>
    ensures { IfOk result (λ v. datum_of v ≡ spec.binary op (datum_of a.now) (datum_of b.now)) }
{
    match op {
        BinOp::And => both(alloc, a, b),
        BinOp::Or => either(alloc, a, b),
        BinOp::Eq => Ok(Value::Bool(cmp(a, b).is_eq())),
        BinOp::Ne => Ok(Value::Bool(!cmp(a, b).is_eq())),
        BinOp::Lt => Ok(Value::Bool(cmp(a, b).is_lt())),
        BinOp::Le => Ok(Value::Bool(!cmp(b, a).is_lt())),
        BinOp::Gt => Ok(Value::Bool(cmp(b, a).is_lt())),
        BinOp::Ge => Ok(Value::Bool(!cmp(a, b).is_lt())),
        BinOp::IsIn => Ok(Value::Bool(is_among(a, b))),
        BinOp::NotIn => Ok(Value::Bool(!is_among(a, b))),
        BinOp::Like => is_like(alloc, a, b).map(Value::Bool),
        BinOp::NotLike => Ok(Value::Bool(!is_like(alloc, a, b)?)),
        BinOp::Add => Ok(sum(to_number(a), to_number(b))),
        BinOp::Sub => Ok(difference(to_number(a), to_number(b))),
        BinOp::Mul => Ok(product(to_number(a), to_number(b))),
        BinOp::Div => Ok(quotient(to_number(a), to_number(b))),
        BinOp::Rem => Ok(remainder(to_number(a), to_number(b))),
    }
}

fn both(alloc: Global, a: &Value, b: &Value) -> Result<Value, OutOfMemory>
    ensures { IfOk result
        (λ v. datum_of v ≡ spec.binary BinOp.And (datum_of a.now) (datum_of b.now)) }
{
    if truthy(a) {
        copy(alloc, b)
    } else {
        copy(alloc, a)
    }
}

fn either(alloc: Global, a: &Value, b: &Value) -> Result<Value, OutOfMemory>
    ensures { IfOk result
        (λ v. datum_of v ≡ spec.binary BinOp.Or (datum_of a.now) (datum_of b.now)) }
{
    if truthy(a) {
        copy(alloc, a)
    } else {
        copy(alloc, b)
    }
}

fn is_among(a: &Value, b: &Value) -> bool
    ensures { result ≡ contents.is_in (contents.elements (datum_of b.now)) (datum_of a.now) }
{
    match array(b) {
        Some(list) => is_in(list.as_slice(), a),
        None => false,
    }
}

/// The value of `op a` (AQL fundamentals, Operators). It takes no memory and is always `Ok`.
pub fn unary(op: UnaryOp, a: &Value) -> Result<Value, OutOfMemory>
    ensures { IsOkAnd result (λ v. datum_of v ≡ spec.unary op (datum_of a.now)) }
{
    match op {
        UnaryOp::Plus => Ok(Value::Num(to_number(a))),
        UnaryOp::Minus => Ok(negative(to_number(a))),
        UnaryOp::Not => Ok(Value::Bool(!truthy(a))),
    }
}
