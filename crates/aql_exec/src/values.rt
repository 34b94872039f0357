//! The values of an expression at the rows of a block.

ghost use Rattle.std.specs.Prelude.{◌≡◌, map, replicate, IfOk, OnOk, take, drop};
ghost use Rattle.aql_value.specs.Datum.{null};
ghost use Rattle.aql_value.specs.View.{datums_in};
ghost use Rattle.aql_tree.specs.View.{tree};
ghost use Rattle.aql_tree.specs.declared.syntax.Ident.TheVariants.{Num};
ghost use Rattle.aql_meaning.specs.Row.{value_at};
ghost use Rattle.aql_meaning.specs.Plain.{IsPlain};
ghost use Rattle.aql_meaning.specs.AtRows.{values_of};
ghost use Rattle.aql_block.specs.Tables.{rows_of};

use aql_block::Block;
use aql_expr::eval;
use aql_tree::{Expr, Ident};
use aql_value::{OutOfMemory, Value};
use std::alloc::Global;
use std::mem;

/// The value of the expression at each row, in order.
pub fn values_in(alloc: Global, e: &Expr, block: &Block) -> Result<Vec<Value>, OutOfMemory>
    requires { IsPlain (tree e.now) }
    ensures { IfOk result
        (λ values. datums_in values.items ≡ values_of (tree e.now) (rows_of block.now)) }
{
    let mut values = Vec::with_capacity(alloc, block.len() as usize)?;
    for at in 0..block.len() {
        if let Some(row) = block.row(at) {
            let value = eval(alloc, e, &row)?;
            values.push(value)?;
        }
    }
    Ok(values)
}

/// The same, where the rows are not needed any more: the values of a variable are moved.
pub fn into_values(alloc: Global, e: &Expr, block: Block) -> Result<Vec<Value>, OutOfMemory>
    requires { IsPlain (tree e.now) }
    ensures { IfOk result
        (λ values. datums_in values.items ≡ values_of (tree e.now) (rows_of block)) }
{
    match e {
        Expr::Var(Ident::Num(var)) => variable_values(alloc, *var, block),
        _ => values_in(alloc, e, &block),
    }
}

/// The value of a variable in each row, in order, and null where a row has none. They are moved.
pub fn variable_values(alloc: Global, var: u32, block: Block) -> Result<Vec<Value>, OutOfMemory>
    ensures { IfOk result (λ values.
        datums_in values.items ≡ map (λ row. value_at row (Num var)) (rows_of block)) }
{
    let count = block.len();
    match block.into_values(var) {
        Some(values) => Ok(values),
        None => {
            let values = nulls(alloc, count)?;
            Ok(values)
        }
    }
}

// So many nulls.
fn nulls(alloc: Global, count: u32) -> Result<Vec<Value>, OutOfMemory>
    ensures { IfOk result (λ values. datums_in values.items ≡ replicate count null) }
{
    let mut values = Vec::with_capacity(alloc, count as usize)?;
    for _null in 0..count {
        values.push(Value::Null)?;
    }
    Ok(values)
}

/// Takes the first rows of a block out, at most so many.
pub fn take_front(alloc: Global, held: &mut Block, most: u64) -> Result<Block, OutOfMemory>
    ensures front { IfOk result (λ front. rows_of front ≡ take most (rows_of held.old)) }
    ensures rest { OnOk result (rows_of held.new ≡ drop most (rows_of held.old)) }
{
    let block = mem::replace(held, Block::empty(alloc));
    if u64::from(block.len()) <= most {
        return Ok(block);
    }
    let (front, rest) = block.split(alloc, most as u32)?;
    *held = rest;
    Ok(front)
}
