//! Expressions by one letter each.

use aql_tree::{Clauses, Expr, Exprs, Ident, Key, Keys, Query, Step, Steps};
use aql_value::{Names, OutOfMemory, Text, Value};
use std::alloc::Global;

/// The number of a digit.
pub fn number(byte: u8) -> u32 {
    u32::from(byte.saturating_sub(b'0'))
}

/// The same, where `-` is none.
pub fn maybe_number(byte: u8) -> Option<u32> {
    if byte == b'-' {
        None
    } else {
        Some(number(byte))
    }
}

fn boxed(alloc: Global, expr: Expr) -> Result<Box<Expr>, OutOfMemory> {
    Ok(Box::new(alloc, expr)?)
}

fn subquery(alloc: Global) -> Result<Expr, OutOfMemory> {
    let query = Query {
        with: Names::new(alloc),
        clauses: Clauses::new(alloc),
        distinct: false,
        result: boxed(alloc, Expr::Lit(Value::Null))?,
    };
    Ok(Expr::Sub(Box::new(alloc, query)?))
}

fn two(alloc: Global) -> Result<Expr, OutOfMemory> {
    let mut all = Exprs::new(alloc);
    all.push(Expr::Lit(Value::Null))?;
    all.push(Expr::Lit(Value::Null))?;
    Ok(Expr::List(all))
}

fn attribute(alloc: Global, name: &str) -> Result<Expr, OutOfMemory> {
    let mut steps = Steps::new(alloc);
    steps.push(Step::Name(Text::new(alloc, name)?))?;
    Ok(Expr::Access {
        of: boxed(alloc, Expr::Var(Ident::Num(1)))?,
        steps,
    })
}

/// A variable by its digit; `a` and `b` are attributes of variable 1, `s` is a subquery, `n` a
/// variable by name, `t` an array of two, and each other letter null.
pub fn expr(alloc: Global, byte: u8) -> Result<Expr, OutOfMemory> {
    match byte {
        b'0'..=b'9' => Ok(Expr::Var(Ident::Num(number(byte)))),
        b'a' => attribute(alloc, "a"),
        b'b' => attribute(alloc, "b"),
        b's' => subquery(alloc),
        b't' => two(alloc),
        b'n' => Ok(Expr::Var(Ident::Name(Text::new(alloc, "n")?))),
        _ => Ok(Expr::Lit(Value::Null)),
    }
}

/// The same, where `-` is none.
pub fn maybe_expr(alloc: Global, byte: u8) -> Result<Option<Expr>, OutOfMemory> {
    if byte == b'-' {
        return Ok(None);
    }
    Ok(Some(expr(alloc, byte)?))
}

/// An expression for each letter.
pub fn exprs(alloc: Global, letters: &[u8]) -> Result<Exprs, OutOfMemory> {
    let mut all = Exprs::new(alloc);
    for letter in letters {
        all.push(expr(alloc, *letter)?)?;
    }
    Ok(all)
}

/// A key for each letter, descending where the direction is `d`.
pub fn keys(alloc: Global, direction: u8, letters: &[u8]) -> Result<Keys, OutOfMemory> {
    let mut all = Keys::new(alloc);
    for letter in letters {
        all.push(Key {
            expr: expr(alloc, *letter)?,
            descending: direction == b'd',
        })?;
    }
    Ok(all)
}

/// A name of one letter for each letter.
pub fn names(alloc: Global, letters: &[u8]) -> Result<Names, OutOfMemory> {
    let mut all = Names::new(alloc);
    for letter in letters {
        let name = match *letter {
            b'a' => "a",
            b'b' => "b",
            _ => "k",
        };
        all.push(Text::new(alloc, name)?)?;
    }
    Ok(all)
}
