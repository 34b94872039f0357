use crate::tests::pages::expect;
use aql_tree::{Expr, copy_expr};
use aql_value::{OutOfMemory, Value};
use std::alloc::Global;

fn is_seven(expr: &Expr) -> bool {
    match expr {
        Expr::Lit(Value::Num(number)) => *number == 7,
        _ => false,
    }
}

fn is_range(expr: &Expr) -> bool {
    match expr {
        Expr::Range { low, high } => is_seven(low) && matches!(**high, Expr::Current),
        _ => false,
    }
}

fn gives_range(expr: Result<Expr, OutOfMemory>) -> bool {
    match expr {
        Ok(expr) => is_range(&expr),
        Err(_) => false,
    }
}

// Whether the copy is the range, and what was copied still is.
fn range_is_copied(alloc: Global) -> bool {
    match Expr::range(alloc, Expr::Lit(Value::Num(7)), Expr::Current) {
        Ok(expr) => {
            let is_copied = gives_range(copy_expr(alloc, &expr));
            let is_kept = gives_range(Ok(expr));
            is_copied && is_kept
        }
        Err(_) => false,
    }
}

#[test]
fn copies(rt: HostRuntime) {
    expect(&rt, range_is_copied(rt.alloc()), "a range", "");
}
