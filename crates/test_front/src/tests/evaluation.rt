// The values at a row of expressions that no query can have, with one twin each that a query can, worked out by
// hand from the chapter on operators. `cases/values.cases` and `cases/operators.cases` have each form.
ghost use Rattle.std.specs.Prelude.{IfOk, refl, slice_get};
ghost use Rattle.aql_tree.specs.View.{tree};
ghost use Rattle.aql_meaning.specs.Plain.{IsPlain};
ghost use Rattle.aql_expr.specs.Numbered.{numbered_row};

use crate::tests::pages::expect;
use crate::tests::values::is_written;
use aql_expr::{RowView, eval};
use aql_tree::{Expr, Ident};
use aql_value::{Items, OutOfMemory, Seq, Text, Value, from_json_line};
use std::alloc::Global;

// The variables 0, 1, .. in order.
#[derive(Drop)]
struct Listed {
    values: Items,
}

impl RowView for Listed {
    ghost vars = { λ r. numbered_row (slice_get r.values) };

    fn value(&self, var: u32) -> Option<&Value> {
        self.values.get(var as usize)
    }

    ghost numbered = { λ r x. refl };
}

fn value(alloc: Global, json: &str) -> Value {
    from_json_line(alloc, json.as_bytes()).unwrap_or(Value::Null)
}

fn row(alloc: Global) -> Result<Listed, OutOfMemory> {
    let mut values = Items::new(alloc);
    values.push(value(alloc, r#"{"name":"a","tags":[1,2,3]}"#))?;
    values.push(Value::Num(5))?;
    Ok(Listed { values })
}

fn gives(alloc: Global, expr: &Expr, row: &Listed, want: &str) -> bool
    requires { IsPlain (tree expr.now) }
{
    match eval(alloc, expr, row) {
        Ok(value) => is_written(alloc, &value, want),
        Err(_) => false,
    }
}

// Whether the value at the row has this text.
fn prints(alloc: Global, expr: &Expr, want: &str) -> bool
    requires { IsPlain (tree expr.now) }
{
    match row(alloc) {
        Ok(row) => gives(alloc, expr, &row, want),
        Err(_) => false,
    }
}

fn has_value(alloc: Global, expr: Result<Expr, OutOfMemory>, want: &str) -> bool
    requires { IfOk expr (λ e. IsPlain (tree e)) }
{
    match expr {
        Ok(expr) => prints(alloc, &expr, want),
        Err(_) => false,
    }
}

fn lit(alloc: Global, json: &str) -> Expr
    ensures { IsPlain (tree result) }
{
    Expr::Lit(value(alloc, json))
}

fn var(number: u32) -> Expr
    ensures { IsPlain (tree result) }
{
    Expr::Var(Ident::Num(number))
}

fn call(alloc: Global, name: &str, arg: &str) -> Result<Expr, OutOfMemory>
    ensures { IfOk result (λ e. IsPlain (tree e)) }
{
    let name = Text::new(alloc, name)?;
    let mut args = Seq::new(alloc);
    args.push(lit(alloc, arg))?;
    Ok(Expr::Call { name, args })
}

static CALLED: [(&str, &str, &str); 3] = [
    ("length", "[1,2]", "2"),
    ("NO_SUCH", "1", "null"),
    ("RANGE", "1", "null"),
];

#[test]
fn calls(rt: HostRuntime) {
    let alloc = rt.alloc();
    for (name, arg, want) in &CALLED {
        let expr = call(alloc, name, arg);
        expect(&rt, has_value(alloc, expr, want), name, arg);
    }
}

static VARIABLES: [(u32, &str); 2] = [(1, "5"), (2, "null")];

#[test]
fn variables(rt: HostRuntime) {
    for (number, want) in &VARIABLES {
        let is_found = has_value(rt.alloc(), Ok(var(*number)), want);
        expect(&rt, is_found, "a variable", want);
    }
}

#[test]
fn current(rt: HostRuntime) {
    let is_null = has_value(rt.alloc(), Ok(Expr::Current), "null");
    expect(&rt, is_null, "CURRENT", "");
}
