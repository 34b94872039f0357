//! Fragments that join a collection with the rows of another fragment.

use crate::tests::plans::{plan, plan_over};
use aql_func::BinOp;
use aql_meaning::Last;
use aql_plan::{Node, Plan};
use aql_tree::{Expr, Exprs, Ident, Link, Step};
use aql_value::{CollNo, OutOfMemory, Seq, Text, Value};
use std::alloc::Global;

/// A side of a comparison.
#[derive(Clone, Copy)]
pub enum Side {
    /// An attribute of a variable: `Of(1, "a")` is `#1.a`.
    Of(u32, &'static str),
    /// A number, as a literal.
    Number(i64),
    /// The sum of two numbers, which is constant and no literal.
    Sum(i64, i64),
}

/// A comparison of two sides.
pub type Test = (Side, BinOp, Side);

/// The operator of an equality.
pub const EQ: BinOp = BinOp::Eq;

/// A node that reads collection 0 under the variable 2.
#[derive(Clone, Copy)]
pub enum Reader {
    /// An EnumerateCollection.
    Scan,
    /// By the values of the first attributes of an index: 0 is over `a` and `b`, 1 over `k`.
    Found(u32, &'static [Side]),
}

/// The foot, the reader over its link with the parts of its filter, and the nodes above.
pub type Join = (&'static str, Reader, &'static [Test], &'static str);

fn expr(alloc: Global, side: Side) -> Result<Expr, OutOfMemory> {
    match side {
        Side::Number(n) => Ok(Expr::Lit(Value::Num(n))),
        Side::Sum(m, n) => {
            let mut links = Seq::new(alloc);
            links.push(Link::new(BinOp::Add, Expr::Lit(Value::Num(n))))?;
            Expr::chain(alloc, Expr::Lit(Value::Num(m)), links)
        }
        Side::Of(var, name) => {
            let mut steps = Seq::new(alloc);
            steps.push(Step::Name(Text::new(alloc, name)?))?;
            Expr::access(alloc, Expr::Var(Ident::Num(var)), steps)
        }
    }
}

fn exprs(alloc: Global, sides: &[Side]) -> Result<Exprs, OutOfMemory> {
    let mut all = Exprs::new(alloc);
    for side in sides {
        all.push(expr(alloc, *side)?)?;
    }
    Ok(all)
}

fn comparison(alloc: Global, of: Test) -> Result<Expr, OutOfMemory> {
    let (left, op, right) = of;
    let mut links = Seq::new(alloc);
    links.push(Link::new(op, expr(alloc, right)?))?;
    Expr::chain(alloc, expr(alloc, left)?, links)
}

fn all_tests(alloc: Global, first: Test, rest: &[Test]) -> Result<Expr, OutOfMemory> {
    let mut links = Seq::new(alloc);
    for other in rest {
        links.push(Link::new(BinOp::And, comparison(alloc, *other)?))?;
    }
    Expr::chain(alloc, comparison(alloc, first)?, links)
}

fn filter(alloc: Global, tests: &[Test]) -> Result<Option<Expr>, OutOfMemory> {
    match tests {
        [] => Ok(None),
        [one] => Ok(Some(comparison(alloc, *one)?)),
        [first, rest @ ..] => Ok(Some(all_tests(alloc, *first, rest)?)),
    }
}

fn reader_node(alloc: Global, of: Reader, tests: &[Test]) -> Result<Node, OutOfMemory> {
    let filter = filter(alloc, tests)?;
    match of {
        Reader::Scan => Ok(Node::EnumerateCollection {
            var: 2,
            coll: CollNo(0),
            filter,
            attrs: None,
            shard: None,
        }),
        Reader::Found(index, equal) => Ok(Node::Index {
            var: 2,
            coll: CollNo(0),
            filter,
            attrs: None,
            shard: None,
            index,
            equal: exprs(alloc, equal)?,
            last: Last::None,
            ordered: None,
        }),
    }
}

/// A fragment that joins the reader's documents with the rows of another one.
pub fn joined(alloc: Global, of: &Join) -> Result<Plan, OutOfMemory> {
    let (foot, reads, tests, above) = *of;
    let outer = plan(alloc, "A0- > E10-- > Ga")?;
    let sent = plan_over(alloc, ">", plan_over(alloc, foot, outer)?)?;
    let lowest = reader_node(alloc, reads, tests)?.over(alloc, sent)?;
    plan_over(alloc, above, lowest)
}
