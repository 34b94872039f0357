//! Equality of expressions.

ghost use Rattle.std.specs.Prelude.{◌≡◌, ◌↔◌, IsTrue, map, option_map};
ghost use Rattle.std.specs.Cmp.Lexicographic.{pointwise};
ghost use Rattle.aql_meaning.specs.Plain.{IsPlain};
ghost use Rattle.aql_tree.specs.View.{tree, maybe, step_part, member_part, link_part};
ghost use Rattle.aql_rewrite.specs.inner.Same as spec;
ghost use Rattle.aql_rewrite.specs.inner.Same.{op_number, sign_number, kind_number};

use aql_func::{BinOp, UnaryOp};
use aql_meaning::same_variable;
use aql_tree::{Expr, Field, Link, QuantKind, Step};

fn number(op: BinOp) -> u8
    ensures { result ≡ op_number op }
{
    match op {
        BinOp::And => 0,
        BinOp::Or => 1,
        BinOp::Eq => 2,
        BinOp::Ne => 3,
        BinOp::Lt => 4,
        BinOp::Le => 5,
        BinOp::Gt => 6,
        BinOp::Ge => 7,
        BinOp::IsIn => 8,
        BinOp::NotIn => 9,
        BinOp::Like => 10,
        BinOp::NotLike => 11,
        BinOp::Add => 12,
        BinOp::Sub => 13,
        BinOp::Mul => 14,
        BinOp::Div => 15,
        BinOp::Rem => 16,
    }
}

fn number_of_sign(op: UnaryOp) -> u8
    ensures { result ≡ sign_number op }
{
    match op {
        UnaryOp::Plus => 0,
        UnaryOp::Minus => 1,
        UnaryOp::Not => 2,
    }
}

fn number_of_kind(kind: QuantKind) -> u8
    ensures { result ≡ kind_number kind }
{
    match kind {
        QuantKind::All => 0,
        QuantKind::Any => 1,
        QuantKind::None => 2,
    }
}

#[cycle(equality)]
fn same(a: &Expr, b: &Expr) -> bool
    ensures { result ≡ spec.same_expr (tree a.now) (tree b.now) }
{
    match (a, b) {
        (Expr::Lit(x), Expr::Lit(y)) => *x == *y,
        (Expr::Var(x), Expr::Var(y)) => same_variable(x, y),
        (Expr::Current, Expr::Current) => true,
        (Expr::List(xs), Expr::List(ys)) => same_exprs(xs.as_slice(), ys.as_slice()),
        (Expr::Object(xs), Expr::Object(ys)) => same_fields(xs.as_slice(), ys.as_slice()),
        (Expr::Access { of: x, steps: xs }, Expr::Access { of: y, steps: ys }) => {
            same(x, y) && same_steps(xs.as_slice(), ys.as_slice())
        }
        (Expr::Call { name: n, args: xs }, Expr::Call { name: m, args: ys }) => {
            n.as_str() == m.as_str() && same_exprs(xs.as_slice(), ys.as_slice())
        }
        (Expr::Unary { op: o, of: x }, Expr::Unary { op: p, of: y }) => {
            number_of_sign(*o) == number_of_sign(*p) && same(x, y)
        }
        (Expr::Chain { first: x, rest: xs }, Expr::Chain { first: y, rest: ys }) => {
            same(x, y) && same_links(xs.as_slice(), ys.as_slice())
        }
        (
            Expr::Quant {
                left: v,
                kind: k,
                op: o,
                right: w,
            },
            Expr::Quant {
                left: x,
                kind: l,
                op: p,
                right: y,
            },
        ) => {
            number_of_kind(*k) == number_of_kind(*l)
                && number(*o) == number(*p)
                && same(v, x)
                && same(w, y)
        }
        (
            Expr::Cond {
                test: t,
                yes: x,
                no: v,
            },
            Expr::Cond {
                test: s,
                yes: y,
                no: w,
            },
        ) => same(t, s) && same_boxed(x, y) && same(v, w),
        (Expr::Range { low: v, high: w }, Expr::Range { low: x, high: y }) => {
            same(v, x) && same(w, y)
        }
        _ => false,
    }
}

#[cycle(equality)]
fn same_boxed(a: &Option<Box<Expr>>, b: &Option<Box<Expr>>) -> bool
    ensures { result ≡ spec.same_maybe (maybe (option_map (λ e. tree e.value) a.now))
        (maybe (option_map (λ e. tree e.value) b.now)) }
{
    match (a, b) {
        (None, None) => true,
        (Some(a), Some(b)) => same(a, b),
        _ => false,
    }
}

#[cycle(equality)]
fn same_option(a: &Option<Expr>, b: &Option<Expr>) -> bool
    ensures { result
        ≡ spec.same_maybe (maybe (option_map tree a.now)) (maybe (option_map tree b.now)) }
{
    match (a, b) {
        (None, None) => true,
        (Some(a), Some(b)) => same(a, b),
        _ => false,
    }
}

#[cycle(equality)]
fn same_exprs(a: &[Expr], b: &[Expr]) -> bool
    ensures { result ≡ pointwise spec.same_expr (map tree a.now) (map tree b.now) }
{
    if a.len() != b.len() {
        return false;
    }
    for (i, x) in a.iter().enumerate() {
        if !same(x, &b[i]) {
            return false;
        }
    }
    true
}

#[cycle(equality)]
fn same_field(a: &Field, b: &Field) -> bool
    ensures { result ≡ spec.same_member (member_part a.now) (member_part b.now) }
{
    match (a, b) {
        (Field::Named { name: n, value: x }, Field::Named { name: m, value: y }) => {
            n.as_str() == m.as_str() && same(x, y)
        }
        (Field::Computed { name: n, value: x }, Field::Computed { name: m, value: y }) => {
            same(n, m) && same(x, y)
        }
        _ => false,
    }
}

#[cycle(equality)]
fn same_fields(a: &[Field], b: &[Field]) -> bool
    ensures { result
        ≡ pointwise spec.same_member (map member_part a.now) (map member_part b.now) }
{
    if a.len() != b.len() {
        return false;
    }
    for (i, x) in a.iter().enumerate() {
        if !same_field(x, &b[i]) {
            return false;
        }
    }
    true
}

#[cycle(equality)]
fn same_step(a: &Step, b: &Step) -> bool
    ensures { result ≡ spec.same_step (step_part a.now) (step_part b.now) }
{
    match (a, b) {
        (Step::Name(n), Step::Name(m)) => n.as_str() == m.as_str(),
        (Step::At(x), Step::At(y)) => same(x, y),
        (
            Step::Each {
                filter: f,
                project: p,
            },
            Step::Each {
                filter: g,
                project: q,
            },
        ) => same_option(f, g) && same_option(p, q),
        _ => false,
    }
}

#[cycle(equality)]
fn same_steps(a: &[Step], b: &[Step]) -> bool
    ensures { result ≡ pointwise spec.same_step (map step_part a.now) (map step_part b.now) }
{
    if a.len() != b.len() {
        return false;
    }
    for (i, x) in a.iter().enumerate() {
        if !same_step(x, &b[i]) {
            return false;
        }
    }
    true
}

#[cycle(equality)]
fn same_link(a: &Link, b: &Link) -> bool
    ensures { result ≡ spec.same_link (link_part a.now) (link_part b.now) }
{
    number(a.op) == number(b.op) && same(&a.right, &b.right)
}

#[cycle(equality)]
fn same_links(a: &[Link], b: &[Link]) -> bool
    ensures { result ≡ pointwise spec.same_link (map link_part a.now) (map link_part b.now) }
{
    if a.len() != b.len() {
        return false;
    }
    for (i, x) in a.iter().enumerate() {
        if !same_link(x, &b[i]) {
            return false;
        }
    }
    true
}

/// Whether two expressions without a subquery are equal: the same forms, variables, names,
/// operators and literals. Where one holds a subquery the answer is `false`.
pub fn same_expr(a: &Expr, b: &Expr) -> bool
    ensures { IsTrue result ↔ (IsPlain (tree a.now) × (tree a.now ≡ tree b.now)) }
{
    same(a, b)
}
