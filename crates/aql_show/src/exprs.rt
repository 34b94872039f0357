//! Expressions.

ghost use Rattle.std.specs.Prelude.{◌≡◌, ◌++◌, [], map, option_map, OnOk, codes};
ghost use Rattle.aql_tree.specs.View.{tree, trees, maybe, members, member_part, steps, step_part, links, link_part};
ghost use Rattle.aql_show.specs.Lists.{listed};
ghost use Rattle.aql_show.specs.Words.{right_text};
ghost use Rattle.aql_show.specs.Exprs.{expr_text, expr_texts, maybe_text, member_texts, steps_text, links_text};

use crate::known::Known;
use crate::names::{write_ident, write_name};
use crate::words::{operator_text, quantifier_text, sign_text};
use crate::writing::{put, write_function, write_quoted};
use aql_tree::{Expr, Field, Link, Step};
use aql_value::{BinOp, OutOfMemory, write_json};

#[cycle(exprs)]
pub fn write_expr(expr: &Expr, known: &Known<'_>, out: &mut Vec<u8>) -> Result<(), OutOfMemory>
    ensures { OnOk result (out.new.items
        ≡ out.old.items ++ expr_text known.now.names.now (tree expr.now)) }
{
    match expr {
        Expr::Lit(value) => write_json(value, out),
        Expr::Var(var) => write_ident(var, known.names, out),
        Expr::Current => put(b"CURRENT", out),
        Expr::List(items) => {
            put(b"[", out)?;
            write_exprs(items.as_slice(), known, out)?;
            put(b"]", out)
        }
        Expr::Object(fields) => {
            put(b"{", out)?;
            write_fields(fields.as_slice(), known, out)?;
            put(b"}", out)
        }
        Expr::Access { of, steps } => {
            write_expr(of, known, out)?;
            write_steps(steps.as_slice(), known, out)
        }
        Expr::Call { name, args } => {
            write_function(name.as_str(), out)?;
            put(b"(", out)?;
            write_exprs(args.as_slice(), known, out)?;
            put(b")", out)
        }
        Expr::Unary { op, of } => {
            put(b"(", out)?;
            write_after(sign_text(*op), of, known, out)?;
            put(b")", out)
        }
        Expr::Chain { first, rest } => {
            write_after(b"(", first, known, out)?;
            write_links(rest.as_slice(), known, out)?;
            put(b")", out)
        }
        Expr::Quant {
            left,
            kind,
            op,
            right,
        } => {
            write_after(b"(", left, known, out)?;
            put(b" ", out)?;
            put(quantifier_text(*kind), out)?;
            write_right(*op, right, known, out)?;
            put(b")", out)
        }
        Expr::Cond { test, yes, no } => {
            write_after(b"(", test, known, out)?;
            put(b" ?", out)?;
            write_boxed(b" ", yes, known, out)?;
            write_after(b" : ", no, known, out)?;
            put(b")", out)
        }
        Expr::Range { low, high } => {
            write_after(b"(", low, known, out)?;
            write_after(b"..", high, known, out)?;
            put(b")", out)
        }
        Expr::Sub(_) => Ok(()),
    }
}

/// Appends an expression after what stands before it.
#[cycle(exprs)]
pub fn write_after(
    front: &[u8],
    expr: &Expr,
    known: &Known<'_>,
    out: &mut Vec<u8>,
) -> Result<(), OutOfMemory>
    ensures { OnOk result (out.new.items
        ≡ out.old.items ++ front.now ++ expr_text known.now.names.now (tree expr.now)) }
{
    put(front, out)?;
    write_expr(expr, known, out)
}

/// Appends expressions in a row.
#[cycle(exprs)]
pub fn write_exprs(exprs: &[Expr], known: &Known<'_>, out: &mut Vec<u8>) -> Result<(), OutOfMemory>
    ensures { OnOk result (out.new.items ≡ out.old.items
        ++ listed [] (codes ", ") (expr_texts known.now.names.now (trees (map tree exprs.now)))) }
{
    let mut lead: &[u8] = b"";
    for expr in exprs {
        write_after(lead, expr, known, out)?;
        lead = b", ";
    }
    Ok(())
}

/// Appends an expression that may be missing, after what stands before it.
#[cycle(exprs)]
pub fn write_maybe(
    front: &[u8],
    expr: &Option<Expr>,
    known: &Known<'_>,
    out: &mut Vec<u8>,
) -> Result<(), OutOfMemory>
    ensures { OnOk result (out.new.items ≡ out.old.items
        ++ maybe_text known.now.names.now front.now (maybe (option_map tree expr.now))) }
{
    match expr {
        Some(expr) => write_after(front, expr, known, out),
        None => Ok(()),
    }
}

#[cycle(exprs)]
fn write_boxed(
    front: &[u8],
    expr: &Option<Box<Expr>>,
    known: &Known<'_>,
    out: &mut Vec<u8>,
) -> Result<(), OutOfMemory>
    ensures { OnOk result (out.new.items ≡ out.old.items ++ maybe_text known.now.names.now front.now
        (maybe (option_map (λ b. tree b.value) expr.now))) }
{
    match expr {
        Some(expr) => write_after(front, expr, known, out),
        None => Ok(()),
    }
}

#[cycle(exprs)]
fn write_fields(fields: &[Field], known: &Known<'_>, out: &mut Vec<u8>) -> Result<(), OutOfMemory>
    ensures { OnOk result (out.new.items ≡ out.old.items ++ listed [] (codes ", ")
        (member_texts known.now.names.now (members (map member_part fields.now)))) }
{
    let mut lead: &[u8] = b"";
    for field in fields {
        put(lead, out)?;
        match field {
            Field::Named { name, value } => {
                write_quoted(name, known.alloc, out)?;
                write_after(b": ", value, known, out)?;
            }
            Field::Computed { name, value } => {
                write_after(b"[", name, known, out)?;
                write_after(b"]: ", value, known, out)?;
            }
        }
        lead = b", ";
    }
    Ok(())
}

#[cycle(exprs)]
fn write_steps(all: &[Step], known: &Known<'_>, out: &mut Vec<u8>) -> Result<(), OutOfMemory>
    ensures { OnOk result (out.new.items ≡ out.old.items
        ++ steps_text known.now.names.now (steps (map step_part all.now))) }
{
    for step in all {
        match step {
            Step::Name(name) => {
                put(b".", out)?;
                write_name(name.as_str(), out)?;
            }
            Step::At(expr) => {
                write_after(b"[", expr, known, out)?;
                put(b"]", out)?;
            }
            Step::Each { filter, project } => {
                write_filter(filter, known, out)?;
                write_project(project, known, out)?;
            }
        }
    }
    Ok(())
}

// The front of an inline expression with its FILTER.
#[cycle(exprs)]
fn write_filter(
    filter: &Option<Expr>,
    known: &Known<'_>,
    out: &mut Vec<u8>,
) -> Result<(), OutOfMemory>
    ensures { OnOk result (out.new.items ≡ out.old.items ++ codes "[*" ++ maybe_text
        known.now.names.now (codes " FILTER ") (maybe (option_map tree filter.now))) }
{
    put(b"[*", out)?;
    write_maybe(b" FILTER ", filter, known, out)
}

// The RETURN of an inline expression with its end.
#[cycle(exprs)]
fn write_project(
    project: &Option<Expr>,
    known: &Known<'_>,
    out: &mut Vec<u8>,
) -> Result<(), OutOfMemory>
    ensures { OnOk result (out.new.items ≡ out.old.items ++ maybe_text
        known.now.names.now (codes " RETURN ") (maybe (option_map tree project.now)) ++ codes "]") }
{
    write_maybe(b" RETURN ", project, known, out)?;
    put(b"]", out)
}

/// Appends an operator and its right side.
#[cycle(exprs)]
pub fn write_right(
    op: BinOp,
    right: &Expr,
    known: &Known<'_>,
    out: &mut Vec<u8>,
) -> Result<(), OutOfMemory>
    ensures { OnOk result (out.new.items ≡ out.old.items
        ++ right_text op (expr_text known.now.names.now (tree right.now))) }
{
    put(b" ", out)?;
    put(operator_text(op), out)?;
    put(b" ", out)?;
    write_expr(right, known, out)
}

#[cycle(exprs)]
fn write_links(all: &[Link], known: &Known<'_>, out: &mut Vec<u8>) -> Result<(), OutOfMemory>
    ensures { OnOk result (out.new.items ≡ out.old.items
        ++ links_text known.now.names.now (links (map link_part all.now))) }
{
    for link in all {
        write_right(link.op, &link.right, known, out)?;
    }
    Ok(())
}
