//! Queries and their expressions as texts: variables by name or as `#1`, collections by name.

use crate::{Notation, Page};
use aql_tree::{
    AggregateItem, Clause, Collect, Expr, Field, Ident, Into, Key, Let, Link, Query, Step,
    Traversal,
};
use aql_value::{Text, Value};

fn write_ident(before: &str, ident: &Ident, how: Notation, page: &mut Page) {
    page.put(before);
    match ident {
        Ident::Name(name) => page.put_pair(how.either("", "?"), name.as_str()),
        Ident::Num(number) => {
            page.put("#");
            page.put_shown(number);
        }
    }
}

fn write_maybe_ident(before: &str, ident: &Option<Ident>, how: Notation, page: &mut Page) {
    if let Some(ident) = ident {
        write_ident(before, ident, how, page);
    }
}

/// Each name, after a blank.
pub fn write_names(names: &[Text], page: &mut Page) {
    for name in names {
        page.put_pair(" ", name.as_str());
    }
}

fn write_value(value: &Value, page: &mut Page) {
    match value {
        Value::Null => page.put("null"),
        Value::Bool(true) => page.put("true"),
        Value::Bool(false) => page.put("false"),
        Value::Num(number) => page.put_shown(number),
        Value::Text(text) => {
            page.put_pair("'", text.as_str());
            page.put("'");
        }
        _ => page.put("?"),
    }
}

#[cycle(write)]
pub fn write_expr(before: &str, expr: &Expr, how: Notation, page: &mut Page) {
    page.put_pair(before, how.opening(expr));
    write_parts(expr, how, page);
    page.put(how.closing(expr));
}

#[cycle(write)]
fn write_parts(expr: &Expr, how: Notation, page: &mut Page) {
    match expr {
        Expr::Lit(value) => write_value(value, page),
        Expr::Var(ident) => write_ident("", ident, how, page),
        Expr::Current => page.put("@"),
        Expr::List(items) => write_exprs(items.as_slice(), how, page),
        Expr::Object(fields) => write_fields(fields.as_slice(), how, page),
        Expr::Access { of, steps } => {
            write_expr("", of, how, page);
            write_steps(steps.as_slice(), how, page);
        }
        Expr::Call { name, args } => {
            page.put_pair(name.as_str(), "(");
            write_exprs(args.as_slice(), how, page);
        }
        Expr::Sub(query) => write_query(query, how, page),
        _ => write_operation(expr, how, page),
    }
}

// The parts of an operation, and nothing of another expression.
#[cycle(write)]
fn write_operation(expr: &Expr, how: Notation, page: &mut Page) {
    match expr {
        Expr::Unary { op, of } => {
            how.write_sign(*op, page);
            write_expr("", of, how, page);
        }
        Expr::Chain { first, rest } => {
            write_expr("", first, how, page);
            write_links(rest.as_slice(), how, page);
        }
        Expr::Quant {
            left,
            kind,
            op,
            right,
        } => {
            write_expr("", left, how, page);
            page.put(" ");
            page.put_named(kind);
            page.put(" ");
            how.write_operator(*op, page);
            write_expr(" ", right, how, page);
        }
        Expr::Cond { test, yes, no } => {
            write_expr("", test, how, page);
            page.put(" ?");
            match yes {
                Some(yes) => write_expr(" ", yes, how, page),
                None => page.put(how.either(" ", "")),
            }
            write_expr(" : ", no, how, page);
        }
        Expr::Range { low, high } => {
            write_expr("", low, how, page);
            write_expr("..", high, how, page);
        }
        _ => {}
    }
}

#[cycle(write)]
fn write_exprs(exprs: &[Expr], how: Notation, page: &mut Page) {
    for expr in exprs {
        write_expr(" ", expr, how, page);
    }
}

// What may stand after `before`.
#[cycle(write)]
fn write_optional(before: &str, part: &Option<Expr>, how: Notation, page: &mut Page) {
    if let Some(expr) = part {
        write_expr(before, expr, how, page);
    }
}

// A part after its word.
#[cycle(write)]
fn write_part(word: &str, part: &Option<Expr>, how: Notation, page: &mut Page) {
    if part.is_some() || how == Notation::Bracketed {
        page.put(word);
    }
    write_optional(" ", part, how, page);
}

#[cycle(write)]
fn write_fields(fields: &[Field], how: Notation, page: &mut Page) {
    for field in fields {
        match field {
            Field::Named { name, value } => {
                page.put_pair(" ", name.as_str());
                write_expr(": ", value, how, page);
            }
            Field::Computed { name, value } => {
                write_expr(" [", name, how, page);
                write_expr("]: ", value, how, page);
            }
        }
    }
}

#[cycle(write)]
fn write_links(links: &[Link], how: Notation, page: &mut Page) {
    for link in links {
        page.put(" ");
        how.write_operator(link.op, page);
        write_expr(" ", &link.right, how, page);
    }
}

#[cycle(write)]
fn write_steps(steps: &[Step], how: Notation, page: &mut Page) {
    for step in steps {
        match step {
            Step::Name(name) => page.put_pair(".", name.as_str()),
            Step::At(expr) => {
                write_expr("[", expr, how, page);
                page.put("]");
            }
            Step::Each { filter, project } => {
                page.put("[*");
                write_part(" filter", filter, how, page);
                write_part(" return", project, how, page);
                page.put("]");
            }
        }
    }
}

#[cycle(write)]
fn write_keys(keys: &[Key], how: Notation, page: &mut Page) {
    for key in keys {
        write_expr(" ", &key.expr, how, page);
        page.put(if key.descending { " desc" } else { "" });
    }
}

// The variables, depths and direction of a traversal.
fn write_bounds(traversal: &Traversal, how: Notation, page: &mut Page) {
    write_ident("walk ", &traversal.vertex, how, page);
    write_maybe_ident(how.either(" edge ", " "), &traversal.edge, how, page);
    write_maybe_ident(how.either(" path ", " "), &traversal.path, how, page);
    page.put(how.either(" ", " in "));
    page.put_shown(&traversal.min);
    page.put("..");
    page.put_shown(&traversal.max);
    page.put(" ");
    page.put_named(&traversal.direction);
}

// The options that scoping understands. The parser leaves them as they are without any.
fn write_options(traversal: &Traversal, how: Notation, page: &mut Page) {
    match how {
        Notation::Bracketed => page.put(" options"),
        Notation::Spelled => {
            page.put(" with ");
            page.put_named(&traversal.options.edges);
            page.put(" ");
            page.put_named(&traversal.options.vertices);
            page.put(if traversal.options.bfs { " bfs" } else { "" });
        }
    }
}

#[cycle(write)]
fn write_traversal(traversal: &Traversal, how: Notation, page: &mut Page) {
    write_bounds(traversal, how, page);
    write_expr(" ", &traversal.start, how, page);
    page.put(how.either("", " over"));
    write_names(traversal.collections.as_slice(), page);
    write_part(" prune", &traversal.prune, how, page);
    write_options(traversal, how, page);
    write_fields(traversal.options.settings.as_slice(), how, page);
}

#[cycle(write)]
fn write_groups(groups: &[Let], how: Notation, page: &mut Page) {
    for group in groups {
        write_ident(" ", &group.var, how, page);
        write_expr(" = ", &group.expr, how, page);
    }
}

#[cycle(write)]
fn write_aggregates(items: &[AggregateItem], how: Notation, page: &mut Page) {
    for item in items {
        write_ident(" aggregate ", &item.var, how, page);
        page.put_pair(" = ", item.name.as_str());
        page.put("(");
        write_optional(" ", &item.arg, how, page);
        page.put(" )");
    }
}

#[cycle(write)]
fn write_into(into: &Into, how: Notation, page: &mut Page) {
    write_ident(" into ", &into.var, how, page);
    write_optional(how.either(" ", " = "), &into.what, how, page);
    page.put(how.either(" keep", ""));
    write_names(into.keep.as_slice(), page);
}

#[cycle(write)]
fn write_collect(collect: &Collect, how: Notation, page: &mut Page) {
    page.put("collect");
    write_groups(collect.groups.as_slice(), how, page);
    write_aggregates(collect.aggregates.as_slice(), how, page);
    if let Some(into) = &collect.into {
        write_into(into, how, page);
    }
}

#[cycle(write)]
fn write_clause(clause: &Clause, how: Notation, page: &mut Page) {
    match clause {
        Clause::For { var, list } => {
            write_ident("for ", var, how, page);
            write_expr(" in ", list, how, page);
        }
        Clause::ForDocs { var, collection } => {
            write_ident("for ", var, how, page);
            page.put_pair(" in ", collection.as_str());
        }
        Clause::Traversal(traversal) => write_traversal(traversal, how, page),
        Clause::Filter(expr) => write_expr("filter ", expr, how, page),
        Clause::Let { var, expr } => {
            write_ident("let ", var, how, page);
            write_expr(" = ", expr, how, page);
        }
        Clause::Sort(keys) => {
            page.put("sort");
            write_keys(keys.as_slice(), how, page);
        }
        Clause::Limit { offset, count } => {
            page.put("limit ");
            page.put_shown(offset);
            page.put(" ");
            page.put_shown(count);
        }
        Clause::Collect(collect) => write_collect(collect, how, page),
    }
}

/// A query with its clauses: in brackets' notation a blank before each, else a semicolon after it.
#[cycle(write)]
pub fn write_query(query: &Query, how: Notation, page: &mut Page) {
    let (before, after) = (how.either(" ", ""), how.either("", "; "));
    if query.with.len() > 0 {
        page.put_pair(before, "with");
        write_names(query.with.as_slice(), page);
        page.put(after);
    }
    for clause in query.clauses.as_slice() {
        page.put(before);
        write_clause(clause, how, page);
        page.put(after);
    }
    page.put_pair(before, "return ");
    let distinct = if query.distinct { "distinct " } else { "" };
    write_expr(distinct, &query.result, how, page);
}
