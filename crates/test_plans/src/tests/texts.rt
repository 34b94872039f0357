// Plans as texts: a word or two for each node, the lowest first, between slashes.
use aql_plan::{Node, Plan, Stage};
use aql_tree::{AggregateItem, Expr, Ident, Into, Key, Let};
use aql_value::Names;
use test_support::{Notation, Page, write_expr};

fn write(before: &str, expr: &Expr, page: &mut Page) {
    write_expr(before, expr, Notation::Spelled, page);
}

fn write_maybe(before: &str, expr: &Option<Expr>, page: &mut Page) {
    if let Some(expr) = expr {
        write(before, expr, page);
    }
}

fn write_exprs(before: &str, exprs: &[Expr], page: &mut Page) {
    for expr in exprs {
        write(before, expr, page);
    }
}

fn write_var(before: &str, var: u32, page: &mut Page) {
    page.put_pair(before, "#");
    page.put_shown(&var);
}

fn write_maybe_var(before: &str, var: Option<u32>, page: &mut Page) {
    if let Some(var) = var {
        write_var(before, var, page);
    }
}

fn write_keys(before: &str, keys: &[Key], page: &mut Page) {
    page.put(before);
    for key in keys {
        write(" ", &key.expr, page);
        if key.descending {
            page.put(" down");
        }
    }
}

fn write_limit(limit: &Option<u64>, page: &mut Page) {
    if let Some(limit) = limit {
        page.put(" first ");
        page.put_shown(limit);
    }
}

fn write_attrs(attrs: &Option<Names>, page: &mut Page) {
    if let Some(attrs) = attrs {
        page.put(" cut");
        for name in attrs.as_slice() {
            page.put_pair(" ", name.as_str());
        }
    }
}

fn write_skipped(offset: u64, page: &mut Page) {
    if offset > 0 {
        page.put_shown(&offset);
        page.put(", ");
    }
}

fn write_ident(before: &str, ident: &Ident, page: &mut Page) {
    match ident {
        Ident::Num(var) => write_var(before, *var, page),
        Ident::Name(_) => page.put("?"),
    }
}

// The two stages of a COLLECT by name.
fn write_stage(stage: Stage, page: &mut Page) {
    match stage {
        Stage::Whole => page.put(" / collect"),
        Stage::Partial => page.put(" / collect partial"),
        Stage::Final => page.put(" / collect final"),
    }
}

fn write_groups(groups: &[Let], page: &mut Page) {
    for group in groups {
        write_ident(" ", &group.var, page);
        write(" = ", &group.expr, page);
    }
}

fn write_aggregates(all: &[AggregateItem], page: &mut Page) {
    for item in all {
        write_ident(" ", &item.var, page);
        page.put_pair(" = ", item.name.as_str());
        write_maybe(" ", &item.arg, page);
    }
}

fn write_into(into: &Option<Into>, page: &mut Page) {
    if let Some(into) = into {
        write_ident(" into ", &into.var, page);
        write_maybe(" = ", &into.what, page);
    }
}

fn write_walked(vertex: u32, edge: Option<u32>, path: Option<u32>, page: &mut Page) {
    write_var(" / paths ", vertex, page);
    write_maybe_var(" edge ", edge, page);
    write_maybe_var(" path ", path, page);
}

fn write_shard(shard: Option<u32>, page: &mut Page) {
    if let Some(shard) = shard {
        page.put(" on ");
        page.put_shown(&shard);
    }
}

// A node that gives a row for each of many things.
fn write_source(node: &Node, page: &mut Page) {
    match node {
        Node::EnumerateCollection {
            var,
            filter,
            attrs,
            shard,
            ..
        } => {
            write_var(" / docs ", *var, page);
            write_maybe(" if ", filter, page);
            write_attrs(attrs, page);
            write_shard(*shard, page);
        }
        Node::Index {
            var,
            filter,
            attrs,
            shard,
            ..
        } => {
            write_var(" / found ", *var, page);
            write_maybe(" if ", filter, page);
            write_attrs(attrs, page);
            write_shard(*shard, page);
        }
        Node::EnumerateList { var, list } => {
            write_var(" / each ", *var, page);
            write(" in ", list, page);
        }
        Node::Traversal {
            vertex,
            edge,
            path,
            prune,
            filter,
            ..
        } => {
            write_walked(*vertex, *edge, *path, page);
            write_maybe(" prune ", prune, page);
            write_maybe(" if ", filter, page);
        }
        _ => write_link(node, page),
    }
}

// A node that only plans with fragments have.
fn write_link(node: &Node, page: &mut Page) {
    match node {
        Node::Scatter { coll, only } => {
            page.put(" / scatter ");
            page.put_shown(&coll.0);
            write_maybe_var(" only ", *only, page);
        }
        Node::Distribute { coll, exprs } => {
            page.put(" / distribute ");
            page.put_shown(&coll.0);
            write_exprs(" by ", exprs.as_slice(), page);
        }
        Node::Remote => page.put(" / link"),
        Node::Gather { order } => write_keys(" / gather", order.as_slice(), page),
        _ => page.put("?"),
    }
}

fn write_node(node: &Node, page: &mut Page) {
    match node {
        Node::Calculation { var, expr } => {
            write_var(" / let ", *var, page);
            write(" = ", expr, page);
        }
        Node::Filter { cond } => write(" / filter ", cond, page),
        Node::Sort { keys, limit } => {
            write_keys(" / sort", keys.as_slice(), page);
            write_limit(limit, page);
        }
        Node::Limit { offset, count } => {
            page.put(" / limit ");
            write_skipped(*offset, page);
            page.put_shown(count);
        }
        Node::Collect {
            groups,
            aggregates,
            into,
            stage,
        } => {
            write_stage(*stage, page);
            write_groups(groups.as_slice(), page);
            write_aggregates(aggregates.as_slice(), page);
            write_into(into, page);
        }
        Node::Return { expr, .. } => write(" / return ", expr, page),
        Node::NoResults => page.put(" / nothing"),
        _ => write_source(node, page),
    }
}

/// The nodes of a plan.
#[cycle(write)]
pub fn write_plan(plan: &Plan, page: &mut Page) {
    match plan {
        Plan::Singleton => page.put("start"),
        Plan::Over { below, node } => {
            write_plan(below, page);
            write_node(node, page);
        }
        Plan::Subquery { below, var, body } => {
            write_plan(below, page);
            write_var(" / let ", *var, page);
            page.put(" = {");
            write_plan(body, page);
            page.put("}");
        }
    }
}
