//! Copies of syntax trees.

ghost use Rattle.std.specs.Prelude.{◌≡◌, map, IfOk, option_map};
ghost use Rattle.aql_tree.specs.View.{tree, clause_tree, step_part, member_part, link_part};
ghost use Rattle.aql_tree.specs.View.{key_part, let_part, aggregate_part, into_part};
ghost use Rattle.aql_tree.specs.View.{options_part, traversal_part, query_tree};

use crate::{
    AggregateItem, Clause, Collect, Expr, Field, Ident, Into, Key, Let, Link, Options, Query, Step,
    Traversal,
};
use aql_value::{CollNo, CollNos, Names, OutOfMemory, Seq, Text, copy};
use std::alloc::Global;

/// Equal texts.
pub fn copy_texts(alloc: Global, texts: &[Text]) -> Result<Seq<Text>, OutOfMemory>
    ensures { IfOk result (λ ts. ts ≡ texts.now) }
{
    let mut all = Seq::new(alloc);
    for text in texts {
        all.push(text.copy(alloc)?)?;
    }
    Ok(all)
}

/// Equal texts, where there are some.
pub fn copy_maybe_texts(alloc: Global, texts: &Option<Names>) -> Result<Option<Names>, OutOfMemory>
    ensures { IfOk result (λ ts. ts ≡ texts.now) }
{
    match texts {
        Some(texts) => Ok(Some(copy_texts(alloc, texts.as_slice())?)),
        None => Ok(None),
    }
}

/// The same collections.
pub fn copy_colls(alloc: Global, colls: &[CollNo]) -> Result<CollNos, OutOfMemory>
    ensures { IfOk result (λ cs. cs ≡ colls.now) }
{
    let mut all = Seq::new(alloc);
    for coll in colls {
        all.push(*coll)?;
    }
    Ok(all)
}

/// An equal variable.
pub fn copy_ident(alloc: Global, ident: &Ident) -> Result<Ident, OutOfMemory>
    ensures { IfOk result (λ y. y ≡ ident.now) }
{
    match ident {
        Ident::Name(name) => Ok(Ident::Name(name.copy(alloc)?)),
        Ident::Num(n) => Ok(Ident::Num(*n)),
    }
}

/// An equal variable, where there is one.
pub fn copy_maybe_ident(alloc: Global, ident: &Option<Ident>) -> Result<Option<Ident>, OutOfMemory>
    ensures { IfOk result (λ y. y ≡ ident.now) }
{
    match ident {
        Some(ident) => Ok(Some(copy_ident(alloc, ident)?)),
        None => Ok(None),
    }
}

/// An equal expression.
#[cycle(copying)]
pub fn copy_expr(alloc: Global, expr: &Expr) -> Result<Expr, OutOfMemory>
    ensures { IfOk result (λ f. tree f ≡ tree expr.now) }
{
    match expr {
        Expr::Lit(value) => Ok(Expr::Lit(copy(alloc, value)?)),
        Expr::Var(ident) => Ok(Expr::Var(copy_ident(alloc, ident)?)),
        Expr::Current => Ok(Expr::Current),
        Expr::List(items) => Ok(Expr::List(copy_exprs(alloc, items.as_slice())?)),
        Expr::Object(fields) => Ok(Expr::Object(copy_fields(alloc, fields.as_slice())?)),
        Expr::Call { name, args } => Ok(Expr::Call {
            name: name.copy(alloc)?,
            args: copy_exprs(alloc, args.as_slice())?,
        }),
        Expr::Quant {
            left,
            kind,
            op,
            right,
        } => Ok(Expr::Quant {
            left: copy_boxed(alloc, left)?,
            kind: *kind,
            op: *op,
            right: copy_boxed(alloc, right)?,
        }),
        Expr::Range { low, high } => Ok(Expr::Range {
            low: copy_boxed(alloc, low)?,
            high: copy_boxed(alloc, high)?,
        }),
        Expr::Access { of, steps } => Ok(Expr::Access {
            of: copy_boxed(alloc, of)?,
            steps: copy_steps(alloc, steps.as_slice())?,
        }),
        Expr::Unary { op, of } => Ok(Expr::Unary {
            op: *op,
            of: copy_boxed(alloc, of)?,
        }),
        Expr::Chain { first, rest } => Ok(Expr::Chain {
            first: copy_boxed(alloc, first)?,
            rest: copy_links(alloc, rest.as_slice())?,
        }),
        Expr::Cond { test, yes, no } => Ok(Expr::Cond {
            test: copy_boxed(alloc, test)?,
            yes: copy_maybe_boxed(alloc, yes)?,
            no: copy_boxed(alloc, no)?,
        }),
        Expr::Sub(query) => Ok(Expr::Sub(copy_query(alloc, query)?)),
    }
}

#[cycle(copying)]
fn copy_boxed(alloc: Global, expr: &Expr) -> Result<Box<Expr>, OutOfMemory>
    ensures { IfOk result (λ f. tree f.value ≡ tree expr.now) }
{
    let copied = copy_expr(alloc, expr)?;
    Ok(Box::new(alloc, copied)?)
}

#[cycle(copying)]
fn copy_maybe_boxed(
    alloc: Global,
    expr: &Option<Box<Expr>>,
) -> Result<Option<Box<Expr>>, OutOfMemory>
    ensures { IfOk result
        (λ f. option_map (λ b. tree b.value) f ≡ option_map (λ b. tree b.value) expr.now) }
{
    match expr {
        Some(expr) => Ok(Some(copy_boxed(alloc, expr)?)),
        None => Ok(None),
    }
}

/// An equal expression, where there is one.
#[cycle(copying)]
pub fn copy_maybe(alloc: Global, expr: &Option<Expr>) -> Result<Option<Expr>, OutOfMemory>
    ensures { IfOk result (λ f. option_map tree f ≡ option_map tree expr.now) }
{
    match expr {
        Some(expr) => Ok(Some(copy_expr(alloc, expr)?)),
        None => Ok(None),
    }
}

/// Equal expressions, in the same order.
#[cycle(copying)]
pub fn copy_exprs(alloc: Global, all: &[Expr]) -> Result<Seq<Expr>, OutOfMemory>
    ensures { IfOk result (λ out. map tree out ≡ map tree all.now) }
{
    let mut out = Seq::new(alloc);
    for item in all {
        out.push(copy_expr(alloc, item)?)?;
    }
    Ok(out)
}

#[cycle(copying)]
fn copy_fields(alloc: Global, all: &[Field]) -> Result<Seq<Field>, OutOfMemory>
    ensures { IfOk result (λ out. map member_part out ≡ map member_part all.now) }
{
    let mut out = Seq::new(alloc);
    for item in all {
        out.push(copy_field(alloc, item)?)?;
    }
    Ok(out)
}

#[cycle(copying)]
fn copy_steps(alloc: Global, all: &[Step]) -> Result<Seq<Step>, OutOfMemory>
    ensures { IfOk result (λ out. map step_part out ≡ map step_part all.now) }
{
    let mut out = Seq::new(alloc);
    for item in all {
        out.push(copy_step(alloc, item)?)?;
    }
    Ok(out)
}

#[cycle(copying)]
fn copy_links(alloc: Global, all: &[Link]) -> Result<Seq<Link>, OutOfMemory>
    ensures { IfOk result (λ out. map link_part out ≡ map link_part all.now) }
{
    let mut out = Seq::new(alloc);
    for item in all {
        out.push(Link {
            op: item.op,
            right: copy_expr(alloc, &item.right)?,
        })?;
    }
    Ok(out)
}

/// Equal keys of SORT.
#[cycle(copying)]
pub fn copy_keys(alloc: Global, all: &[Key]) -> Result<Seq<Key>, OutOfMemory>
    ensures { IfOk result (λ out. map key_part out ≡ map key_part all.now) }
{
    let mut out = Seq::new(alloc);
    for item in all {
        out.push(Key {
            expr: copy_expr(alloc, &item.expr)?,
            descending: item.descending,
        })?;
    }
    Ok(out)
}

/// Equal variables with what they take, as criteria of COLLECT.
#[cycle(copying)]
pub fn copy_lets(alloc: Global, all: &[Let]) -> Result<Seq<Let>, OutOfMemory>
    ensures { IfOk result (λ out. map let_part out ≡ map let_part all.now) }
{
    let mut out = Seq::new(alloc);
    for item in all {
        out.push(Let {
            var: copy_ident(alloc, &item.var)?,
            expr: copy_expr(alloc, &item.expr)?,
        })?;
    }
    Ok(out)
}

/// Equal aggregates.
#[cycle(copying)]
pub fn copy_aggregates(
    alloc: Global,
    all: &[AggregateItem],
) -> Result<Seq<AggregateItem>, OutOfMemory>
    ensures { IfOk result (λ out. map aggregate_part out ≡ map aggregate_part all.now) }
{
    let mut out = Seq::new(alloc);
    for item in all {
        out.push(AggregateItem {
            var: copy_ident(alloc, &item.var)?,
            name: item.name.copy(alloc)?,
            arg: copy_maybe(alloc, &item.arg)?,
        })?;
    }
    Ok(out)
}

#[cycle(copying)]
fn copy_clauses(alloc: Global, all: &[Clause]) -> Result<Seq<Clause>, OutOfMemory>
    ensures { IfOk result (λ out. map clause_tree out ≡ map clause_tree all.now) }
{
    let mut out = Seq::new(alloc);
    for item in all {
        out.push(copy_clause(alloc, item)?)?;
    }
    Ok(out)
}

#[cycle(copying)]
fn copy_field(alloc: Global, field: &Field) -> Result<Field, OutOfMemory>
    ensures { IfOk result (λ out. member_part out ≡ member_part field.now) }
{
    match field {
        Field::Named { name, value } => Ok(Field::Named {
            name: name.copy(alloc)?,
            value: copy_expr(alloc, value)?,
        }),
        Field::Computed { name, value } => Ok(Field::Computed {
            name: copy_expr(alloc, name)?,
            value: copy_expr(alloc, value)?,
        }),
    }
}

#[cycle(copying)]
fn copy_step(alloc: Global, step: &Step) -> Result<Step, OutOfMemory>
    ensures { IfOk result (λ out. step_part out ≡ step_part step.now) }
{
    match step {
        Step::Name(name) => Ok(Step::Name(name.copy(alloc)?)),
        Step::At(e) => Ok(Step::At(copy_expr(alloc, e)?)),
        Step::Each { filter, project } => Ok(Step::Each {
            filter: copy_maybe(alloc, filter)?,
            project: copy_maybe(alloc, project)?,
        }),
    }
}

/// An equal INTO, where there is one.
#[cycle(copying)]
pub fn copy_into(alloc: Global, into: &Option<Into>) -> Result<Option<Into>, OutOfMemory>
    ensures { IfOk result (λ j. option_map into_part j ≡ option_map into_part into.now) }
{
    match into {
        Some(into) => Ok(Some(Into {
            var: copy_ident(alloc, &into.var)?,
            what: copy_maybe(alloc, &into.what)?,
            keep: copy_texts(alloc, into.keep.as_slice())?,
        })),
        None => Ok(None),
    }
}

#[cycle(copying)]
fn copy_traversal(alloc: Global, traversal: &Traversal) -> Result<Traversal, OutOfMemory>
    ensures { IfOk result (λ out. traversal_part out ≡ traversal_part traversal.now) }
{
    Ok(Traversal {
        vertex: copy_ident(alloc, &traversal.vertex)?,
        edge: copy_maybe_ident(alloc, &traversal.edge)?,
        path: copy_maybe_ident(alloc, &traversal.path)?,
        min: traversal.min,
        max: traversal.max,
        direction: traversal.direction,
        start: copy_expr(alloc, &traversal.start)?,
        collections: copy_texts(alloc, traversal.collections.as_slice())?,
        prune: copy_maybe(alloc, &traversal.prune)?,
        options: copy_options(alloc, &traversal.options)?,
    })
}

/// Equal options of a traversal.
#[cycle(copying)]
pub fn copy_options(alloc: Global, options: &Options) -> Result<Options, OutOfMemory>
    ensures { IfOk result (λ out. options_part out ≡ options_part options.now) }
{
    Ok(Options {
        settings: copy_fields(alloc, options.settings.as_slice())?,
        edges: options.edges,
        vertices: options.vertices,
        bfs: options.bfs,
    })
}

#[cycle(copying)]
fn copy_clause(alloc: Global, clause: &Clause) -> Result<Clause, OutOfMemory>
    ensures { IfOk result (λ out. clause_tree out ≡ clause_tree clause.now) }
{
    match clause {
        Clause::For { var, list } => Ok(Clause::For {
            var: copy_ident(alloc, var)?,
            list: copy_expr(alloc, list)?,
        }),
        Clause::ForDocs { var, collection } => Ok(Clause::ForDocs {
            var: copy_ident(alloc, var)?,
            collection: collection.copy(alloc)?,
        }),
        Clause::Traversal(t) => Ok(Clause::Traversal(copy_traversal(alloc, t)?)),
        Clause::Filter(e) => Ok(Clause::Filter(copy_expr(alloc, e)?)),
        Clause::Let { var, expr } => Ok(Clause::Let {
            var: copy_ident(alloc, var)?,
            expr: copy_expr(alloc, expr)?,
        }),
        Clause::Sort(keys) => Ok(Clause::Sort(copy_keys(alloc, keys.as_slice())?)),
        Clause::Limit { offset, count } => Ok(Clause::Limit {
            offset: *offset,
            count: *count,
        }),
        Clause::Collect(collect) => Ok(Clause::Collect(Collect {
            groups: copy_lets(alloc, collect.groups.as_slice())?,
            aggregates: copy_aggregates(alloc, collect.aggregates.as_slice())?,
            into: copy_into(alloc, &collect.into)?,
        })),
    }
}

#[cycle(copying)]
fn copy_query(alloc: Global, query: &Query) -> Result<Box<Query>, OutOfMemory>
    ensures { IfOk result (λ out. query_tree out.value ≡ query_tree query.now) }
{
    let copied = Query {
        with: copy_texts(alloc, query.with.as_slice())?,
        clauses: copy_clauses(alloc, query.clauses.as_slice())?,
        distinct: query.distinct,
        result: copy_boxed(alloc, &query.result)?,
    };
    Ok(Box::new(alloc, copied)?)
}
