//! Nodes made from their parts. Each contract says which tree of definitions the node stands for.

ghost use Rattle.std.specs.Prelude.{◌≡◌, IfOk, map, option_map};
ghost use Rattle.aql_tree.specs.Tree as spec;
ghost use Rattle.aql_tree.specs.View.{tree, query_tree, step_part, link_part, clause_tree, key_part, let_part, aggregate_part, into_part, links, maybe, inline, collect_clause};
ghost use Rattle.aql_tree.specs.View.{steps as spec_steps, clauses as spec_clauses};

use crate::{
    AggregateItem, Aggregates, Clause, Collect, Expr, Ident, Into, Key, Let, Lets, Link, QuantKind,
    Query, Step,
};
use aql_value::{BinOp, OutOfMemory, Seq, Text, UnaryOp};
use std::alloc::Global;

fn boxed(alloc: Global, expr: Expr) -> Result<Box<Expr>, OutOfMemory>
    ensures { IfOk result (λ b. tree b.value ≡ tree expr) }
{
    Ok(Box::new(alloc, expr)?)
}

fn conditional_node(
    alloc: Global,
    test: Expr,
    yes: Option<Box<Expr>>,
    no: Expr,
) -> Result<Expr, OutOfMemory>
    ensures { IfOk result (λ e. tree e
        ≡ spec.ternary (tree test) (maybe (option_map (λ b. tree b.value) yes)) (tree no)) }
{
    Ok(Expr::Cond {
        test: boxed(alloc, test)?,
        yes,
        no: boxed(alloc, no)?,
    })
}

impl Expr {
    /// `op of`.
    pub fn unary(alloc: Global, op: UnaryOp, of: Expr) -> Result<Expr, OutOfMemory>
        ensures { IfOk result (λ e. tree e ≡ spec.unary_of op (tree of)) }
    {
        Ok(Expr::Unary {
            op,
            of: boxed(alloc, of)?,
        })
    }

    /// An expression with the steps after it.
    pub fn access(alloc: Global, of: Expr, steps: Seq<Step>) -> Result<Expr, OutOfMemory>
        ensures { IfOk result
            (λ e. tree e ≡ spec.access (tree of) (spec_steps (map step_part steps))) }
    {
        Ok(Expr::Access {
            of: boxed(alloc, of)?,
            steps,
        })
    }

    /// An expression with the links after it.
    pub fn chain(alloc: Global, first: Expr, rest: Seq<Link>) -> Result<Expr, OutOfMemory>
        ensures { IfOk result (λ e. tree e ≡ spec.chain (tree first) (links (map link_part rest))) }
    {
        Ok(Expr::Chain {
            first: boxed(alloc, first)?,
            rest,
        })
    }

    /// `left kind op right`, as in `left ALL == right`.
    pub fn array_comparison(
        alloc: Global,
        left: Expr,
        kind: QuantKind,
        op: BinOp,
        right: Expr,
    ) -> Result<Expr, OutOfMemory>
        ensures { IfOk result
            (λ e. tree e ≡ spec.array_comparison (tree left) kind op (tree right)) }
    {
        Ok(Expr::Quant {
            left: boxed(alloc, left)?,
            kind,
            op,
            right: boxed(alloc, right)?,
        })
    }

    /// `low..high`.
    pub fn range(alloc: Global, low: Expr, high: Expr) -> Result<Expr, OutOfMemory>
        ensures { IfOk result (λ e. tree e ≡ spec.range_of (tree low) (tree high)) }
    {
        Ok(Expr::Range {
            low: boxed(alloc, low)?,
            high: boxed(alloc, high)?,
        })
    }

    /// `test ? yes : no`, or `test ? : no`.
    pub fn conditional(
        alloc: Global,
        test: Expr,
        yes: Option<Expr>,
        no: Expr,
    ) -> Result<Expr, OutOfMemory>
        ensures { IfOk result
            (λ e. tree e ≡ spec.ternary (tree test) (maybe (option_map tree yes)) (tree no)) }
    {
        match yes {
            Some(expr) => {
                let yes = boxed(alloc, expr)?;
                conditional_node(alloc, test, Some(yes), no)
            }
            None => conditional_node(alloc, test, None, no),
        }
    }

    /// A subquery.
    pub fn subquery(alloc: Global, query: Query) -> Result<Expr, OutOfMemory>
        ensures { IfOk result (λ e. tree e ≡ spec.subquery (query_tree query)) }
    {
        Ok(Expr::Sub(Box::new(alloc, query)?))
    }
}

impl Query {
    /// A query from its parts.
    pub fn new(
        alloc: Global,
        with: Seq<Text>,
        clauses: Seq<Clause>,
        distinct: bool,
        gives: Expr,
    ) -> Result<Query, OutOfMemory>
        ensures { IfOk result (λ q. query_tree q
            ≡ spec.query with (spec_clauses (map clause_tree clauses)) distinct (tree gives)) }
    {
        Ok(Query {
            with,
            clauses,
            distinct,
            result: boxed(alloc, gives)?,
        })
    }
}

impl Step {
    /// `[* FILTER filter RETURN project]`.
    pub fn each(filter: Option<Expr>, project: Option<Expr>) -> Step
        ensures { step_part result ≡ inline (option_map tree filter) (option_map tree project) }
    {
        Step::Each { filter, project }
    }
}

impl Link {
    /// `op right`.
    pub fn new(op: BinOp, right: Expr) -> Link
        ensures { link_part result ≡ (op, tree right) }
    {
        Link { op, right }
    }
}

impl Key {
    /// A key of SORT.
    pub fn new(expr: Expr, descending: bool) -> Key
        ensures { key_part result ≡ (tree expr, descending) }
    {
        Key { expr, descending }
    }
}

impl Let {
    /// A variable with what it takes.
    pub fn new(var: Ident, expr: Expr) -> Let
        ensures { let_part result ≡ (var, tree expr) }
    {
        Let { var, expr }
    }
}

impl AggregateItem {
    /// `var = name(arg)`.
    pub fn new(var: Ident, name: Text, arg: Option<Expr>) -> AggregateItem
        ensures { aggregate_part result ≡ (var, name, option_map tree arg) }
    {
        AggregateItem { var, name, arg }
    }
}

impl Into {
    /// `INTO var = what` or `INTO var KEEP keep`.
    pub fn new(var: Ident, what: Option<Expr>, keep: Seq<Text>) -> Into
        ensures { into_part result ≡ (var, option_map tree what, keep) }
    {
        Into { var, what, keep }
    }
}

impl Clause {
    /// `COLLECT groups AGGREGATE aggregates INTO into`.
    pub fn collect(groups: Lets, aggregates: Aggregates, into: Option<Into>) -> Clause
        ensures { clause_tree result ≡ collect_clause
            (map let_part groups, map aggregate_part aggregates, option_map into_part into) }
    {
        Clause::Collect(Collect {
            groups,
            aggregates,
            into,
        })
    }
}
