// Small plans, a line for each node, the lowest first, over a collection of edges and one of a
// single document.
use aql_func::BinOp;
use aql_meaning::{Last, Stage, TraversalOptions};
use aql_plan::{CollFact, Facts, IndexFact, IndexKind, Node, Plan};
use aql_tree::{
    AggregateItem, Direction, Expr, Ident, Into, Key, Let, Link, Step, UniqueEdges, UniqueVertices,
};
use aql_value::{CollNo, OutOfMemory, Seq, Text, Value};
use std::alloc::Global;

/// An attribute of a variable: `(1, "a")` is `#1.a`.
pub type Part = (u32, &'static str);

/// A condition: attributes with `&&` between them. No attribute stands for no condition.
pub type Cond = &'static [Part];

/// A variable with the aggregate of this name over an attribute.
pub type Aggregated = (u32, &'static str, Part);

/// A node of a plan.
#[derive(Clone, Copy)]
pub enum Line {
    /// FOR over the collection of edges.
    Docs(u32),
    /// FOR over the collection of a single document.
    Lone(u32),
    /// The same with a filter of its own.
    DocsIf(u32, Cond),
    /// The same with one attribute of each document alone.
    DocsCut(u32),
    /// The same over an index.
    Found(u32),
    /// FOR over an array.
    Each(u32, Part),
    /// FOR over the array that a variable is.
    EachOf(u32, u32),
    /// FOR over paths: the variables of vertices, edges and paths, PRUNE, and a filter of its own.
    Paths(u32, Option<u32>, Option<u32>, Cond, Cond),
    /// LET of a number.
    Let(u32, i64),
    /// LET of an attribute.
    Copy(u32, Part),
    /// LET of a subquery, which filters by a number, sets a variable to 3 and returns it.
    Rows(u32, u32, i64),
    /// FILTER.
    Filter(Cond),
    /// FILTER by a number.
    FilterBy(i64),
    /// SORT.
    Sort(Part, Option<u64>),
    /// SORT by a number.
    SortBy(i64, Option<u64>),
    /// LIMIT of the first rows.
    Limit(u64),
    /// LIMIT of rows after some.
    LimitAfter(u64, u64),
    /// COLLECT: the variable of the groups, their attribute, aggregates, and INTO of an attribute.
    Collect(u32, Part, &'static [Aggregated], Option<(u32, Part)>),
    /// RETURN of a variable.
    Return(u32),
    /// RETURN of an attribute.
    ReturnPart(Part),
}

fn names(alloc: Global, name: &str) -> Result<Seq<Text>, OutOfMemory> {
    let mut names = Seq::new(alloc);
    names.push(Text::new(alloc, name)?)?;
    Ok(names)
}

fn indexes(alloc: Global) -> Result<Seq<IndexFact>, OutOfMemory> {
    let mut widths = Seq::new(alloc);
    widths.push(10)?;
    widths.push(1)?;
    let attributes = names(alloc, "a")?;
    let mut indexes = Seq::new(alloc);
    indexes.push(IndexFact {
        kind: IndexKind::Sorted,
        attributes,
        widths,
    })?;
    Ok(indexes)
}

fn collection(
    alloc: Global,
    name: &str,
    edge: bool,
    documents: u64,
    indexes: Seq<IndexFact>,
) -> Result<CollFact, OutOfMemory> {
    Ok(CollFact {
        name: Text::new(alloc, name)?,
        edge,
        documents,
        shards: 1,
        keys: names(alloc, "_key")?,
        indexes,
    })
}

/// What is known of the collections: ten edges in one place, with an index of one attribute, and a
/// single document.
pub fn two_collections(alloc: Global) -> Result<Facts, OutOfMemory> {
    let indexes = indexes(alloc)?;
    let mut collections = Seq::new(alloc);
    collections.push(collection(alloc, "c", true, 10, indexes)?)?;
    collections.push(collection(alloc, "d", false, 1, Seq::new(alloc))?)?;
    Ok(Facts {
        servers: 0,
        collections,
    })
}

fn attribute(alloc: Global, part: Part) -> Result<Expr, OutOfMemory> {
    let mut steps = Seq::new(alloc);
    steps.push(Step::Name(Text::new(alloc, part.1)?))?;
    Expr::access(alloc, variable(part.0), steps)
}

fn chain(alloc: Global, first: Part, rest: &[Part]) -> Result<Expr, OutOfMemory> {
    let mut links = Seq::new(alloc);
    for part in rest {
        links.push(Link::new(BinOp::And, attribute(alloc, *part)?))?;
    }
    Expr::chain(alloc, attribute(alloc, first)?, links)
}

fn maybe_cond(alloc: Global, parts: &[Part]) -> Result<Option<Expr>, OutOfMemory> {
    match parts {
        [] => Ok(None),
        [part] => Ok(Some(attribute(alloc, *part)?)),
        [first, rest @ ..] => Ok(Some(chain(alloc, *first, rest)?)),
    }
}

fn cond(alloc: Global, parts: &[Part]) -> Result<Expr, OutOfMemory> {
    Ok(maybe_cond(alloc, parts)?.unwrap_or(number(1)))
}

fn number(n: i64) -> Expr {
    Expr::Lit(Value::Num(n))
}

fn docs(var: u32, filter: Option<Expr>, attrs: Option<Seq<Text>>) -> Node {
    Node::EnumerateCollection {
        var,
        coll: CollNo(0),
        filter,
        attrs,
        shard: None,
    }
}

fn lone(var: u32) -> Node {
    Node::EnumerateCollection {
        var,
        coll: CollNo(1),
        filter: None,
        attrs: None,
        shard: None,
    }
}

fn found(alloc: Global, var: u32) -> Node {
    Node::Index {
        var,
        coll: CollNo(0),
        filter: None,
        attrs: None,
        shard: None,
        index: 0,
        equal: Seq::new(alloc),
        last: Last::None,
        ordered: None,
    }
}

// The variables of a Traversal.
#[derive(Clone, Copy)]
struct Walked {
    vertex: u32,
    edge: Option<u32>,
    path: Option<u32>,
}

fn paths(
    alloc: Global,
    vars: Walked,
    prune: Option<Expr>,
    filter: Option<Expr>,
) -> Result<Node, OutOfMemory> {
    let start = Expr::Lit(Value::Text(Text::new(alloc, "c/1")?));
    let mut collections = Seq::new(alloc);
    collections.push(CollNo(0))?;
    Ok(Node::Traversal {
        vertex: vars.vertex,
        edge: vars.edge,
        path: vars.path,
        min: 1,
        max: 2,
        direction: Direction::Outbound,
        start,
        collections,
        prune,
        options: TraversalOptions {
            edges: UniqueEdges::Path,
            vertices: UniqueVertices::None,
            bfs: false,
        },
        filter,
    })
}

fn source(alloc: Global, line: Line) -> Result<Node, OutOfMemory> {
    match line {
        Line::Docs(var) => Ok(docs(var, None, None)),
        Line::Lone(var) => Ok(lone(var)),
        Line::DocsIf(var, filter) => Ok(docs(var, maybe_cond(alloc, filter)?, None)),
        Line::DocsCut(var) => Ok(docs(var, None, Some(names(alloc, "a")?))),
        Line::Found(var) => Ok(found(alloc, var)),
        Line::Each(var, list) => {
            let list = attribute(alloc, list)?;
            Ok(Node::EnumerateList { var, list })
        }
        Line::EachOf(var, list) => Ok(Node::EnumerateList {
            var,
            list: Expr::Var(Ident::Num(list)),
        }),
        Line::Paths(vertex, edge, path, prune, filter) => {
            let prune = maybe_cond(alloc, prune)?;
            let filter = maybe_cond(alloc, filter)?;
            paths(alloc, Walked { vertex, edge, path }, prune, filter)
        }
        _ => Ok(Node::NoResults),
    }
}

fn sorted(alloc: Global, key: Expr, limit: Option<u64>) -> Result<Node, OutOfMemory> {
    let mut keys = Seq::new(alloc);
    keys.push(Key::new(key, false))?;
    Ok(Node::Sort { keys, limit })
}

fn aggregates(alloc: Global, all: &[Aggregated]) -> Result<Seq<AggregateItem>, OutOfMemory> {
    let mut items = Seq::new(alloc);
    for (var, name, part) in all {
        let name = Text::new(alloc, name)?;
        let arg = Some(attribute(alloc, *part)?);
        items.push(AggregateItem::new(Ident::Num(*var), name, arg))?;
    }
    Ok(items)
}

fn maybe_into(alloc: Global, into: Option<(u32, Part)>) -> Result<Option<Into>, OutOfMemory> {
    match into {
        Some((var, part)) => {
            let what = Some(attribute(alloc, part)?);
            Ok(Some(Into::new(Ident::Num(var), what, Seq::new(alloc))))
        }
        None => Ok(None),
    }
}

fn collected(
    alloc: Global,
    group: (u32, Part),
    all: &[Aggregated],
    into: Option<(u32, Part)>,
) -> Result<Node, OutOfMemory> {
    let mut groups = Seq::new(alloc);
    groups.push(Let::new(Ident::Num(group.0), attribute(alloc, group.1)?))?;
    let aggregates = aggregates(alloc, all)?;
    let into = maybe_into(alloc, into)?;
    Ok(Node::Collect {
        groups,
        aggregates,
        into,
        stage: Stage::Whole,
    })
}

fn filter(cond: Expr) -> Node {
    Node::Filter { cond }
}

fn calculation(var: u32, expr: Expr) -> Node {
    Node::Calculation { var, expr }
}

fn result(expr: Expr) -> Node {
    Node::Return {
        expr,
        distinct: false,
    }
}

fn variable(var: u32) -> Expr {
    Expr::Var(Ident::Num(var))
}

fn body(alloc: Global, var: u32, n: i64) -> Result<Plan, OutOfMemory> {
    let plan = filter(number(n)).over(alloc, Plan::Singleton)?;
    let plan = calculation(var, number(3)).over(alloc, plan)?;
    result(variable(var)).over(alloc, plan)
}

fn node(alloc: Global, line: Line) -> Result<Node, OutOfMemory> {
    match line {
        Line::Let(var, n) => Ok(calculation(var, number(n))),
        Line::Copy(var, part) => Ok(calculation(var, attribute(alloc, part)?)),
        Line::Filter(parts) => Ok(filter(cond(alloc, parts)?)),
        Line::FilterBy(n) => Ok(filter(number(n))),
        Line::Sort(key, limit) => sorted(alloc, attribute(alloc, key)?, limit),
        Line::SortBy(n, limit) => sorted(alloc, number(n), limit),
        Line::Limit(count) => Ok(Node::Limit { offset: 0, count }),
        Line::LimitAfter(offset, count) => Ok(Node::Limit { offset, count }),
        Line::Collect(var, part, all, into) => collected(alloc, (var, part), all, into),
        Line::Return(var) => Ok(result(variable(var))),
        Line::ReturnPart(part) => Ok(result(attribute(alloc, part)?)),
        _ => source(alloc, line),
    }
}

fn over(alloc: Global, below: Plan, line: Line) -> Result<Plan, OutOfMemory> {
    match line {
        Line::Rows(var, inner, n) => {
            let body = body(alloc, inner, n)?;
            Plan::subquery(alloc, below, var, body)
        }
        _ => node(alloc, line)?.over(alloc, below),
    }
}

/// The plan of these lines.
pub fn plan_of(alloc: Global, lines: &[Line]) -> Result<Plan, OutOfMemory> {
    let mut plan = Plan::Singleton;
    for line in lines {
        plan = over(alloc, plan, *line)?;
    }
    Ok(plan)
}
