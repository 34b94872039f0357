//! Nodes by a word each: a letter for the kind, and a letter for each field.

use crate::tests::exprs::{expr, exprs, keys, maybe_expr, maybe_number, names, number};
use aql_plan::{Edge, Last, Node, Plan, Stage, TraversalOptions};
use aql_tree::{
    AggregateItem, Aggregates, Direction, Ident, Into, Let, Lets, UniqueEdges, UniqueVertices,
};
use aql_value::{CollNo, CollNos, Names, OutOfMemory, Text};
use std::alloc::Global;

type Made = Result<Node, OutOfMemory>;

// E: variable, collection, shard, filter.
fn scan(alloc: Global, fields: &[u8; 4]) -> Made {
    let [var, coll, shard, filter] = *fields;
    Ok(Node::EnumerateCollection {
        var: number(var),
        coll: CollNo(number(coll)),
        filter: maybe_expr(alloc, filter)?,
        attrs: None,
        shard: maybe_number(shard),
    })
}

// The last bound by its letter: one of an array, a range, or none.
fn last(alloc: Global, of: u8) -> Result<Last, OutOfMemory> {
    match of {
        b'o' => Ok(Last::OneOf(expr(alloc, b'_')?)),
        b't' => Ok(Last::OneOf(expr(alloc, b't')?)),
        b'q' => Ok(Last::OneOf(expr(alloc, b's')?)),
        b'v' => Ok(Last::OneOf(expr(alloc, b'2')?)),
        b'r' => Ok(Last::Range {
            low: Some(Edge {
                expr: expr(alloc, b'_')?,
                inclusive: true,
            }),
            high: None,
        }),
        b's' => Ok(Last::Range {
            low: None,
            high: Some(Edge {
                expr: expr(alloc, b's')?,
                inclusive: true,
            }),
        }),
        _ => Ok(Last::None),
    }
}

// The expressions of the equalities: one, two or three, one with a subquery, or one of variable 2.
fn equalities(of: u8) -> &'static [u8] {
    match of {
        b'1' => b"_",
        b'2' => b"__",
        b'3' => b"___",
        b's' => b"s",
        b'v' => b"2",
        _ => b"",
    }
}

// I: variable, collection, shard, index, equalities, last bound, order, kept attribute, filter.
fn by_index(alloc: Global, fields: &[u8; 9]) -> Made {
    let [var, coll, shard, index, equal, bound, order, kept, filter] = *fields;
    Ok(Node::Index {
        var: number(var),
        coll: CollNo(number(coll)),
        filter: maybe_expr(alloc, filter)?,
        attrs: match kept {
            b'-' => None,
            b'a' => Some(names(alloc, b"a")?),
            _ => Some(names(alloc, b"kba")?),
        },
        shard: maybe_number(shard),
        index: number(index),
        equal: exprs(alloc, equalities(equal))?,
        last: last(alloc, bound)?,
        ordered: match order {
            b'a' => Some(false),
            b'd' => Some(true),
            _ => None,
        },
    })
}

// The collections of a traversal: the one of this number, or collection 1 twice at `t`.
fn edge_collections(alloc: Global, of: u8) -> Result<CollNos, OutOfMemory> {
    let mut collections = CollNos::new(alloc);
    if of == b't' {
        collections.push(CollNo(1))?;
        collections.push(CollNo(1))?;
        return Ok(collections);
    }
    collections.push(CollNo(number(of)))?;
    Ok(collections)
}

// T: vertex, edge, path, least and greatest depth, start, collection, PRUNE, filter.
fn traversal(alloc: Global, fields: &[u8; 9]) -> Made {
    let [vertex, edge, path, min, max, start, coll, prune, filter] = *fields;
    Ok(Node::Traversal {
        vertex: number(vertex),
        edge: maybe_number(edge),
        path: maybe_number(path),
        min: number(min),
        max: number(max),
        direction: Direction::Any,
        start: expr(alloc, start)?,
        collections: edge_collections(alloc, coll)?,
        prune: maybe_expr(alloc, prune)?,
        options: TraversalOptions {
            edges: UniqueEdges::Path,
            vertices: UniqueVertices::None,
            bfs: false,
        },
        filter: maybe_expr(alloc, filter)?,
    })
}

// A plan of these nodes, with blanks between them.
fn plan_by(alloc: Global, words: &str) -> Result<Plan, OutOfMemory> {
    let mut plan = Plan::Singleton;
    for word in words.split(' ') {
        plan = large_node(alloc, word.as_bytes())?.over(alloc, plan)?;
    }
    Ok(plan)
}

// The body of a subquery: a Return of this expression, or of null for each document of collection 0
// at `d`, gathered and filtered at `g`, in order at `o`, and grouped at `c`, or none at `x`.
fn body(alloc: Global, of: u8) -> Result<Plan, OutOfMemory> {
    if of == b'x' {
        return Ok(Plan::Singleton);
    }
    if of == b'o' {
        return plan_by(alloc, "A0- > E10-- > Ga Saa R_-");
    }
    if of == b'c' {
        return plan_by(alloc, "A0- > E10-- > Ga Kw3a----- R_-");
    }
    let below = match of {
        b'd' => scan(alloc, b"10--")?.over(alloc, Plan::Singleton)?,
        b'g' => plan_by(alloc, "A0- > E10-- > Ga F1")?,
        _ => Plan::Singleton,
    };
    let result = Node::Return {
        expr: expr(alloc, of)?,
        distinct: false,
    };
    result.over(alloc, below)
}

fn ident(alloc: Global, of: u8) -> Result<Ident, OutOfMemory> {
    if of == b'n' {
        return Ok(Ident::Name(Text::new(alloc, "n")?));
    }
    Ok(Ident::Num(number(of)))
}

fn lets(alloc: Global, var: u8, of: u8) -> Result<Lets, OutOfMemory> {
    let mut all = Lets::new(alloc);
    if var != b'-' {
        all.push(Let {
            var: ident(alloc, var)?,
            expr: expr(alloc, of)?,
        })?;
    }
    Ok(all)
}

fn aggregates(alloc: Global, var: u8, name: u8, arg: u8) -> Result<Aggregates, OutOfMemory> {
    let mut all = Aggregates::new(alloc);
    if var != b'-' {
        all.push(AggregateItem {
            var: ident(alloc, var)?,
            name: Text::new(
                alloc,
                match name {
                    b'l' => "length",
                    b's' => "SUM",
                    _ => "AVERAGE",
                },
            )?,
            arg: maybe_expr(alloc, arg)?,
        })?;
    }
    Ok(all)
}

fn into(alloc: Global, var: u8, what: u8) -> Result<Option<Into>, OutOfMemory> {
    if var == b'-' {
        return Ok(None);
    }
    Ok(Some(Into {
        var: ident(alloc, var)?,
        what: maybe_expr(alloc, what)?,
        keep: Names::new(alloc),
    }))
}

// K: stage, criterion's variable and expression, aggregate's variable, name and argument, INTO's
// variable and expression.
fn collect(alloc: Global, fields: &[u8; 8]) -> Made {
    let [stage, group, of, var, name, arg, taken, what] = *fields;
    Ok(Node::Collect {
        groups: lets(alloc, group, of)?,
        aggregates: aggregates(alloc, var, name, arg)?,
        into: into(alloc, taken, what)?,
        stage: match stage {
            b'p' => Stage::Partial,
            b'f' => Stage::Final,
            _ => Stage::Whole,
        },
    })
}

fn count(of: u8) -> u64 {
    if of == b'h' {
        u64::MAX
    } else {
        u64::from(number(of))
    }
}

/// The node of a word over a plan; a word that is none is NoResults.
pub fn node(alloc: Global, word: &[u8], below: Plan) -> Result<Plan, OutOfMemory> {
    match word {
        [b'Q', var, of] => {
            let body = body(alloc, *of)?;
            Plan::subquery(alloc, below, number(*var), body)
        }
        _ => large_node(alloc, word)?.over(alloc, below),
    }
}

fn large_node(alloc: Global, word: &[u8]) -> Made {
    match word {
        [b'E', a, b, c, d] => scan(alloc, &[*a, *b, *c, *d]),
        [b'I', a, b, c, d, e, f, g, h] => {
            by_index(alloc, &[*a, *b, *c, *d, *e, *f, *g, *h, b'-'])
        }
        [b'I', a, b, c, d, e, f, g, h, i] => {
            by_index(alloc, &[*a, *b, *c, *d, *e, *f, *g, *h, *i])
        }
        [b'T', a, b, c, d, e, f, g, h, i] => {
            traversal(alloc, &[*a, *b, *c, *d, *e, *f, *g, *h, *i])
        }
        [b'K', a, b, c, d, e, f, g, h] => collect(alloc, &[*a, *b, *c, *d, *e, *f, *g, *h]),
        _ => small_node(alloc, word),
    }
}

fn small_node(alloc: Global, word: &[u8]) -> Made {
    match word {
        [b'L', var, list] => Ok(Node::EnumerateList {
            var: number(*var),
            list: expr(alloc, *list)?,
        }),
        [b'C', var, of] => Ok(Node::Calculation {
            var: number(*var),
            expr: expr(alloc, *of)?,
        }),
        [b'F', cond] => Ok(Node::Filter {
            cond: expr(alloc, *cond)?,
        }),
        [b'M', offset, most] => Ok(Node::Limit {
            offset: count(*offset),
            count: count(*most),
        }),
        [b'R', of, distinct] => Ok(Node::Return {
            expr: expr(alloc, *of)?,
            distinct: *distinct == b'd',
        }),
        _ => cluster_node(alloc, word),
    }
}

// S and G have a direction and keys, P a limit before these; A a collection and a shard, D a
// collection and expressions.
fn cluster_node(alloc: Global, word: &[u8]) -> Made {
    match word {
        [b'S', direction, letters @ ..] => Ok(Node::Sort {
            keys: keys(alloc, *direction, letters)?,
            limit: None,
        }),
        [b'P', limit, direction, letters @ ..] => Ok(Node::Sort {
            keys: keys(alloc, *direction, letters)?,
            limit: Some(count(*limit)),
        }),
        [b'G', direction, letters @ ..] => Ok(Node::Gather {
            order: keys(alloc, *direction, letters)?,
        }),
        [b'A', coll, only] => Ok(Node::Scatter {
            coll: CollNo(number(*coll)),
            only: maybe_number(*only),
        }),
        [b'D', coll, letters @ ..] => Ok(Node::Distribute {
            coll: CollNo(number(*coll)),
            exprs: exprs(alloc, letters)?,
        }),
        [b'>'] => Ok(Node::Remote),
        _ => Ok(Node::NoResults),
    }
}
