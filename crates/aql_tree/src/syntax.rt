use aql_value::{BinOp, Names, Seq, Text, UnaryOp, Value};

/// A variable: a name as it is written before scoping, a number after it.
pub enum Ident {
    Name(Text),
    Num(u32),
}

/// A list of expressions.
pub type Exprs = Seq<Expr>;

/// The steps of an access, in order.
pub type Steps = Seq<Step>;

/// The links of a chain, in order.
pub type Links = Seq<Link>;

/// The members of an object literal, in order.
pub type Fields = Seq<Field>;

/// The keys of SORT, in order.
pub type Keys = Seq<Key>;

/// Variables with the expressions that they take, in order.
pub type Lets = Seq<Let>;

/// The aggregates of COLLECT, in order.
pub type Aggregates = Seq<AggregateItem>;

/// The clauses of a query, in order.
pub type Clauses = Seq<Clause>;

/// How many elements of an array a comparison must hold for (Operators, Array comparison
/// operators).
#[derive(Clone, Copy, Debug, PartialEq, Eq)]
pub enum QuantKind {
    All,
    Any,
    None,
}

/// Which way a traversal follows edges (Graphs, Traversals).
#[derive(Clone, Copy, Debug, PartialEq, Eq)]
pub enum Direction {
    Outbound,
    Inbound,
    Any,
}

/// Whether an edge may come twice on a path of a traversal (option `uniqueEdges`).
#[derive(Clone, Copy, Debug, PartialEq, Eq)]
pub enum UniqueEdges {
    Path,
    None,
}

/// Whether a vertex may come twice on a path, or in a whole traversal (option `uniqueVertices`).
#[derive(Clone, Copy, Debug, PartialEq, Eq)]
pub enum UniqueVertices {
    None,
    Path,
    Global,
}

/// An expression. Contracts see it as a tree of definitions, by `tree` of specs/View.
#[cycle(syntax)]
pub enum Expr {
    /// A literal.
    Lit(Value),
    /// A variable, or the name of a collection after IN.
    Var(Ident),
    /// `CURRENT`: the element at hand of an inline expression.
    Current,
    /// `[e, ..]`.
    List(Seq<Expr>),
    /// `{name: e, [e]: e, ..}`.
    Object(Seq<Field>),
    /// `of.name[e]..`: at least one step.
    Access {
        of: Box<Expr>,
        steps: Seq<Step>,
    },
    /// `NAME(e, ..)`.
    Call {
        name: Text,
        args: Seq<Expr>,
    },
    /// `! of`, `- of` or `+ of`.
    Unary {
        op: UnaryOp,
        of: Box<Expr>,
    },
    /// `first op right op right ..`: at least one link, all of one level of precedence, from the
    /// left.
    Chain {
        first: Box<Expr>,
        rest: Seq<Link>,
    },
    /// `left ALL op right`, or ANY or NONE; `op` is a comparison, IN or NOT IN.
    Quant {
        left: Box<Expr>,
        kind: QuantKind,
        op: BinOp,
        right: Box<Expr>,
    },
    /// `test ? yes : no`, or `test ? : no`, where the value of `test` stands for `yes`.
    Cond {
        test: Box<Expr>,
        yes: Option<Box<Expr>>,
        no: Box<Expr>,
    },
    /// `low..high`.
    Range {
        low: Box<Expr>,
        high: Box<Expr>,
    },
    /// A subquery.
    Sub(Box<Query>),
}

/// One step of an access.
#[cycle(syntax)]
pub enum Step {
    /// `.name`.
    Name(Text),
    /// `[e]`.
    At(Expr),
    /// `[* FILTER e RETURN e]`, an inline expression over each element.
    Each {
        filter: Option<Expr>,
        project: Option<Expr>,
    },
}

/// One member of an object literal.
#[cycle(syntax)]
pub enum Field {
    /// `name: e`; `name` alone stands for `name: name`.
    Named { name: Text, value: Expr },
    /// `[e]: e`.
    Computed { name: Expr, value: Expr },
}

/// An operator of a chain with what stands right of it.
#[cycle(syntax)]
pub struct Link {
    pub op: BinOp,
    pub right: Expr,
}

/// A whole query or a subquery.
#[cycle(syntax)]
pub struct Query {
    /// The collections that WITH names; empty in a subquery.
    pub with: Seq<Text>,
    pub clauses: Seq<Clause>,
    /// Whether RETURN is followed by DISTINCT.
    pub distinct: bool,
    /// The expression of RETURN.
    pub result: Box<Expr>,
}

/// A clause (High-level operations).
#[cycle(syntax)]
pub enum Clause {
    /// `FOR var IN list`. The parser makes it for every name after IN.
    For { var: Ident, list: Expr },
    /// `FOR var IN collection`, as scoping tells it from a variable.
    ForDocs { var: Ident, collection: Text },
    /// A traversal.
    Traversal(Traversal),
    /// `FILTER e`.
    Filter(Expr),
    /// `LET var = e`; a list of them is one clause each.
    Let { var: Ident, expr: Expr },
    /// `SORT e, ..`.
    Sort(Seq<Key>),
    /// `LIMIT offset, count`.
    Limit { offset: u64, count: u64 },
    /// `COLLECT ..`.
    Collect(Collect),
}

/// One key of SORT.
#[cycle(syntax)]
pub struct Key {
    pub expr: Expr,
    pub descending: bool,
}

/// A variable with the expression that it takes.
#[cycle(syntax)]
pub struct Let {
    pub var: Ident,
    pub expr: Expr,
}

/// `FOR vertex, edge, path IN min..max DIRECTION start collections PRUNE prune OPTIONS options`.
#[cycle(syntax)]
pub struct Traversal {
    pub vertex: Ident,
    pub edge: Option<Ident>,
    pub path: Option<Ident>,
    /// The least depth of a path that is given.
    pub min: u32,
    /// The greatest depth.
    pub max: u32,
    pub direction: Direction,
    pub start: Expr,
    /// The edge collections.
    pub collections: Seq<Text>,
    pub prune: Option<Expr>,
    pub options: Options,
}

/// The options of a traversal. The parser fills `settings`, scoping the three others.
#[cycle(syntax)]
pub struct Options {
    pub settings: Seq<Field>,
    pub edges: UniqueEdges,
    pub vertices: UniqueVertices,
    /// Breadth first in place of depth first.
    pub bfs: bool,
}

/// `COLLECT groups AGGREGATE aggregates INTO into`.
#[cycle(syntax)]
pub struct Collect {
    pub groups: Seq<Let>,
    pub aggregates: Seq<AggregateItem>,
    pub into: Option<Into>,
}

/// `var = NAME(arg)` of AGGREGATE.
#[cycle(syntax)]
pub struct AggregateItem {
    pub var: Ident,
    pub name: Text,
    pub arg: Option<Expr>,
}

/// `INTO var`, `INTO var = what` or `INTO var KEEP keep`.
#[cycle(syntax)]
pub struct Into {
    pub var: Ident,
    pub what: Option<Expr>,
    /// The names of KEEP; empty where there is no KEEP.
    pub keep: Seq<Text>,
}

// A drop that is written, and not derived, is one function here: a derived one is written out in
// each crate that lets a tree go, at each place.

impl Drop for Ident {
    fn drop(self) {
        match self {
            Ident::Name(_) | Ident::Num(_) => {}
        }
    }
}

impl Drop for Expr {
    #[cycle(drop)]
    fn drop(self) {
        match self {
            Expr::Lit(_)
            | Expr::Var(_)
            | Expr::Current
            | Expr::List(_)
            | Expr::Object(_)
            | Expr::Access { of: _, steps: _ }
            | Expr::Call { name: _, args: _ }
            | Expr::Unary { op: _, of: _ }
            | Expr::Chain { first: _, rest: _ }
            | Expr::Quant {
                left: _,
                kind: _,
                op: _,
                right: _,
            }
            | Expr::Cond {
                test: _,
                yes: _,
                no: _,
            }
            | Expr::Range { low: _, high: _ }
            | Expr::Sub(_) => {}
        }
    }
}

impl Drop for Step {
    #[cycle(drop)]
    fn drop(self) {
        match self {
            Step::Name(_)
            | Step::At(_)
            | Step::Each {
                filter: _,
                project: _,
            } => {}
        }
    }
}

impl Drop for Field {
    #[cycle(drop)]
    fn drop(self) {
        match self {
            Field::Named { name: _, value: _ } | Field::Computed { name: _, value: _ } => {}
        }
    }
}

impl Drop for Link {
    #[cycle(drop)]
    fn drop(self) {
        let Link { op: _, right: _ } = self;
    }
}

impl Drop for Query {
    #[cycle(drop)]
    fn drop(self) {
        let Query {
            with: _,
            clauses: _,
            distinct: _,
            result: _,
        } = self;
    }
}

impl Drop for Clause {
    #[cycle(drop)]
    fn drop(self) {
        match self {
            Clause::For { var: _, list: _ }
            | Clause::ForDocs {
                var: _,
                collection: _,
            }
            | Clause::Traversal(_)
            | Clause::Filter(_)
            | Clause::Let { var: _, expr: _ }
            | Clause::Sort(_)
            | Clause::Limit {
                offset: _,
                count: _,
            }
            | Clause::Collect(_) => {}
        }
    }
}

impl Drop for Key {
    #[cycle(drop)]
    fn drop(self) {
        let Key {
            expr: _,
            descending: _,
        } = self;
    }
}

impl Drop for Let {
    #[cycle(drop)]
    fn drop(self) {
        let Let { var: _, expr: _ } = self;
    }
}

impl Drop for Traversal {
    #[cycle(drop)]
    fn drop(self) {
        let Traversal {
            vertex: _,
            edge: _,
            path: _,
            min: _,
            max: _,
            direction: _,
            start: _,
            collections: _,
            prune: _,
            options: _,
        } = self;
    }
}

impl Drop for Options {
    #[cycle(drop)]
    fn drop(self) {
        let Options {
            settings: _,
            edges: _,
            vertices: _,
            bfs: _,
        } = self;
    }
}

impl Drop for Collect {
    #[cycle(drop)]
    fn drop(self) {
        let Collect {
            groups: _,
            aggregates: _,
            into: _,
        } = self;
    }
}

impl Drop for AggregateItem {
    #[cycle(drop)]
    fn drop(self) {
        let AggregateItem {
            var: _,
            name: _,
            arg: _,
        } = self;
    }
}

impl Drop for Into {
    #[cycle(drop)]
    fn drop(self) {
        let Into {
            var: _,
            what: _,
            keep: _,
        } = self;
    }
}
