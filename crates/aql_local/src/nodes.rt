//! The executors of the nodes that own no link.

ghost use Rattle.std.specs.Prelude.{◌≡◌, ◌+◌, ◌<◌, ◌^◌, false, IfOk};
ghost use Rattle.aql_tree.specs.declared.syntax.Ident.TheVariants.{Num};
ghost use Rattle.aql_tree.specs.View.{tree};
ghost use Rattle.aql_plan.specs.Plan as plan;
ghost use Rattle.aql_exec.specs.Operators.{StartRow, NoRows, OnRows, WithBody};

use crate::World;
use crate::transforms::NodeTransform;
use aql_engine::Choice;
use aql_exec::{
    Calculation, Executor, Let, Limit, Mapped, NoResults, Results, Return, Singleton, Stream,
    Transform,
};
use aql_exec_rows::Subquery;
use aql_tree::Expr;
use std::alloc::Global;

/// The executors without an input.
type Leaf = Choice<Singleton, NoResults>;

/// Those that make one row of each, and LIMIT.
type RowWise = Choice<Choice<Calculation, Return>, Limit>;

/// Those over one input that work by a transform, and a subquery.
type Other = Choice<Stream<NodeTransform>, Subquery>;

/// The executor of any node that owns no link.
pub type UnlinkedNode = Choice<Choice<Leaf, RowWise>, Other>;

/// The start row.
pub fn start_row() -> UnlinkedNode
    ensures { ⟦<UnlinkedNode as Executor<World>>⟧.node result ≡ StartRow }
{
    Choice::First(Choice::First(Choice::First(Singleton::new())))
}

/// No row.
pub fn no_results() -> UnlinkedNode
    ensures { ⟦<UnlinkedNode as Executor<World>>⟧.node result ≡ NoRows }
{
    Choice::First(Choice::First(Choice::Second(NoResults)))
}

fn row_wise(executor: RowWise) -> UnlinkedNode
    ensures { ⟦<UnlinkedNode as Executor<World>>⟧.node result
        ≡ ⟦<RowWise as Executor<World>>⟧.node executor }
{
    Choice::First(Choice::Second(executor))
}

/// By a transform.
pub fn by_transform(transform: NodeTransform) -> UnlinkedNode
    ensures { ⟦<UnlinkedNode as Executor<World>>⟧.node result
        ≡ OnRows (⟦<NodeTransform as Transform<World>>⟧.node transform) }
{
    Choice::Second(Choice::First(Stream::new(transform)))
}

/// LET.
pub fn calculation(alloc: Global, var: u32, expr: Expr) -> UnlinkedNode
    ensures { ⟦<UnlinkedNode as Executor<World>>⟧.node result
        ≡ OnRows (plan.Calculation (Num var) (tree expr)) }
{
    let executor = Mapped::new(alloc, Let { var, expr });
    row_wise(Choice::First(Choice::First(executor)))
}

/// RETURN without DISTINCT.
pub fn results(alloc: Global, expr: Expr) -> UnlinkedNode
    ensures { ⟦<UnlinkedNode as Executor<World>>⟧.node result
        ≡ OnRows (plan.Return false (tree expr)) }
{
    let executor = Mapped::new(alloc, Results { expr });
    row_wise(Choice::First(Choice::Second(executor)))
}

/// LIMIT.
pub fn limit(alloc: Global, offset: u64, count: u64) -> UnlinkedNode
    requires { offset + count < 2 ^ 64 }
    ensures { ⟦<UnlinkedNode as Executor<World>>⟧.node result
        ≡ OnRows (plan.Limit offset count) }
{
    row_wise(Choice::Second(Limit::new(alloc, offset, count)))
}

/// A subquery.
pub fn subquery(alloc: Global, var: u32) -> UnlinkedNode
    ensures { ⟦<UnlinkedNode as Executor<World>>⟧.node result ≡ WithBody (Num var) }
{
    Choice::Second(Choice::Second(Subquery::new(alloc, var)))
}
