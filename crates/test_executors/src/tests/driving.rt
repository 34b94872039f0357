// Executors, turned by hand over lists as their inputs.

ghost use Rattle.std.specs.Prelude.{◌≡◌, ◌≤◌, length, IfOk, IfSome, OnOk};
ghost use Rattle.aql_block.specs.declared.calls.Call.{Call};
ghost use Rattle.aql_exec.specs.Operators.{IsOperator};
ghost use Rattle.aql_exec.specs.Steps.{IsCall, InCall, Follows, given};

use crate::tests::rows::add_values;
use crate::tests::sources::Source;
use aql_block::{Call, Progress, Row, Step, Tally};
use aql_exec::{Executor, Surroundings, Turn};
use aql_value::{Items, OutOfMemory, Value};
use std::alloc::Global;

// More turns than any of the tests takes.
const MANY: u32 = 10_000;

// The numbers from 0 up to that of the variable 1: the rows of the body from this row.
fn numbers_below(alloc: Global, row: &Row) -> Result<Vec<i64>, OutOfMemory> {
    let mut numbers = Vec::new(alloc);
    if let Some(Value::Num(count)) = row.value(1) {
        for number in 0..*count {
            numbers.push(number)?;
        }
    }
    Ok(numbers)
}

// Turns an executor until it answers a call; `None` where it did not answer.
fn answer<W: Surroundings, X: Executor<W>>(
    alloc: Global,
    x: &mut X,
    below: &mut Source,
    body: &mut Source,
    world: &mut W,
    call: Call,
    tally: &mut Tally,
) -> Result<Option<Step>, OutOfMemory>
    requires valid { X.valid x.old world.old }
    requires node { IsOperator (W.stock world.old).facts (X.node x.old) }
    requires call { IsCall call }
    requires batch { call.soft ≤ W.batch world.old }
    requires may { X.may x.old 0 call }
    requires idle { X.busy x.old → ⊥ }
    ensures node { X.node x.new ≡ X.node x.old }
    ensures stock { W.stock world.new ≡ W.stock world.old }
    ensures batch { W.batch world.new ≡ W.batch world.old }
    ensures valid { OnOk result (X.valid x.new world.new) }
    ensures idle { OnOk result (X.busy x.new → ⊥) }
    ensures bounds { IfOk result (λ step. IfSome step (λ step. InCall call step)) }
    ensures may { IfOk result (λ step. IfSome step (λ step. (c : Call) → IsCall c
        → Follows call step.skipped (length (given step)) step.progress c → X.may x.new 0 c)) }
{
    for _turn in 0..MANY {
        match x.turn(alloc, 0, world, call, tally)? {
            Turn::Ask {
                input: at,
                call: ask,
            } => {
                if at == 0 {
                    let step = below.step(alloc, ask, tally)?;
                    x.take(alloc, 0, at, step)?;
                } else {
                    let step = body.step(alloc, ask, tally)?;
                    x.take(alloc, 0, at, step)?;
                }
            }
            Turn::Start { input: _, row } => body.begin(numbers_below(alloc, &row)?),
            Turn::Give(step) => return Ok(Some(step)),
        }
    }
    Ok(None)
}

// What an executor gave: the values of a variable in all rows, and what was counted.
#[derive(Drop)]
pub struct Ran {
    pub values: Items,
    pub tally: Tally,
}

// The start row: 8 under the variable 1.
fn start(alloc: Global) -> Result<Row, OutOfMemory> {
    let mut row = Row::new(alloc);
    row.set(1, Value::Num(8))?;
    Ok(row)
}

// Takes all rows that an executor gives, in steps of at most `batch`, where so many are skipped
// first.
pub fn run<W: Surroundings, X: Executor<W>>(
    alloc: Global,
    x: &mut X,
    below: &mut Source,
    world: &mut W,
    offset: u64,
    batch: u64,
    var: u32,
) -> Result<Ran, OutOfMemory>
    requires node { IsOperator (W.stock world.old).facts (X.node x.old) }
    requires batch { (1 ≤ batch) × (batch ≤ 10000) × (batch ≤ W.batch world.old) }
{
    let mut body = Source::new(0, Vec::new(alloc), false);
    let mut tally = Tally::new();
    let mut values = Items::new(alloc);
    let mut offset = offset;
    x.begin(alloc, &start(alloc)?)?;
    for _call in 0..MANY {
        let call = Call {
            offset,
            soft: batch,
            hard: u64::MAX,
        };
        let Some(step) = answer(alloc, x, below, &mut body, world, call, &mut tally)? else {
            return Ok(Ran { values, tally });
        };
        let Step {
            skipped,
            block,
            progress,
        } = step;
        offset -= skipped;
        add_values(block, var, &mut values)?;
        if matches!(progress, Progress::Done) {
            return Ok(Ran { values, tally });
        }
    }
    Ok(Ran { values, tally })
}
