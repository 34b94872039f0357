//! LET of a subquery: each row with the array of what a body gives from it.

ghost use Rattle.std.specs.Prelude.{◌≡◌, ◌+◌, ◌≤◌, ◌++◌, List, length, map, cond, option_map};
ghost use Rattle.std.specs.Prelude.{slice_get, IfOk, OnOk};
ghost use Rattle.aql_value.specs.View.{datums_in};
ghost use Rattle.aql_tree.specs.declared.syntax.Ident.TheVariants.{Num};
ghost use Rattle.aql_meaning.specs.Row as meaning;
ghost use Rattle.aql_meaning.specs.Clauses.{with_values};
ghost use Rattle.aql_plan.specs.Runs.{result_of};
ghost use Rattle.aql_block.specs.Rows.{row_of};
ghost use Rattle.aql_block.specs.Tables.{rows_of};
ghost use Rattle.aql_exec.specs.Steps.{IsCall, InCall, given, reported};
ghost use Rattle.aql_exec.specs.Operators.{WithBody};

use aql_block::{Block, Call, Progress, Row, Step, Tally};
use aql_exec::{Executor, Surroundings, Turn, Unlinked, nothing, take_front, variable_values};
use aql_value::{Items, OutOfMemory, Value};
use std::alloc::Global;
use std::mem;

/// Sets a variable in each row of its input to the array of what its body gives from that row. The
/// body is run once for each row, one after another. It holds at most one block of input rows.
#[derive(Drop)]
pub struct Subquery {
    var: u32,
    /// the rows of the input that were not given yet
    held: Block,
    /// the arrays of the first of them, whose bodies ended
    values: Vec<Value>,
    /// the body of the next of them runs; what it gave so far
    inside: bool,
    results: Items,
    /// a body was begun, and the last that was is done
    begun: bool,
    body_done: bool,
    /// the input is done
    done: bool,
    /// the last step that came was waiting, and nothing was answered since
    waiting: bool,
}

impl Subquery {
    /// With this variable; it gives nothing before it begins.
    pub fn new(alloc: Global, var: u32) -> Subquery
        ensures { result.var ≡ var }
    {
        Subquery {
            var,
            held: Block::empty(alloc),
            values: Vec::new(alloc),
            inside: false,
            results: Items::new(alloc),
            begun: false,
            body_done: false,
            done: false,
            waiting: false,
        }
    }
}

// A copy of the row at a place; `None` exactly where there is no such row.
fn row_at(alloc: Global, block: &Block, at: usize) -> Result<Option<Row>, OutOfMemory>
    ensures { IfOk result (λ row. option_map row_of row ≡ slice_get (rows_of block.now) at) }
{
    let count = block.len() as usize;
    if at >= count {
        return Ok(None);
    }
    match block.row(at as u32) {
        Some(row) => Ok(Some(row.to_row(alloc)?)),
        None => Ok(None),
    }
}

/// Adds the results that rows of a body stand for: the values of the variable 0, null where a row
/// has none.
pub fn add_results(alloc: Global, block: Block, results: &mut Items) -> Result<(), OutOfMemory>
    ensures { OnOk result (results.new ≡ results.old ++ map result_of (rows_of block)) }
{
    let values = variable_values(alloc, 0, block)?;
    add_values(values, results)
}

fn add_values(values: Vec<Value>, results: &mut Items) -> Result<(), OutOfMemory>
    ensures { OnOk result (results.new ≡ results.old ++ datums_in values.items) }
{
    results.reserve(values.len())?;
    for value in values {
        results.push(value)?;
    }
    Ok(())
}

// The next of the rows that are ready, with their values, or a skip of some of them.
fn give(
    alloc: Global,
    var: u32,
    held: &mut Block,
    values: &mut Vec<Value>,
    call: Call,
) -> Result<Step, OutOfMemory>
    requires call { IsCall call }
    requires some { 1 ≤ length (rows_of held.old) }
    requires ready { length values.old.items ≡ length (rows_of held.old) }
    ensures ready { OnOk result (length values.new.items ≡ length (rows_of held.new)) }
    ensures bounds { IfOk result (λ step. InCall call step) }
    ensures progress { IfOk result (λ step. step.progress ≡ Progress.HasMore) }
    ensures more { IfOk result (λ step. 1 ≤ reported step) }
    ensures reported { IfOk result
        (λ step. length values.new.items + reported step ≡ length values.old.items) }
    ensures rows { IfOk result (λ step. (skipped : List meaning.Row)
        × (length skipped ≡ step.skipped)
        × (with_values (Num var) (rows_of held.old) (datums_in values.old.items)
        ≡ (skipped ++ given step)
        ++ with_values (Num var) (rows_of held.new) (datums_in values.new.items))) }
{
    let skips = call.offset > 0;
    let most = if skips { call.offset } else { call.soft };
    let mut block = take_front(alloc, held, most)?;
    let rest = values.split_off(block.len() as usize)?;
    let front = mem::replace(values, rest);
    if skips {
        return Ok(Step {
            skipped: u64::from(block.len()),
            block: Block::empty(alloc),
            progress: Progress::HasMore,
        });
    }
    block.set(var, front)?;
    Ok(Step {
        skipped: 0,
        block,
        progress: Progress::HasMore,
    })
}

impl<W: Surroundings> Executor<W> for Subquery {
    ghost use Rattle.aql_exec_rows.specs.Subqueries.{gives_subquery, started_subquery};
    ghost use Rattle.aql_exec_rows.specs.Subqueries.{ended_subquery, waited_subquery};
    ghost use Rattle.aql_exec_rows.specs.Subqueries.{AsksSubquery, asks_subquery};
    ghost use Rattle.aql_exec_rows.specs.Subqueries.{SubqueryIs, budget_subquery, row_cost_subquery};
    ghost use Rattle.aql_exec_rows.specs.laws.SomeArrays.{some_subquery, more_subquery};
    ghost use Rattle.std.proofs.Math.Nat.{le_refl};

    ghost gives = { λ s w _ body ins r. gives_subquery s (W.stock w) body ins r };

    ghost node = { λ s. WithBody (Num s.var) };

    ghost unreported = { λ _ _. 0 };

    ghost asking = { λ s k ask. AsksSubquery s k ask };

    ghost ended = { λ s k. ended_subquery s k };

    ghost started = { λ s k. started_subquery s k };

    ghost valid = { λ s _. SubqueryIs s };

    ghost ours = { λ _ _. ⊥ };

    ghost waited = { λ s k. waited_subquery s k };

    ghost stuck = { λ _ _. ⊥ };

    ghost budget = { λ s _ f. budget_subquery s f };

    ghost full = { λ _ _. 1 };

    ghost row_cost = { λ _ k f. row_cost_subquery k f };

    ghost may = { λ _ _ _. Unit {0} };

    ghost asks = { λ s k c. asks_subquery s k c };

    ghost waits_left = { λ s. cond s.waiting 0 1 };

    ghost busy = { λ _. ⊥ };

    ghost held = { λ _. 0 };

    fn begin(&mut self, alloc: Global, _start: &Row) -> Result<(), OutOfMemory> {
        self.held = Block::empty(alloc);
        self.values.clear();
        self.inside = false;
        self.begun = false;
        self.body_done = false;
        self.done = false;
        self.waiting = false;
        Ok(())
    }

    fn turn(
        &mut self,
        alloc: Global,
        _port: u32,
        _world: &mut W,
        call: Call,
        _tally: &mut Tally,
    ) -> Result<Turn, OutOfMemory> {
        if self.waiting {
            self.waiting = false;
            return Ok(Turn::Give(nothing(alloc, Progress::Waiting)));
        }
        let ask = Call {
            offset: 0,
            soft: call.soft,
            hard: u64::MAX,
        };
        if self.inside {
            return Ok(Turn::Ask {
                input: 1,
                call: ask,
            });
        }
        if let Some(row) = row_at(alloc, &self.held, self.values.len())? {
            self.inside = true;
            self.results = Items::new(alloc);
            self.begun = true;
            self.body_done = false;
            return Ok(Turn::Start { input: 1, row });
        }
        if self.values.len() > 0 {
            let step = give(alloc, self.var, &mut self.held, &mut self.values, call)?;
            return Ok(Turn::Give(step));
        }
        if self.done {
            return Ok(Turn::Give(nothing(alloc, Progress::Done)));
        }
        Ok(Turn::Ask {
            input: 0,
            call: ask,
        })
    }

    fn take(
        &mut self,
        alloc: Global,
        _port: u32,
        input: u32,
        step: Step,
    ) -> Result<(), OutOfMemory> {
        let Step {
            skipped: _,
            block,
            progress,
        } = step;
        if input == 0 {
            self.held = block;
            match progress {
                Progress::Waiting => self.waiting = true,
                Progress::HasMore => {}
                Progress::Done => self.done = true,
            }
            return Ok(());
        }
        add_results(alloc, block, &mut self.results)?;
        match progress {
            Progress::Waiting => self.waiting = true,
            Progress::HasMore => {}
            Progress::Done => {
                let results = mem::replace(&mut self.results, Items::new(alloc));
                self.values.push(Value::List(results))?;
                self.inside = false;
                self.body_done = true;
            }
        }
        Ok(())
    }

    ghost some = { λ s w _ body ins v. some_subquery s (W.stock w) body ins v };

    ghost more_counts = { λ v s w _ body k d ins ins' r e a o h.
        more_subquery v s (W.stock w) body k d ins ins' r e a o h };

    ghost kept_gives = { λ _ _ _ e _ _ _ _ _ h. rw (← e) h };

    ghost kept_valid = { λ _ _ _ _ _ _ _ h. h };

    ghost kept_budget = { λ s _ _ _ _ f. le_refl (budget_subquery s f) };

    ghost own_links = { λ _ _ _ _ h. absurd h };

    ghost no_link = { λ _ _ h. absurd h };
}

impl<W: Surroundings> Unlinked<W> for Subquery {
    fn begun(&self, input: u32) -> bool {
        match input {
            0 => true,
            1 => self.begun,
            _ => false,
        }
    }

    ghost no_links = { λ _ _ h. absurd h };

    ghost not_stuck = { λ _ _ h. absurd h };
}
