// Lists as inputs of executors, and a world without documents.

ghost use Rattle.std.specs.Prelude.{◌≡◌, ◌+◌, ◌<◌, ◌≤◌, length, IfOk, OnOk};
ghost use Rattle.aql_exec.specs.Steps.{IsCall, InCall, reported};

use crate::tests::rows::block_of;
use aql_block::{Call, Progress, Step, Tally};
use aql_exec::Surroundings;
use aql_plan::Facts;
use aql_value::{OutOfMemory, Seq};
use std::alloc::Global;

#[derive(Drop)]
pub struct Still {
    facts: Facts,
}

impl Surroundings for Still {
    ghost use Rattle.std.specs.Prelude.{[]};
    ghost use Rattle.aql_exec.specs.Lines.{no_line};

    ghost stock = { λ s. record { facts = s.facts; db = [] } };

    ghost counted = { λ _. record { scanned_full = 0; scanned_index = 0; filtered = 0 } };

    ghost links = { λ _. 0 };

    ghost flight = { λ _ _. no_line };

    ghost deliveries = { λ _. record { picks = []; left = 0 } };

    ghost batch = { λ _. 10000 };
}

impl Still {
    pub fn new(alloc: Global) -> Still {
        Still {
            facts: Facts {
                servers: 0,
                collections: Seq::new(alloc),
            },
        }
    }
}

// A list as an input: the numbers under a variable. Each row that it gives is counted as a document
// of an index, and none that it skips. Where it waits, it says so with every other step, whose rows
// come all the same.
#[derive(Drop)]
pub struct Source {
    var: u32,
    numbers: Vec<i64>,
    at: usize,
    waits: bool,
    waited: bool,
    ghost within: { at ≤ length numbers.items },
}

impl Source {
    pub fn new(var: u32, numbers: Vec<i64>, waits: bool) -> Source {
        Source {
            var,
            numbers,
            at: 0,
            waits,
            waited: false,
        }
    }

    // Begins again with these numbers.
    pub fn begin(&mut self, numbers: Vec<i64>) {
        self.at = 0;
        self.numbers = numbers;
    }

    pub fn step(&mut self, alloc: Global, ask: Call, tally: &mut Tally) -> Result<Step, OutOfMemory>
        requires { IsCall ask }
        ensures bounds { IfOk result (λ step. InCall ask step) }
        ensures more { IfOk result (λ step. step.progress ≡ Progress.HasMore → 0 < reported step) }
    {
        let left = (self.numbers.len() - self.at) as u64;
        let skipped = ask.offset.min(left);
        let wanted = if skipped == ask.offset { ask.soft } else { 0 };
        let count = wanted.min(left - skipped);
        let from = self.at + skipped as usize;
        let end = from + count as usize;
        let block = block_of(alloc, self.var, &self.numbers[from..end])?;
        tally.add_indexed(count);
        if end == self.at {
            return Ok(Step {
                skipped,
                block,
                progress: Progress::Done,
            });
        }
        self.at = end;
        let progress = self.progress(count == ask.hard);
        Ok(Step {
            skipped,
            block,
            progress,
        })
    }

    // How things stand, where all that was wanted has come or not.
    fn progress(&mut self, all: bool) -> Progress {
        if all || self.at == self.numbers.len() {
            return Progress::Done;
        }
        if self.waits {
            self.waited = !self.waited;
            if self.waited {
                return Progress::Waiting;
            }
        }
        Progress::HasMore
    }
}
