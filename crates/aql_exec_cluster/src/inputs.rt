//! How the inputs of a Gather stand.

ghost use Rattle.std.specs.Prelude.{◌≡◌, ℕ, ◌<◌, length, map, IfOk, MatchOption};
ghost use Rattle.aql_exec_cluster.specs.Standing.{standing, after_answer};

use aql_block::Progress;
use aql_value::OutOfMemory;
use std::alloc::Global;

/// Of each input how it stood after its last step. One may be asked that has more; one that waits
/// may be asked again after the next answer.
#[derive(Drop)]
pub(crate) struct Inputs {
    pub(crate) progress: Vec<Progress>,
}

impl Inputs {
    /// So many inputs, none of which was asked.
    pub(crate) fn new(alloc: Global, count: u32) -> Result<Inputs, OutOfMemory>
        ensures { IfOk result (λ inputs. length inputs.progress.items ≡ count) }
    {
        let mut progress = Vec::with_capacity(alloc, count as usize)?;
        for _input in 0..count {
            progress.push(Progress::HasMore)?;
        }
        Ok(Inputs { progress })
    }

    /// None was asked.
    pub(crate) fn begin(&mut self)
        ensures count { length self.new.progress.items ≡ length self.old.progress.items }
        ensures ready { (k : ℕ) → standing self.new.progress.items k ≡ Progress.HasMore }
    {
        for input in 0..self.progress.len() {
            self.progress[input] = Progress::HasMore;
        }
    }

    /// Those that waited may be asked again.
    pub(crate) fn wake(&mut self)
        ensures { self.new.progress.items ≡ map after_answer self.old.progress.items }
    {
        for input in 0..self.progress.len() {
            self.progress[input] = awake(self.progress[input]);
        }
    }

    /// How many inputs there are.
    pub(crate) fn len(&self) -> usize
        ensures { result ≡ length self.now.progress.items }
    {
        self.progress.len()
    }

    /// How the input at a place stands.
    pub(crate) fn at(&self, input: usize) -> Progress
        requires { input < length self.now.progress.items }
        ensures { result ≡ standing self.now.progress.items input }
    {
        self.progress[input]
    }

    /// The first that may be asked.
    pub(crate) fn first_ready(&self) -> Option<usize>
        ensures { MatchOption result
            ((k : ℕ) → standing self.now.progress.items k ≡ Progress.HasMore
            → k < length self.now.progress.items → ⊥)
            (λ k. (k < length self.now.progress.items)
            × (standing self.now.progress.items k ≡ Progress.HasMore)) }
    {
        for input in 0..self.progress.len() {
            if matches!(self.progress[input], Progress::HasMore) {
                return Some(input);
            }
        }
        None
    }

    /// The first that waits.
    pub(crate) fn first_waiting(&self) -> Option<usize>
        ensures { MatchOption result
            ((k : ℕ) → standing self.now.progress.items k ≡ Progress.Waiting → ⊥)
            (λ k. (k < length self.now.progress.items)
            × (standing self.now.progress.items k ≡ Progress.Waiting)) }
    {
        for input in 0..self.progress.len() {
            if matches!(self.progress[input], Progress::Waiting) {
                return Some(input);
            }
        }
        None
    }
}

// How an input stands after an answer.
fn awake(progress: Progress) -> Progress
    ensures { result ≡ after_answer progress }
{
    match progress {
        Progress::Waiting => Progress::HasMore,
        Progress::HasMore => Progress::HasMore,
        Progress::Done => Progress::Done,
    }
}
