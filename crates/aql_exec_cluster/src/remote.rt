//! A link: its asking end gives the rows that its serving end takes of the input.

ghost use Rattle.std.specs.Prelude.{◌≡◌, ℕ, ◌+◌, ◌<◌, ◌≤◌, ◌⊎◌, ◌++◌, List, [], length, Some};
ghost use Rattle.std.specs.Prelude.{true, false, cond, IfOk, OnOk};
ghost use mathlib.Core.Bool.{false≢true};
ghost use Rattle.aql_meaning.specs.Row as meaning;
ghost use Rattle.aql_block.specs.declared.calls.Call.{Call};
ghost use Rattle.aql_block.specs.declared.calls.Progress.{Progress};
ghost use Rattle.aql_block.specs.declared.tally.Tally.{Tally};
ghost use Rattle.aql_block.specs.Tables.{rows_of};
ghost use Rattle.aql_exec.specs.Rising.{Rises};
ghost use Rattle.aql_exec.specs.Steps.{IsCall, InCall, given, reported};
ghost use Rattle.aql_exec.specs.Lines.{Next, IsAsk, with_message};
ghost use Rattle.aql_exec.specs.Promises.{Beside};
ghost use Rattle.aql_exec.specs.Operators.{Remote, is_first, on_this};
ghost use Rattle.aql_exec_cluster.specs.Remotes.{on_link, unlinked, ThisLink, kept, opens};
ghost use Rattle.aql_exec_cluster.specs.Remotes.{serves_of, RemoteIs};

use aql_block::{Block, Call, Progress, Row, Step, Tally};
use aql_exec::{Executor, Message, Turn, Wired, Wires, nothing, take_front};
use aql_value::OutOfMemory;
use std::alloc::Global;
use std::mem;

/// How far an ask has come.
#[derive(Clone, Copy, Debug)]
pub enum Stage {
    /// none is out
    Idle,
    /// it is on its way
    Sent,
    /// it was received, and has no reply yet
    Serving(Call),
    /// the reply is on its way
    Replied,
}

/// Both ends of a link: at port 0 it asks over the link and gives what the replies carry, at port 1
/// it serves an ask that was received. It asks for all rows, and skips by itself.
#[derive(Drop)]
pub struct Remote {
    /// the link of this run, once an ask was sent
    link: Option<u64>,
    stage: Stage,
    /// the rows that came with a reply and were not given
    held: Block,
    /// the last reply was Done
    done: bool,
    /// the input is done
    ended: bool,
    /// the rows of the input that are to be replied, and that they are all for this ask
    answer: Block,
    ready: bool,
    /// the last step of the input was waiting, and nothing was given since
    waiting: bool,
    /// port 1 is at work
    working: bool,
}

fn is_done(progress: Progress) -> bool
    ensures done { result ≡ true → progress ≡ Progress.Done }
    ensures so { progress ≡ Progress.Done → result ≡ true }
{
    match progress {
        Progress::Done => true,
        Progress::HasMore => false,
        Progress::Waiting => false,
    }
}

fn is_waiting(progress: Progress) -> bool
    ensures waiting { result ≡ true → progress ≡ Progress.Waiting }
    ensures so { progress ≡ Progress.Waiting → result ≡ true }
{
    match progress {
        Progress::Waiting => true,
        Progress::HasMore => false,
        Progress::Done => false,
    }
}

// Whether a step of the input with so many rows answers an ask.
fn is_ready(progress: Progress, rows: u32) -> bool
    ensures unready { result ≡ false → (rows ≡ 0) × (progress ≡ Progress.Waiting) }
    ensures ready { result ≡ true → progress ≡ Progress.Waiting → 0 < rows }
{
    match progress {
        Progress::Waiting => rows > 0,
        Progress::HasMore => true,
        Progress::Done => true,
    }
}

// How things stand after a reply.
fn progress_of(ended: bool) -> Progress
    ensures done { result ≡ Progress.Done → ended ≡ true }
    ensures so { ended ≡ true → result ≡ Progress.Done }
    ensures ready { result ≡ Progress.Waiting → ⊥ }
{
    if ended {
        Progress::Done
    } else {
        Progress::HasMore
    }
}

// Sends a message on a link, or on a new one.
fn post<W: Wires>(world: &mut W, link: Option<u64>, message: Message) -> Result<u64, OutOfMemory>
    requires link { (l : ℕ) → link ≡ Some l → l < W.links world.old }
    requires free { (on_link link (W.flight world.old)).flying ≡ [] }
    requires next { Next (W.batch world.old) (on_link link (W.flight world.old)).talk message }
    ensures world { Beside W.Surroundings (λ l. link ≡ Some l) world.old world.new }
    ensures counted { W.counted world.new ≡ W.counted world.old }
    ensures link { IfOk result (λ l. (l < W.links world.new) × ThisLink link l
        × ((link ≡ Some l) ⊎ (W.links world.old ≤ l))) }
    ensures before { IfOk result
        (λ l. W.flight world.old l ≡ on_link link (W.flight world.old)) }
    ensures sent { IfOk result (λ l. W.flight world.new l
        ≡ with_message (on_link link (W.flight world.old)) message) }
    ensures others { IfOk result
        (λ l. (j : ℕ) → (j ≡ l → ⊥) → W.flight world.new j ≡ W.flight world.old j) }
{
    match link {
        Some(l) => {
            world.send(l, message)?;
            Ok(l)
        }
        None => {
            let l = world.first(message)?;
            Ok(l)
        }
    }
}

// All rows, so many at a time.
fn all_rows(soft: u64) -> Call
    ensures { result ≡ record { offset = 0; soft = soft; hard = 18446744073709551615 } }
{
    Call {
        offset: 0,
        soft,
        hard: u64::MAX,
    }
}

impl Remote {
    /// A link that is not made yet.
    pub fn new(alloc: Global) -> Remote
        ensures { result ≡ unlinked }
    {
        Remote {
            link: None,
            stage: Stage::Idle,
            held: Block::empty(alloc),
            done: false,
            ended: false,
            answer: Block::empty(alloc),
            ready: false,
            waiting: false,
            working: false,
        }
    }

    /// The link of this run; `None` exactly where it sent no ask.
    pub fn link(&self) -> Option<u64>
        ensures { result ≡ self.now.link }
    {
        self.link
    }

    // The rows that a call wants of those that came.
    fn give(&mut self, alloc: Global, call: Call) -> Result<Step, OutOfMemory>
        requires call { IsCall call }
        requires some { 0 < length (rows_of self.old.held) }
        ensures same { self.new ≡ record self.old { held = self.new.held } }
        ensures rows { IfOk result (λ step. (s : List meaning.Row) × (length s ≡ step.skipped)
            × (rows_of self.old.held ≡ (s ++ given step) ++ rows_of self.new.held)) }
        ensures bounds { IfOk result (λ step. InCall call step) }
        ensures some { IfOk result
            (λ step. (0 < reported step) × (step.progress ≡ Progress.HasMore)) }
    {
        if call.offset > 0 {
            let skipped = take_front(alloc, &mut self.held, call.offset)?;
            return Ok(Step {
                skipped: u64::from(skipped.len()),
                block: Block::empty(alloc),
                progress: Progress::HasMore,
            });
        }
        let block = take_front(alloc, &mut self.held, call.soft)?;
        Ok(Step {
            skipped: 0,
            block,
            progress: Progress::HasMore,
        })
    }

    // Sends an ask for all rows.
    fn ask<W: Wires>(&mut self, world: &mut W, soft: u64) -> Result<(), OutOfMemory>
        requires valid { RemoteIs self.old (on_link self.old.link (W.flight world.old))
            (W.links world.old) (W.batch world.old) }
        requires idle { self.old.stage ≡ Stage.Idle }
        requires none { rows_of self.old.held ≡ [] }
        requires more { self.old.done ≡ false }
        requires ask { IsAsk (W.batch world.old)
            (record { offset = 0; soft = soft; hard = 18446744073709551615 }) }
        requires call { soft ≤ 10000 }
        ensures world { Beside W.Surroundings (λ l. self.old.link ≡ Some l)
            world.old world.new }
        ensures same { OnOk result (self.new
            ≡ record self.old { link = self.new.link; stage = Stage.Sent }) }
        ensures valid { OnOk result (RemoteIs self.new
            (on_link self.new.link (W.flight world.new)) (W.links world.new)
            (W.batch world.new)) }
        ensures link { OnOk result ((l : ℕ) × (self.new.link ≡ Some l) × ThisLink self.old.link l
            × ((self.old.link ≡ Some l) ⊎ (W.links world.old ≤ l))) }
        ensures flies { OnOk result
            (0 < length (on_link self.new.link (W.flight world.new)).flying) }
        ensures kept { OnOk result
            (kept self.new (on_link self.new.link (W.flight world.new)).flying
            ≡ kept self.old (on_link self.old.link (W.flight world.old)).flying) }
        ensures rises { OnOk result ((l : ℕ) → self.new.link ≡ Some l → (t : Tally)
            → Rises W.Surroundings (λ _. Unit {0}) t world.old t world.new
            (on_this l (opens self.old.link) 0 0)) }
    {
        let link = post(world, self.link, Message::Ask(all_rows(soft)))?;
        self.link = Some(link);
        self.stage = Stage::Sent;
        Ok(())
    }

    // Sends the reply to the ask that is served.
    fn reply<W: Wires>(&mut self, alloc: Global, world: &mut W) -> Result<(), OutOfMemory>
        requires valid { RemoteIs self.old (on_link self.old.link (W.flight world.old))
            (W.links world.old) (W.batch world.old) }
        requires serves { serves_of self.old.stage ≡ true }
        requires ready { self.old.ready ≡ true }
        ensures world { Beside W.Surroundings (λ l. self.old.link ≡ Some l)
            world.old world.new }
        ensures same { OnOk result (self.new
            ≡ record self.old { stage = Stage.Replied; answer = self.new.answer }) }
        ensures answer { OnOk result (rows_of self.new.answer ≡ []) }
        ensures valid { OnOk result (RemoteIs self.new
            (on_link self.new.link (W.flight world.new)) (W.links world.new)
            (W.batch world.new)) }
        ensures flies { OnOk result
            (0 < length (on_link self.new.link (W.flight world.new)).flying) }
        ensures kept { OnOk result
            (kept self.new (on_link self.new.link (W.flight world.new)).flying
            ≡ kept self.old (on_link self.old.link (W.flight world.old)).flying) }
        ensures rises { OnOk result ((l : ℕ) × (self.old.link ≡ Some l) × ((t : Tally)
            → Rises W.Surroundings (λ _. Unit {0}) t world.old t world.new
            (on_this l 0 0 (length (rows_of self.old.answer))))) }
    {
        let Some(link) = self.link else {
            unreachable!()
        };
        let block = mem::replace(&mut self.answer, Block::empty(alloc));
        let reply = Step {
            skipped: 0,
            block,
            progress: progress_of(self.ended),
        };
        world.send(link, Message::Reply(reply))?;
        self.stage = Stage::Replied;
        Ok(())
    }
}

impl<W: Wires> Executor<W> for Remote {
    ghost use Rattle.aql_exec_cluster.specs.Remotes.{gives_remote, ended_remote, Asking};
    ghost use Rattle.aql_exec_cluster.specs.Remotes.{asks_remote, budget_remote};
    ghost use Rattle.aql_exec_cluster.specs.laws.Remotes.{some_remote, more_remote, kept_gives};
    ghost use Rattle.aql_exec_cluster.specs.laws.Remotes.{kept_valid, kept_budget, own_link};

    ghost gives = { λ s w p _ ins r.
        gives_remote s (on_link s.link (W.flight w)).flying p (ins 0) r };

    ghost node = { λ _. Remote };

    ghost unreported = { λ _ _. 0 };

    ghost asking = { λ s k c. Asking s k c };

    ghost ended = { λ s k. ended_remote s k };

    ghost started = { λ _ k. is_first k };

    ghost valid = { λ s w.
        RemoteIs s (on_link s.link (W.flight w)) (W.links w) (W.batch w) };

    ghost ours = { λ s l. s.link ≡ Some l };

    ghost waited = { λ s k. (s.waiting ≡ true) × (k ≡ 0) };

    ghost stuck = { λ s k. (k ≡ 0) × (serves_of s.stage ≡ true) × (s.working ≡ false) };

    ghost budget = { λ s w _. budget_remote s (on_link s.link (W.flight w)).flying };

    ghost full = { λ _ _. 1 };

    ghost row_cost = { λ _ _ _. 2 };

    ghost may = { λ _ _ _. Unit {0} };

    ghost asks = { λ s k c. asks_remote s k c };

    ghost waits_left = { λ s. cond s.waiting 0 1 };

    ghost busy = { λ s. s.working ≡ true };

    ghost held = { λ _. 0 };

    fn begin(&mut self, alloc: Global, _start: &Row) -> Result<(), OutOfMemory> {
        *self = Remote::new(alloc);
        Ok(())
    }

    fn turn(
        &mut self,
        alloc: Global,
        port: u32,
        world: &mut W,
        call: Call,
        _tally: &mut Tally,
    ) -> Result<Turn, OutOfMemory> {
        if port > 0 {
            let Stage::Serving(ask) = self.stage else {
                self.waiting = false;
                self.working = false;
                return Ok(Turn::Give(nothing(alloc, Progress::Done)));
            };
            if self.ready {
                self.reply(alloc, world)?;
                self.waiting = false;
                self.working = false;
                return Ok(Turn::Give(nothing(alloc, Progress::Waiting)));
            }
            if self.waiting {
                self.waiting = false;
                self.working = false;
                return Ok(Turn::Give(nothing(alloc, Progress::Waiting)));
            }
            self.working = true;
            return Ok(Turn::Ask {
                input: 0,
                call: all_rows(call.soft.min(ask.soft)),
            });
        }
        self.waiting = false;
        if self.held.len() > 0 {
            let step = self.give(alloc, call)?;
            return Ok(Turn::Give(step));
        }
        if self.done {
            return Ok(Turn::Give(nothing(alloc, Progress::Done)));
        }
        if let Stage::Idle = self.stage {
            self.ask(world, call.soft)?;
            return Ok(Turn::Give(nothing(alloc, Progress::Waiting)));
        }
        Ok(Turn::Give(nothing(alloc, Progress::Waiting)))
    }

    fn take(
        &mut self,
        _alloc: Global,
        _port: u32,
        _input: u32,
        step: Step,
    ) -> Result<(), OutOfMemory> {
        let Step {
            skipped: _,
            block,
            progress,
        } = step;
        self.ended = is_done(progress);
        self.waiting = is_waiting(progress);
        self.ready = is_ready(progress, block.len());
        self.answer = block;
        Ok(())
    }

    ghost some = { λ s w p _ ins _.
        some_remote s (on_link s.link (W.flight w)).flying p (ins 0) };

    ghost more_counts = { λ e s w p _ k d ins ins' r b a _.
        more_remote e s (on_link s.link (W.flight w)).flying p k d ins ins' r b a };

    ghost kept_gives = { λ s w w' _ e p _ ins r.
        kept_gives s (W.flight w) (W.flight w') e p (ins 0) r };

    ghost kept_valid = { λ s w w' _ b n e. kept_valid s (W.flight w) (W.flight w')
        (W.links w) (W.links w') (W.batch w) (W.batch w') b n e };

    ghost kept_budget = { λ s w w' _ e _. kept_budget s (W.flight w) (W.flight w') e };

    ghost own_links = { λ s w v l e.
        own_link s (on_link s.link (W.flight w)) (W.links w) (W.batch w) v l e };

    ghost no_link = { λ _ _ _ e. absurd (false≢true e) };
}

impl<W: Wires> Wired<W> for Remote {
    ghost use Rattle.aql_exec_cluster.specs.laws.Remotes.{two_ports};

    ghost serves = { λ s. serves_of s.stage };

    fn owns(&self, link: u64) -> bool {
        match self.link {
            Some(own) => own == link,
            None => false,
        }
    }

    fn begun(&self, input: u32) -> bool {
        input == 0
    }

    fn received(&self) -> Option<Call> {
        match self.stage {
            Stage::Serving(call) => Some(call),
            Stage::Idle => None,
            Stage::Sent => None,
            Stage::Replied => None,
        }
    }

    fn deliver(
        &mut self,
        _alloc: Global,
        _world: &mut W,
        _tally: &mut Tally,
        _link: u64,
        message: Message,
    ) -> Result<(), OutOfMemory> {
        match message {
            Message::Ask(call) => {
                self.stage = Stage::Serving(call);
                self.ready = false;
                Ok(())
            }
            Message::Reply(step) => {
                let Step {
                    skipped: _,
                    block,
                    progress,
                } = step;
                self.held = block;
                self.done = is_done(progress);
                self.stage = Stage::Idle;
                Ok(())
            }
        }
    }

    ghost stuck_serves = { λ _ _ h. h.1 };

    ghost may_serve = { λ _ _ _. tt {0} };

    ghost serves_port = { λ _ _. two_ports };
}
