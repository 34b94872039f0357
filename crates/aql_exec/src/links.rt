//! Messages between servers: a world whose messages are delivered one at a time, and what executors
//! and feeds with links do with them.

ghost use Rattle.std.specs.Prelude.{◌≡◌, ℕ, ◌<◌, ◌≤◌, ◌⊎◌, List, [], length, IfOk, OnOk};
ghost use Rattle.std.specs.Prelude.{MatchOption, Bool, true, false};
ghost use Rattle.aql_block.specs.declared.calls.Call.{Call};
ghost use Rattle.aql_exec.specs.Rests.{Counts, Exact, Within, Rest, Prefixed};
ghost use Rattle.aql_exec.specs.Rising.{IsExact, Rises};
ghost use Rattle.aql_exec.specs.Steps.{IsCall};
ghost use Rattle.aql_exec.specs.Operators.{OperatorTree, IsTree, IsOperator, ports, exact_at, exact_tree};
ghost use Rattle.aql_exec.specs.Lines.{Flying, Next, no_line, with_message};
ghost use Rattle.aql_exec.specs.Links.{Taken, TakenAt, Delivers};
ghost use Rattle.aql_exec.specs.Promises.{SameNode, Beside};

use crate::feed::{Executor, Feed};
use crate::surroundings::Surroundings;
use crate::turns::Message;
use aql_block::{Call, Tally};
use aql_value::OutOfMemory;
use std::alloc::Global;

/// A message that was taken off its link.
#[derive(Drop)]
pub struct Delivered {
    pub link: u64,
    pub message: Message,
}

/// A world whose messages are taken one at a time.
pub trait Mail: Surroundings {
    /// the messages in flight, oldest first
    ghost queue: { Self → List Flying };

    /// How many messages are in flight.
    fn in_flight(&self) -> u64
        ensures { result ≡ length (queue self.now) };

    /// Takes the message at a place among those in flight.
    fn deliver(&mut self, place: u64) -> Option<Delivered>
        requires { place < length (queue self.old) }
        ensures { MatchOption result ⊥ (λ d.
            TakenAt place (queue self.old) (queue self.new) d.link d.message
            × Delivers (length (queue self.old)) place
            (Self.deliveries self.old) (Self.deliveries self.new)
            × Taken Self.Surroundings self.old self.new d.link d.message) };

    /// where a message is on a link, one is in flight
    ghost some_flies: { (w : Self) (l : ℕ) → 0 < length (Self.flight w l).flying
        → 0 < length (queue w) };
}

/// A world in which messages go out on links. What is said on one changes no other, not even one
/// that is not made yet.
pub trait Wires: Surroundings {
    /// Makes a link, and says this on it.
    fn first(&mut self, message: Message) -> Result<u64, OutOfMemory>
        requires { Next (Self.batch self.old) no_line.talk message }
        ensures world { Beside Self.Surroundings (λ _. ⊥) self.old self.new }
        ensures counted { Self.counted self.new ≡ Self.counted self.old }
        ensures unused { IfOk result (λ l. (Self.links self.old ≤ l)
            × (l < Self.links self.new) × (Self.flight self.old l ≡ no_line)) }
        ensures sent { IfOk result
            (λ l. Self.flight self.new l ≡ with_message no_line message) }
        ensures others { IfOk result
            (λ l. (j : ℕ) → (j ≡ l → ⊥) → Self.flight self.new j ≡ Self.flight self.old j) };

    /// Says this on a link that has nothing in flight.
    fn send(&mut self, link: u64, message: Message) -> Result<(), OutOfMemory>
        requires link { link < Self.links self.old }
        requires free { (Self.flight self.old link).flying ≡ [] }
        requires next { Next (Self.batch self.old) (Self.flight self.old link).talk message }
        ensures world { Beside Self.Surroundings (λ l. l ≡ link) self.old self.new }
        ensures counted { Self.counted self.new ≡ Self.counted self.old }
        ensures links { Self.links self.new ≡ Self.links self.old }
        ensures sent { OnOk result (Self.flight self.new link
            ≡ with_message (Self.flight self.old link) message) }
        ensures others { OnOk result
            ((j : ℕ) → (j ≡ link → ⊥) → Self.flight self.new j ≡ Self.flight self.old j) };
}

/// Picks the message that is delivered next.
pub trait Picker {
    /// which place may be picked among so many, and what is picked after that
    ghost picks: { Self → ℕ → ℕ → Self → Type 0 };

    fn pick(&mut self, n: u64) -> u64
        requires { 0 < n }
        ensures within { result < n }
        ensures picked { picks self.old n result self.new };
}

/// An executor that may own a link.
pub trait Wired<W: Surroundings>: Executor<W> {
    /// it received an ask that it has not answered
    ghost serves: { Self → Bool };

    /// whether this link is its own
    fn owns(&self, link: u64) -> bool
        ensures { (result ≡ true → Self.ours self.now link)
            × (result ≡ false → Self.ours self.now link → ⊥) };

    /// this input was begun
    fn begun(&self, input: u32) -> bool
        ensures { result ≡ Self.started self.now input };

    /// the ask that it serves
    fn received(&self) -> Option<Call>
        requires { (w : W) × Self.valid self.now w }
        ensures { MatchOption result (serves self.now ≡ false)
            (λ c. (serves self.now ≡ true) × IsCall c × (c.offset ≡ 0)
            × ((w : W) → Self.valid self.now w → c.soft ≤ W.batch w)) };

    /// a message that was taken off a link; of one of its own it takes what it says
    fn deliver(
        &mut self,
        alloc: Global,
        world: &mut W,
        tally: &mut Tally,
        link: u64,
        message: Message,
    ) -> Result<(), OutOfMemory>
        requires taken { (w : W) × Self.valid self.old w
            × Taken W.Surroundings w world.old link message }
        requires node { IsOperator (W.stock world.old).facts (Self.node self.old) }
        ensures node { SameNode (Self.node self.old) (Self.node self.new)
            (Self.full self.old) (Self.full self.new)
            (Self.row_cost self.old) (Self.row_cost self.new) }
        ensures world { Beside W.Surroundings (Self.ours self.old) world.old world.new }
        ensures ours { OnOk result
            ((l : ℕ) → Self.ours self.new l → Self.ours self.old l ⊎ (W.links world.old ≤ l)) }
        ensures valid { OnOk result (Self.ours self.old link → Self.valid self.new world.new) }
        ensures inputs { OnOk result ((k : ℕ) → (Self.started self.new k ≡ Self.started self.old k)
            × (Self.ended self.new k ≡ Self.ended self.old k)
            × (Self.unreported self.new k ≡ Self.unreported self.old k)
            × (Self.waited self.new k → Self.waited self.old k)
            × (Self.waited self.old k → Self.waited self.new k)) }
        ensures asks { OnOk result
            ((k : ℕ) (c : Call) → Self.asks self.new k c → Self.asks self.old k c) }
        ensures may { OnOk result
            ((p : ℕ) (c : Call) → Self.may self.old p c → Self.may self.new p c) }
        ensures busy { OnOk result (Self.busy self.new → Self.busy self.old) }
        ensures undisturbed { OnOk result (Self.ours self.old link → (w : W) → Self.valid self.old w
            → Taken W.Surroundings w world.old link message → (d : Counts)
            × Rises W.Surroundings (IsExact (exact_at (Self.node self.old)))
            tally.old w tally.new world.new d
            × ((e : Exact) → Within e (exact_at (Self.node self.old))
            → (p : ℕ) (body : OperatorTree) (ins : ℕ → Rest) (r : Rest)
            → Self.gives self.new world.new p body ins r → (b : Rest) × Prefixed e [] d r b
            × Self.gives self.old w p body ins b)) }
        ensures budget { OnOk result (Self.ours self.old link → (w : W) → Self.valid self.old w
            → Taken W.Surroundings w world.old link message → (f : ℕ)
            → Self.budget self.new world.new f ≤ Self.budget self.old w f) };

    /// one that does not serve is not stuck
    ghost stuck_serves: { (s : Self) (k : ℕ) → Self.stuck s k → serves s ≡ true };

    /// what serves may go on at port 1
    ghost may_serve: { (s : Self) (c : Call) → serves s ≡ true → Self.may s 1 c };

    ghost serves_port: { (s : Self) → serves s ≡ true → 1 < ports (Self.node s) };
}

/// A feed whose links take deliveries.
pub trait Delivers<W: Surroundings>: Feed<W> {
    fn owns(&self, link: u64) -> bool
        ensures { (result ≡ true → Self.ours self.now link)
            × (result ≡ false → Self.ours self.now link → ⊥) };

    fn deliver(
        &mut self,
        alloc: Global,
        world: &mut W,
        tally: &mut Tally,
        link: u64,
        message: Message,
    ) -> Result<(), OutOfMemory>
        requires taken { (w : W) × Self.valid self.old w
            × Taken W.Surroundings w world.old link message }
        requires ours { Self.ours self.old link }
        requires plan { IsTree (W.stock world.old).facts (Self.plan self.old) }
        ensures plan { Self.plan self.new ≡ Self.plan self.old }
        ensures full { Self.full self.new ≡ Self.full self.old }
        ensures world { Beside W.Surroundings (Self.ours self.old) world.old world.new }
        ensures ours { OnOk result
            ((l : ℕ) → Self.ours self.new l → Self.ours self.old l ⊎ (W.links world.old ≤ l)) }
        ensures valid { OnOk result (Self.valid self.new world.new) }
        ensures may { OnOk result ((c : Call) → Self.may self.old c → Self.may self.new c) }
        ensures undisturbed { OnOk result ((w : W) → Self.valid self.old w
            → Taken W.Surroundings w world.old link message → (d : Counts)
            × Rises W.Surroundings (IsExact (exact_tree (Self.plan self.old)))
            tally.old w tally.new world.new d
            × ((r : Rest) → Self.rests self.new world.new r → (b : Rest)
            × Prefixed (exact_tree (Self.plan self.old)) [] d r b × Self.rests self.old w b)) }
        ensures budget { OnOk result ((w : W) → Self.valid self.old w
            → Taken W.Surroundings w world.old link message
            → Self.budget self.new world.new ≤ Self.budget self.old w) };
}
