//! The laws of feeds and executors. A feed gives rows, a call at a time; an executor makes rows of
//! those of its inputs and holds none of them: whoever drives it pulls an input where it asks, and
//! hands the step to it.

ghost use Rattle.std.specs.Prelude.{◌≡◌, ℕ, ◌+◌, ◌*◌, ◌<◌, ◌≤◌, ◌++◌, ◌⊎◌, List, []};
ghost use Rattle.std.specs.Prelude.{length, IfOk, OnOk, Bool, true, false};
ghost use Rattle.aql_meaning.specs.Row as meaning;
ghost use Rattle.aql_plan.specs.declared.facts.Facts.{Facts};
ghost use Rattle.aql_block.specs.declared.calls.Call.{Call};
ghost use Rattle.aql_block.specs.Rows.{row_of};
ghost use Rattle.aql_exec.specs.Rests.{Counter, Counts, Exact, Within, Rest, with_rows, Prefixed};
ghost use Rattle.aql_exec.specs.Rests.{Over, Ends, EndsUnreported};
ghost use Rattle.aql_exec.specs.Rising.{ExactFor, Rises};
ghost use Rattle.aql_exec.specs.Steps.{IsCall, MatchTurn, OnGive, given, reported, InCall};
ghost use Rattle.aql_exec.specs.Steps.{unless_waiting, weight, Continues, Follows};
ghost use Rattle.aql_exec.specs.Operators.{Operator, OperatorTree, Makes, Produces, exact_at, exact_tree};
ghost use Rattle.aql_exec.specs.Operators.{IsTree, IsOperator, arity, ports, begins, drains, OfInputs, is_first};
ghost use Rattle.aql_exec.specs.Promises.{SameNode, Begun, Beside};
ghost use Rattle.aql_exec.specs.Reads.{hands_on, is_unlinked, ReadsLittle, reads_little, ReadInStep};

use crate::surroundings::Surroundings;
use crate::turns::Turn;
use aql_block::{Call, Progress, Row, Step, Tally};
use aql_value::OutOfMemory;
use std::alloc::Global;

/// What gives the rows of a plan.
pub trait Feed<W: Surroundings> {
    /// which rests are possible
    ghost rests: { Self → W → Rest → Type 0 };

    /// the plan that it runs
    ghost plan: { Self → OperatorTree };

    /// what is true of it between two calls
    ghost valid: { Self → W → Type 0 };

    /// a bound on the rows that may still come
    ghost budget: { Self → W → ℕ };

    /// a bound on the budget after a restart
    ghost full: { Self → ℕ };

    /// which calls may come next
    ghost may: { Self → Call → Type 0 };

    /// which links are its
    ghost ours: { Self → ℕ → Type 0 };

    /// its inputs were done before they had given all that was wanted of them
    ghost drained: { Self → Type 0 };

    fn restart(&mut self, alloc: Global, start: &Row) -> Result<(), OutOfMemory>
        requires plan { (facts : Facts) × IsTree facts (plan self.old) }
        ensures plan { plan self.new ≡ plan self.old }
        ensures full { full self.new ≡ full self.old }
        ensures valid { OnOk result ((w : W) → valid self.new w) }
        ensures produces { OnOk result
            ((w : W) (r : Rest) → rests self.new w r
            → Produces (plan self.new) (W.stock w) (row_of start.now) r) }
        ensures may { OnOk result ((c : Call) → IsCall c → may self.new c) }
        ensures ours { OnOk result ((l : ℕ) → ours self.new l → ⊥) }
        ensures budget { OnOk result ((w : W) → budget self.new w ≤ full self.new) };

    fn pull(
        &mut self,
        alloc: Global,
        world: &mut W,
        call: Call,
        tally: &mut Tally,
    ) -> Result<Step, OutOfMemory>
        requires valid { valid self.old world.old }
        requires plan { IsTree (W.stock world.old).facts (plan self.old) }
        requires call { IsCall call }
        requires batch { call.soft ≤ W.batch world.old }
        requires may { may self.old call }
        ensures plan { plan self.new ≡ plan self.old }
        ensures full { full self.new ≡ full self.old }
        ensures world { Beside W.Surroundings (ours self.old) world.old world.new }
        ensures ours { OnOk result
            ((l : ℕ) → ours self.new l → ours self.old l ⊎ (W.links world.old ≤ l)) }
        ensures valid { OnOk result (valid self.new world.new) }
        ensures leads { IfOk result (λ step. (d : Counts)
            × Rises W.Surroundings (ExactFor (exact_tree (plan self.old)) call)
            tally.old world.old tally.new world.new d
            × Continues (exact_tree (plan self.old))
            (rests self.old world.old) d step (rests self.new world.new)) }
        ensures bounds { IfOk result (λ step. InCall call step) }
        ensures done { IfOk result (λ step. step.progress ≡ Progress.Done
            → ((length (given step) ≡ call.hard)
            ⊎ Over (exact_tree (plan self.old)) (rests self.new world.new))) }
        ensures drained { IfOk result (λ step. step.progress ≡ Progress.Done
            → length (given step) < call.hard → drained self.new) }
        ensures may { IfOk result (λ step. (c : Call) → IsCall c
            → Follows call step.skipped (length (given step)) step.progress c → may self.new c) }
        ensures more { IfOk result (λ step. step.progress ≡ Progress.HasMore → 0 < reported step) }
        ensures waiting { IfOk result (λ step. step.progress ≡ Progress.Waiting → (l : ℕ)
            × ours self.new l × (0 < length (W.flight world.new l).flying)) }
        ensures reads { IfOk result (λ step. ReadInStep (plan self.old) call.offset
            tally.old.scanned_full tally.new.scanned_full step) }
        ensures budget { IfOk result
            (λ step. budget self.new world.new + reported step ≤ budget self.old world.old) };

    /// there is always a possible rest
    ghost some_rest: { (s : Self) (w : W) → valid s w → (r : Rest) × rests s w r };

    /// what happens elsewhere in the world keeps the rests
    ghost kept_rests: { (s : Self) (w w' : W) → W.stock w' ≡ W.stock w
        → ((l : ℕ) → ours s l → W.flight w' l ≡ W.flight w l) → (r : Rest) → rests s w' r
        → rests s w r };

    ghost kept_valid: { (s : Self) (w w' : W) → W.stock w' ≡ W.stock w → W.batch w' ≡ W.batch w
        → W.links w ≤ W.links w' → ((l : ℕ) → ours s l → W.flight w' l ≡ W.flight w l)
        → valid s w → valid s w' };

    ghost kept_budget: { (s : Self) (w w' : W) → W.stock w' ≡ W.stock w
        → ((l : ℕ) → ours s l → W.flight w' l ≡ W.flight w l) → budget s w' ≤ budget s w };

    /// its links are links
    ghost own_links: { (s : Self) (w : W) → valid s w → (l : ℕ) → ours s l → l < W.links w };

    /// a plan that reads little has no link
    ghost no_link: { (s : Self) (l : ℕ) → ours s l → reads_little (plan s) ≡ true → ⊥ };
}

/// What runs one node of a plan.
pub trait Executor<W: Surroundings> {
    /// which rests it may still give at a port, for the plan of its body, where this is what each
    /// input has not reported before, with what was skipped in front
    ghost gives: { Self → W → ℕ → OperatorTree → (ℕ → Rest) → Rest → Type 0 };

    /// the node that it runs
    ghost node: { Self → Operator };

    /// how many rows an input skipped that it has not reported
    ghost unreported: { Self → ℕ → ℕ };

    /// the call to an input that it waits for an answer to
    ghost asking: { Self → ℕ → Call → Type 0 };

    /// this input was done before it had given all that was wanted of it
    ghost ended: { Self → ℕ → Bool };

    /// this input was begun
    ghost started: { Self → ℕ → Bool };

    ghost valid: { Self → W → Type 0 };

    /// which links are its
    ghost ours: { Self → ℕ → Type 0 };

    /// a step of this input that it took since the last Give was waiting
    ghost waited: { Self → ℕ → Type 0 };

    /// the last step of this input that it took was waiting, and nothing came to it since
    ghost stuck: { Self → ℕ → Type 0 };

    /// a bound on the rows that it may give, but for those of its inputs; by the bound of its body
    ghost budget: { Self → W → ℕ → ℕ };

    /// a bound on the budget after it was begun
    ghost full: { Self → ℕ → ℕ };

    /// what a row of an input adds to the budget; by the bound of its body
    ghost row_cost: { Self → ℕ → ℕ → ℕ };

    /// which calls may come next at a port; the same one, from an Ask to the Give
    ghost may: { Self → ℕ → Call → Type 0 };

    /// which calls it may ask an input next
    ghost asks: { Self → ℕ → Call → Type 0 };

    /// how many of its inputs may still be found waiting in this turn
    ghost waits_left: { Self → ℕ };

    /// it is in the midst of the work of a port other than 0
    ghost busy: { Self → Type 0 };

    /// how many rows it took that it has not given
    ghost held: { Self → ℕ };

    fn begin(&mut self, alloc: Global, start: &Row) -> Result<(), OutOfMemory>
        requires node { (facts : Facts) × IsOperator facts (node self.old) }
        ensures node { SameNode (node self.old) (node self.new) (full self.old) (full self.new)
            (row_cost self.old) (row_cost self.new) }
        ensures valid { OnOk result ((w : W) → valid self.new w) }
        ensures begun { OnOk result (Begun (node self.new) (unreported self.new) (ours self.new)
            (waited self.new) (stuck self.new) (busy self.new) (may self.new) (asks self.new)
            (ended self.new) (started self.new)) }
        ensures makes { OnOk result ((w : W) (p : ℕ) (body : OperatorTree) (ins : ℕ → Rest)
            (r : Rest) → (p ≡ 0) ⊎ (p < ports (node self.new)) → gives self.new w p body ins r
            → Makes (node self.new) (W.stock w) [] (row_of start.now) p
            (Produces body (W.stock w)) ins r) }
        ensures budget { OnOk result ((w : W) (f : ℕ) → budget self.new w f ≤ full self.new f) };

    fn turn(
        &mut self,
        alloc: Global,
        port: u32,
        world: &mut W,
        call: Call,
        tally: &mut Tally,
    ) -> Result<Turn, OutOfMemory>
        requires valid { valid self.old world.old }
        requires node { IsOperator (W.stock world.old).facts (node self.old) }
        requires call { IsCall call }
        requires batch { call.soft ≤ W.batch world.old }
        requires may { may self.old port call }
        requires port { (port ≡ 0) ⊎ (port < ports (node self.old)) }
        requires idle { port ≡ 0 → busy self.old → ⊥ }
        ensures node { SameNode (node self.old) (node self.new) (full self.old) (full self.new)
            (row_cost self.old) (row_cost self.new) }
        ensures valid { OnOk result (valid self.new world.new) }

        // what it asks of its inputs, and what it knows of them after that
        ensures asked { IfOk result (λ t. MatchTurn t
            (λ k ask. (k < arity (node self.old)) × (started self.old k ≡ true) × IsCall ask
            × asking self.new k ask × asks self.old k ask × (ended self.old k ≡ true → ⊥)
            × (waited self.old k → ⊥) × (ask.soft ≤ call.soft))
            (λ k _. (k ≡ 1) × (1 < arity (node self.old)) × (begins (node self.old) 1 ≡ false)
            × (started self.old k ≡ true → ended self.old k ≡ true))
            (λ _. Unit {0})) }
        ensures unskipped { IfOk result (λ t. MatchTurn t
            (λ _ ask. (c : Counter) → exact_at (node self.old) c ≡ true → call.offset ≡ 0
            → ask.offset ≡ 0) (λ _ _. Unit {0}) (λ _. Unit {0})) }
        ensures inputs { IfOk result (λ t. MatchTurn t
            (λ k _. (j : ℕ) → (started self.new j ≡ started self.old j)
            × (ended self.new j ≡ ended self.old j) × (waited self.new j → waited self.old j)
            × ((j ≡ k → ⊥) → (c : Call) → asks self.new j c → asks self.old j c))
            (λ k _. ((started self.new k ≡ true) × (ended self.new k ≡ false)
            × (waited self.new k → ⊥) × ((c : Call) → asks self.new k c → IsCall c))
            × ((j : ℕ) → (j ≡ k → ⊥) → (started self.new j ≡ started self.old j)
            × (ended self.new j ≡ ended self.old j) × (waited self.new j → waited self.old j)
            × ((c : Call) → asks self.new j c → asks self.old j c)))
            (λ _. (j : ℕ) → (started self.new j ≡ started self.old j)
            × (ended self.new j ≡ ended self.old j) × (waited self.new j → ⊥)
            × ((c : Call) → asks self.new j c → asks self.old j c))) }
        ensures still_waits { IfOk result (λ t. MatchTurn t
            (λ _ _. (j : ℕ) → waited self.old j → waited self.new j)
            (λ k _. (j : ℕ) → (j ≡ k → ⊥) → waited self.old j → waited self.new j)
            (λ _. Unit {0})) }
        ensures stuck { IfOk result (λ t. MatchTurn t
            (λ k _. (stuck self.new k → ⊥) × ((j : ℕ) → (j ≡ k → ⊥) → stuck self.new j
            → stuck self.old j)) (λ k _. (stuck self.new k → ⊥)
            × ((j : ℕ) → (j ≡ k → ⊥) → stuck self.new j → stuck self.old j))
            (λ _. (j : ℕ) → stuck self.new j → waited self.old j
            ⊎ ((port ≡ 0) × stuck self.old j))) }
        ensures unreported { IfOk result (λ t. MatchTurn t
            (λ _ _. (j : ℕ) → unreported self.new j ≡ unreported self.old j)
            (λ k _. (unreported self.new k ≡ 0) × ((j : ℕ) → (j ≡ k → ⊥)
            → unreported self.new j ≡ unreported self.old j))
            (λ _. (j : ℕ) → unreported self.new j ≡ 0)) }

        // no turn makes a rest possible that was not; a Give stands in front of those after it
        ensures leads { IfOk result (λ t. (d : Counts)
            × Rises W.Surroundings (ExactFor (exact_at (node self.old)) call)
            tally.old world.old tally.new world.new d × MatchTurn t
            (λ _ _. (e : Exact) → Within e (exact_at (node self.old))
            → (p : ℕ) (body : OperatorTree) (ins : ℕ → Rest) (r : Rest)
            → EndsUnreported e (ended self.old) (unreported self.old) ins
            → gives self.new world.new p body ins r
            → (b : Rest) × Prefixed e [] d r b × gives self.old world.old p body ins b)
            (λ k row. (e : Exact) → Within e (exact_at (node self.old))
            → (p : ℕ) (body : OperatorTree) (ins ins' : ℕ → Rest) (r : Rest)
            → ((j : ℕ) → (j ≡ k → ⊥) → ins' j ≡ ins j)
            → Produces body (W.stock world.old) (row_of row) (ins' k)
            → EndsUnreported e (ended self.old) (unreported self.old) ins
            → gives self.new world.new p body ins' r
            → (b : Rest) × Prefixed e [] d r b × gives self.old world.old p body ins b)
            (λ step. (e : Exact) → Within e (exact_at (node self.old))
            → (body : OperatorTree) (s : ℕ → List meaning.Row) (ins ins' : ℕ → Rest)
            → ((j : ℕ) → length (s j) ≡ unreported self.old j)
            → ((j : ℕ) → ins' j ≡ with_rows (s j) (ins j))
            → EndsUnreported e (ended self.old) (unreported self.old) ins'
            → Continues e (gives self.old world.old port body ins') d step
            (gives self.new world.new port body ins))) }

        // a Give keeps to its call, is done only at the end, and waits only for a message
        ensures bounds { IfOk result (λ t. OnGive t (λ step. InCall call step)) }
        ensures done { IfOk result (λ t. OnGive t (λ step. step.progress ≡ Progress.Done
            → ((length (given step) ≡ call.hard) ⊎ ((e : Exact)
            → Within e (λ c. is_first port) → Within e (exact_at (node self.old))
            → (body : OperatorTree) (ins : ℕ → Rest) → Ends e (ended self.new) ins
            → Over e (gives self.new world.new port body ins))))) }
        ensures drained { IfOk result (λ t. OnGive t (λ step. step.progress ≡ Progress.Done
            → length (given step) < call.hard → drains (node self.old) port ≡ true
            → (k : ℕ) → k < arity (node self.old) → started self.new k ≡ true
            → ended self.new k ≡ true)) }
        ensures more { IfOk result (λ t. OnGive t
            (λ step. step.progress ≡ Progress.HasMore → 0 < reported step)) }
        ensures waiting { IfOk result (λ t. OnGive t (λ step. step.progress ≡ Progress.Waiting
            → ((k : ℕ) × (k < arity (node self.old)) × (waited self.old k ⊎ stuck self.old k))
            ⊎ ((l : ℕ) × ours self.new l × (0 < length (W.flight world.new l).flying)))) }
        ensures reads { IfOk result (λ t. ReadsLittle (node self.old) call.offset
            (held self.old) (held self.new) tally.old.scanned_full tally.new.scanned_full t) }

        // which calls may come next
        ensures may { IfOk result (λ t. MatchTurn t (λ _ _. may self.new port call)
            (λ _ _. may self.new port call) (λ step. (c : Call) → IsCall c
            → Follows call step.skipped (length (given step)) step.progress c
            → may self.new port c)) }
        ensures busy { IfOk result (λ t. MatchTurn t (λ _ _. port ≡ 0 → busy self.new → ⊥)
            (λ _ _. port ≡ 0 → busy self.new → ⊥) (λ _. busy self.new → ⊥)) }

        // a run ends
        ensures waits_left { IfOk result (λ t. MatchTurn t
            (λ _ _. waits_left self.new ≤ waits_left self.old)
            (λ _ _. waits_left self.new < waits_left self.old + weight) (λ _. Unit {0})) }
        ensures budget { IfOk result (λ t. (f : ℕ) → MatchTurn t
            (λ _ _. budget self.new world.new f ≤ budget self.old world.old f)
            (λ k _. budget self.new world.new f + row_cost self.old k f * f + 1
            ≤ budget self.old world.old f)
            (λ step. budget self.new world.new f + reported step
            ≤ budget self.old world.old f)) }

        // what it leaves of its surroundings, and of the work of its other ports
        ensures world { Beside W.Surroundings (ours self.old) world.old world.new }
        ensures ours { OnOk result
            ((l : ℕ) → ours self.new l → ours self.old l ⊎ (W.links world.old ≤ l)) }
        ensures other_ports { IfOk result (λ t. OnGive t (λ _. (d : Counts)
            × Rises W.Surroundings (ExactFor (exact_at (node self.old)) call)
            tally.old world.old tally.new world.new d
            × ((e : Exact) → Within e (exact_at (node self.old))
            → (p : ℕ) (body : OperatorTree) (s : ℕ → List meaning.Row)
            (ins ins' : ℕ → Rest) (r : Rest)
            → (p ≡ port → ⊥) → (p ≡ 0) ⊎ (p < ports (node self.old))
            → ((j : ℕ) → length (s j) ≡ unreported self.old j)
            → ((j : ℕ) → ins' j ≡ with_rows (s j) (ins j))
            → EndsUnreported e (ended self.old) (unreported self.old) ins'
            → gives self.new world.new p body ins r
            → (b : Rest) × Prefixed e [] d r b × gives self.old world.old p body ins' b))) }
        ensures ports { OnOk result
            ((p : ℕ) (c : Call) → (p ≡ port → ⊥) → may self.old p c → may self.new p c) };

    fn take(&mut self, alloc: Global, port: u32, input: u32, step: Step) -> Result<(), OutOfMemory>
        requires valid { (w : W) × valid self.old w }
        requires node { (facts : Facts) × IsOperator facts (node self.old) }
        requires input { OfInputs (node self.old) (input < arity (node self.old)) }
        requires asked { OfInputs (node self.old)
            ((ask : Call) × asking self.old input ask × InCall ask step) }
        requires more { step.progress ≡ Progress.HasMore → 0 < reported step }
        ensures node { SameNode (node self.old) (node self.new) (full self.old) (full self.new)
            (row_cost self.old) (row_cost self.new) }
        ensures valid { OnOk result ((w : W) → valid self.old w → valid self.new w) }

        // what it knows of the input: that it ended, waits, or skipped rows
        ensures started { (k : ℕ) → started self.new k ≡ started self.old k }
        ensures stays { (k : ℕ) → ended self.old k ≡ true → ended self.new k ≡ true }
        ensures ended { (k : ℕ) → ended self.new k ≡ true → (ended self.old k ≡ true)
            ⊎ ((k ≡ input) × (step.progress ≡ Progress.Done)
            × ((ask : Call) → asking self.old input ask → length (given step) ≡ ask.hard → ⊥)) }
        ensures waited { (k : ℕ) → waited self.new k → waited self.old k
            ⊎ ((k ≡ input) × (step.progress ≡ Progress.Waiting)) }
        ensures waits { OnOk result (OfInputs (node self.old)
            ((step.progress ≡ Progress.Waiting → waited self.new input)
            × ((k : ℕ) → (k ≡ input → ⊥) → waited self.old k → waited self.new k))) }
        ensures stuck { (k : ℕ) → stuck self.new k → stuck self.old k
            ⊎ ((k ≡ input) × (step.progress ≡ Progress.Waiting)) }
        ensures unreported { OnOk result (OfInputs (node self.old)
            ((unreported self.new input ≡ unreported self.old input + step.skipped)
            × ((j : ℕ) → (j ≡ input → ⊥) → unreported self.new j ≡ unreported self.old j))) }

        // a rest after the step was possible with the step's rows in front of the input's
        ensures leads { OnOk result (OfInputs (node self.old)
            ((e : Exact) (w : W) (p : ℕ) (body : OperatorTree) (d : Counts)
            (s0 s : List meaning.Row) (ins' ins : ℕ → Rest) (t b r : Rest)
            → length s0 ≡ unreported self.old input → length s ≡ step.skipped
            → Prefixed e (s ++ given step) d t b
            → ins' input ≡ with_rows (s0 ++ s) t → ins input ≡ with_rows s0 b
            → ((j : ℕ) → (j ≡ input → ⊥) → ins' j ≡ ins j)
            → EndsUnreported e (ended self.new) (unreported self.new) ins'
            → gives self.new w p body ins' r → (q : Rest) × Prefixed e [] d r q
            × gives self.old w p body ins q)) }
        ensures holds { OnOk result (OfInputs (node self.old) (hands_on (node self.old) ≡ true
            → held self.old + length (given step) ≤ held self.new)) }

        // which calls may come and go next
        ensures may { OnOk result ((p : ℕ) (c : Call) → may self.old p c → may self.new p c) }
        ensures asks { OnOk result
            ((k : ℕ) (c : Call) → (k ≡ input → ⊥) → asks self.new k c → asks self.old k c) }
        ensures follows { OnOk result ((c : Call) → asks self.new input c → IsCall c
            × ((ask : Call) → asking self.old input ask
            → Follows ask step.skipped (length (given step)) step.progress c)) }
        ensures busy { OnOk result (busy self.new → busy self.old) }

        // a run ends
        ensures waits_left { OnOk result (OfInputs (node self.old) (waits_left self.new + 1
            ≤ waits_left self.old + unless_waiting step.progress * weight)) }
        ensures budget { OnOk result (OfInputs (node self.old) ((w : W) (f : ℕ)
            → budget self.new w f + unless_waiting step.progress
            ≤ budget self.old w f + row_cost self.old input f * reported step)) }
        ensures ours { OnOk result ((l : ℕ) → ours self.new l → ours self.old l) };

    /// there is always a rest
    ghost some: { (s : Self) (w : W) (p : ℕ) (body : OperatorTree) (ins : ℕ → Rest) → valid s w
        → (r : Rest) × gives s w p body ins r };

    /// where an input counts more on the way to the same rows, so may it
    ghost more_counts: { (e : Exact) (s : Self) (w : W) (p : ℕ) (body : OperatorTree) (k : ℕ)
        (d : Counts) (ins ins' : ℕ → Rest) (r : Rest) → started s k ≡ true
        → Prefixed e [] d (ins k) (ins' k) → ((j : ℕ) → (j ≡ k → ⊥) → ins' j ≡ ins j)
        → gives s w p body ins r
        → (b : Rest) × Prefixed e [] d r b × gives s w p body ins' b };

    /// what happens elsewhere in the world keeps the rests
    ghost kept_gives: { (s : Self) (w w' : W) → W.stock w' ≡ W.stock w
        → ((l : ℕ) → ours s l → W.flight w' l ≡ W.flight w l)
        → (p : ℕ) (body : OperatorTree) (ins : ℕ → Rest) (r : Rest) → gives s w' p body ins r
        → gives s w p body ins r };

    ghost kept_valid: { (s : Self) (w w' : W) → W.stock w' ≡ W.stock w → W.batch w' ≡ W.batch w
        → W.links w ≤ W.links w' → ((l : ℕ) → ours s l → W.flight w' l ≡ W.flight w l)
        → valid s w → valid s w' };

    ghost kept_budget: { (s : Self) (w w' : W) → W.stock w' ≡ W.stock w
        → ((l : ℕ) → ours s l → W.flight w' l ≡ W.flight w l) → (f : ℕ)
        → budget s w' f ≤ budget s w f };

    ghost own_links: { (s : Self) (w : W) → valid s w → (l : ℕ) → ours s l → l < W.links w };

    /// only a Remote has a link, or what stands for shards
    ghost no_link: { (s : Self) (l : ℕ) → ours s l → is_unlinked (node s) ≡ true → ⊥ };
}
