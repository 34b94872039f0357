//! SCATTER: all rows of its input for each shard. DISTRIBUTE: each row for the shard of its keys.

ghost use Rattle.std.specs.Prelude.{◌≡◌, ℕ, ◌+◌, ◌*◌, ◌<◌, ◌≤◌, ◌++◌, List, [], length};
ghost use Rattle.std.specs.Prelude.{IfOk, OnOk, cond, true, slice_set, slice_index_or};
ghost use Rattle.aql_meaning.specs.Row as meaning;
ghost use Rattle.aql_plan.specs.Plan as plan;
ghost use Rattle.aql_plan.specs.View.{expr_trees};
ghost use Rattle.aql_block.specs.Tables.{Table, rows_of};
ghost use Rattle.aql_exec.specs.Steps.{IsCall, InCall, given, reported};
ghost use Rattle.aql_exec.specs.Operators as operator;
ghost use Rattle.aql_exec.specs.Operators.{is_first};
ghost use Rattle.aql_engine.specs.Run.{rows_in};
ghost use Rattle.aql_exec_cluster.specs.Shared.{rows_at};
ghost use Rattle.aql_exec_cluster.specs.Ports.{rows_after, rows_at_port, count_ports};
ghost use Rattle.aql_exec_cluster.specs.Routings.{KeysPlain, rows_to, node_by};

use crate::blocks::{Blocks, Place};
use crate::local::Local;
use crate::routing::{Routing, Target};
use crate::splits::Splits;
use aql_block::{Block, Call, Progress, Row, Step, Tally};
use aql_exec::{Executor, Surroundings, Turn, Unlinked, nothing};
use aql_tree::Exprs;
use aql_value::OutOfMemory;
use std::alloc::Global;
use std::mem;
use std::rc::Rc;

/// A Scatter or a Distribute: keeps the rows of its input, once for all shards that it reaches.
#[derive(Drop)]
pub struct Scatter {
    coll: u32,
    routing: Routing,
    /// the shards that it reaches, each at a port
    shards: Vec<u32>,
    /// the rows that came, as long as more may come
    kept: Blocks,
    /// all rows, once the input is done
    filled: Option<Filled>,
    /// the last step that came was waiting, and nothing was answered since
    waiting: bool,
}

/// All rows for all shards.
#[derive(Drop)]
pub(crate) struct Filled {
    pub(crate) blocks: Rc<Blocks>,
    /// by port where it stands; `None` in front of all rows
    pub(crate) places: Vec<Option<Place>>,
}

impl Scatter {
    /// Of a collection, or of one shard of it, that reaches these shards.
    pub fn new(alloc: Global, coll: u32, shard: Option<u32>, shards: Vec<u32>) -> Scatter
        ensures { operator.Scatter (node_by result.coll result.routing) result.shards.items
            ≡ operator.Scatter (plan.Scatter coll shard) shards.items }
    {
        Scatter::by(alloc, coll, Routing::ToAll(shard), shards)
    }

    /// The Distribute of a collection by these keys, over all its shards.
    pub fn by_keys(alloc: Global, coll: u32, keys: Exprs, shards: Vec<u32>) -> Scatter
        ensures { operator.Scatter (node_by result.coll result.routing) result.shards.items
            ≡ operator.Scatter (plan.Distribute coll (expr_trees keys)) shards.items }
    {
        Scatter::by(alloc, coll, Routing::ByKeys(keys), shards)
    }

    fn by(alloc: Global, coll: u32, routing: Routing, shards: Vec<u32>) -> Scatter
        ensures { (result.coll ≡ coll) × (result.routing ≡ routing) × (result.shards ≡ shards) }
    {
        Scatter {
            coll,
            routing,
            shards,
            kept: Blocks::new(alloc),
            filled: None,
            waiting: false,
        }
    }
}

// The shard at a port.
fn target_at(shards: &[u32], port: usize) -> Target
    requires { port < length shards.now }
    ensures shard { result.shard ≡ slice_index_or shards.now port 0 }
    ensures shards { result.shards ≡ length shards.now }
{
    Target {
        shard: shards[port],
        shards: shards.len(),
    }
}

impl Filled {
    // These rows, for so many ports.
    fn new(alloc: Global, blocks: Blocks, ports: usize) -> Result<Filled, OutOfMemory>
        ensures blocks { IfOk result (λ filled. filled.blocks.value ≡ blocks) }
        ensures count { IfOk result (λ filled. length filled.places.items ≡ ports) }
        ensures start { IfOk result (λ filled. (p : ℕ)
            → rows_at_port filled.blocks.value filled.places.items p ≡ rows_in blocks) }
        ensures rows { IfOk result (λ filled. count_ports filled.blocks.value filled.places.items
            ≡ ports * length (rows_in blocks)) }
    {
        let mut places = Vec::with_capacity(alloc, ports)?;
        for _port in 0..ports {
            places.push(None)?;
        }
        let blocks = Rc::new(alloc, blocks)?;
        Ok(Filled { blocks, places })
    }

    // The next rows of a port, which come to this shard, or a skip of some of them; done where
    // there are none.
    fn next(
        &mut self,
        alloc: Global,
        port: usize,
        routing: &Routing,
        target: Target,
        call: Call,
    ) -> Result<Step, OutOfMemory>
        requires call { IsCall call }
        requires port { port < length self.old.places.items }
        requires plain { KeysPlain routing.now }
        requires some { 1 ≤ target.shards }
        ensures blocks { self.new.blocks.value ≡ self.old.blocks.value }
        ensures count { length self.new.places.items ≡ length self.old.places.items }
        ensures others { (p : ℕ) → (p ≡ port → ⊥)
            → rows_at_port self.old.blocks.value self.new.places.items p
            ≡ rows_at_port self.old.blocks.value self.old.places.items p }
        ensures rows { IfOk result (λ step. (s : List meaning.Row) × (length s ≡ step.skipped)
            × (rows_to routing.now target
            (rows_at_port self.old.blocks.value self.old.places.items port)
            ≡ (s ++ given step) ++ rows_to routing.now target
            (rows_at_port self.old.blocks.value self.new.places.items port))) }
        ensures left { IfOk result (λ step.
            count_ports self.old.blocks.value self.new.places.items + reported step
            ≤ count_ports self.old.blocks.value self.old.places.items) }
        ensures bounds { IfOk result (λ step. InCall call step) }
        ensures done { IfOk result (λ step. step.progress ≡ Progress.Done
            → rows_to routing.now target
            (rows_at_port self.old.blocks.value self.new.places.items port) ≡ []) }
        ensures more { IfOk result
            (λ step. step.progress ≡ Progress.HasMore → 0 < reported step) }
        ensures ready { IfOk result (λ step. step.progress ≡ Progress.Waiting → ⊥) }
    {
        let mut place = place_from(self.places[port]);
        let step = next_rows(alloc, &self.blocks, &mut place, routing, target, call)?;
        self.places[port] = Some(place);
        Ok(step)
    }

    // The rows left at a port, of those that come to this shard: the list itself where that is all
    // of it.
    fn rest(
        &self,
        alloc: Global,
        port: usize,
        routing: &Routing,
        target: Target,
    ) -> Result<Rc<Blocks>, OutOfMemory>
        requires port { port < length self.now.places.items }
        requires plain { KeysPlain routing.now }
        requires some { 1 ≤ target.shards }
        ensures { IfOk result (λ rest. rows_in rest.value ≡ rows_to routing.now target
            (rows_at_port self.now.blocks.value self.now.places.items port)) }
    {
        let place = self.places[port];
        if place.is_none() && routing.is_to_all() {
            return Ok(self.blocks.clone()?);
        }
        let rest = copy_rest(alloc, &self.blocks, place_from(place), routing, target)?;
        Ok(Rc::new(alloc, rest)?)
    }
}

// In front of all rows, or further on.
fn place_from(place: Option<Place>) -> Place
    ensures { (blocks : List Table) → rows_at blocks result ≡ rows_after blocks place }
{
    match place {
        Some(place) => place,
        None => Place::start(),
    }
}

// The next rows after a place that come to a shard, or a skip of some of them; done where there
// are none.
fn next_rows(
    alloc: Global,
    blocks: &Blocks,
    place: &mut Place,
    routing: &Routing,
    target: Target,
    call: Call,
) -> Result<Step, OutOfMemory>
    requires call { IsCall call }
    requires plain { KeysPlain routing.now }
    requires some { 1 ≤ target.shards }
    ensures rows { IfOk result (λ step. (s : List meaning.Row) × (length s ≡ step.skipped)
        × (rows_to routing.now target (rows_at blocks.now place.old)
        ≡ (s ++ given step) ++ rows_to routing.now target (rows_at blocks.now place.new))) }
    ensures left { IfOk result (λ step. length (rows_at blocks.now place.new) + reported step
        ≤ length (rows_at blocks.now place.old)) }
    ensures bounds { IfOk result (λ step. InCall call step) }
    ensures done { IfOk result (λ step. step.progress ≡ Progress.Done
        → rows_to routing.now target (rows_at blocks.now place.new) ≡ []) }
    ensures more { IfOk result
        (λ step. step.progress ≡ Progress.HasMore → 0 < reported step) }
    ensures ready { IfOk result (λ step. step.progress ≡ Progress.Waiting → ⊥) }
{
    if call.offset > 0 {
        let rows = blocks.copy_sent(alloc, place, call.offset, routing, target)?;
        let skipped = u64::from(rows.len());
        return Ok(Step {
            skipped,
            block: Block::empty(alloc),
            progress: progress_after(skipped),
        });
    }
    let block = blocks.copy_sent(alloc, place, call.soft, routing, target)?;
    let progress = progress_after(u64::from(block.len()));
    Ok(Step {
        skipped: 0,
        block,
        progress,
    })
}

// Nothing more comes where a step tells of no row.
fn progress_after(reported: u64) -> Progress
    ensures done { result ≡ Progress.Done → reported ≡ 0 }
    ensures more { result ≡ Progress.HasMore → 0 < reported }
    ensures ready { result ≡ Progress.Waiting → ⊥ }
{
    if reported == 0 {
        Progress::Done
    } else {
        Progress::HasMore
    }
}

// Puts a block at the end, unless it has no row.
fn keep(kept: &mut Blocks, block: Block) -> Result<(), OutOfMemory>
    ensures { OnOk result (rows_in kept.new ≡ rows_in kept.old ++ rows_of block) }
{
    if block.len() == 0 {
        return Ok(());
    }
    kept.push(block)?;
    Ok(())
}

// The rows after a place that come to a shard, as a list of their own.
fn copy_rest(
    alloc: Global,
    blocks: &Blocks,
    place: Place,
    routing: &Routing,
    target: Target,
) -> Result<Blocks, OutOfMemory>
    requires plain { KeysPlain routing.now }
    requires some { 1 ≤ target.shards }
    ensures { IfOk result
        (λ rest. rows_in rest ≡ rows_to routing.now target (rows_at blocks.now place)) }
{
    let mut place = place;
    let mut rest = Blocks::new(alloc);
    loop {
        let block = blocks.copy_sent(alloc, &mut place, u64::MAX, routing, target)?;
        if block.len() == 0 {
            return Ok(rest);
        }
        rest.push(block)?;
    }
}

impl<W: Surroundings> Executor<W> for Scatter {
    ghost use Rattle.aql_exec_cluster.specs.Scattering.{gives_scatter, some_scatter, more_scatter, kept_scatter};
    ghost use Rattle.aql_exec_cluster.specs.Scattering.{port_rows, is_filled, budget_scatter};
    ghost use Rattle.aql_exec_cluster.specs.Scattering.{ScatterIs, AsksScatter, asks_scatter};
    ghost use Rattle.aql_exec_cluster.specs.Scattering.{waited_scatter};
    ghost use Rattle.aql_exec.specs.Streaming.{ended_first};
    ghost use Rattle.std.proofs.Math.Nat.{le_refl};

    ghost gives = { λ s w p _ ins r. gives_scatter (node_by s.coll s.routing) (W.stock w)
        s.shards.items (port_rows s.kept s.filled) p ins r };

    ghost node = { λ s. operator.Scatter (node_by s.coll s.routing) s.shards.items };

    ghost unreported = { λ _ _. 0 };

    ghost asking = { λ s k ask. AsksScatter (is_filled s.filled) s.waiting k ask };

    ghost ended = { λ s k. ended_first (is_filled s.filled) k };

    ghost started = { λ _ k. is_first k };

    ghost valid = { λ s _. ScatterIs (length s.shards.items) s.filled };

    ghost ours = { λ _ _. ⊥ };

    ghost waited = { λ s k. waited_scatter s.waiting k };

    ghost stuck = { λ _ _. ⊥ };

    ghost budget = { λ s _ _. budget_scatter (length s.shards.items) s.kept s.filled };

    ghost full = { λ _ _. 1 };

    ghost row_cost = { λ s _ _. length s.shards.items + 1 };

    ghost may = { λ _ _ _. Unit {0} };

    ghost asks = { λ s k c. asks_scatter (is_filled s.filled) k c };

    ghost waits_left = { λ s. cond s.waiting 0 1 };

    ghost busy = { λ _. ⊥ };

    ghost held = { λ _. 0 };

    fn begin(&mut self, alloc: Global, _start: &Row) -> Result<(), OutOfMemory> {
        self.kept = Blocks::new(alloc);
        self.filled = None;
        self.waiting = false;
        Ok(())
    }

    fn turn(
        &mut self,
        alloc: Global,
        port: u32,
        _world: &mut W,
        call: Call,
        _tally: &mut Tally,
    ) -> Result<Turn, OutOfMemory> {
        if self.waiting {
            self.waiting = false;
            return Ok(Turn::Give(nothing(alloc, Progress::Waiting)));
        }
        let Some(filled) = &mut self.filled else {
            return Ok(Turn::Ask {
                input: 0,
                call: Call {
                    offset: 0,
                    soft: call.soft,
                    hard: u64::MAX,
                },
            });
        };
        let port = port as usize;
        if port >= self.shards.len() {
            return Ok(Turn::Give(nothing(alloc, Progress::Done)));
        }
        let target = target_at(&self.shards, port);
        let step = filled.next(alloc, port, &self.routing, target, call)?;
        Ok(Turn::Give(step))
    }

    fn take(
        &mut self,
        alloc: Global,
        _port: u32,
        _input: u32,
        step: Step,
    ) -> Result<(), OutOfMemory> {
        let Step {
            skipped: _,
            block,
            progress,
        } = step;
        keep(&mut self.kept, block)?;
        match progress {
            Progress::Waiting => {
                self.waiting = true;
                Ok(())
            }
            Progress::HasMore => Ok(()),
            Progress::Done => {
                let blocks = mem::replace(&mut self.kept, Blocks::new(alloc));
                self.filled = Some(Filled::new(alloc, blocks, self.shards.len())?);
                Ok(())
            }
        }
    }

    ghost some = { λ s w p _ ins _. some_scatter (node_by s.coll s.routing) (W.stock w)
        s.shards.items (port_rows s.kept s.filled) p ins };

    ghost more_counts = { λ e s w p _ k d ins ins' r f a _ h. more_scatter
        (node_by s.coll s.routing) (W.stock w) s.shards.items (port_rows s.kept s.filled) e p k d
        ins ins' r f a h };

    ghost kept_gives = { λ s w w' e _ p _ ins r h. kept_scatter (node_by s.coll s.routing)
        (W.stock w) s.shards.items (port_rows s.kept s.filled) (W.stock w') p ins r e h };

    ghost kept_valid = { λ _ _ _ _ _ _ _ h. h };

    ghost kept_budget = { λ s _ _ _ _ _.
        le_refl (budget_scatter (length s.shards.items) s.kept s.filled) };

    ghost own_links = { λ _ _ _ _ h. absurd h };

    ghost no_link = { λ _ _ h. absurd h };
}

impl<W: Surroundings> Unlinked<W> for Scatter {
    fn begun(&self, input: u32) -> bool {
        input == 0
    }

    ghost no_links = { λ _ _ h. absurd h };

    ghost not_stuck = { λ _ _ h. absurd h };
}

impl<W: Surroundings> Local<W> for Scatter {
    ghost no_busy = { λ _ h. absurd h };
}

impl<W: Surroundings> Splits<W> for Scatter {
    ghost use Rattle.std.proofs.Common.{refl};
    ghost use Rattle.aql_exec_cluster.specs.Scattering.{silent_scatter, port_rows};

    fn part(&self, alloc: Global, _world: &W, shard: usize) -> Result<Rc<Blocks>, OutOfMemory> {
        let Some(filled) = &self.filled else {
            unreachable!()
        };
        let target = target_at(&self.shards, shard);
        let part = filled.rest(alloc, shard, &self.routing, target)?;
        Ok(part)
    }

    ghost none_unreported = { λ _ _. refl };

    ghost starts = { λ _ _. refl };

    ghost any_call = { λ _ _ _. tt };

    ghost silent = { λ s w n _ ins r e h. silent_scatter (node_by s.coll s.routing) (W.stock w)
        s.shards.items (port_rows s.kept s.filled) n ins r e h };
}
