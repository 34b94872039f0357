//! A run of a feed to its end, with messages delivered in the order that a picker picks.

ghost use Rattle.std.specs.Prelude.{◌≡◌, ℕ, ◌+◌, ◌<◌, ◌≤◌, ◌++◌, List, [], ◌∷◌, length, true, IfOk, OnOk};
ghost use Rattle.aql_block.specs.declared.calls.Call.{Call};
ghost use Rattle.aql_block.specs.Rows.{row_of};
ghost use Rattle.aql_block.specs.Tables.{rows_of};
ghost use Rattle.aql_exec.specs.Rests.{Counts, Rest, Prefixed};
ghost use Rattle.aql_exec.specs.Rising.{IsExact, Rises};
ghost use Rattle.aql_exec.specs.Operators.{Produces, IsTree, exact_tree};
ghost use Rattle.aql_exec.specs.Reads.{reads_little};
ghost use Rattle.aql_exec.specs.Lines.{Pick};
ghost use Rattle.aql_engine.specs.Run.{rows_in, PickedBy};

use aql_block::{Block, Call, Progress, Row, Step, Tally};
use aql_exec::{Delivered, Delivers, Feed, Mail, Picker, Surroundings};
use aql_value::OutOfMemory;
use std::alloc::Global;

/// Delivers one message in flight, the one that the picker picks. A message on no link of the feed
/// is dropped.
pub fn deliver_one<W: Mail, F: Delivers<W>, P: Picker>(
    alloc: Global,
    feed: &mut F,
    world: &mut W,
    picker: &mut P,
    tally: &mut Tally,
) -> Result<(), OutOfMemory>
    requires valid { F.valid feed.old world.old }
    requires plan { IsTree (W.stock world.old).facts (F.plan feed.old) }
    requires flies { (l : ℕ) × F.ours feed.old l × (0 < length (W.flight world.old l).flying) }
    ensures plan { F.plan feed.new ≡ F.plan feed.old }
    ensures stock { W.stock world.new ≡ W.stock world.old }
    ensures batch { W.batch world.new ≡ W.batch world.old }
    ensures valid { OnOk result (F.valid feed.new world.new) }
    ensures may { OnOk result ((c : Call) → F.may feed.old c → F.may feed.new c) }
    ensures left { OnOk result
        ((W.deliveries world.new).left < (W.deliveries world.old).left) }
    ensures picked { OnOk result ((k : Pick)
        × ((W.deliveries world.new).picks ≡ (W.deliveries world.old).picks ++ k ∷ [])
        × P.picks picker.old k.among k.place picker.new) }
    ensures budget { OnOk result (F.budget feed.new world.new ≤ F.budget feed.old world.old) }
    ensures undisturbed { OnOk result ((d : Counts)
        × Rises W.Surroundings (IsExact (exact_tree (F.plan feed.old)))
        tally.old world.old tally.new world.new d
        × ((r : Rest) → F.rests feed.new world.new r → (b : Rest)
        × Prefixed (exact_tree (F.plan feed.old)) [] d r b × F.rests feed.old world.old b)) }
{
    let n = world.in_flight();
    let place = picker.pick(n);
    if let Some(d) = world.deliver(place) {
        let Delivered { link, message } = d;
        if feed.owns(link) {
            return feed.deliver(alloc, world, tally, link, message);
        }
    }
    Ok(())
}

/// Runs a feed from a row to its end, in steps of at most `batch` rows. The rows come as the blocks
/// of its steps, in order; what is counted on the way goes to the tally.
/// A plan that reads little reads a document for each row at most.
pub fn run_feed<W: Mail, F: Delivers<W>, P: Picker>(
    alloc: Global,
    feed: &mut F,
    start: &Row,
    world: &mut W,
    picker: &mut P,
    batch: u32,
    tally: &mut Tally,
) -> Result<Vec<Block>, OutOfMemory>
    requires plan { IsTree (W.stock world.old).facts (F.plan feed.old) }
    requires batch { (1 ≤ batch) × (batch ≤ 10000) × (batch ≤ W.batch world.old) }
    ensures plan { F.plan feed.new ≡ F.plan feed.old }
    ensures stock { W.stock world.new ≡ W.stock world.old }
    ensures batch { W.batch world.new ≡ W.batch world.old }
    ensures picked { OnOk result ((ks : List Pick)
        × ((W.deliveries world.new).picks ≡ (W.deliveries world.old).picks ++ ks)
        × PickedBy P.picks picker.old ks picker.new) }
    ensures rows { IfOk result (λ blocks. (r : Rest)
        × Produces (F.plan feed.old) (W.stock world.old) (row_of start.now) r
        × (rows_in blocks.items ≡ r.rows)
        × Rises W.Surroundings (IsExact (exact_tree (F.plan feed.old)))
        tally.old world.old tally.new world.new r.counts) }
    ensures reads { IfOk result (λ blocks. reads_little (F.plan feed.old) ≡ true
        → tally.new.scanned_full ≤ tally.old.scanned_full + length (rows_in blocks.items)) }
{
    feed.restart(alloc, start)?;
    let mut blocks = Vec::new(alloc);
    loop {
        let call = Call {
            offset: 0,
            soft: u64::from(batch),
            hard: u64::MAX,
        };
        let Step {
            skipped: _,
            block,
            progress,
        } = feed.pull(alloc, world, call, tally)?;
        keep(&mut blocks, block)?;
        match progress {
            Progress::Waiting => deliver_one(alloc, feed, world, picker, tally)?,
            Progress::HasMore => {}
            Progress::Done => return Ok(blocks),
        }
    }
}

/// Keeps a block that has rows.
fn keep(blocks: &mut Vec<Block>, block: Block) -> Result<(), OutOfMemory>
    ensures { OnOk result
        (rows_in blocks.new.items ≡ rows_in blocks.old.items ++ rows_of block) }
{
    if block.len() == 0 {
        return Ok(());
    }
    blocks.push(block)?;
    Ok(())
}
