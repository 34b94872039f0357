//! The step that tells of nothing.

ghost use Rattle.std.specs.Prelude.{◌≡◌, []};
ghost use Rattle.aql_exec.specs.Steps.{given};

use aql_block::{Block, Progress, Step};
use std::alloc::Global;

/// A step that tells of nothing.
pub fn nothing(alloc: Global, progress: Progress) -> Step
    ensures skipped { result.skipped ≡ 0 }
    ensures rows { given result ≡ [] }
    ensures progress { result.progress ≡ progress }
{
    Step {
        skipped: 0,
        block: Block::empty(alloc),
        progress,
    }
}
