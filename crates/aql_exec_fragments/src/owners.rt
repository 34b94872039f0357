//! Which of several feeds owns a link.

ghost use Rattle.std.specs.Prelude.{◌≡◌, ℕ, Some, slice_get, MatchOption};

use aql_exec::{Delivers, Surroundings};

/// The place of a feed that owns a link, if one does.
pub fn owner_of<W: Surroundings, F: Delivers<W>>(feeds: &[F], link: u64) -> Option<usize>
    ensures { MatchOption result
        ((k : ℕ) (f : F) → slice_get feeds.now k ≡ Some f → F.ours f link → ⊥)
        (λ k. (f : F) × (slice_get feeds.now k ≡ Some f) × F.ours f link) }
{
    for (at, feed) in feeds.iter().enumerate() {
        if feed.owns(link) {
            return Some(at);
        }
    }
    None
}
