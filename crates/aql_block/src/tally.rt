//! What a run counts.

ghost use Rattle.std.specs.Prelude.{◌≡◌, ◌+◌, ◌-◌, ◌^◌, min};

/// How many documents scans of whole collections and indexes handed out, and how many rows filters
/// dropped. Each number stops at the largest of its type.
#[derive(Clone, Copy, Debug, PartialEq, Eq)]
pub struct Tally {
    pub scanned_full: u64,
    pub scanned_index: u64,
    pub filtered: u64,
}

impl Tally {
    /// Nothing counted.
    pub fn new() -> Tally
        ensures { result ≡ record { scanned_full = 0; scanned_index = 0; filtered = 0 } }
    {
        Tally {
            scanned_full: 0,
            scanned_index: 0,
            filtered: 0,
        }
    }

    /// Counts documents that scans of whole collections handed out.
    pub fn add_full(&mut self, n: u64)
        ensures { self.new ≡
            record self.old { scanned_full = min (self.old.scanned_full + n) (2 ^ 64 - 1) } }
    {
        self.scanned_full = self.scanned_full.saturating_add(n);
    }

    /// Counts documents that indexes handed out.
    pub fn add_indexed(&mut self, n: u64)
        ensures { self.new ≡
            record self.old { scanned_index = min (self.old.scanned_index + n) (2 ^ 64 - 1) } }
    {
        self.scanned_index = self.scanned_index.saturating_add(n);
    }

    /// Counts rows that filters dropped.
    pub fn add_filtered(&mut self, n: u64)
        ensures { self.new ≡
            record self.old { filtered = min (self.old.filtered + n) (2 ^ 64 - 1) } }
    {
        self.filtered = self.filtered.saturating_add(n);
    }
}
