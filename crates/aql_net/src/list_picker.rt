//! Deliveries in an order that a list gives.

ghost use Rattle.std.specs.Prelude.{◌≡◌};

use aql_exec::Picker;
use aql_value::Seq;
use std::marker::Model;

/// A list of picks.
pub type Picks = Seq<u64>;

/// Picks by the numbers of a list, one after the other, each by its remainder by the number of
/// messages in flight; the oldest where the list has ended. Contracts see the numbers still left.
#[derive(Drop)]
pub struct ListPicker {
    picks: Picks,
    at: usize,
}

impl Model for ListPicker {
    ghost use Rattle.std.specs.Prelude.{ℕ, List, drop};

    ghost Value = { List ℕ };

    ghost view = { λ a. drop a.at a.picks };
}

impl ListPicker {
    /// By this list; takes no memory.
    pub fn new(picks: Picks) -> ListPicker
        ensures { result ≡ picks }
    {
        ListPicker { picks, at: 0 }
    }
}

impl Picker for ListPicker {
    ghost use Rattle.aql_net.specs.Picking.{ListPicks};

    ghost picks = { ListPicks };

    fn pick(&mut self, n: u64) -> u64 {
        let picks = self.picks.as_slice();
        if self.at >= picks.len() {
            return 0;
        }
        let place = picks[self.at] % n;
        self.at += 1;
        place
    }
}
