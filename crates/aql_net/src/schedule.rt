//! Deliveries in an order that a number gives.

ghost use Rattle.std.specs.Prelude.{◌≡◌};
ghost use Rattle.aql_net.specs.Picking.{seed_of};

use aql_exec::Picker;
use std::marker::Model;

/// With the number 0 it picks the oldest message. Else the number is where a sequence of
/// pseudorandom numbers begins, each of which picks a message. Contracts see the number, and `None`
/// where it is 0.
#[derive(Drop)]
pub struct Schedule {
    state: Option<u64>,
}

impl Model for Schedule {
    ghost use Rattle.std.specs.Prelude.{ℕ, Option};

    ghost Value = { Option ℕ };

    ghost view = { λ a. a.state };
}

impl Schedule {
    /// By this number; takes no memory.
    pub fn new(n: u64) -> Schedule
        ensures { result ≡ seed_of n }
    {
        Schedule {
            state: if n == 0 { None } else { Some(n) },
        }
    }
}

impl Picker for Schedule {
    ghost use Rattle.aql_net.specs.Picking.{SchedulePicks};

    ghost picks = { SchedulePicks };

    fn pick(&mut self, n: u64) -> u64 {
        let Some(state) = self.state else {
            return 0;
        };
        let next = state
            .wrapping_mul(6_364_136_223_846_793_005)
            .wrapping_add(1_442_695_040_888_963_407);
        self.state = Some(next);
        (next >> 33) % n
    }
}
