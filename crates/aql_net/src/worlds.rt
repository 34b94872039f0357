//! A net as a world of its own: no documents, and nothing is counted but on the links.

use crate::net::Net;
use aql_exec::{Delivered, Mail, Message, Surroundings, Wires};
use aql_value::OutOfMemory;

impl Surroundings for Net {
    ghost use Rattle.aql_net.specs.Traffic.{no_data, line_on, deliveries_of};

    ghost stock = { λ _. no_data };

    ghost counted = { λ _. record { scanned_full = 0; scanned_index = 0; filtered = 0 } };

    ghost links = { λ s. s.links };

    ghost flight = { λ s l. line_on l s };

    ghost deliveries = { deliveries_of };

    ghost batch = { λ s. s.batch };
}

impl Mail for Net {
    ghost use Rattle.aql_net.specs.Traffic.{queue_of};
    ghost use Rattle.aql_net.specs.laws.Delivering.{some_in_queue};

    ghost queue = { queue_of };

    fn in_flight(&self) -> u64 {
        Net::in_flight(self)
    }

    fn deliver(&mut self, place: u64) -> Option<Delivered> {
        Net::deliver(self, place)
    }

    ghost some_flies = { some_in_queue };
}

impl Wires for Net {
    fn first(&mut self, message: Message) -> Result<u64, OutOfMemory> {
        Net::first(self, message)
    }

    fn send(&mut self, link: u64, message: Message) -> Result<(), OutOfMemory> {
        Net::send(self, link, message)?;
        Ok(())
    }
}
