//! The world that a plan runs in: the servers with their documents, and the messages between them.

ghost use Rattle.std.specs.Prelude.{◌≡◌, map};
ghost use Rattle.aql_net.specs.Logs.{in_flight, IsLog};
ghost use Rattle.aql_net.specs.Traffic.{no_traffic, dispatch_of};
ghost use Rattle.aql_shard.specs.Datasets as datasets;

use crate::lookups::recall_counts;
use crate::{document_of, edges_at};
use aql_block::Tally;
use aql_exec::{Delivered, Mail, Message, Surroundings, Wires};
use aql_exec_graph::{EdgeList, Neighbours};
use aql_exec_scan::Shelf;
use aql_index::{Bound, Span, Spans};
use aql_net::{Log, Net};
use aql_shard::Servers;
use aql_tree::Direction;
use aql_value::{CollNo, CollNos, Items, OutOfMemory, Text, Value};
use std::alloc::Global;
use std::mem;

/// The servers, and the links between them.
#[derive(Drop)]
pub struct World {
    servers: Servers,
    net: Net,
}

impl World {
    /// With no link, for a run in steps of at most so many rows.
    pub fn new(alloc: Global, servers: Servers, batch: u32) -> World
        ensures servers { result.servers ≡ servers }
        ensures net { result.net ≡ no_traffic batch }
    {
        World {
            servers,
            net: Net::new(alloc, u64::from(batch)),
        }
    }

    /// The log of the messages so far, after which there is no link.
    pub fn take_log(&mut self, alloc: Global) -> Log
        ensures servers { self.new.servers ≡ self.old.servers }
        ensures log { result ≡ self.old.net.log }
        ensures lawful { IsLog self.old.net.batch result }
        ensures told { in_flight result ≡ map dispatch_of self.old.net.flying }
        ensures net { self.new.net ≡ no_traffic 1 }
    {
        let none = Net::new(alloc, 1);
        mem::replace(&mut self.net, none).into_log()
    }

    /// The servers, after a run.
    pub fn into_servers(self) -> Servers
        ensures { result ≡ self.servers }
    {
        let World { servers, net: _ } = self;
        servers
    }
}

impl Surroundings for World {
    ghost use Rattle.aql_net.specs.Traffic.{line_on, deliveries_of};

    ghost stock = { λ s. datasets.stock s.servers };

    ghost counted = { λ s. s.servers.counts };

    ghost links = { λ s. s.net.links };

    ghost flight = { λ s l. line_on l s.net };

    ghost deliveries = { λ s. deliveries_of s.net };

    ghost batch = { λ s. s.net.batch };
}

impl Mail for World {
    ghost use Rattle.aql_net.specs.Traffic.{queue_of};
    ghost use Rattle.aql_net.specs.laws.Delivering.{some_in_queue};

    ghost queue = { λ s. queue_of s.net };

    fn in_flight(&self) -> u64 {
        self.net.in_flight()
    }

    fn deliver(&mut self, place: u64) -> Option<Delivered> {
        self.net.deliver(place)
    }

    ghost some_flies = { λ s. some_in_queue s.net };
}

impl Wires for World {
    fn first(&mut self, message: Message) -> Result<u64, OutOfMemory> {
        self.net.first(message)
    }

    fn send(&mut self, link: u64, message: Message) -> Result<(), OutOfMemory> {
        self.net.send(link, message)?;
        Ok(())
    }
}

impl Shelf for World {
    fn length(&self, coll: CollNo, shard: Option<u32>) -> u64 {
        self.servers.length(coll, shard)
    }

    fn full(&mut self, coll: CollNo, shard: Option<u32>, place: u64, tally: &mut Tally) -> &Value {
        recall_counts(&self.servers);
        self.servers.full(coll, shard, place, tally)
    }

    fn span(
        &self,
        coll: CollNo,
        shard: Option<u32>,
        index: u32,
        equal: &Items,
        low: &Bound,
        high: &Bound,
    ) -> Span {
        self.servers.span(coll, shard, index, equal, low, high)
    }

    fn spans(
        &self,
        alloc: Global,
        coll: CollNo,
        shard: Option<u32>,
        index: u32,
        equal: &Items,
        list: &Value,
    ) -> Result<Spans, OutOfMemory> {
        let spans = self.servers.spans(alloc, coll, shard, index, equal, list)?;
        Ok(spans)
    }

    fn indexed(
        &mut self,
        coll: CollNo,
        shard: Option<u32>,
        index: u32,
        place: u64,
        tally: &mut Tally,
    ) -> &Value {
        recall_counts(&self.servers);
        self.servers.indexed(coll, shard, index, place, tally)
    }
}

impl Neighbours for World {
    fn edges(
        &mut self,
        alloc: Global,
        id: &Text,
        direction: Direction,
        collections: &CollNos,
        tally: &mut Tally,
    ) -> Result<EdgeList, OutOfMemory> {
        recall_counts(&self.servers);
        let steps = edges_at(alloc, &mut self.servers, id, direction, collections, tally)?;
        Ok(steps)
    }

    fn vertex(
        &mut self,
        alloc: Global,
        id: &Text,
        tally: &mut Tally,
    ) -> Result<Value, OutOfMemory> {
        recall_counts(&self.servers);
        let document = document_of(alloc, &mut self.servers, id, tally)?;
        Ok(document)
    }
}
