//! The messages in flight.

ghost use Rattle.std.specs.Prelude.{◌≡◌, ◌<◌, ◌≤◌, ◌++◌, [], ◌∷◌, length, map, vec_capacity, IfOk, OnErr, MatchOption};
ghost use Rattle.aql_exec.specs.Lines.{fresh, no_line, Next};
ghost use Rattle.aql_exec.specs.Links.{Delivers};
ghost use Rattle.aql_net.specs.Logs.{sent_in, in_flight, talk_on, IsLog};
ghost use Rattle.aql_net.specs.Traffic.{no_traffic, dispatch_of, messages_on, line_on, deliveries_of, after_sending, Takes};

use crate::logs::{Log, LogEntry, sort_of};
use aql_exec::{Delivered, Message};
use aql_value::OutOfMemory;
use std::alloc::Global;
use std::marker::Model;

/// A message in flight.
#[derive(Drop)]
pub struct Envelope {
    /// How many messages were sent before it.
    pub number: u64,
    pub link: u64,
    pub message: Message,
}

/// The links between servers, numbered from 0 as they are made, the messages in flight on them, and
/// the log of what was sent and taken. Contracts see a `Traffic`.
#[derive(Drop)]
pub struct Net {
    /// how many rows an ask may want at a time
    batch: u64,
    links: u64,
    /// oldest first
    flying: Vec<Envelope>,
    /// there is room for an entry for each message in flight
    log: Vec<LogEntry>,
    /// how many messages were sent
    sent: u64,
}

impl Model for Net {
    ghost use Rattle.std.specs.Prelude.{vec_capacity};
    ghost use Rattle.std.specs.Coded.{codes};
    ghost use Rattle.aql_block.specs.Tables.{coded_table};
    ghost use Rattle.aql_net.specs.Traffic.{Traffic};
    ghost use Rattle.aql_net.specs.inner.Nets.{IsNet};

    ghost Value = { Traffic };

    ghost coded = { Prim.hlevel (codes, coded_table) };

    ghost view = { λ n. record {
      batch = n.batch;
      links = n.links;
      log = n.log.items;
      flying = n.flying.items;
    } };

    ghost invariant = { λ n.
        IsNet n.batch n.links n.log.items n.flying.items n.sent (vec_capacity n.log) };
}

// Appends to a log that has room.
fn enter(log: &mut Vec<LogEntry>, entry: LogEntry)
    requires { length log.old.items < vec_capacity log.old }
    ensures items { log.new.items ≡ log.old.items ++ entry ∷ [] }
    ensures capacity { vec_capacity log.old ≤ vec_capacity log.new }
{
    match log.push(entry) {
        Ok(()) => {}
        Err(_) => unreachable!(),
    }
}

impl Net {
    /// With no link, for asks of at most `batch` rows at a time; takes no memory.
    pub fn new(alloc: Global, batch: u64) -> Net
        ensures { result ≡ no_traffic batch }
    {
        Net {
            batch,
            links: 0,
            flying: Vec::new(alloc),
            log: Vec::new(alloc),
            sent: 0,
        }
    }

    /// Makes the next link and sends this on it; gives the link's number.
    pub fn first(&mut self, message: Message) -> Result<u64, OutOfMemory>
        requires { Next self.old.batch fresh message }
        ensures ok { IfOk result
            (λ l. (l ≡ self.old.links) × (self.new ≡ after_sending l message self.old)) }
        ensures unused { line_on self.old.links self.old ≡ no_line }
        ensures err { OnErr result (self.new ≡ self.old) }
    {
        let link = self.links;
        self.put(link, message)?;
        Ok(link)
    }

    /// Sends this on a link that has nothing in flight; gives the message's number. The log gets
    /// its entry, and room for the one that says that the message was taken.
    pub fn send(&mut self, link: u64, message: Message) -> Result<u64, OutOfMemory>
        requires link { link < self.old.links }
        requires free { messages_on link self.old.flying ≡ [] }
        requires next { Next self.old.batch (talk_on link self.old.log) message }
        ensures ok { IfOk result (λ n. (n ≡ length (sent_in self.old.log))
            × (self.new ≡ after_sending link message self.old)) }
        ensures err { OnErr result (self.new ≡ self.old) }
    {
        self.put(link, message)
    }

    // Sends this on a link, or on one that is made; gives the message's number.
    fn put(&mut self, link: u64, message: Message) -> Result<u64, OutOfMemory>
        requires link { link ≤ self.old.links }
        requires free { messages_on link self.old.flying ≡ [] }
        requires next { Next self.old.batch (talk_on link self.old.log) message }
        ensures ok { IfOk result (λ n. (n ≡ length (sent_in self.old.log))
            × (self.new ≡ after_sending link message self.old)) }
        ensures err { OnErr result (self.new ≡ self.old) }
    {
        let number = self.sent;
        if number == u64::MAX || link == u64::MAX {
            return Err(OutOfMemory);
        }
        self.log.reserve(self.flying.len() + 2)?;
        let what = sort_of(&message);
        self.flying.push(Envelope {
            number,
            link,
            message,
        })?;
        enter(&mut self.log, LogEntry::Sent { number, link, what });
        self.sent = number + 1;
        self.links = self.links.max(link + 1);
        Ok(number)
    }

    /// How many messages are in flight.
    pub fn in_flight(&self) -> u64
        ensures { result ≡ length self.now.flying }
    {
        self.flying.len() as u64
    }

    /// Takes the message at a place among those in flight, the oldest at 0; `None` exactly where
    /// there is none. Takes no memory.
    pub fn deliver(&mut self, place: u64) -> Option<Delivered>
        ensures { MatchOption result
            ((length self.old.flying ≤ place) × (self.new ≡ self.old))
            (λ d. Takes place self.old self.new d.link d.message
            × Delivers (length self.old.flying) place
            (deliveries_of self.old) (deliveries_of self.new)) }
    {
        if place >= self.flying.len() as u64 {
            return None;
        }
        let Envelope {
            number,
            link,
            message,
        } = self.flying.remove(place as usize);
        enter(&mut self.log, LogEntry::Taken { number });
        Some(Delivered { link, message })
    }

    /// What was sent and taken so far.
    pub fn log(&self) -> &[LogEntry]
        ensures same { result.now ≡ self.now.log }
        ensures lawful { IsLog self.now.batch self.now.log }
        ensures told { in_flight self.now.log ≡ map dispatch_of self.now.flying }
    {
        self.log.as_slice()
    }

    /// What was sent and taken, after a run.
    pub fn into_log(self) -> Log
        ensures same { result ≡ self.log }
        ensures lawful { IsLog self.batch self.log }
        ensures told { in_flight self.log ≡ map dispatch_of self.flying }
    {
        let Net {
            batch: _,
            links: _,
            flying: _,
            log,
            sent: _,
        } = self;
        Log::from_entries(log)
    }
}
