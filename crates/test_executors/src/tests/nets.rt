// Messages in flight, the log of what was sent and taken, and pickers.

ghost use Rattle.std.specs.Prelude.{◌<◌};

use aql_block::{Call, Progress};
use aql_exec::{Delivered, Message, Picker, nothing};
use aql_net::{ListPicker, LogEntry, Net, Picks, Schedule, Sort, log_text};
use aql_value::OutOfMemory;
use std::alloc::Global;

// An ask for all rows, two at a time.
const ASK: Call = Call {
    offset: 0,
    soft: 2,
    hard: u64::MAX,
};

fn asked(number: u64, link: u64) -> LogEntry {
    LogEntry::Sent {
        number,
        link,
        what: Sort::Ask(ASK),
    }
}

// On which link the message at a place was, which is taken.
fn link_of(net: &mut Net, place: u64) -> Option<u64> {
    let Delivered { link, message: _ } = net.deliver(place)?;
    Some(link)
}

fn is_log(net: Net, entries: &[LogEntry]) -> bool {
    net.into_log().as_slice() == entries
}

// Two links with an ask on each, of which the newer is taken first.
fn crossed(alloc: Global) -> Result<bool, OutOfMemory> {
    let mut net = Net::new(alloc, ASK.soft);
    let links = [net.first(Message::Ask(ASK))?, net.first(Message::Ask(ASK))?];
    let before = net.in_flight();
    let taken = [
        link_of(&mut net, 1),
        link_of(&mut net, 0),
        link_of(&mut net, 0),
    ];
    let entries = [
        asked(0, 0),
        asked(1, 1),
        LogEntry::Taken { number: 1 },
        LogEntry::Taken { number: 0 },
    ];
    Ok(
        links == [0, 1]
            && before == 2
            && taken == [Some(1), Some(0), None]
            && net.in_flight() == 0
            && is_log(net, &entries),
    )
}

// An ask on a link, and the reply that there is no row.
fn answered(alloc: Global) -> Result<bool, OutOfMemory> {
    let mut net = Net::new(alloc, ASK.soft);
    let link = net.first(Message::Ask(ASK))?;
    let Some(_) = net.deliver(0) else {
        return Ok(false);
    };
    let number = net.send(link, Message::Reply(nothing(alloc, Progress::Done)))?;
    let entries = [
        asked(0, 0),
        LogEntry::Taken { number: 0 },
        LogEntry::Sent {
            number: 1,
            link: 0,
            what: Sort::Reply {
                skipped: 0,
                rows: 0,
                progress: Progress::Done,
            },
        },
    ];
    Ok(number == 1 && net.log() == entries.as_slice() && is_log(net, &entries))
}

// The lines of a log, each kind of entry once.
fn written(alloc: Global) -> Result<bool, OutOfMemory> {
    let part = Call {
        offset: 3,
        soft: 2,
        hard: 40,
    };
    let sorts = [
        Sort::Ask(ASK),
        Sort::Ask(part),
        Sort::Reply {
            skipped: 0,
            rows: 2,
            progress: Progress::HasMore,
        },
        Sort::Reply {
            skipped: 5,
            rows: 0,
            progress: Progress::Done,
        },
    ];
    let mut log = Vec::new(alloc);
    for (number, what) in (0..).zip(sorts) {
        log.push(LogEntry::Sent {
            number,
            link: 12,
            what,
        })?;
    }
    log.push(LogEntry::Taken { number: u64::MAX })?;
    let text = log_text(alloc, &log)?;
    Ok(
        text.as_slice()
            == b"send 0 12 ask 0 2 -\nsend 1 12 ask 3 2 40\nsend 2 12 reply 0 2 more\n\
             send 3 12 reply 5 0 done\ntake 18446744073709551615\n"
                .as_slice(),
    )
}

// What a picker picks, one after the other, among so many.
fn are_picked<P: Picker>(picker: &mut P, among: &[(u64, u64)]) -> bool {
    for (n, place) in among {
        if *n == 0 || picker.pick(*n) != *place {
            return false;
        }
    }
    true
}

fn by_list(alloc: Global, numbers: &[u64], among: &[(u64, u64)]) -> Result<bool, OutOfMemory> {
    let mut picks = Picks::new(alloc);
    for number in numbers {
        picks.push(*number)?;
    }
    Ok(are_picked(&mut ListPicker::new(picks), among))
}

#[test]
fn asks_cross(rt: HostRuntime) {
    assert!(rt; crossed(rt.alloc()) == Ok(true));
}

#[test]
fn ask_is_answered(rt: HostRuntime) {
    assert!(rt; answered(rt.alloc()) == Ok(true));
}

#[test]
fn log_is_written(rt: HostRuntime) {
    assert!(rt; written(rt.alloc()) == Ok(true));
}

// Worked out apart, by whole numbers without a bound.
#[test]
fn schedules_pick(rt: HostRuntime) {
    for (seed, picks) in [
        (0, [0, 0, 0, 0, 0, 0]),
        (1, [2, 0, 1, 2, 4, 3]),
        (7, [2, 2, 3, 1, 5, 3]),
        (u64::MAX, [1, 2, 2, 2, 4, 3]),
    ] {
        let mut schedule = Schedule::new(seed);
        for (n, place) in [3, 3, 5, 7, 10, 4].into_iter().zip(picks) {
            assert!(rt; schedule.pick(n) == place, "{seed} among {n}");
        }
    }
}

#[test]
fn lists_pick(rt: HostRuntime) {
    let alloc = rt.alloc();
    let among = [(4, 3), (2, 1), (9, 0), (1, 0)];
    assert!(rt; by_list(alloc, &[7, 3], &among) == Ok(true));
    assert!(rt; by_list(alloc, &[], &[(5, 0)]) == Ok(true));
    assert!(rt; by_list(alloc, &[u64::MAX], &[(10, 5), (10, 0)]) == Ok(true));
}
