//! A log as text.

ghost use Rattle.std.specs.Prelude.{◌≡◌, ◌++◌, IfOk, OnOk, string_bytes};
ghost use Rattle.aql_net.specs.LogText.{hard_text, state_text, sort_text, entry_text, log_text};

use crate::logs::{LogEntry, Sort};
use aql_block::{Call, Progress};
use aql_value::OutOfMemory;
use std::alloc::Global;

fn hard_text(alloc: Global, hard: u64) -> Result<String, OutOfMemory>
    ensures { IfOk result (λ text. string_bytes text ≡ hard_text hard) }
{
    if hard == u64::MAX {
        return Ok(String::from_str(alloc, "-")?);
    }
    Ok(format!(in alloc; "{hard}")?)
}

fn state_text(progress: Progress) -> &'static str
    ensures { result.now ≡ state_text progress }
{
    match progress {
        Progress::Done => "done",
        Progress::HasMore | Progress::Waiting => "more",
    }
}

fn sort_text(alloc: Global, what: Sort) -> Result<String, OutOfMemory>
    ensures { IfOk result (λ text. string_bytes text ≡ sort_text what) }
{
    match what {
        Sort::Ask(call) => {
            let Call { offset, soft, hard } = call;
            let hard = hard_text(alloc, hard)?;
            Ok(format!(in alloc; "ask {offset} {soft} {hard}")?)
        }
        Sort::Reply {
            skipped,
            rows,
            progress,
        } => {
            let state = state_text(progress);
            Ok(format!(in alloc; "reply {skipped} {rows} {state}")?)
        }
    }
}

fn entry_text(alloc: Global, entry: LogEntry) -> Result<String, OutOfMemory>
    ensures { IfOk result (λ text. string_bytes text ≡ entry_text entry) }
{
    match entry {
        LogEntry::Sent { number, link, what } => {
            let what = sort_text(alloc, what)?;
            Ok(format!(in alloc; "send {number} {link} {what}\n")?)
        }
        LogEntry::Taken { number } => Ok(format!(in alloc; "take {number}\n")?),
    }
}

/// The entries of a log as text, a line each: `send M LINK ask OFFSET SOFT HARD`, `send M LINK
/// reply SKIPPED ROWS STATE` or `take M`, where M is the message's number, a HARD for all rows is
/// `-`, and STATE is `more` or `done`.
pub fn log_text(alloc: Global, log: &[LogEntry]) -> Result<Vec<u8>, OutOfMemory>
    ensures { IfOk result (λ text. text.items ≡ log_text log.now) }
{
    let mut text = Vec::new(alloc);
    for entry in log {
        let line = entry_text(alloc, *entry)?;
        text.extend_from_slice(line.as_bytes())?;
    }
    Ok(text)
}
