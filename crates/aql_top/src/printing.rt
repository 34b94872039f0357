//! What is printed of a run.

ghost use Rattle.std.specs.Prelude.{◌≡◌, ◌++◌, [], IfOk, OnOk, ℕ, cond, string_bytes};
ghost use Rattle.aql_net.specs.LogText.{log_text};
ghost use Rattle.aql_top.specs.Forms.{answer_text};
ghost use Rattle.aql_top.specs.Output.{run_text, rows_text, stats_text};

use aql_block::Tally;
use aql_engine::Ran;
use aql_net::{LogEntry, log_text};
use aql_options::Settings;
use aql_value::{Items, OutOfMemory, write_json};
use std::alloc::Global;

// The lines of the values, or their size, and then the log and the counts where they are asked for.
pub(crate) fn run_text(
    alloc: Global,
    settings: &Settings,
    ran: &Ran,
) -> Result<Vec<u8>, OutOfMemory>
    ensures { IfOk result (λ text. text.items ≡ run_text settings.now ran.now) }
{
    let mut text = rows_text(alloc, settings.generate, &ran.values)?;
    add_log(alloc, settings.trace, ran.log.as_slice(), &mut text)?;
    add_counts(alloc, settings.stats, &ran.tally, &mut text)?;
    Ok(text)
}

fn add_log(
    alloc: Global,
    wanted: bool,
    log: &[LogEntry],
    text: &mut Vec<u8>,
) -> Result<(), OutOfMemory>
    ensures { OnOk result
        (text.new.items ≡ text.old.items ++ cond wanted (log_text log.now) []) }
{
    if !wanted {
        return Ok(());
    }
    let lines = log_text(alloc, log)?;
    text.extend_from_slice(&lines)?;
    Ok(())
}

fn add_counts(
    alloc: Global,
    wanted: bool,
    tally: &Tally,
    text: &mut Vec<u8>,
) -> Result<(), OutOfMemory>
    ensures { OnOk result
        (text.new.items ≡ text.old.items ++ cond wanted (stats_text tally.now) []) }
{
    if !wanted {
        return Ok(());
    }
    let line = stats_line(alloc, tally)?;
    text.extend_from_slice(line.as_bytes())?;
    Ok(())
}

fn rows_text(alloc: Global, generate: Option<u32>, values: &Items) -> Result<Vec<u8>, OutOfMemory>
    ensures { IfOk result (λ text. text.items ≡ rows_text generate values.now) }
{
    let lines = lines(alloc, values)?;
    match generate {
        None => Ok(lines),
        Some(_) => {
            let (rows, bytes) = (values.len(), lines.len());
            let text = format!(in alloc; "rows {rows}\nbytes {bytes}\n")?;
            Ok(text.into_bytes())
        }
    }
}

fn stats_line(alloc: Global, tally: &Tally) -> Result<String, OutOfMemory>
    ensures { IfOk result (λ line. string_bytes line ≡ stats_text tally.now) }
{
    let Tally {
        scanned_full,
        scanned_index,
        filtered,
    } = *tally;
    Ok(format!(in alloc;
        "stats scannedFull={scanned_full} scannedIndex={scanned_index} filtered={filtered}\n"
    )?)
}

// The lines of a list of values.
fn lines(alloc: Global, values: &Items) -> Result<Vec<u8>, OutOfMemory>
    ensures { IfOk result (λ text. text.items ≡ answer_text values.now) }
{
    let mut text = Vec::new(alloc);
    for value in values.as_slice() {
        write_json(value, &mut text)?;
        text.push(b'\n')?;
    }
    Ok(text)
}
