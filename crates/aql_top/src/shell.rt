//! The top call: words, loading, what is printed of the script, writing.

ghost use Rattle.std.specs.Prelude.{◌≡◌, ◌≢◌, ◌⊎◌, ◌↔◌, ◌≤◌, ⊤, ℕ, List, None, Some, true, IfOk, IfErr, OnOk, IfSome, IsSome, IsSomeAnd, IsTrue, MatchOption, length, string_bytes};
ghost use Rattle.std.specs.Io.KnownBytes.{Appends, IsAtEnd};
ghost use Rattle.aql_io.specs.Bytes.{AppendsPrefix, HandsOut};
ghost use Rattle.aql_options.specs.Words.{Words};
ghost use Rattle.aql_options.specs.declared.settings.Settings.{Settings};
ghost use Rattle.aql_top.specs.Forms.{TakesWords, Gives, Explains, Generates, Accepts, script_bytes};
ghost use Rattle.aql_top.specs.Output.{Prints, AddsAtMostOne};
ghost use Rattle.aql_top.specs.Reasons.{fault_status, query_status, Deserves, IsTextOf, as_line, Tells, RoseWhere};
ghost use Rattle.aql_top.specs.Faults.{Leads, LeadsBy, status_of, line_of, IsMade};
ghost use Rattle.aql_top.specs.declared.faults.RunFault.TheVariants.{Memory};

use crate::faults::RunFault;
use crate::output::output;
use crate::scripts::load_script;
use crate::{QueryFault, query_fault_text};
use aql_engine::Engine;
use aql_io::{Sink, Source, write_all};
use aql_net::Schedule;
use aql_options::{Settings, WordsFault, parse_words};
use aql_script::{LoadFault, fault_text};
use aql_value::{Names, OutOfMemory, Text};
use std::alloc::Global;

/// All that the program does: it reads the settings off the words, loads the script from the
/// source, reads the script's query, has the engine run the plan that the optimiser chooses, writes
/// the lines of the values that came of it to `out`, which are one answer of the query, and answers
/// the exit status. The documents are on as many servers as the settings say, and the messages
/// between these are delivered by the schedule of the settings. By the settings it prints the log of
/// the run and its counts after the answer's lines, or the plan alone and runs nothing, or makes the
/// script and prints how many rows and bytes the answer's lines are. With status 0 nothing is written
/// to `err`; with any other status one line is.
///
/// | Status | It comes |
/// |---|---|
/// | 0 | where the whole text was written |
/// | 2 | exactly where no settings go with the words, unless memory runs out |
/// | 3 | exactly where the first fault is in a line of the script (*) |
/// | 4 | exactly where it is in the query: in its tokens, grammar, names or settings (*) |
/// | 5 | exactly where it is a limit that the script or the query exceeds (*) |
/// | 6 | only where a read failed, before more than a script's bytes were handed out |
/// | 7 | only where a write to `out` failed; the front of the text was written |
/// | 8 | where memory ran out, and nothing was written to `out` |
///
/// (*) unless a read fails or memory runs out. The faults of the script come before those of its
/// query. Where the script is made, only 0, 7 and 8 come. With any status but 0 and 7 nothing is
/// written to `out`. A failed write to `err` changes nothing.
pub fn run_shell<S: Source, K: Sink, E: Sink, G: Engine<Schedule>>(
    alloc: Global,
    words: &Names,
    source: &mut S,
    out: &mut K,
    err: &mut E,
    engine: &mut G,
) -> u8
    // 0: exactly the text was written that goes with the settings of the words, and the source was
    // read to its end, unless the script was made.
    ensures printed { (result ≡ 0) → Gives words.now (λ settings. Prints settings
        (S.left source.old) (G.entries engine.old) (G.entries engine.new)
        (Appends (K.written out.old) (K.written out.new))
        × (settings.generate ≡ None → IsAtEnd (S.left source.new))) }
    ensures quiet { (result ≡ 0) → err.new ≡ err.old }

    // 7: a write to the output failed, and the front of such a text was written.
    ensures front { (result ≡ 7) → Gives words.now (λ settings. Prints settings
        (S.left source.old) (G.entries engine.old) (G.entries engine.new)
        (AppendsPrefix (K.written out.old) (K.written out.new))) }
    ensures untouched { (result ≢ 0) → (result ≢ 7) → out.new ≡ out.old }

    // 2: the words are refused, before anything is read. A script that is made is not read.
    ensures bad_words { (result ≡ 8) ⊎ ((result ≡ 2) ↔ (TakesWords words.now → ⊥)) }
    ensures unread { (result ≡ 2) ⊎ Generates words.now → source.new ≡ source.old }

    // Each status but 0 has its text: 3, 4 and 5 the one that the bytes of the script deserve.
    ensures line { (result ≢ 0) → (text : List ℕ)
        × (Gives words.now (λ settings.
        Deserves (script_bytes settings (S.left source.old)) result text)
        ⊎ IsTextOf result text)
        × Tells (as_line text) (E.written err.old) (E.written err.new)
        (E.faults err.old) (E.faults err.new) }

    // What the bytes deserve comes, unless a read fails or memory runs out; where nothing stands
    // against them, the text comes, unless a write fails too.
    ensures refused { (settings : Settings) (status : ℕ) (text : List ℕ) → Words words.now settings
        → IsSome (script_bytes settings (S.left source.old))
        → Deserves (script_bytes settings (S.left source.old)) status text
        → (result ≡ status) ⊎ ((result ≡ 6) ⊎ (result ≡ 8)) }
    ensures complete { (settings : Settings) → Words words.now settings
        → IsSomeAnd (script_bytes settings (S.left source.old)) Accepts
        → (result ≡ 0) ⊎ ((result ≡ 6) ⊎ ((result ≡ 7) ⊎ (result ≡ 8))) }
    // Of a script that is made the text comes, unless a write fails or memory runs out.
    ensures made { Generates words.now → (result ≡ 0) ⊎ ((result ≡ 7) ⊎ (result ≡ 8)) }

    // With 8 the engine's list has at most the one entry of a run; with 0 and 7 what stands there
    // says it, and else the engine was not called. A plan that is explained is not run.
    ensures at_most { (result ≡ 8) → (G.entries engine.new ≡ G.entries engine.old)
        ⊎ Gives words.now (λ settings. AddsAtMostOne settings
        (S.left source.old) (G.entries engine.old) (G.entries engine.new)) }
    ensures idle { (result ≢ 0) → (result ≢ 7) → (result ≢ 8) → engine.new ≡ engine.old }
    ensures not_run { Explains words.now → engine.new ≡ engine.old }

    // A read fails with 6 alone, and a write to the output with 7 alone.
    ensures read_fault { RoseWhere (result ≡ 6) (S.faults source.old) (S.faults source.new) }
    ensures write_fault { RoseWhere (result ≡ 7) (K.faults out.old) (K.faults out.new) }
    ensures within { (result ≡ 6) → HandsOut (S.left source.old) (S.left source.new)
        (λ taken. length taken ≤ 67108864) }
{
    match run(alloc, words, source, out, engine) {
        Ok(()) => 0,
        Err(fault) => {
            let fault = tell(alloc, fault, err);
            status(&fault)
        }
    }
}

// All but the line on the error output.
#[tactic(auto, using(crate::proofs::Settings::refused_lead, crate::proofs::Settings::all_lead))]
fn run<S: Source, K: Sink, G: Engine<Schedule>>(
    alloc: Global,
    words: &Names,
    source: &mut S,
    out: &mut K,
    engine: &mut G,
) -> Result<(), RunFault>
    ensures accepts { OnOk result (Gives words.now (λ settings.
        IfSome (script_bytes settings (S.left source.old)) Accepts)) }
    ensures prints { OnOk result (Gives words.now (λ settings. Prints settings
        (S.left source.old) (G.entries engine.old) (G.entries engine.new)
        (Appends (K.written out.old) (K.written out.new))
        × (settings.generate ≡ None → IsAtEnd (S.left source.new)))) }
    ensures quiet { OnOk result ((S.faults source.new ≡ S.faults source.old)
        × (K.faults out.new ≡ K.faults out.old)) }
    ensures leads { IfErr result (λ fault. Leads fault words.now (S.left source.old)) }
    ensures reads { IfErr result (λ fault.
        RoseWhere (status_of fault ≡ 6) (S.faults source.old) (S.faults source.new)) }
    ensures within { IfErr result (λ fault. status_of fault ≡ 6
        → HandsOut (S.left source.old) (S.left source.new) (λ taken. length taken ≤ 67108864)) }
    ensures writes { IfErr result (λ fault.
        RoseWhere (status_of fault ≡ 7) (K.faults out.old) (K.faults out.new)) }
    ensures front { IfErr result (λ fault. status_of fault ≡ 7
        → Gives words.now (λ settings. Prints settings (S.left source.old)
        (G.entries engine.old) (G.entries engine.new)
        (AppendsPrefix (K.written out.old) (K.written out.new)))) }
    ensures untouched { IfErr result (λ fault. status_of fault ≢ 7 → out.new ≡ out.old) }
    ensures unread { IfErr result (λ fault. status_of fault ≡ 2 → source.new ≡ source.old) }
    ensures made { Generates words.now → source.new ≡ source.old }
    ensures no_read { IfErr result (λ fault. status_of fault ≡ 6 → Generates words.now → ⊥) }
    ensures at_most { (G.entries engine.new ≡ G.entries engine.old)
        ⊎ Gives words.now (λ settings. AddsAtMostOne settings
        (S.left source.old) (G.entries engine.old) (G.entries engine.new)) }
    ensures idle { IfErr result (λ fault. status_of fault ≢ 7 → status_of fault ≢ 8
        → engine.new ≡ engine.old) }
    ensures not_run { Explains words.now → engine.new ≡ engine.old }
{
    match parse_words(alloc, words) {
        Ok(settings) => run_with(alloc, &settings, source, out, engine),
        Err(WordsFault::Refused) => Err(RunFault::Words),
        Err(WordsFault::Memory) => Err(RunFault::Memory),
    }
}

// The same by the settings of the words.
#[tactic(auto, using(crate::proofs::Loading::accepted, crate::proofs::Loading::printed, crate::proofs::Loading::at_most_one, crate::proofs::Loading::not_called, crate::proofs::Loading::no_lines_lead, crate::proofs::Loading::no_lines_status))]
fn run_with<S: Source, K: Sink, G: Engine<Schedule>>(
    alloc: Global,
    settings: &Settings,
    source: &mut S,
    out: &mut K,
    engine: &mut G,
) -> Result<(), RunFault>
    requires batch { (1 ≤ settings.now.batch) × (settings.now.batch ≤ 10000) }
    requires servers { settings.now.servers ≤ 16 }
    requires made { MatchOption settings.now.generate ⊤ (λ n. (1 ≤ n) × (n ≤ 100000)) }
    ensures accepts { OnOk result
        (IfSome (script_bytes settings.now (S.left source.old)) Accepts) }
    ensures prints { OnOk result (Prints settings.now
        (S.left source.old) (G.entries engine.old) (G.entries engine.new)
        (Appends (K.written out.old) (K.written out.new))) }
    ensures end { OnOk result (settings.now.generate ≡ None → IsAtEnd (S.left source.new)) }
    ensures quiet { OnOk result ((S.faults source.new ≡ S.faults source.old)
        × (K.faults out.new ≡ K.faults out.old)) }
    ensures leads { IfErr result
        (λ fault. LeadsBy fault (script_bytes settings.now (S.left source.old))) }
    ensures reads { IfErr result (λ fault.
        RoseWhere (status_of fault ≡ 6) (S.faults source.old) (S.faults source.new)) }
    ensures within { IfErr result (λ fault. status_of fault ≡ 6
        → HandsOut (S.left source.old) (S.left source.new) (λ taken. length taken ≤ 67108864)) }
    ensures writes { IfErr result (λ fault.
        RoseWhere (status_of fault ≡ 7) (K.faults out.old) (K.faults out.new)) }
    ensures front { IfErr result (λ fault. status_of fault ≡ 7
        → Prints settings.now (S.left source.old) (G.entries engine.old) (G.entries engine.new)
        (AppendsPrefix (K.written out.old) (K.written out.new))) }
    ensures untouched { IfErr result (λ fault. status_of fault ≢ 7 → out.new ≡ out.old) }
    ensures unread { (n : ℕ) → settings.now.generate ≡ Some n → source.new ≡ source.old }
    ensures no_read { IfErr result
        (λ fault. status_of fault ≡ 6 → settings.now.generate ≡ None) }
    ensures at_most { AddsAtMostOne settings.now (S.left source.old)
        (G.entries engine.old) (G.entries engine.new) }
    ensures idle { IfErr result (λ fault. status_of fault ≢ 7 → status_of fault ≢ 8
        → engine.new ≡ engine.old) }
    ensures not_run { settings.now.explain ≡ true → engine.new ≡ engine.old }
{
    let script = load_script(alloc, settings.generate, source)?;
    let text = output(alloc, script, settings, engine)?;
    write_all(out, &text)?;
    Ok(())
}

fn status(fault: &RunFault) -> u8
    ensures { result ≡ status_of fault.now }
{
    match fault {
        RunFault::Words => 2,
        RunFault::Read => 6,
        RunFault::Script(fault) => load_status(*fault),
        RunFault::Query(fault) => query_status(fault),
        RunFault::Write => 7,
        RunFault::Memory => 8,
    }
}

fn load_status(fault: LoadFault) -> u8
    ensures { result ≡ fault_status fault }
{
    match fault {
        LoadFault::Line { .. } => 3,
        LoadFault::Limit(_) => 5,
        LoadFault::Read => 6,
        LoadFault::Memory => 8,
    }
}

fn query_status(fault: &QueryFault) -> u8
    ensures { result ≡ query_status fault.now }
{
    match fault {
        QueryFault::Lexical { .. } | QueryFault::NotInGrammar | QueryFault::Scope(_) => 4,
        QueryFault::TooLong
        | QueryFault::TooDeep
        | QueryFault::TooManyClauses
        | QueryFault::TraversalTooDeep => 5,
        QueryFault::Memory => 8,
    }
}

// The line of a fault, where it needs no memory for it.
fn fixed_line(fault: &RunFault) -> Option<&'static [u8]>
    ensures { MatchOption result (IsMade fault.now) (λ line. line.now ≡ line_of fault.now) }
{
    match fault {
        RunFault::Script(_) | RunFault::Query(_) => None,
        RunFault::Words => Some(b"aql: words\n"),
        RunFault::Read => Some(b"aql: read fault\n"),
        RunFault::Write => Some(b"aql: write fault\n"),
        RunFault::Memory => Some(b"aql: out of memory\n"),
    }
}

// Writes the line of a fault, and gives the fault, or want of memory where the line found none.
fn tell<E: Sink>(alloc: Global, fault: RunFault, err: &mut E) -> RunFault
    ensures line { Tells (line_of result) (E.written err.old) (E.written err.new)
        (E.faults err.old) (E.faults err.new) }
    ensures same { (result ≡ fault) ⊎ ((result ≡ Memory) × IsMade fault) }
{
    match fixed_line(&fault) {
        Some(line) => {
            let _ = write_all(err, line);
            fault
        }
        None => tell_made(alloc, fault, err),
    }
}

// The same where the line is made.
fn tell_made<E: Sink>(alloc: Global, fault: RunFault, err: &mut E) -> RunFault
    requires { IsMade fault }
    ensures line { Tells (line_of result) (E.written err.old) (E.written err.new)
        (E.faults err.old) (E.faults err.new) }
    ensures same { (result ≡ fault) ⊎ ((result ≡ Memory) × IsMade fault) }
{
    match made_line(alloc, &fault) {
        Ok(line) => {
            let _ = write_all(err, line.as_bytes());
            fault
        }
        Err(_) => {
            let _ = write_all(err, b"aql: out of memory\n");
            RunFault::Memory
        }
    }
}

fn made_line(alloc: Global, fault: &RunFault) -> Result<String, OutOfMemory>
    requires { IsMade fault.now }
    ensures { IfOk result (λ line. string_bytes line ≡ line_of fault.now) }
{
    let text = made_text(alloc, fault)?;
    Ok(format!(in alloc; "aql: {}\n", text.as_str())?)
}

fn made_text(alloc: Global, fault: &RunFault) -> Result<Text, OutOfMemory>
    requires { IsMade fault.now }
    ensures { IfOk result (λ text. as_line text ≡ line_of fault.now) }
{
    match fault {
        RunFault::Script(fault) => fault_text(alloc, *fault),
        RunFault::Query(fault) => query_fault_text(alloc, fault),
        _ => unreachable!(),
    }
}
