//! The script of a run.

ghost use Rattle.std.specs.Prelude.{◌≡◌, ◌≢◌, ◌⊎◌, ◌≤◌, ⊤, ℕ, Option, Some, None, IfOk, IfErr, OnOk, IfSome, MatchOption, length};
ghost use Rattle.std.specs.Io.KnownBytes.{IsAtEnd};
ghost use Rattle.aql_io.specs.Bytes.{HandsOut};
ghost use Rattle.aql_options.specs.Generated.{generated};
ghost use Rattle.aql_script.specs.Script.{IsScript, HasFault};
ghost use Rattle.aql_script.specs.declared.faults.LoadFault.{LoadFault};
ghost use Rattle.aql_top.specs.Forms.{made_or_left};
ghost use Rattle.aql_top.specs.Faults.{LeadsBy, status_of};
ghost use Rattle.aql_top.specs.Reasons.{RoseWhere};

use crate::faults::RunFault;
use aql_io::Source;
use aql_options::generate;
use aql_script::{LoadFault, Loaded, load, load_bytes};
use std::alloc::Global;

// Loads the script of the source, or one that is made.
pub(crate) fn load_script<S: Source>(
    alloc: Global,
    made: Option<u32>,
    source: &mut S,
) -> Result<Loaded, RunFault>
    requires { MatchOption made ⊤ (λ n. (1 ≤ n) × (n ≤ 100000)) }
    ensures script { IfOk result (λ l.
        IfSome (made_or_left made (S.left source.old)) (λ bytes. IsScript bytes l)) }
    ensures end { OnOk result (made ≡ None → IsAtEnd (S.left source.new)) }
    ensures quiet { OnOk result (S.faults source.new ≡ S.faults source.old) }
    ensures leads { IfErr result
        (λ fault. LeadsBy fault (made_or_left made (S.left source.old))) }
    ensures reads { IfErr result (λ fault.
        RoseWhere (status_of fault ≡ 6) (S.faults source.old) (S.faults source.new)) }
    ensures within { IfErr result (λ fault. status_of fault ≡ 6
        → HandsOut (S.left source.old) (S.left source.new) (λ taken. length taken ≤ 67108864)) }
    ensures early { IfErr result (λ fault. status_of fault ≢ 7) }
    ensures unread { (n : ℕ) → made ≡ Some n → source.new ≡ source.old }
    ensures no_read { IfErr result (λ fault. status_of fault ≡ 6 → made ≡ None) }
{
    match made {
        None => load_source(alloc, source),
        Some(n) => load_made(alloc, n),
    }
}

// Loads the script of the source.
#[tactic(auto, using(crate::proofs::Loading::load_leads, crate::proofs::Loading::load_reads, crate::proofs::Loading::load_status, crate::proofs::Loading::whole_script, crate::proofs::Loading::load_within))]
fn load_source<S: Source>(alloc: Global, source: &mut S) -> Result<Loaded, RunFault>
    ensures script { IfOk result
        (λ l. IfSome (S.left source.old) (λ bytes. IsScript bytes l)) }
    ensures end { OnOk result (IsAtEnd (S.left source.new)) }
    ensures quiet { OnOk result (S.faults source.new ≡ S.faults source.old) }
    ensures leads { IfErr result (λ fault. LeadsBy fault (S.left source.old)) }
    ensures reads { IfErr result (λ fault.
        RoseWhere (status_of fault ≡ 6) (S.faults source.old) (S.faults source.new)) }
    ensures within { IfErr result (λ fault. status_of fault ≡ 6
        → HandsOut (S.left source.old) (S.left source.new) (λ taken. length taken ≤ 67108864)) }
    ensures early { IfErr result (λ fault. status_of fault ≢ 7) }
{
    Ok(load(alloc, source)?)
}

// Makes a script, and loads it.
#[tactic(auto, using(crate::proofs::Loading::made_leads, crate::proofs::Loading::made_status))]
fn load_made(alloc: Global, n: u32) -> Result<Loaded, RunFault>
    requires { (1 ≤ n) × (n ≤ 100000) }
    ensures script { IfOk result (IsScript (generated n)) }
    ensures leads { IfErr result (λ fault. LeadsBy fault (Some (generated n))) }
    ensures early { IfErr result (λ fault. (status_of fault ≢ 6) × (status_of fault ≢ 7)) }
{
    let bytes = generate(alloc, n)?;
    Ok(load_bytes(alloc, &bytes)?)
}
