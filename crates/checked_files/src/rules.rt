//! A file that keeps the timing rules, or why it does not.
ghost use Rattle.std.specs.Prelude.{◌≡◌, ◌≢◌, ◌⊎◌, ◌≤◌, ◌^◌, List, ℕ, length, map, IfErr, IfOk, MatchResult, OnOk};
ghost use Rattle.core_term.specs.AcceptedFile.{AllRunSafely, file_of as processes_of};
ghost use Rattle.core_term.specs.Violations.{HasNoViolations};
ghost use Rattle.checked_files.specs.Check.{IsAcceptedCore, IsAcceptedText, IsCheckRefused};
ghost use Rattle.checked_files.specs.Ruled.{IsRejectedCore};

use crate::faults::code_of;
use crate::front::{Front, core_of_bytes};
use accepted_file::Accepted;
use core_term::CoreFile;
use std::alloc::Global;
use timing_check::{TimingErr, check_timing};
use tool_answers::Refusal;

// The file as an accepted one, or the first of its violations.
fn accepted_of(alloc: Global, core: CoreFile) -> Result<Accepted, Refusal>
    ensures same { IfOk result (λ accepted. accepted ≡ core) }
    ensures accepted { OnOk result (HasNoViolations (processes_of core.procs.items)) }
    ensures safe { OnOk result (AllRunSafely (processes_of core.procs.items)) }
    ensures refused { IfErr result
        (λ refusal. refusal ≢ Refusal.NoMemory → IsRejectedCore core.procs.items refusal) }
{
    match check_timing(alloc, core) {
        Ok(accepted) => Ok(accepted),
        Err(
            TimingErr::Rejected {
                rule,
                first,
                second,
            },
        ) => Err(Refusal::Paired {
            code: code_of(rule),
            at: first,
            other: second,
        }),
        Err(TimingErr::NoMemory) => Err(Refusal::NoMemory),
    }
}

/// The accepted file that the bytes spell, or why they spell none.
pub fn accepted_of_bytes(alloc: Global, bytes: &[u8]) -> Result<Accepted, Refusal>
    requires { length bytes.now ≤ 2 ^ 20 }
    ensures accepted { IfOk result (λ accepted. IsAcceptedCore bytes.now accepted.procs.items) }
    ensures refused { IfErr result (λ refusal. refusal ≢ Refusal.NoMemory → IsCheckRefused bytes.now refusal) }
    ensures every_refusal { (refusal : Refusal) → IsCheckRefused bytes.now refusal
        → MatchResult result (λ _. ⊥) (λ found. (found ≡ refusal) ⊎ (found ≡ Refusal.NoMemory)) }
    ensures every_file { IsAcceptedText bytes.now → IfErr result (λ refusal. refusal ≡ Refusal.NoMemory) }
{
    let Front { tree: _tree, core } = match core_of_bytes(alloc, bytes) {
        Ok(front) => front,
        Err(refusal) => return Err(refusal),
    };
    match accepted_of(alloc, core) {
        Ok(accepted) => Ok(accepted),
        Err(refusal) => Err(refusal),
    }
}
