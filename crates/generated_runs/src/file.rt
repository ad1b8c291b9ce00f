//! The summary of the generated file of a number.
ghost use Rattle.std.specs.Prelude.{◌≡◌, ◌≢◌, ◌⊎◌, ◌≤◌, IfErr, IfOk, MatchResult};
ghost use Rattle.checked_files.specs.Check.{IsAcceptedText, IsCheckRefused};
ghost use Rattle.generated_file.specs.Generated.{generated};
ghost use Rattle.generated_runs.specs.Summary.{IsSummed};

use crate::summary::Summary;
use crate::totals::count_all;
use checked_files::accepted_of_bytes;
use generated_file::generate;
use std::alloc::Global;
use tool_answers::Refusal;

/// The generated file of a number checked, each of its processes compiled and its module run on its rows: the summary of that, or
/// why the file is refused.
pub fn summary_of(alloc: Global, count: u32) -> Result<Summary, Refusal>
    requires some { 1 ≤ count }
    requires few { count ≤ 64 }
    ensures summary { IfOk result (IsSummed count) }
    ensures refused { IfErr result (λ refusal. refusal ≢ Refusal.NoMemory → IsCheckRefused (generated count) refusal) }
    ensures every_refusal { (refusal : Refusal) → IsCheckRefused (generated count) refusal
        → MatchResult result (λ _. ⊥) (λ found. (found ≡ refusal) ⊎ (found ≡ Refusal.NoMemory)) }
    ensures every_file { IsAcceptedText (generated count) → IfErr result (λ refusal. refusal ≡ Refusal.NoMemory) }
{
    let bytes = match generate(alloc, count) {
        Ok(bytes) => bytes,
        Err(_) => return Err(Refusal::NoMemory),
    };
    let accepted = match accepted_of_bytes(alloc, &bytes) {
        Ok(accepted) => accepted,
        Err(refusal) => return Err(refusal),
    };
    let counted = count_all(alloc, &accepted.file().procs);
    drop(accepted);
    match counted {
        Ok(totals) => Ok(Summary {
            processes: count,
            bytes: bytes.len(),
            totals,
        }),
        Err(_) => Err(Refusal::NoMemory),
    }
}
