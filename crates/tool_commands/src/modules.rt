//! The modules of the processes of an accepted file.
ghost use Rattle.std.specs.Prelude.{◌≡◌, ◌≢◌, ◌⊎◌, ◌≤◌, ◌^◌, length, IfErr, IfOk, MatchResult};
ghost use Rattle.core_term.specs.AcceptedFile.{file_of};
ghost use Rattle.checked_files.specs.Check.{IsAcceptedText, IsCheckRefused};
ghost use Rattle.tool_stages.specs.Output.{AreModules, AreModulesOf};

use checked_files::accepted_of_bytes;
use fsm_builder::{CoreProc, SvModule, build};
use std::alloc::{AllocError, Global};
use tool_answers::Refusal;

// The modules of processes, in their order.
fn modules_of(alloc: Global, procs: &[CoreProc]) -> Result<Vec<SvModule>, AllocError>
    ensures { IfOk result (λ modules. AreModules (file_of procs.now) modules.items) }
{
    let mut modules = Vec::new(alloc);
    for proc in procs {
        modules.push(build(alloc, proc)?)?;
    }
    Ok(modules)
}

/// The modules of the processes of the accepted file that the bytes spell, or why there are none.
pub(crate) fn modules_of_bytes(alloc: Global, bytes: &[u8]) -> Result<Vec<SvModule>, Refusal>
    requires { length bytes.now ≤ 2 ^ 20 }
    ensures modules { IfOk result (λ modules. AreModulesOf bytes.now modules.items) }
    ensures refused { IfErr result (λ refusal. refusal ≢ Refusal.NoMemory → IsCheckRefused bytes.now refusal) }
    ensures every_refusal { (refusal : Refusal) → IsCheckRefused bytes.now refusal
        → MatchResult result (λ _. ⊥) (λ found. (found ≡ refusal) ⊎ (found ≡ Refusal.NoMemory)) }
    ensures every_file { IsAcceptedText bytes.now → IfErr result (λ refusal. refusal ≡ Refusal.NoMemory) }
{
    let accepted = match accepted_of_bytes(alloc, bytes) {
        Ok(accepted) => accepted,
        Err(refusal) => return Err(refusal),
    };
    match modules_of(alloc, &accepted.file().procs) {
        Ok(modules) => Ok(modules),
        Err(_) => Err(Refusal::NoMemory),
    }
}
