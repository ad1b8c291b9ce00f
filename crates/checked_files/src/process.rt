//! The process that a command is asked for.
ghost use Rattle.std.specs.Prelude.{◌≡◌, ◌≢◌, ◌⊎◌, ◌≤◌, ◌<◌, ◌^◌, List, ℕ, None, Some, get_or, length, map, IfErr, IfOk, MatchOption, MatchResult};
ghost use Rattle.core_file.specs.CoreFile.{placed_of};
ghost use Rattle.core_term.specs.ProcessView.{process_of};
ghost use Rattle.checked_files.specs.Named.{HasProcess, IsProcessOf, IsProcessRefused, process_named};

use crate::rules::accepted_of_bytes;
use accepted_file::Accepted;
use core_term::{CoreFile, CoreProc};
use std::alloc::Global;
use tool_answers::{Code, Refusal};

// Where the first process of the name stands.
fn find_process(core: &CoreFile, name: &[u8]) -> Option<usize>
    ensures { MatchOption result (process_named name.now (map placed_of core.now.procs.items) ≡ None)
        (λ index. (index < length core.now.procs.items) × ((default : CoreProc)
        → process_named name.now (map placed_of core.now.procs.items)
        ≡ Some (placed_of (get_or core.now.procs.items index default)).process)) }
{
    let procs = core.procs.as_slice();
    for index in 0..procs.len() {
        if procs[index].name.bytes() == name {
            return Some(index);
        }
    }
    None
}

/// A process of an accepted file.
#[derive(Drop)]
pub struct Chosen {
    pub file: Accepted,
    pub index: usize,
}

impl Chosen {
    /// The process.
    pub fn process(&self) -> &CoreProc
        requires { self.now.index < length self.now.file.procs.items }
        ensures { (default : CoreProc) → result.now ≡ get_or self.now.file.procs.items self.now.index default }
    {
        &self.file.file().procs[self.index]
    }
}

/// The process of the name in the accepted file that the bytes spell, or why there is none.
pub fn process_of_bytes(alloc: Global, bytes: &[u8], name: &[u8]) -> Result<Chosen, Refusal>
    requires { length bytes.now ≤ 2 ^ 20 }
    ensures inside { IfOk result (λ chosen. chosen.index < length chosen.file.procs.items) }
    ensures process { IfOk result (λ chosen. (proc : CoreProc)
        → proc ≡ get_or chosen.file.procs.items chosen.index proc
        → IsProcessOf bytes.now name.now
        (process_of proc.name proc.ports.items proc.regs.items proc.threads.items)) }
    ensures refused { IfErr result
        (λ refusal. refusal ≢ Refusal.NoMemory → IsProcessRefused bytes.now name.now refusal) }
    ensures every_refusal { (refusal : Refusal) → IsProcessRefused bytes.now name.now refusal
        → MatchResult result (λ _. ⊥) (λ found. (found ≡ refusal) ⊎ (found ≡ Refusal.NoMemory)) }
    ensures every_process { HasProcess bytes.now name.now → IfErr result (λ refusal. refusal ≡ Refusal.NoMemory) }
{
    let accepted = match accepted_of_bytes(alloc, bytes) {
        Ok(accepted) => accepted,
        Err(refusal) => return Err(refusal),
    };
    match find_process(accepted.file(), name) {
        Some(index) => Ok(Chosen {
            file: accepted,
            index,
        }),
        None => Err(Refusal::Bare {
            code: Code::NoProcess,
        }),
    }
}
