//! The first violation of a process, and of a file.
ghost use Rattle.std.specs.Prelude.{◌≡◌, length, IfOk};
ghost use Rattle.core_term.specs.AcceptedFile.{file_of, process_in};
ghost use Rattle.timing_check.specs.OfFile.{IsFirstOfFile, IsFirstOfProcess};

use crate::threads::first_of_thread;
use core_term::{CoreProc, Violation};
use std::alloc::{AllocError, Global};

/// A violation of a process.
#[derive(Clone, Copy, Debug, PartialEq, Eq)]
pub struct InProcess {
    /// The number of the thread.
    pub thread: u32,
    pub violation: Violation,
}

/// A violation of a file.
#[derive(Clone, Copy, Debug, PartialEq, Eq)]
pub struct InFile {
    /// The number of the process.
    pub process: usize,
    pub found: InProcess,
}

/// The first violation of a file, or None where it has none.
///
/// Refuses only where memory is refused.
pub fn first_of_file(alloc: Global, procs: &[CoreProc]) -> Result<Option<InFile>, AllocError>
    ensures { IfOk result (λ first. IsFirstOfFile (file_of procs.now) first) }
{
    for process in 0..procs.len() {
        if let Some(found) = first_of_process(alloc, &procs[process])? {
            return Ok(Some(InFile { process, found }));
        }
    }
    Ok(None)
}

/// The first violation of a process.
fn first_of_process(alloc: Global, proc: &CoreProc) -> Result<Option<InProcess>, AllocError>
    ensures { IfOk result (λ first. IsFirstOfProcess (process_in proc.now) first) }
{
    for thread in 0..thread_count(proc) {
        if let Some(violation) = first_of_thread(alloc, proc, thread)? {
            return Ok(Some(InProcess { thread, violation }));
        }
    }
    Ok(None)
}

/// How many threads a process has.
fn thread_count(proc: &CoreProc) -> u32
    ensures { result ≡ length proc.now.threads.items }
{
    proc.threads.len() as u32
}
