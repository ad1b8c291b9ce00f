//! Why a file is refused.
ghost use Rattle.std.specs.Prelude.{◌≡◌};
ghost use Rattle.core_term.specs.AcceptedFile.{file_of};
ghost use Rattle.timing_check.specs.OfFile.{IsFirstInFile};
ghost use Rattle.timing_check.specs.Refusal.{IsCause, IsPlace};

use crate::files::InFile;
use core_term::{CoreFile, Rule};
use thiserror::Error;

/// Why a file is not accepted.
#[derive(Clone, Copy, Debug, PartialEq, Eq, Error)]
pub enum TimingErr {
    /// Exactly where the file has violations: the rule of the first of them, and the places of its two acts.
    #[error("a timing rule is broken")]
    Rejected {
        /// The rule.
        rule: Rule,
        /// The place of the first act, as a byte offset in the source.
        first: u32,
        /// The place of the second act.
        second: u32,
    },
    /// There is no memory.
    #[error("no memory")]
    NoMemory,
}

/// The refusal that tells the first violation of a file.
pub fn refusal(file: &CoreFile, found: &InFile) -> TimingErr
    requires { IsFirstInFile (file_of file.now.procs.items) found.now }
    ensures { IsCause file.now.procs.items result }
{
    let thread = &file.procs[found.process].threads[found.found.thread as usize];
    let _body = thread.body();
    let violation = found.found.violation;
    TimingErr::Rejected {
        rule: violation.rule,
        first: thread.place(violation.first),
        second: thread.place(violation.second),
    }
}
