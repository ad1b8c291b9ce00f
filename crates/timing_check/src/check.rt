//! A file as an accepted one, or its first violation.
ghost use Rattle.std.specs.Prelude.{◌≡◌, IfOk, IfErr, OnOk};
ghost use Rattle.core_term.specs.AcceptedFile.{AllRunSafely, file_of};
ghost use Rattle.core_term.specs.Violations.{HasNoViolations};
ghost use Rattle.timing_check.specs.Refusal.{IsCause};

use crate::TimingErr;
use crate::files::first_of_file;
use crate::refusal::refusal;
use accepted_file::Accepted;
use core_term::CoreFile;
use std::alloc::Global;

/// The file as an accepted one, exactly where its list of violations is empty. Then every run of each of its processes is safe, for every
/// input list of every length. Otherwise the refusal tells the first violation.
///
/// Refuses else only where memory is refused. A file that is refused is given up.
pub fn check_timing(alloc: Global, file: CoreFile) -> Result<Accepted, TimingErr>
    ensures same { IfOk result (λ accepted. accepted ≡ file) }
    ensures empty { OnOk result (HasNoViolations (file_of file.procs.items)) }
    ensures safe { OnOk result (AllRunSafely (file_of file.procs.items)) }
    ensures refused { IfErr result (λ refused. IsCause file.procs.items refused) }
{
    match first_of_file(alloc, &file.procs) {
        Err(_) => Err(TimingErr::NoMemory),
        Ok(None) => Ok(Accepted::of(file)),
        Ok(Some(found)) => Err(refusal(&file, &found)),
    }
}
