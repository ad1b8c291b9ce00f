//! Files that the timing rules accept.
ghost use Rattle.std.specs.Prelude.{◌≡◌};
ghost use Rattle.core_term.specs.Violations.{HasNoViolations};
ghost use Rattle.core_term.specs.AcceptedFile.{file_of, AllRunSafely};

use core_term::CoreFile;
use std::marker::Model;

/// A file without violations. Contracts see it as the file, and know that each run of each of its processes is safe: for every
/// input list, of every length, also where partners break their promises.
#[derive(Drop)]
pub struct Accepted {
    file: CoreFile,
}

impl Model for Accepted {
    ghost use Rattle.std.specs.Coded.{codes};
    ghost use Rattle.core_term.specs.declared.process.CoreFile.{CoreFile};
    ghost use Rattle.core_term.specs.contracts.process.CoreFile as core;
    ghost use Rattle.core_term.specs.Violations.{HasNoViolations};
    ghost use Rattle.core_term.specs.AcceptedFile.{file_of, AllStand};

    ghost Value = { CoreFile };

    ghost coded = { Prim.hlevel (codes, core.the_row.coded) };

    ghost view = { λ a. a.file };

    ghost invariant = { λ a. HasNoViolations (file_of a.file.procs.items) × AllStand a.file.procs.items };
}

impl Accepted {
    /// The file as an accepted one. Its list of violations is empty.
    pub fn of(file: CoreFile) -> Accepted
        requires { HasNoViolations (file_of file.procs.items) }
        ensures same { result ≡ file }
        ensures safe { AllRunSafely (file_of result.procs.items) }
    {
        for proc in file.procs.as_slice() {
            proc.stands();
        }
        Accepted { file }
    }

    /// The file.
    pub fn file(&self) -> &CoreFile
        ensures same { result.now ≡ self.now }
        ensures empty { HasNoViolations (file_of self.now.procs.items) }
        ensures safe { AllRunSafely (file_of self.now.procs.items) }
    {
        &self.file
    }
}
