//! Laws over the files that pass all checks, each the contract of a function that does nothing.
ghost use Rattle.first_check.specs.Laws.{FirstRefusalFailsFirst};
ghost use Rattle.core_file.specs.declared.error.NameErr.{NameErr};
ghost use Rattle.core_file.specs.CoreFileLaws.{CoreFileIsOne, EachHasCoreFile};
ghost use Rattle.core_file.specs.Laws.{ProcessesAreFewAndDiffer, ProcessesAreSizedAndOwned, ThreadsHaveBodies};

use crate::NameErr;

/// The first refusal of the processes of a file is that of the one check that fails while all before it hold.
pub fn first_refusal_fails_first()
    ensures { FirstRefusalFailsFirst NameErr }
{
    first_check::laws::first_refusal_fails_first::<NameErr>();
}

/// A tree in which no check of the processes fails has a core file.
pub fn each_has_core_file()
    ensures { EachHasCoreFile }
{}

/// A tree that has a core file has no other, and no check of its processes fails.
pub fn core_file_is_one()
    ensures { CoreFileIsOne }
{}

/// In a file that passes, what stands for the core term of a thread is numbered and tail-stepped, its cycles take time, its
/// places never fall, and it has at most 512 acts: all that a thread asks of its body.
pub fn threads_have_bodies()
    ensures { ThreadsHaveBodies }
{}

/// In a file that passes, what stands for the core process of a process is sized and owned: all that a process asks of its
/// parts.
pub fn processes_are_sized_and_owned()
    ensures { ProcessesAreSizedAndOwned }
{}

/// The processes of a file that passes are at most 64, and no two of them have one name.
pub fn processes_are_few_and_differ()
    ensures { ProcessesAreFewAndDiffer }
{}
