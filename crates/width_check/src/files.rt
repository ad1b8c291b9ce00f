//! The core file of a tree, or the first check of its processes that fails.
ghost use Rattle.std.specs.Prelude.{◌≡◌, ◌⊎◌, ◌≤◌, None, Some, IsTrue, length, map, bytes_eq, MatchResult};
ghost use Rattle.anvil_tree.specs.Few.{IsFew, most_parts};
ghost use Rattle.anvil_tree.specs.Order.{ActsNeverFall};
ghost use Rattle.anvil_tree.specs.View.{file_of};
ghost use Rattle.core_term.specs.Names.{has_no_twice};
ghost use Rattle.core_term.specs.declared.process.CoreProc.{CoreProc};
ghost use Rattle.first_check.specs.Check.{first_refusal};
ghost use Rattle.channel_classes.specs.Classes.{classes_of};
ghost use Rattle.channel_classes.specs.ClassChecks.{checks_of_classes};
ghost use Rattle.core_file.specs.CoreFile.{placed_of};
ghost use Rattle.core_file.specs.IsCoreFile.{IsCoreFileOf};
ghost use Rattle.core_file.specs.ProcessChecks.{checks_of_processes};
ghost use Rattle.core_file.specs.declared.error.NameErr.TheVariants.{NoMemory};

use crate::process::read_process;
use anvil_tree::{File, Item};
use channel_classes::Classes;
use core_file::NameErr;
use core_term::CoreFile;
use expr_check::push;
use indexmap::IndexSet;
use std::alloc::Global;

/// The core file of a file whose classes these are, or the first check of its processes that fails.
///
/// Needs a file within the limits whose classes pass, with the acts of each thread in the order of their places. Beside the
/// checks it refuses only where memory is refused.
pub fn resolve(alloc: Global, file: &File, classes: &Classes) -> Result<CoreFile, NameErr>
    requires classes { classes.now ≡ classes_of (file_of file.now) }
    requires pass { first_refusal (checks_of_classes (file_of file.now)) ≡ None }
    requires few { IsFew (file_of file.now) }
    requires in_order { ActsNeverFall (file_of file.now) }
    ensures { MatchResult result
        (λ core. (first_refusal (checks_of_processes (classes_of (file_of file.now)) (file_of file.now)) ≡ None)
        × IsCoreFileOf (file_of file.now) (map placed_of core.procs.items)
        × (length core.procs.items ≤ most_parts)
        × IsTrue (has_no_twice bytes_eq (map (λ (process : CoreProc). process.name) core.procs.items)))
        (λ fault. (fault ≡ NoMemory)
        ⊎ (first_refusal (checks_of_processes (classes_of (file_of file.now)) (file_of file.now)) ≡ Some fault)) }
{
    let mut names = IndexSet::new(alloc);
    let mut procs = Vec::new(alloc);
    for item in &file.items {
        match item {
            Item::Chan(_) => {}
            Item::Proc(process) => match read_process(alloc, process, classes, &names) {
                Ok(read) => match names.insert(process.name.copy()) {
                    Ok(_) => match push(&mut procs, read) {
                        Ok(()) => {}
                        Err(_) => {
                            drop((names, procs));
                            return Err(NameErr::NoMemory);
                        }
                    },
                    Err(_) => {
                        drop((names, procs, read));
                        return Err(NameErr::NoMemory);
                    }
                },
                Err(fault) => {
                    drop((names, procs));
                    return Err(fault);
                }
            },
        }
    }
    drop(names);
    Ok(CoreFile { procs })
}
