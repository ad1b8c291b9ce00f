//! Laws of the meaning of modules, each the contract of a function that does nothing.
ghost use Rattle.machine_meaning.specs.Meaning.{MachinesGiveMeaning, ModuleLogsAreSame, ModulesAgree};

/// A module that shows a machine of the process means its re-reading run.
pub fn machines_give_meaning()
    ensures { MachinesGiveMeaning }
{}

/// A module that means the re-reading run of a process that keeps the timing rules agrees with the source run while promises
/// are kept.
pub fn modules_agree()
    ensures { ModulesAgree }
{}

/// Its first broken promise is that of the source run, and so is its log of the cycles before.
pub fn module_logs_are_same()
    ensures { ModuleLogsAreSame }
{}
