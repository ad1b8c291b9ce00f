//! The law of both logs, as the contract of a function that does nothing.
ghost use Rattle.module_log.specs.Agree.{ModuleLogsAgree};

/// The log of a module that means a process is that of its source run: both see the same first broken promise, and give the same
/// lines up to each cycle before which promises are kept.
pub fn module_logs_agree()
    ensures { ModuleLogsAgree }
{}
