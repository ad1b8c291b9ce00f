//! Laws of the re-reading run, each the contract of a function that does nothing.
ghost use Rattle.run_laws.specs.AgreementLaws.{LogsAreSame, PromisesBreakAlike, RereadingAgrees};

/// While the promises of the received ports are kept, the run that reads each value again in each cycle of its use agrees with
/// the source run of an accepted process.
pub fn rereading_agrees()
    ensures { RereadingAgrees }
{}

/// Where the promises of the received ports were kept before a cycle, each breaks there in both runs or in neither.
pub fn promises_break_alike()
    ensures { PromisesBreakAlike }
{}

/// The first broken promise falls in the same cycle and on the same port in both runs, and the logs before it are one text.
pub fn logs_are_same()
    ensures { LogsAreSame }
{}
