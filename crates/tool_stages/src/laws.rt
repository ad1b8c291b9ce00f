//! The law on answers and that on logs, each the contract of a function that does nothing.
ghost use Rattle.tool_stages.specs.Laws.{HasOneAnswer};
ghost use Rattle.tool_stages.specs.SameLog.{LogsAreOne};

/// Where the shelf tells what is loaded and no fault rises, at most one answer has its cause, with one line: the words have no
/// form, a file is too long, a stage refuses, or none does. Want of memory has no cause and may take the place of any.
pub fn has_one_answer()
    ensures { HasOneAnswer }
{}

/// `runsv` of the text that `compile` wrote for a file puts what `run` puts, for every process of the file and every stimulus: the same
/// whole log, or the same log up to the same first broken promise.
pub fn logs_are_one()
    ensures { LogsAreOne }
{}
