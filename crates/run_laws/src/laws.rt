//! Laws over the definitions, each the contract of a function that does nothing.
ghost use Rattle.run_laws.specs.Accepted.{CoreProcessIsProcess, NoViolationsKeepsDemands};
ghost use Rattle.core_term.specs.Acts.{EachSiteHasAnAct};
ghost use Rattle.core_term.specs.Fitting.{RowsGiveFittingInputs};
ghost use Rattle.run_laws.specs.OneRun.{EachHasOneRun, RunsAgreeWhileRowsDo};
ghost use Rattle.run_laws.specs.Shown.{ShownTells};

/// Each process has exactly one run on an input list: what is found cycle by cycle is a history of its registers, and any other
/// is the same in each cycle of the list and the one after it.
pub fn each_has_one_run()
    ensures { EachHasOneRun }
{}

/// Where two input lists have the same rows before a cycle, the runs on them have the same wires before that cycle, and the
/// same registers up to it.
pub fn runs_agree_while_rows_do()
    ensures { RunsAgreeWhileRowsDo }
{}

/// The list of violations of a file is empty exactly where each of its threads keeps each of its demands.
pub fn no_violations_keeps_demands()
    ensures { NoViolationsKeepsDemands }
{}

/// A core process that is sized and owned, with bodies that are numbered and tail-stepped, stands for a process of the
/// definitions.
pub fn core_process_is_process()
    ensures { CoreProcessIsProcess }
{}

/// A log line shows the data of a sent port exactly where the port is offered or in the life of one of its exchanges.
pub fn shown_tells()
    ensures { ShownTells }
{}

/// Rows that fit the ports of a process are an input list whose data fit.
pub fn rows_give_fitting_inputs()
    ensures { RowsGiveFittingInputs }
{}

/// Each number below the count of its acts is the site of an act of a numbered body.
pub fn each_site_has_an_act()
    ensures { EachSiteHasAnAct }
{}
