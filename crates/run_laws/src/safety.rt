//! Laws of safety, each the contract of a function that does nothing.
ghost use Rattle.run_laws.specs.SafetyLaws.{AcceptedRunsAreSafe, WithoutViolationsRunsAreSafe};

/// A process that keeps every demand of the timing rules has a safe run for every input list.
pub fn accepted_runs_are_safe()
    ensures { AcceptedRunsAreSafe }
{}

/// Where the list of violations of a file is empty, each of its processes has a safe run for every input list.
pub fn without_violations_runs_are_safe()
    ensures { WithoutViolationsRunsAreSafe }
{}
