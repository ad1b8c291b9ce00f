//! The law of both counts, as the contract of a function that does nothing.
ghost use Rattle.run_counts.specs.CountLaws.{CountsAgree};

/// A module that agrees with the source run of its process counts what that run does, while every promise is kept.
pub fn module_counts_agree()
    ensures { CountsAgree }
{}
