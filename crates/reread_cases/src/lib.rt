//! A worked re-reading run, with a `recv`, an `if` and a `send`.
#![tactic(auto)]

ghost use Rattle.reread_cases.specs.Answering.{ReadingAgainIsMet};

/// What is asked of a re-reading run can be met by a process that receives, decides and sends.
pub fn reading_again_is_met()
    ensures { ReadingAgainIsMet }
{}
