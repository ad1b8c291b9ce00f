//! The rows of a stimulus.
ghost use Rattle.std.specs.Prelude.{◌≡◌, ◌≢◌, ◌⊎◌, ◌≤◌, IsTrue, List, length, map, IfErr, IfOk, MatchResult};
ghost use Rattle.std.specs.List.{All};
ghost use Rattle.core_term.specs.declared.rows.Row.{Row as RowSeen};
ghost use Rattle.core_term.specs.ProcessView.{port_of};
ghost use Rattle.core_term.specs.Rows.{row_fits};
ghost use Rattle.stim_text.specs.Answers.{AreRowsOf, most_rows};
ghost use Rattle.tool_stages.specs.Logs.{IsStimulusRefused};

use core_term::{CoreProc, Row};
use std::alloc::Global;
use stim_text::{StimErr, read_stim};
use tool_answers::{Code, Refusal};

/// The rows of the text for a process, or why it has none.
pub(crate) fn rows_of_text(alloc: Global, proc: &CoreProc, text: &[u8]) -> Result<Vec<Row>, Refusal>
    ensures rows { IfOk result (λ rows. AreRowsOf (map port_of proc.now.ports.items) text.now rows.items) }
    ensures few { IfOk result (λ rows. length rows.items ≤ most_rows) }
    ensures fit { IfOk result (λ rows.
        All (λ row. IsTrue (row_fits (map port_of proc.now.ports.items) row)) rows.items) }
    ensures refused { IfErr result (λ refusal. refusal ≢ Refusal.NoMemory
        → IsStimulusRefused (map port_of proc.now.ports.items) text.now refusal) }
    ensures every_refusal { (refusal : Refusal)
        → IsStimulusRefused (map port_of proc.now.ports.items) text.now refusal
        → MatchResult result (λ _. ⊥) (λ found. (found ≡ refusal) ⊎ (found ≡ Refusal.NoMemory)) }
    ensures every_rows { (rows : List RowSeen) → AreRowsOf (map port_of proc.now.ports.items) text.now rows
        → IfErr result (λ refusal. refusal ≡ Refusal.NoMemory) }
{
    match read_stim(alloc, proc, text) {
        Ok(rows) => Ok(rows),
        Err(StimErr::BadStim { line }) => Err(Refusal::Lined {
            code: Code::BadStim,
            line,
        }),
        Err(StimErr::TooManyRows) => Err(Refusal::Bare {
            code: Code::TooManyRows,
        }),
        Err(StimErr::NoMemory) => Err(Refusal::NoMemory),
    }
}
