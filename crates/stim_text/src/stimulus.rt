//! Reads a stimulus: the rows of a text.
ghost use Rattle.std.specs.Prelude.{◌≡◌, ◌++◌, ◌∷◌, [], IfOk, IfErr, MatchResult, map};
ghost use Rattle.core_term.specs.ProcessView.{port_of};
ghost use Rattle.stim_text.specs.Answers.{AreRowsOf};
ghost use Rattle.stim_text.specs.Refused.{IsRefusedBy};
ghost use Rattle.stim_text.specs.declared.stimulus.StimErr.TheVariants.{NoMemory};

use crate::fields::read_row;
use crate::lines::first_line;
use core_term::{CoreProc, Row};
use std::alloc::Global;

/// As many lines are looked at.
const MOST_ROWS: usize = 10_000;

/// Why a text is no stimulus of at most 10,000 rows.
#[derive(Clone, Copy, Debug, PartialEq, Eq)]
pub enum StimErr {
    /// A line is no row, counted from 1.
    BadStim { line: u32 },
    /// The first 10,000 lines are rows, and there is another.
    TooManyRows,
    /// No memory was found.
    NoMemory,
}

fn push_row(rows: &mut Vec<Row>, row: Row) -> Result<(), StimErr>
    ensures { MatchResult result (λ _. rows.new.items ≡ rows.old.items ++ row ∷ []) (λ fault. fault ≡ NoMemory) }
{
    match rows.push(row) {
        Ok(()) => Ok(()),
        Err(_) => Err(StimErr::NoMemory),
    }
}

/// The rows of a text, of one line for each cycle.
///
/// # Errors
///
/// `BadStim` exactly where one of the first 10,000 lines is no row, with the first such line, counted from 1. `TooManyRows`
/// exactly where these lines are all rows and there is another. `NoMemory` may come in place of any answer.
pub fn read_stim(alloc: Global, proc: &CoreProc, text: &[u8]) -> Result<Vec<Row>, StimErr>
    ensures rows { IfOk result (λ rows. AreRowsOf (map port_of proc.now.ports.items) text.now rows.items) }
    ensures refused { IfErr result (λ fault. IsRefusedBy (map port_of proc.now.ports.items) text.now fault) }
{
    let ports = proc.ports.as_slice();
    let mut rows = Vec::new(alloc);
    let mut rest = text;
    while let Some((line, behind)) = first_line(rest) {
        if rows.len() >= MOST_ROWS {
            return Err(StimErr::TooManyRows);
        }
        match read_row(alloc, ports, line) {
            Ok(Some(row)) => match push_row(&mut rows, row) {
                Ok(()) => rest = behind,
                Err(_) => return Err(StimErr::NoMemory),
            },
            Ok(None) => return Err(StimErr::BadStim {
                line: rows.len() as u32 + 1,
            }),
            Err(_) => return Err(StimErr::NoMemory),
        }
    }
    Ok(rows)
}
