//! The rows that a process of the generated file is run on.
ghost use Rattle.std.specs.Prelude.{◌≡◌, ◌<◌, ◌+◌, ◌++◌, ◌∷◌, [], IfOk, codes, decimal, map};
ghost use Rattle.core_term.specs.StimulusText.{row_text};
ghost use Rattle.generated_file.specs.Rows.{cells_of, row_of, rows_of};

use anvil_bits::Bits;
use core_term::{InCell, Row};
use std::alloc::{AllocError, Global};

const CYCLES: u32 = 100;

/// The row of a process for one cycle, `1:J 1` where J is its number and one.
///
/// Refuses only where memory is refused.
pub fn row_of(alloc: Global, index: u32) -> Result<Row, AllocError>
    requires { index < 64 }
    ensures cells { IfOk result (λ row. row.cells.items ≡ row_of index) }
    ensures text { IfOk result (λ row. row_text row.cells.items ≡ codes "1:" ++ (decimal (index + 1) ++ codes " 1")) }
{
    let mut cells = Vec::new(alloc);
    cells.push(InCell::Received {
        valid: true,
        value: Bits::new(8, u64::from(index) + 1),
    })?;
    cells.push(InCell::Sent { ack: true })?;
    Ok(Row { cells })
}

/// The rows of a process, one for each of 100 cycles.
///
/// Refuses only where memory is refused.
pub fn rows_of(alloc: Global, index: u32) -> Result<Vec<Row>, AllocError>
    requires { index < 64 }
    ensures { IfOk result (λ rows. map cells_of rows.items ≡ rows_of index) }
{
    let mut rows = Vec::new(alloc);
    for _cycle in 0..CYCLES {
        push_row(&mut rows, row_of(alloc, index)?)?;
    }
    Ok(rows)
}

fn push_row(rows: &mut Vec<Row>, row: Row) -> Result<(), AllocError>
    ensures { IfOk result (λ _. rows.new.items ≡ rows.old.items ++ row ∷ []) }
{
    rows.push(row)?;
    Ok(())
}
