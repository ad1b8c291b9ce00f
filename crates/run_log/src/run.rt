//! A run of a process that can be logged.
ghost use Rattle.std.specs.Prelude.{◌≡◌, ◌<◌, ◌+◌, List, ℕ, IsTrue, length, get_or};
ghost use Rattle.core_term.specs.declared.rows.Row.{Row as RowSeen};
ghost use Rattle.core_term.specs.Process.{Process};
ghost use Rattle.core_term.specs.Rows.{row_fits, cells_shown, registers_shown};
ghost use Rattle.run_log.specs.Places.{HasPlaces};
ghost use Rattle.run_log.specs.Shown.{Shown};

use core_term::{OutRow, Row};

/// A run of a process, one row of inputs a cycle.
///
/// It does not keep the rows: that it stands before a cycle of what is shown on rows is a relation to them.
pub trait Run {
    /// The process that is run.
    ghost process: { Self → Process };

    /// What it keeps between its cycles.
    ghost is_ready: { Self → Type 0 };

    /// It stands before the cycle of a number of what is shown on rows.
    ghost stands: { Self → List RowSeen → Shown → ℕ → Type 0 };

    /// Runs one cycle: shows in `out` what goes out and what the registers show, and goes on.
    ///
    /// `row` has a cell for each port, of its direction and width. `out` has as many cells, and one place for each register; what
    /// it held before does not matter.
    fn step(&mut self, row: &Row, out: &mut OutRow)
        requires ready { is_ready self.old }
        requires row { IsTrue (row_fits (process self.old).ports row.now) }
        requires places { HasPlaces (process self.old) out.old }
        ensures same_process { process self.new ≡ process self.old }
        ensures ready { is_ready self.new }
        ensures places { HasPlaces (process self.old) out.new }
        ensures stands { (rows : List RowSeen) (shown : Shown) (n : ℕ) → n < length rows
            → row.now ≡ get_or rows n row.now → stands self.old rows shown n → stands self.new rows shown (n + 1) }
        ensures cells { (rows : List RowSeen) (shown : Shown) (n : ℕ) → n < length rows
            → row.now ≡ get_or rows n row.now → stands self.old rows shown n
            → out.new.cells.items ≡ cells_shown shown.wires n 0 (process self.old).ports }
        ensures regs { (rows : List RowSeen) (shown : Shown) (n : ℕ) → n < length rows
            → row.now ≡ get_or rows n row.now → stands self.old rows shown n
            → out.new.regs.items ≡ registers_shown shown.registers n 0 (process self.old).registers };
}
