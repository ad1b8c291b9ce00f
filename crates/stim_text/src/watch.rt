//! A watch over the promises of the partners of a process, one cycle after another.
ghost use Rattle.std.specs.Prelude.{◌≡◌, ◌<◌, ◌+◌, ◌++◌, ◌∷◌, [], ℕ, IfOk, IsTrue, List, length};
ghost use Rattle.core_term.specs.declared.rows.Row.{Row as RowSeen};
ghost use Rattle.core_term.specs.declared.rows.OutRow.{OutRow as OutRowSeen};
ghost use Rattle.core_term.specs.Breach.{IsFirstBreach};
ghost use Rattle.core_term.specs.LogText.{is_shown};
ghost use Rattle.core_term.specs.Process.{Process, life_of};
ghost use Rattle.core_term.specs.ProcessView.{process_of};
ghost use Rattle.core_term.specs.Rows.{row_fits};
ghost use Rattle.core_term.specs.Wires.{Wires};
ghost use Rattle.stim_text.specs.Seen.{ShowsRows};
ghost use Rattle.stim_text.specs.Watching.{StandsAfter, out_cells_fit, shown_at};
ghost use Rattle.stim_text.specs.declared.seen.Seen.TheVariants.{Kept, Broken};

use crate::passing::{all_off, meet, no_latests, pass, show};
use crate::seen::Seen;
use core_term::{CoreProc, OutRow, Row};
use exchanges::{Latest, Lives, first_broken};
use std::alloc::{AllocError, Global};
use std::marker::Model;

/// A watch. Contracts see it as the lives of the ports, the latest exchange of each, and which ports show their data.
///
/// `exchanged` is kept for its room alone. The rows so far are not kept: that a watch stands after rows is a relation to them.
#[derive(Drop)]
pub struct Watch {
    lives: Lives,
    latests: Vec<Latest>,
    shown: Vec<bool>,
    exchanged: Vec<bool>,
}

impl Model for Watch {
    ghost use Rattle.stim_text.specs.Watching.{Watching};

    ghost Value = { Watching };

    ghost use Rattle.stim_text.specs.Inside.{watching_of, IsWatch};

    ghost view = { watching_of };

    ghost invariant = { IsWatch };
}

impl Watch {
    /// A watch of the process before cycle 0.
    ///
    /// Takes all the memory that the cycles need. Refuses only where memory is refused.
    pub fn new(alloc: Global, proc: &CoreProc) -> Result<Watch, AllocError>
        ensures stands { IfOk result (λ watch. StandsAfter (process_of proc.now.name proc.now.ports.items proc.now.regs.items proc.now.threads.items) [] [] watch) }
        ensures places { IfOk result (λ watch. length watch.shown ≡ length watch.lives) }
    {
        let count = proc.ports.len();
        let lives = Lives::of(alloc, proc)?;
        let latests = no_latests(alloc, count)?;
        let shown = all_off(alloc, count)?;
        let exchanged = all_off(alloc, count)?;
        Ok(Watch {
            lives,
            latests,
            shown,
            exchanged,
        })
    }

    /// Takes the next cycle: what comes in and what goes out.
    ///
    /// Each row has a cell for each port. The answer is `Broken` exactly where a received port's data in this cycle is not that
    /// of an earlier exchange whose life has this cycle, and names the first such port; after it the watch stands nowhere. No
    /// memory is taken.
    pub fn step(&mut self, row: &Row, out: &OutRow) -> Seen
        requires row { length row.now.cells.items ≡ length self.old.lives }
        requires out { length out.now.cells.items ≡ length self.old.lives }
        ensures lives { self.new.lives ≡ self.old.lives }
        ensures places { length self.new.shown ≡ length self.new.lives }
        ensures kept { (p : Process) (rows : List RowSeen) (outs : List OutRowSeen) → IsTrue (row_fits p.ports row.now) → IsTrue (out_cells_fit p.ports out.now.cells.items) → StandsAfter p rows outs self.old
            → result ≡ Kept → StandsAfter p (rows ++ row.now ∷ []) (outs ++ out.now ∷ []) self.new }
        ensures broken { (p : Process) (rows : List RowSeen) (outs : List OutRowSeen) (port : ℕ) → IsTrue (row_fits p.ports row.now) → IsTrue (out_cells_fit p.ports out.now.cells.items) → StandsAfter p rows outs self.old
            → result ≡ Broken port → (wires : Wires) → ShowsRows p wires (rows ++ row.now ∷ []) (outs ++ out.now ∷ []) → IsFirstBreach p wires (length rows) port }
    {
        let cells = row.cells.as_slice();
        let outs = out.cells.as_slice();
        meet(cells, outs, &mut self.exchanged);
        show(cells, outs, self.latests.as_slice(), &mut self.shown);
        let broken = first_broken(cells, self.latests.as_slice());
        pass(
            &self.lives,
            self.exchanged.as_slice(),
            cells,
            outs,
            &mut self.latests,
        );
        Seen::of(broken)
    }

    /// Whether a port was offered, or lay in the life of an exchange, in the cycle last taken.
    pub fn shown(&self, port: u32) -> bool
        requires { port < length self.now.lives }
        ensures flag { result ≡ shown_at self.now port }
        ensures shown { (p : Process) (rows : List RowSeen) (outs : List OutRowSeen) (cycle : ℕ) → StandsAfter p rows outs self.now → length rows ≡ cycle + 1
            → (wires : Wires) → ShowsRows p wires rows outs → result ≡ is_shown wires (life_of p port) port cycle }
    {
        self.shown[port as usize]
    }

    /// All flags that `shown` tells, in port order.
    pub fn flags(&self) -> &[bool]
        ensures { result.now ≡ self.now.shown }
    {
        self.shown.as_slice()
    }
}
