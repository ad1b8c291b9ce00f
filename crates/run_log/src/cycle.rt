//! One cycle of a log.
ghost use Rattle.std.specs.Prelude.{◌≡◌, ◌<◌, ◌+◌, List, ℕ, IsTrue, length, get_or, map};
ghost use Rattle.core_term.specs.declared.rows.Row.{Row as RowSeen};
ghost use Rattle.core_term.specs.ProcessView.{port_of, process_of};
ghost use Rattle.core_term.specs.Rows.{row_fits};
ghost use Rattle.run_log.specs.Places.{HasPlaces, IsWatched};
ghost use Rattle.run_log.specs.Running.{Standing, TakesCycle};
ghost use Rattle.run_log.specs.Shown.{Shown};

use crate::Run;
use anvil_io::{Sink, SinkFault};
use core_term::{CoreProc, OutRow, Row};
use stim_text::{Seen, Watch, put_row};

/// Takes the next row: runs a cycle, and where every promise is kept in it puts its line.
pub(crate) fn put_cycle<R: Run, O: Sink>(
    proc: &CoreProc,
    row: &Row,
    run: &mut R,
    watch: &mut Watch,
    shown: &mut OutRow,
    out: &mut O,
) -> Result<Seen, SinkFault>
    requires row { IsTrue (row_fits (map port_of proc.now.ports.items) row.now) }
    requires same { R.process run.old
        ≡ process_of proc.now.name proc.now.ports.items proc.now.regs.items proc.now.threads.items }
    requires ready { R.is_ready run.old }
    requires watch { IsWatched
        (process_of proc.now.name proc.now.ports.items proc.now.regs.items proc.now.threads.items) watch.old }
    requires places { HasPlaces
        (process_of proc.now.name proc.now.ports.items proc.now.regs.items proc.now.threads.items) shown.old }
    ensures same { R.process run.new ≡ R.process run.old }
    ensures ready { R.is_ready run.new }
    ensures watch { IsWatched
        (process_of proc.now.name proc.now.ports.items proc.now.regs.items proc.now.threads.items) watch.new }
    ensures places { HasPlaces
        (process_of proc.now.name proc.now.ports.items proc.now.regs.items proc.now.threads.items) shown.new }
    ensures stands { (rows : List RowSeen) (seen : Shown) (n : ℕ) → n < length rows → row.now ≡ get_or rows n row.now
        → R.stands run.old rows seen n → R.stands run.new rows seen (n + 1) }
    ensures cycle { (rows : List RowSeen) (seen : Shown) (n : ℕ) → n < length rows → row.now ≡ get_or rows n row.now
        → R.stands run.old rows seen n
        → Standing (process_of proc.now.name proc.now.ports.items proc.now.regs.items proc.now.threads.items) seen
        rows n watch.old
        → TakesCycle (process_of proc.now.name proc.now.ports.items proc.now.regs.items proc.now.threads.items) seen
        rows n result watch.new (O.held out.old) (O.held out.new) (O.faults out.old) (O.faults out.new) }
{
    run.step(row, shown);
    match watch.step(row, shown) {
        Seen::Kept => match put_row(proc, row, shown, watch, out) {
            Ok(()) => Ok(Seen::Kept),
            Err(fault) => Err(fault),
        },
        Seen::Broken { port } => Ok(Seen::Broken { port }),
    }
}
