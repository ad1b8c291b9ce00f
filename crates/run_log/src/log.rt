//! The whole log.
ghost use Rattle.std.specs.Prelude.{◌≡◌, ◌≤◌, ◌<◌, [], List, ℕ, IsTrue, length, map, MatchOption, MatchResult};
ghost use Rattle.std.specs.List.{All};
ghost use Rattle.core_term.specs.ProcessView.{port_of, process_of};
ghost use Rattle.core_term.specs.Rows.{row_fits};
ghost use Rattle.stim_text.specs.Answers.{most_rows};
ghost use Rattle.stim_text.specs.Watching.{StandsAfter};
ghost use Rattle.run_log.specs.Log.{IsCut, IsFailed, IsStopped, IsWhole};
ghost use Rattle.run_log.specs.OnRows.{IsOnRows};
ghost use Rattle.run_log.specs.Places.{HasPlaces, IsWatched};
ghost use Rattle.run_log.specs.Shown.{Shown};

use crate::Run;
use crate::cycle::put_cycle;
use anvil_io::{Sink, SinkFault};
use core_term::{CoreProc, OutRow, Row};
use std::alloc::Global;
use stim_text::{Seen, Watch};

/// The first broken promise: the cycle, and the number of the received port.
#[derive(Clone, Copy, Debug, PartialEq, Eq)]
pub struct Broken {
    pub cycle: u32,
    pub port: u32,
}

/// Why a log was not put.
#[derive(Clone, Copy, Debug, PartialEq, Eq)]
pub enum LogErr {
    /// A put failed.
    Fault,
    /// No memory was found, before the first put.
    NoMemory,
}

// Puts the lines of the rows.
fn put_lines<R: Run, O: Sink>(
    proc: &CoreProc,
    rows: &[Row],
    run: &mut R,
    watch: &mut Watch,
    shown: &mut OutRow,
    out: &mut O,
) -> Result<Option<Broken>, SinkFault>
    requires few { length rows.now ≤ most_rows }
    requires fit { All (λ row. IsTrue (row_fits (map port_of proc.now.ports.items) row)) rows.now }
    requires same { R.process run.old
        ≡ process_of proc.now.name proc.now.ports.items proc.now.regs.items proc.now.threads.items }
    requires ready { R.is_ready run.old }
    requires watch { IsWatched
        (process_of proc.now.name proc.now.ports.items proc.now.regs.items proc.now.threads.items) watch.old }
    requires places { HasPlaces
        (process_of proc.now.name proc.now.ports.items proc.now.regs.items proc.now.threads.items) shown.old }
    requires starts { StandsAfter
        (process_of proc.now.name proc.now.ports.items proc.now.regs.items proc.now.threads.items) [] [] watch.old }
    ensures { (seen : Shown)
        → IsOnRows (process_of proc.now.name proc.now.ports.items proc.now.regs.items proc.now.threads.items)
        rows.now seen
        → R.stands run.old rows.now seen 0
        → MatchResult result
        (λ found. MatchOption found
        (IsWhole (process_of proc.now.name proc.now.ports.items proc.now.regs.items proc.now.threads.items)
        seen (length rows.now) (O.held out.old) (O.held out.new) (O.faults out.old) (O.faults out.new))
        (λ broken. IsStopped (process_of proc.now.name proc.now.ports.items proc.now.regs.items proc.now.threads.items)
        seen broken (O.held out.old) (O.held out.new) (O.faults out.old) (O.faults out.new)))
        (λ fault. IsCut (process_of proc.now.name proc.now.ports.items proc.now.regs.items proc.now.threads.items)
        seen (length rows.now) (O.held out.old) (O.held out.new) (O.faults out.old) (O.faults out.new)) }
{
    for index in 0..rows.len() {
        match put_cycle(proc, &rows[index], run, watch, shown, out) {
            Ok(Seen::Kept) => {}
            Ok(Seen::Broken { port }) => return Ok(Some(Broken {
                cycle: index as u32,
                port,
            })),
            Err(fault) => return Err(fault),
        }
    }
    Ok(None)
}

/// Puts the log of a run on rows that stands before its first cycle: a line for each cycle before the first in which a received
/// port breaks its promise, or for all where none does. It answers that cycle and the first such port.
///
/// Needs rows that fit the process, at most as many as a stimulus may have. All memory is taken before the first put.
pub fn put_run<R: Run, O: Sink>(
    alloc: Global,
    proc: &CoreProc,
    rows: &[Row],
    run: &mut R,
    out: &mut O,
) -> Result<Option<Broken>, LogErr>
    requires few { length rows.now ≤ most_rows }
    requires fit { All (λ row. IsTrue (row_fits (map port_of proc.now.ports.items) row)) rows.now }
    requires same { R.process run.old
        ≡ process_of proc.now.name proc.now.ports.items proc.now.regs.items proc.now.threads.items }
    requires ready { R.is_ready run.old }
    ensures { (seen : Shown)
        → IsOnRows (process_of proc.now.name proc.now.ports.items proc.now.regs.items proc.now.threads.items)
        rows.now seen
        → R.stands run.old rows.now seen 0
        → MatchResult result
        (λ found. MatchOption found
        (IsWhole (process_of proc.now.name proc.now.ports.items proc.now.regs.items proc.now.threads.items)
        seen (length rows.now) (O.held out.old) (O.held out.new) (O.faults out.old) (O.faults out.new))
        (λ broken. IsStopped (process_of proc.now.name proc.now.ports.items proc.now.regs.items proc.now.threads.items)
        seen broken (O.held out.old) (O.held out.new) (O.faults out.old) (O.faults out.new)))
        (λ fault. IsFailed (process_of proc.now.name proc.now.ports.items proc.now.regs.items proc.now.threads.items)
        seen (length rows.now) fault (O.held out.old) (O.held out.new) (O.faults out.old) (O.faults out.new)) }
{
    let Ok(mut watch) = Watch::new(alloc, proc) else {
        return Err(LogErr::NoMemory);
    };
    let Ok(mut shown) = OutRow::for_proc(alloc, proc) else {
        return Err(LogErr::NoMemory);
    };
    match put_lines(proc, rows, run, &mut watch, &mut shown, out) {
        Ok(found) => Ok(found),
        Err(_) => Err(LogErr::Fault),
    }
}
