//! The counts of a module of a process on rows.
ghost use Rattle.std.specs.Prelude.{◌≡◌, ◌≤◌, ◌<◌, ◌+◌, IfOk, List, ℕ, IsTrue, length, get_or, map};
ghost use Rattle.std.specs.List.{All};
ghost use Rattle.core_term.specs.declared.rows.Row.{Row as RowSeen};
ghost use Rattle.core_term.specs.Limits.{most_ports};
ghost use Rattle.core_term.specs.ProcessView.{port_of, process_of};
ghost use Rattle.core_term.specs.Rows.{row_fits, registers_shown};
ghost use Rattle.module_log.specs.Log.{module_shown};
ghost use Rattle.module_log.specs.SamePorts.{HasPortsOf};
ghost use Rattle.module_log.specs.Stands.{IsMachineOf, StandsBefore};
ghost use Rattle.run_log.specs.Places.{HasPlaces};
ghost use Rattle.run_log.specs.Shown.{Shown};
ghost use Rattle.stim_text.specs.Answers.{most_rows};
ghost use Rattle.run_counts.specs.Counts.{AreFew, counts_of, exchanges_at};

use crate::cells::{count_met, sum_of};
use core_term::{CoreProc, OutRow, Row};
use std::alloc::{AllocError, Global};
use sv_meaning::Machine;
use sv_tree::SvModule;

/// What is counted of a run: exchanges of all ports, and the sum of what the registers show in the last cycle.
#[derive(Clone, Copy, Debug, PartialEq, Eq)]
pub struct Counts {
    pub exchanges: u64,
    pub registers: u128,
}

/// Runs the module for a cycle, shows it in `shown`, and counts its exchanges.
fn count_cycle(proc: &CoreProc, row: &Row, machine: &mut Machine, shown: &mut OutRow) -> u64
    requires row { IsTrue (row_fits (map port_of proc.now.ports.items) row.now) }
    requires ready { IsMachineOf
        (process_of proc.now.name proc.now.ports.items proc.now.regs.items proc.now.threads.items) machine.old }
    requires places { HasPlaces
        (process_of proc.now.name proc.now.ports.items proc.now.regs.items proc.now.threads.items) shown.old }
    ensures ready { IsMachineOf
        (process_of proc.now.name proc.now.ports.items proc.now.regs.items proc.now.threads.items) machine.new }
    ensures places { HasPlaces
        (process_of proc.now.name proc.now.ports.items proc.now.regs.items proc.now.threads.items) shown.new }
    ensures few { result ≤ most_ports }
    ensures stands { (rows : List RowSeen) (seen : Shown) (n : ℕ) → n < length rows → row.now ≡ get_or rows n row.now
        → StandsBefore (process_of proc.now.name proc.now.ports.items proc.now.regs.items proc.now.threads.items)
        machine.old rows seen n
        → StandsBefore (process_of proc.now.name proc.now.ports.items proc.now.regs.items proc.now.threads.items)
        machine.new rows seen (n + 1) }
    ensures exchanges { (rows : List RowSeen) (seen : Shown) (n : ℕ) → n < length rows → row.now ≡ get_or rows n row.now
        → StandsBefore (process_of proc.now.name proc.now.ports.items proc.now.regs.items proc.now.threads.items)
        machine.old rows seen n
        → result ≡ exchanges_at seen n 0 (map port_of proc.now.ports.items) }
    ensures registers { (rows : List RowSeen) (seen : Shown) (n : ℕ) → n < length rows → row.now ≡ get_or rows n row.now
        → StandsBefore (process_of proc.now.name proc.now.ports.items proc.now.regs.items proc.now.threads.items)
        machine.old rows seen n
        → shown.new.regs.items ≡ registers_shown seen.registers n 0
        (process_of proc.now.name proc.now.ports.items proc.now.regs.items proc.now.threads.items).registers }
{
    machine.step(row, shown);
    count_met(row.cells.as_slice(), shown.cells.as_slice())
}

/// Counts the rows: each is shown in `shown`.
fn count_rows(proc: &CoreProc, rows: &[Row], machine: &mut Machine, shown: &mut OutRow) -> Counts
    requires few { length rows.now ≤ most_rows }
    requires fit { All (λ row. IsTrue (row_fits (map port_of proc.now.ports.items) row)) rows.now }
    requires ready { IsMachineOf
        (process_of proc.now.name proc.now.ports.items proc.now.regs.items proc.now.threads.items) machine.old }
    requires places { HasPlaces
        (process_of proc.now.name proc.now.ports.items proc.now.regs.items proc.now.threads.items) shown.old }
    ensures counts { (seen : Shown)
        → StandsBefore (process_of proc.now.name proc.now.ports.items proc.now.regs.items proc.now.threads.items)
        machine.old rows.now seen 0
        → result ≡ counts_of (process_of proc.now.name proc.now.ports.items proc.now.regs.items proc.now.threads.items)
        seen (length rows.now) }
    ensures few { AreFew result }
{
    let mut exchanges: u64 = 0;
    let mut registers: u128 = 0;
    for index in 0..rows.len() {
        exchanges += count_cycle(proc, &rows[index], machine, shown);
        registers = sum_of(shown.regs.as_slice());
    }
    Counts {
        exchanges,
        registers,
    }
}

/// Runs a module of a process on rows by its clocked meaning, and counts what it shows.
///
/// Needs a module with the ports and source registers of the process, and rows that fit the process, at most as many as a
/// stimulus may have. Refuses only where memory is refused.
pub fn count_module(
    alloc: Global,
    proc: &CoreProc,
    module: &SvModule,
    rows: &[Row],
) -> Result<Counts, AllocError>
    requires few { length rows.now ≤ most_rows }
    requires fit { All (λ row. IsTrue (row_fits (map port_of proc.now.ports.items) row)) rows.now }
    requires same { HasPortsOf
        (process_of proc.now.name proc.now.ports.items proc.now.regs.items proc.now.threads.items)
        «module».now }
    ensures counts { IfOk result (λ counts. counts
        ≡ counts_of (process_of proc.now.name proc.now.ports.items proc.now.regs.items proc.now.threads.items)
        (module_shown (process_of proc.now.name proc.now.ports.items proc.now.regs.items proc.now.threads.items)
        «module».now rows.now)
        (length rows.now)) }
    ensures few { IfOk result AreFew }
{
    // read for the fact alone that the module is well-formed
    let _ports = module.ports();
    let mut machine = Machine::new(alloc, module)?;
    let mut shown = OutRow::for_proc(alloc, proc)?;
    Ok(count_rows(proc, rows, &mut machine, &mut shown))
}
