//! The parts of one cycle of a simulation, over all threads and over all ports.
ghost use Rattle.std.specs.Prelude.{◌≡◌, ◌≤◌, ℕ, IsTrue, List, Some, length, map, slice_get};
ghost use Rattle.std.specs.List.{list_all};
ghost use Rattle.core_term.specs.Process.{LifeEnd};
ghost use Rattle.core_term.specs.ProcessView.{port_of};
ghost use Rattle.core_term.specs.Rows.{cells_fit};
ghost use Rattle.core_term.specs.Sized.{port_fits};
ghost use Rattle.exchanges.specs.Next.{Bounded};
ghost use Rattle.sim_laws.specs.Kept.{AllReady, all_stepped};
ghost use Rattle.sim_laws.specs.Stands.{drive_threads as threads_driven, write_threads as threads_written, no_drives, meets as meets_in, all_meet, shown_number as number_shown, shown_cell as cell_shown, shown_cells, next_latests as latests_next};
ghost use Rattle.sim_laws.specs.Typed.{AreRegisters};

use crate::thread::SimThread;
use anvil_bits::Bits;
use core_term::{CorePort, CoreProc, InCell, OutCell};
use exchanges::{Latest, Lives};
use sim_laws::Drive;

/// All threads one cycle on.
pub fn step_threads(
    threads: &mut [SimThread],
    proc: &CoreProc,
    begun: bool,
    cells: &[InCell],
    registers: &[Bits],
)
    requires ready { AllReady proc.now.ports.items proc.now.regs.items (length registers.now) proc.now.threads.items threads.old }
    requires registers { AreRegisters proc.now.regs.items registers.now }
    requires cells { IsTrue (cells_fit (map port_of proc.now.ports.items) cells.now) }
    ensures next { threads.new ≡ all_stepped proc.now.ports.items proc.now.regs.items cells.now registers.now begun proc.now.threads.items threads.old }
    ensures ready { AllReady proc.now.ports.items proc.now.regs.items (length registers.now) proc.now.threads.items threads.new }
{
    let ports = proc.ports.as_slice();
    let regs = proc.regs.as_slice();
    for index in 0..threads.len() {
        let body = proc.threads[index].body();
        threads[index].step(body, begun, ports, regs, cells, registers);
    }
}

/// Marks what all threads drive: the first act that is offered on a port tells the number.
pub fn drive_threads(threads: &[SimThread], drives: &mut [Drive])
    ensures { drives.new ≡ threads_driven (map (λ kept. kept.acts) threads.now) drives.old }
{
    for thread in threads {
        thread.drive(drives);
    }
}

/// Writes what all threads set.
pub fn write_threads(threads: &[SimThread], registers: &mut [Bits])
    ensures { registers.new ≡ threads_written (map (λ kept. kept.acts) threads.now) registers.old }
{
    for thread in threads {
        thread.write(registers);
    }
}

/// Nothing is driven yet.
pub fn reset_drives(ports: &[CorePort], drives: &mut [Drive])
    requires fit { IsTrue (list_all port_fits (map port_of ports.now)) }
    requires all { length drives.old ≡ length ports.now }
    ensures { drives.new ≡ no_drives (map port_of ports.now) }
{
    for index in 0..drives.len() {
        let number = Bits::new(ports[index].width, 0);
        drives[index] = Drive {
            offered: false,
            number,
        };
    }
}

/// Whether there is an exchange, by what comes in and what is driven.
fn meets(cell: InCell, drive: &Drive) -> bool
    ensures { result ≡ meets_in cell drive.now }
{
    match cell {
        InCell::Received { valid, .. } => valid && drive.offered,
        InCell::Sent { ack } => drive.offered && ack,
    }
}

/// Finds the exchanges of the cycle.
pub fn meet_all(cells: &[InCell], drives: &[Drive], exchanged: &mut [bool])
    requires drives { length drives.now ≡ length cells.now }
    requires exchanged { length exchanged.old ≡ length cells.now }
    ensures { exchanged.new ≡ all_meet cells.now drives.now }
{
    for index in 0..exchanged.len() {
        exchanged[index] = meets(cells[index], &drives[index]);
    }
}

/// What goes out on a port.
fn shown(port: &CorePort, drive: &Drive, latest: &Latest) -> OutCell
    requires { IsTrue (port_fits (port_of port.now)) }
    ensures { result ≡ cell_shown (port_of port.now) drive.now latest.now }
{
    if port.received {
        OutCell::Received { ack: drive.offered }
    } else {
        OutCell::Sent {
            valid: drive.offered,
            value: shown_number(port.width, drive, latest),
        }
    }
}

/// What a sent port shows: what is offered; else what it sent last, while that lives; else 0.
fn shown_number(width: u8, drive: &Drive, latest: &Latest) -> Bits
    requires at_least { 1 ≤ width }
    requires at_most { width ≤ 64 }
    ensures { result ≡ number_shown width drive.now latest.now }
{
    if drive.offered {
        drive.number
    } else if latest.lives {
        latest.number
    } else {
        Bits::new(width, 0)
    }
}

/// Shows what goes out on each port.
pub fn show_cells(ports: &[CorePort], drives: &[Drive], latests: &[Latest], cells: &mut [OutCell])
    requires fit { IsTrue (list_all port_fits (map port_of ports.now)) }
    requires drives { length drives.now ≡ length ports.now }
    requires latests { length latests.now ≡ length ports.now }
    requires cells { length cells.old ≡ length ports.now }
    ensures { cells.new ≡ shown_cells (map port_of ports.now) drives.now latests.now }
{
    for index in 0..cells.len() {
        cells[index] = shown(&ports[index], &drives[index], &latests[index]);
    }
}

/// Shows the registers.
pub fn show_registers(numbers: &[Bits], shown: &mut [Bits])
    requires { length shown.old ≡ length numbers.now }
    ensures { shown.new ≡ numbers.now }
{
    for index in 0..shown.len() {
        shown[index] = numbers[index];
    }
}

/// The latest exchanges of all ports, one cycle on.
pub fn next_latests(lives: &Lives, exchanged: &[bool], drives: &[Drive], latests: &mut [Latest])
    requires exchanged { length exchanged.now ≡ length lives.now }
    requires drives { length drives.now ≡ length lives.now }
    requires latests { length latests.old ≡ length lives.now }
    ensures next { latests.new ≡ latests_next exchanged.now exchanged.now lives.now drives.now latests.old }
    ensures bounded { (port : ℕ) (life : List LifeEnd) → slice_get lives.now port ≡ Some life → Bounded life }
{
    for index in 0..latests.len() {
        let latest = latests[index];
        let ends = lives.ends(index);
        latests[index] = latest.after(ends, exchanged[index], exchanged, drives[index].number);
    }
}

/// All threads one cycle on.
pub fn step_all(
    threads: &mut Vec<SimThread>,
    proc: &CoreProc,
    begun: bool,
    cells: &[InCell],
    registers: &[Bits],
)
    requires ready { AllReady proc.now.ports.items proc.now.regs.items (length registers.now) proc.now.threads.items threads.old.items }
    requires registers { AreRegisters proc.now.regs.items registers.now }
    requires cells { IsTrue (cells_fit (map port_of proc.now.ports.items) cells.now) }
    ensures next { threads.new.items ≡ all_stepped proc.now.ports.items proc.now.regs.items cells.now registers.now begun proc.now.threads.items threads.old.items }
    ensures ready { AllReady proc.now.ports.items proc.now.regs.items (length registers.now) proc.now.threads.items threads.new.items }
{
    step_threads(threads.as_mut_slice(), proc, begun, cells, registers);
}

/// What all threads drive on each port.
pub fn drive(ports: &[CorePort], threads: &[SimThread], drives: &mut Vec<Drive>)
    requires fit { IsTrue (list_all port_fits (map port_of ports.now)) }
    requires all { length drives.old.items ≡ length ports.now }
    ensures next { drives.new.items ≡ threads_driven (map (λ kept. kept.acts) threads.now) (no_drives (map port_of ports.now)) }
    ensures all { length drives.new.items ≡ length ports.now }
{
    reset_drives(ports, drives.as_mut_slice());
    drive_threads(threads, drives.as_mut_slice());
}

/// The exchanges of the cycle.
pub fn meet(cells: &[InCell], drives: &[Drive], exchanged: &mut Vec<bool>)
    requires drives { length drives.now ≡ length cells.now }
    requires exchanged { length exchanged.old.items ≡ length cells.now }
    ensures next { exchanged.new.items ≡ all_meet cells.now drives.now }
    ensures all { length exchanged.new.items ≡ length cells.now }
{
    meet_all(cells, drives, exchanged.as_mut_slice());
}

/// What the registers take.
pub fn write(threads: &[SimThread], registers: &mut Vec<Bits>)
    ensures { registers.new.items ≡ threads_written (map (λ kept. kept.acts) threads.now) registers.old.items }
{
    write_threads(threads, registers.as_mut_slice());
}

/// The latest exchanges, one cycle on.
pub fn pass(lives: &Lives, exchanged: &[bool], drives: &[Drive], latests: &mut Vec<Latest>)
    requires exchanged { length exchanged.now ≡ length lives.now }
    requires drives { length drives.now ≡ length lives.now }
    requires latests { length latests.old.items ≡ length lives.now }
    ensures next { latests.new.items ≡ latests_next exchanged.now exchanged.now lives.now drives.now latests.old.items }
    ensures bounded { (port : ℕ) (life : List LifeEnd) → slice_get lives.now port ≡ Some life → Bounded life }
{
    next_latests(lives, exchanged, drives, latests.as_mut_slice());
}

/// Shows what goes out on each port.
pub fn show(ports: &[CorePort], drives: &[Drive], latests: &[Latest], cells: &mut Vec<OutCell>)
    requires fit { IsTrue (list_all port_fits (map port_of ports.now)) }
    requires drives { length drives.now ≡ length ports.now }
    requires latests { length latests.now ≡ length ports.now }
    requires cells { length cells.old.items ≡ length ports.now }
    ensures { cells.new.items ≡ shown_cells (map port_of ports.now) drives.now latests.now }
{
    show_cells(ports, drives, latests, cells.as_mut_slice());
}

/// Shows the registers.
pub fn show_all(numbers: &[Bits], shown: &mut Vec<Bits>)
    requires { length shown.old.items ≡ length numbers.now }
    ensures { shown.new.items ≡ numbers.now }
{
    show_registers(numbers, shown.as_mut_slice());
}
