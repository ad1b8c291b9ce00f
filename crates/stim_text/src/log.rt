//! Puts the lines of a log.
ghost use Rattle.std.specs.Prelude.{◌≡◌, ◌++◌, ◌≤◌, ◌∷◌, [], ℕ, List, length, map, decimal, IsTrue};
ghost use Rattle.anvil_io.specs.Causes.{Puts};
ghost use Rattle.core_term.specs.declared.rows.Row.{Row as RowSeen};
ghost use Rattle.core_term.specs.declared.rows.OutRow.{OutRow as OutRowSeen};
ghost use Rattle.core_term.specs.LogText.{bit_text, data_text, log_line};
ghost use Rattle.core_term.specs.Process.{Process};
ghost use Rattle.core_term.specs.ProcessView.{port_of, process_of, register_of};
ghost use Rattle.core_term.specs.Rows.{registers_shown, row_fits};
ghost use Rattle.core_term.specs.Wires.{Wires};
ghost use Rattle.stim_text.specs.LogLine.{fields_of, gap, gapped_from, line_of, name_text, number_fields, wires_at, wires_text};
ghost use Rattle.stim_text.specs.Seen.{ShowsRows};
ghost use Rattle.stim_text.specs.Watching.{StandsAfter, out_cells_fit};

use crate::Watch;
use crate::wires::{ack_of, data_of, valid_of};
use anvil_bits::Bits;
use anvil_io::{Sink, SinkFault, put_all};
use core_term::{CorePort, CoreProc, CoreReg, InCell, OutCell, OutRow, Row};
use itoa::Buffer;

fn bit<'a>(on: bool) -> &'a [u8]
    ensures { result.now ≡ bit_text on }
{
    if on { b"1" } else { b"0" }
}

/// The space before the text of a number in its line.
fn gap_before<'a>(index: usize) -> &'a [u8]
    ensures { result.now ≡ gap index }
{
    if index == 0 { b"" } else { b" " }
}

fn put_number<W: Sink>(number: Bits, to: &mut W) -> Result<(), SinkFault>
    ensures { Puts (W.held to.old) (W.held to.new) (W.faults to.old) (W.faults to.new) (decimal number.value) result }
{
    put_all(to, &[Buffer::new().format(number.value()).as_bytes()])
}

/// The data of a port, which a sent port has only while it is shown.
fn put_data<W: Sink>(received: bool, shown: bool, number: Bits, to: &mut W) -> Result<(), SinkFault>
    ensures { Puts (W.held to.old) (W.held to.new) (W.faults to.old) (W.faults to.new) (data_text received shown number.value) result }
{
    if received || shown {
        put_number(number, to)
    } else {
        put_all(to, &[b"-"])
    }
}

/// A port's field up to its data, with the space before it.
fn put_wires<W: Sink>(
    index: usize,
    port: &CorePort,
    cell: &InCell,
    out: &OutCell,
    to: &mut W,
) -> Result<(), SinkFault>
    ensures { Puts (W.held to.old) (W.held to.new) (W.faults to.old) (W.faults to.new) (wires_text index port.now (wires_at cell.now out.now)) result }
{
    put_all(
        to,
        &[
            gap_before(index),
            port.endpoint.bytes(),
            b".",
            port.message.bytes(),
            b"=v",
            bit(valid_of(cell, out)),
            b"a",
            bit(ack_of(cell, out)),
            b"d",
        ],
    )
}

/// A port's field, with the space before it.
fn put_port<W: Sink>(
    index: usize,
    port: &CorePort,
    cell: &InCell,
    out: &OutCell,
    shown: bool,
    to: &mut W,
) -> Result<(), SinkFault>
    ensures { Puts (W.held to.old) (W.held to.new) (W.faults to.old) (W.faults to.new) (wires_text index port.now (wires_at cell.now out.now) ++ data_text port.now.received shown (wires_at cell.now out.now).number.value) result }
{
    put_wires(index, port, cell, out, to)?;
    put_data(port.received, shown, data_of(cell, out), to)
}

fn put_ports<W: Sink>(
    ports: &[CorePort],
    cells: &[InCell],
    outs: &[OutCell],
    shown: &[bool],
    to: &mut W,
) -> Result<(), SinkFault>
    requires cells { length cells.now ≡ length ports.now }
    requires outs { length outs.now ≡ length ports.now }
    requires shown { length shown.now ≡ length ports.now }
    ensures { Puts (W.held to.old) (W.held to.new) (W.faults to.old) (W.faults to.new) (gapped_from 0 (fields_of ports.now cells.now outs.now shown.now)) result }
{
    for index in 0..ports.len() {
        put_port(
            index,
            &ports[index],
            &cells[index],
            &outs[index],
            shown[index],
            to,
        )?;
    }
    Ok(())
}

/// A register's field, with the space before it.
fn put_register<W: Sink>(
    index: usize,
    reg: &CoreReg,
    number: Bits,
    to: &mut W,
) -> Result<(), SinkFault>
    ensures { Puts (W.held to.old) (W.held to.new) (W.faults to.old) (W.faults to.new) (name_text index reg.now ++ decimal number.value) result }
{
    put_all(to, &[gap_before(index), reg.name.bytes(), b"="])?;
    put_number(number, to)
}

fn put_registers<W: Sink>(
    before: usize,
    regs: &[CoreReg],
    numbers: &[Bits],
    to: &mut W,
) -> Result<(), SinkFault>
    requires few { before ≤ 64 }
    requires some { length regs.now ≤ 64 }
    requires numbers { length numbers.now ≡ length regs.now }
    ensures { Puts (W.held to.old) (W.held to.new) (W.faults to.old) (W.faults to.new) (gapped_from before (number_fields regs.now numbers.now)) result }
{
    for index in 0..regs.len() {
        put_register(before + index, &regs[index], numbers[index], to)?;
    }
    Ok(())
}

/// Puts the line of a cycle into the sink: of the row that came in, the row that went out, and the watch that has taken both.
///
/// It takes no memory. It fails exactly where a put fails: then the sink's count of faults rose in this call, and the sink holds
/// what it held before, followed by a front part of the line.
pub fn put_row<W: Sink>(
    proc: &CoreProc,
    row: &Row,
    out: &OutRow,
    watch: &Watch,
    to: &mut W,
) -> Result<(), SinkFault>
    requires cells { length row.now.cells.items ≡ length proc.now.ports.items }
    requires outs { length out.now.cells.items ≡ length proc.now.ports.items }
    requires regs { length out.now.regs.items ≡ length proc.now.regs.items }
    requires shown { length watch.now.shown ≡ length proc.now.ports.items }
    ensures put { Puts (W.held to.old) (W.held to.new) (W.faults to.old) (W.faults to.new) (line_of proc.now.ports.items proc.now.regs.items row.now.cells.items out.now.cells.items out.now.regs.items watch.now.shown) result }
    ensures line { (rows : List RowSeen) (outs : List OutRowSeen) (wires : Wires) (registers : ℕ → ℕ → ℕ) → IsTrue (row_fits (map port_of proc.now.ports.items) row.now) → IsTrue (out_cells_fit (map port_of proc.now.ports.items) out.now.cells.items)
        → StandsAfter (process_of proc.now.name proc.now.ports.items proc.now.regs.items proc.now.threads.items) (rows ++ row.now ∷ []) (outs ++ out.now ∷ []) watch.now
        → ShowsRows (process_of proc.now.name proc.now.ports.items proc.now.regs.items proc.now.threads.items) wires (rows ++ row.now ∷ []) (outs ++ out.now ∷ [])
        → out.now.regs.items ≡ registers_shown registers (length rows) 0 (map register_of proc.now.regs.items)
        → line_of proc.now.ports.items proc.now.regs.items row.now.cells.items out.now.cells.items out.now.regs.items watch.now.shown
        ≡ log_line (process_of proc.now.name proc.now.ports.items proc.now.regs.items proc.now.threads.items) wires registers (length rows) }
{
    put_ports(
        proc.ports.as_slice(),
        row.cells.as_slice(),
        out.cells.as_slice(),
        watch.flags(),
        to,
    )?;
    put_registers(
        proc.ports.len(),
        proc.regs.as_slice(),
        out.regs.as_slice(),
        to,
    )?;
    put_all(to, &[b"\n"])
}
