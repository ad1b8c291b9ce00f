//! The header of a module: its name, clock and reset, and the wires of its ports.
ghost use Rattle.std.specs.Prelude.{◌≡◌, ◌++◌, flat_map};
ghost use Rattle.anvil_io.specs.Causes.{Puts};
ghost use Rattle.sv_tree.specs.Text.{closing_line, data_line, direction_text, opening_lines, port_lines};
ghost use Rattle.sv_writer.specs.Header.{wire_line};

use crate::pieces::{Piece, put_pieces, top_bit};
use anvil_io::{Sink, SinkFault, put_all};
use sv_tree::{SvModule, SvPort};

// From `module anvil__P (` to `);`.
pub fn put_header<W: Sink>(module: &SvModule, out: &mut W) -> Result<(), SinkFault>
    ensures { Puts (W.held out.old) (W.held out.new) (W.faults out.old) (W.faults out.new) (opening_lines «module».now.proc ++ (flat_map port_lines «module».now.ports ++ closing_line)) result }
{
    put_opening(module, out)?;
    put_ports(module, out)?;
    put_all(out, &[b"\n);\n"])
}

// The module's name, clock and reset.
fn put_opening<W: Sink>(module: &SvModule, out: &mut W) -> Result<(), SinkFault>
    ensures { Puts (W.held out.old) (W.held out.new) (W.faults out.old) (W.faults out.new) (opening_lines «module».now.proc) result }
{
    put_all(
        out,
        &[
            b"module anvil__",
            module.proc().bytes(),
            b" (\n  input logic clk_i,\n  input logic rst_ni",
        ],
    )
}

// The wires of all ports.
fn put_ports<W: Sink>(module: &SvModule, out: &mut W) -> Result<(), SinkFault>
    ensures { Puts (W.held out.old) (W.held out.new) (W.faults out.old) (W.faults out.new) (flat_map port_lines «module».now.ports) result }
{
    for port in module.ports() {
        put_port(module, port, out)?;
    }
    Ok(())
}

// The three wires of a port. Each line begins with the comma of the line before it.
fn put_port<W: Sink>(module: &SvModule, port: &SvPort, out: &mut W) -> Result<(), SinkFault>
    ensures { Puts (W.held out.old) (W.held out.new) (W.faults out.old) (W.faults out.new) (port_lines port.now) result }
{
    put_data(module, port, out)?;
    put_wire_line(module, port, port.received, b"__valid", out)?;
    put_wire_line(module, port, !port.received, b"__ack", out)
}

// `  input logic [H:0] E__M__data`.
fn put_data<W: Sink>(module: &SvModule, port: &SvPort, out: &mut W) -> Result<(), SinkFault>
    ensures { Puts (W.held out.old) (W.held out.new) (W.faults out.old) (W.faults out.new) (data_line port.now) result }
{
    put_pieces(
        module,
        &[
            Piece::Text(direction(port.received)),
            Piece::Number(top_bit(port.width)),
            Piece::Text(b":0] "),
            Piece::Text(port.endpoint.bytes()),
            Piece::Text(b"__"),
            Piece::Text(port.message.bytes()),
            Piece::Text(b"__data"),
        ],
        out,
    )
}

// `  input logic [0:0] E__M` and the wire, or `output`.
fn put_wire_line<'a, W: Sink>(
    module: &SvModule,
    port: &'a SvPort,
    comes_in: bool,
    wire: &'a [u8],
    out: &mut W,
) -> Result<(), SinkFault>
    ensures { Puts (W.held out.old) (W.held out.new) (W.faults out.old) (W.faults out.new) (wire_line comes_in port.now wire.now) result }
{
    put_pieces(
        module,
        &[
            Piece::Text(direction(comes_in)),
            Piece::Text(b"0:0] "),
            Piece::Text(port.endpoint.bytes()),
            Piece::Text(b"__"),
            Piece::Text(port.message.bytes()),
            Piece::Text(wire),
        ],
        out,
    )
}

// Which way a wire goes, behind the comma of the line before.
fn direction(comes_in: bool) -> &'static [u8]
    ensures { result.now ≡ direction_text comes_in }
{
    if comes_in {
        b",\n  input logic ["
    } else {
        b",\n  output logic ["
    }
}
