//! What the outgoing wires of the ports are given.
ghost use Rattle.std.specs.Prelude.{flat_map, zip};
ghost use Rattle.anvil_io.specs.Causes.{Puts};
ghost use Rattle.sv_tree.specs.Text.{out_lines, out_lines_of, wire_assign_line};

use crate::pieces::{Piece, put_pieces};
use anvil_io::{Sink, SinkFault};
use sv_tree::{SvModule, SvOperand, SvOut, SvPort};

// The outputs of all ports.
pub fn put_outputs<W: Sink>(module: &SvModule, out: &mut W) -> Result<(), SinkFault>
    ensures { Puts (W.held out.old) (W.held out.new) (W.faults out.old) (W.faults out.new) (flat_map (out_lines «module».now) (zip «module».now.ports «module».now.outs)) result }
{
    for (port, output) in module.ports().iter().zip(module.outs()) {
        put_output(module, port, *output, out)?;
    }
    Ok(())
}

// What one port's outgoing wires are given.
fn put_output<W: Sink>(
    module: &SvModule,
    port: &SvPort,
    output: SvOut,
    out: &mut W,
) -> Result<(), SinkFault>
    ensures { Puts (W.held out.old) (W.held out.new) (W.faults out.old) (W.faults out.new) (out_lines_of «module».now port.now output) result }
{
    match output {
        SvOut::Received { ack } => put_wire_assign(module, port, b"__ack", ack, out),
        SvOut::Sent { value, valid } => {
            put_wire_assign(module, port, b"__data", value, out)?;
            put_wire_assign(module, port, b"__valid", valid, out)
        }
    }
}

// `  assign E__M` and the wire, ` = X;`.
fn put_wire_assign<'a, W: Sink>(
    module: &SvModule,
    port: &'a SvPort,
    wire: &'a [u8],
    given: SvOperand,
    out: &mut W,
) -> Result<(), SinkFault>
    ensures { Puts (W.held out.old) (W.held out.new) (W.faults out.old) (W.faults out.new) (wire_assign_line «module».now port.now wire.now given) result }
{
    put_pieces(
        module,
        &[
            Piece::Text(b"  assign "),
            Piece::Text(port.endpoint.bytes()),
            Piece::Text(b"__"),
            Piece::Text(port.message.bytes()),
            Piece::Text(wire),
            Piece::Text(b" = "),
            Piece::Operand(given),
            Piece::Text(b";\n"),
        ],
        out,
    )
}
