//! The registers and nets of a module.
ghost use Rattle.std.specs.Prelude.{flat_map};
ghost use Rattle.std.specs.List.{enumerate_from};
ghost use Rattle.anvil_io.specs.Causes.{Puts};
ghost use Rattle.sv_tree.specs.Text.{net_assign_line, net_line, net_lines, register_line};

use crate::operators::put_op;
use crate::pieces::{Piece, put_pieces, top_bit};
use anvil_io::{Sink, SinkFault, put_all};
use sv_tree::{SvModule, SvNet, SvReg};

// The declarations of all registers.
pub fn put_registers<W: Sink>(module: &SvModule, out: &mut W) -> Result<(), SinkFault>
    ensures { Puts (W.held out.old) (W.held out.new) (W.faults out.old) (W.faults out.new) (flat_map register_line «module».now.regs) result }
{
    for register in module.regs() {
        put_register(module, register, out)?;
    }
    Ok(())
}

// `  logic [H:0] R;`.
fn put_register<W: Sink>(module: &SvModule, register: &SvReg, out: &mut W) -> Result<(), SinkFault>
    ensures { Puts (W.held out.old) (W.held out.new) (W.faults out.old) (W.faults out.new) (register_line register.now) result }
{
    put_pieces(
        module,
        &[
            Piece::Text(b"  logic ["),
            Piece::Number(top_bit(register.width)),
            Piece::Text(b":0] "),
            Piece::Register(&register.name),
            Piece::Text(b";\n"),
        ],
        out,
    )
}

// The declarations of all nets, each with what drives it.
pub fn put_nets<W: Sink>(module: &SvModule, out: &mut W) -> Result<(), SinkFault>
    ensures { Puts (W.held out.old) (W.held out.new) (W.faults out.old) (W.faults out.new) (flat_map (net_lines «module».now) (enumerate_from 0 «module».now.nets)) result }
{
    for (place, net) in module.nets().iter().enumerate() {
        put_net(module, place as u64, net, out)?;
    }
    Ok(())
}

// A net's declaration and what drives it.
fn put_net<W: Sink>(
    module: &SvModule,
    place: u64,
    net: &SvNet,
    out: &mut W,
) -> Result<(), SinkFault>
    ensures { Puts (W.held out.old) (W.held out.new) (W.faults out.old) (W.faults out.new) (net_lines «module».now (place, net.now)) result }
{
    put_declaration(module, place, net, out)?;
    put_assign(module, place, net, out)
}

// `  logic [H:0] n__K;`.
fn put_declaration<W: Sink>(
    module: &SvModule,
    place: u64,
    net: &SvNet,
    out: &mut W,
) -> Result<(), SinkFault>
    ensures { Puts (W.held out.old) (W.held out.new) (W.faults out.old) (W.faults out.new) (net_line place net.now) result }
{
    put_pieces(
        module,
        &[
            Piece::Text(b"  logic ["),
            Piece::Number(top_bit(net.width)),
            Piece::Text(b":0] n__"),
            Piece::Number(place),
            Piece::Text(b";\n"),
        ],
        out,
    )
}

// `  assign n__K = OP;`.
fn put_assign<W: Sink>(
    module: &SvModule,
    place: u64,
    net: &SvNet,
    out: &mut W,
) -> Result<(), SinkFault>
    ensures { Puts (W.held out.old) (W.held out.new) (W.faults out.old) (W.faults out.new) (net_assign_line «module».now place net.now) result }
{
    put_pieces(
        module,
        &[
            Piece::Text(b"  assign n__"),
            Piece::Number(place),
            Piece::Text(b" = "),
        ],
        out,
    )?;
    put_op(module, net.op, out)?;
    put_all(out, &[b";\n"])
}
