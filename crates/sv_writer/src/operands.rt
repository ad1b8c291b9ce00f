//! What names and literals of a module are written as.
//!
//! A name of what the module has not got has no text, as its definition says. A well-formed module has none such.
ghost use Rattle.std.specs.Prelude.{slice_get};
ghost use Rattle.anvil_io.specs.Causes.{Puts};
ghost use Rattle.sv_tree.specs.Text.{literal_text, operand_text, ref_text, register_text, register_text_at, wire_text};

use anvil_bits::Bits;
use anvil_io::{Sink, SinkFault, put_all};
use itoa::Buffer;
use sv_tree::{SvModule, SvOperand, SvPort, SvRef, SvRegName};

// `W'dN`.
pub fn put_literal<W: Sink>(literal: Bits, out: &mut W) -> Result<(), SinkFault>
    ensures { Puts (W.held out.old) (W.held out.new) (W.faults out.old) (W.faults out.new) (literal_text literal) result }
{
    let mut width = Buffer::new();
    let mut value = Buffer::new();
    put_all(
        out,
        &[
            width.format(literal.width()).as_bytes(),
            b"'d",
            value.format(literal.value()).as_bytes(),
        ],
    )
}

// `NAME__q` or `s__K`.
pub fn put_register_name<W: Sink>(name: &SvRegName, out: &mut W) -> Result<(), SinkFault>
    ensures { Puts (W.held out.old) (W.held out.new) (W.faults out.old) (W.faults out.new) (register_text name.now) result }
{
    match name {
        SvRegName::Source(name) => put_all(out, &[name.bytes(), b"__q"]),
        SvRegName::State(number) => put_all(
            out,
            &[b"s__", Buffer::new().format(*number).as_bytes()],
        ),
    }
}

// A wire of a port: `E__M__data` and so on.
fn put_wire<W: Sink>(port: &SvPort, wire: &[u8], out: &mut W) -> Result<(), SinkFault>
    ensures { Puts (W.held out.old) (W.held out.new) (W.faults out.old) (W.faults out.new) (wire_text (Some port.now) wire.now) result }
{
    put_all(
        out,
        &[port.endpoint.bytes(), b"__", port.message.bytes(), wire],
    )
}

// The same of the port at a place.
#[tactic(auto, using(crate::proofs::Parts::nothing_put))]
fn put_wire_at<W: Sink>(
    module: &SvModule,
    place: u32,
    wire: &[u8],
    out: &mut W,
) -> Result<(), SinkFault>
    ensures { Puts (W.held out.old) (W.held out.new) (W.faults out.old) (W.faults out.new) (wire_text (slice_get «module».now.ports place) wire.now) result }
{
    match module.ports().get(place as usize) {
        Some(port) => put_wire(port, wire, out),
        None => Ok(()),
    }
}

// The name of the register at a place.
#[tactic(auto, using(crate::proofs::Parts::nothing_put))]
fn put_register_at<W: Sink>(module: &SvModule, place: u32, out: &mut W) -> Result<(), SinkFault>
    ensures { Puts (W.held out.old) (W.held out.new) (W.faults out.old) (W.faults out.new) (register_text_at (slice_get «module».now.regs place)) result }
{
    match module.regs().get(place as usize) {
        Some(register) => put_register_name(&register.name, out),
        None => Ok(()),
    }
}

// The wire, register or net that is named.
pub fn put_ref<W: Sink>(module: &SvModule, named: SvRef, out: &mut W) -> Result<(), SinkFault>
    ensures { Puts (W.held out.old) (W.held out.new) (W.faults out.old) (W.faults out.new) (ref_text «module».now named) result }
{
    match named {
        SvRef::Data(port) => put_wire_at(module, port, b"__data", out),
        SvRef::Valid(port) => put_wire_at(module, port, b"__valid", out),
        SvRef::Ack(port) => put_wire_at(module, port, b"__ack", out),
        SvRef::Reg(register) => put_register_at(module, register, out),
        SvRef::Net(net) => put_all(out, &[b"n__", Buffer::new().format(net).as_bytes()]),
    }
}

// A name or a literal.
pub fn put_operand<W: Sink>(
    module: &SvModule,
    operand: SvOperand,
    out: &mut W,
) -> Result<(), SinkFault>
    ensures { Puts (W.held out.old) (W.held out.new) (W.faults out.old) (W.faults out.new) (operand_text «module».now operand) result }
{
    match operand {
        SvOperand::Ref(named) => put_ref(module, named, out),
        SvOperand::Lit(literal) => put_literal(literal, out),
    }
}
