//! The block of the clock, in which registers take their resets and their next values.
ghost use Rattle.std.specs.Prelude.{flat_map, zip};
ghost use Rattle.anvil_io.specs.Causes.{Puts};
ghost use Rattle.sv_tree.specs.Text.{clock_lines, next_line, reset_line};
ghost use Rattle.sv_writer.specs.Block.{block_lines};

use crate::pieces::{Piece, put_pieces};
use anvil_io::{Sink, SinkFault, put_all};
use sv_tree::{SvModule, SvOperand, SvReg};

// The block, where there are registers.
pub fn put_clock<W: Sink>(module: &SvModule, out: &mut W) -> Result<(), SinkFault>
    ensures { Puts (W.held out.old) (W.held out.new) (W.faults out.old) (W.faults out.new) (clock_lines «module».now «module».now.regs) result }
{
    if module.regs().is_empty() {
        return Ok(());
    }
    put_block(module, out)
}

// The block itself.
fn put_block<W: Sink>(module: &SvModule, out: &mut W) -> Result<(), SinkFault>
    ensures { Puts (W.held out.old) (W.held out.new) (W.faults out.old) (W.faults out.new) (block_lines «module».now «module».now.regs) result }
{
    put_all(
        out,
        &[b"  always_ff @(posedge clk_i) begin\n    if (!rst_ni) begin\n"],
    )?;
    put_resets(module, out)?;
    put_all(out, &[b"    end else begin\n"])?;
    put_nexts(module, out)?;
    put_all(out, &[b"    end\n  end\n"])
}

// What all registers take at the reset.
fn put_resets<W: Sink>(module: &SvModule, out: &mut W) -> Result<(), SinkFault>
    ensures { Puts (W.held out.old) (W.held out.new) (W.faults out.old) (W.faults out.new) (flat_map reset_line «module».now.regs) result }
{
    for register in module.regs() {
        put_set(module, register, SvOperand::Lit(register.reset), out)?;
    }
    Ok(())
}

// What all registers take at the end of a cycle.
fn put_nexts<W: Sink>(module: &SvModule, out: &mut W) -> Result<(), SinkFault>
    ensures { Puts (W.held out.old) (W.held out.new) (W.faults out.old) (W.faults out.new) (flat_map (next_line «module».now) (zip «module».now.regs «module».now.nexts)) result }
{
    for (register, next) in module.regs().iter().zip(module.nexts()) {
        put_set(module, register, *next, out)?;
    }
    Ok(())
}

// `      R <= X;`: what a register takes.
fn put_set<W: Sink>(
    module: &SvModule,
    register: &SvReg,
    taken: SvOperand,
    out: &mut W,
) -> Result<(), SinkFault>
    ensures { Puts (W.held out.old) (W.held out.new) (W.faults out.old) (W.faults out.new) (next_line «module».now (register.now, taken)) result }
{
    put_pieces(
        module,
        &[
            Piece::Text(b"      "),
            Piece::Register(&register.name),
            Piece::Text(b" <= "),
            Piece::Operand(taken),
            Piece::Text(b";\n"),
        ],
        out,
    )
}
