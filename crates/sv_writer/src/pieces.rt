//! A line as a list of pieces, which are put one after the other until a put fails.
ghost use Rattle.std.specs.Prelude.{◌≡◌, ◌-◌};
ghost use Rattle.anvil_io.specs.Causes.{Puts};
ghost use Rattle.sv_writer.specs.Pieces.{piece_text, pieces_text};

use crate::operands::{put_literal, put_operand, put_ref, put_register_name};
use anvil_bits::Bits;
use anvil_io::{Sink, SinkFault, put_all};
use itoa::Buffer;
use sv_tree::{SvModule, SvOperand, SvRef, SvRegName};

/// A piece of a line: bytes as they are, a decimal number, or a part of the module as its text has it.
#[derive(Drop)]
pub enum Piece<'a> {
    Text(&'a [u8]),
    Number(u64),
    Literal(Bits),
    Register(&'a SvRegName),
    Ref(SvRef),
    Operand(SvOperand),
}

// One piece.
fn put_piece<W: Sink>(module: &SvModule, piece: &Piece<'_>, out: &mut W) -> Result<(), SinkFault>
    ensures { Puts (W.held out.old) (W.held out.new) (W.faults out.old) (W.faults out.new) (piece_text «module».now piece.now) result }
{
    match piece {
        Piece::Text(text) => put_all(out, &[text]),
        Piece::Number(number) => put_all(out, &[Buffer::new().format(*number).as_bytes()]),
        Piece::Literal(literal) => put_literal(*literal, out),
        Piece::Register(name) => put_register_name(name, out),
        Piece::Ref(named) => put_ref(module, *named, out),
        Piece::Operand(operand) => put_operand(module, *operand, out),
    }
}

/// Puts the pieces in order. After the first put that fails nothing more is put.
pub fn put_pieces<W: Sink>(
    module: &SvModule,
    pieces: &[Piece<'_>],
    out: &mut W,
) -> Result<(), SinkFault>
    ensures { Puts (W.held out.old) (W.held out.new) (W.faults out.old) (W.faults out.new) (pieces_text «module».now pieces.now) result }
{
    for piece in pieces {
        put_piece(module, piece, out)?;
    }
    Ok(())
}

/// The number of the highest bit of so many.
pub fn top_bit(width: u8) -> u64
    ensures { result ≡ width - 1 }
{
    u64::from(width.saturating_sub(1))
}
