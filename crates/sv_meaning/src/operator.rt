//! Operators of two operands, on numbers of a width.
ghost use Rattle.std.specs.Prelude.{◌≡◌, ◌≤◌, IsTrue};
ghost use Rattle.anvil_bits.specs.Number.{widest};
ghost use Rattle.core_term.specs.Operators.{operate as operated};
ghost use Rattle.core_term.specs.Rows.{number_of};
ghost use Rattle.sv_tree.specs.WellFormed.{bin_widths_fit};
ghost use Rattle.core_term.specs.Widths.{result_width};

use anvil_bits::Bits;
use core_term::BinOp;

/// What an operator gives of operands whose widths go with it.
pub fn operate(operator: BinOp, x: Bits, y: Bits) -> Bits
    requires fits { IsTrue (bin_widths_fit operator (result_width operator x.width y.width) x.width y.width) }
    requires within { result_width operator x.width y.width ≤ widest }
    ensures { result ≡ number_of (result_width operator x.width y.width) (operated operator (result_width operator x.width y.width) y.width x.value y.value) }
{
    match operator {
        BinOp::Add => x.add(y),
        BinOp::Sub => x.sub(y),
        BinOp::Mul => x.mul(y),
        BinOp::And => x.and(y),
        BinOp::Or => x.or(y),
        BinOp::Xor => x.xor(y),
        BinOp::Eq => x.eq_bits(y),
        BinOp::Ne => x.ne_bits(y),
        BinOp::Lt => x.lt(y),
        BinOp::Le => x.le(y),
        BinOp::Gt => x.gt(y),
        BinOp::Ge => x.ge(y),
        BinOp::Shl => x.shl(y),
        BinOp::Shr => x.shr(y),
        BinOp::Cat => x.cat(y),
    }
}
