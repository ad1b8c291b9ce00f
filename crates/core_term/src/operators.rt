//! The operators of two operands.

/// An operator of two operands. `Shl` and `Shr` shift by an amount of any width, and `Cat` puts its first operand above its
/// second.
#[derive(Clone, Copy, Debug, PartialEq, Eq)]
pub enum BinOp {
    Add,
    Sub,
    Mul,
    And,
    Or,
    Xor,
    Eq,
    Ne,
    Lt,
    Le,
    Gt,
    Ge,
    Shl,
    Shr,
    Cat,
}
