//! Terms, acts and expressions of a thread, after names stand for numbers.
//!
//! Registers and ports are numbered in their process, and acts in their thread: a site is the number of an act. Contracts see
//! these types through the plain terms that they stand for.
use crate::BinOp;
use anvil_bits::Bits;

/// What a thread does, from its begin on.
#[cycle(term)]
#[derive(Drop)]
pub enum CoreTerm {
    /// An act alone.
    One(CoreAct),
    /// An act, and a rest that begins where the act ends.
    Then(CoreAct, Box<CoreTerm>),
    /// An act, and a rest that begins with it.
    Both(CoreAct, Box<CoreTerm>),
}

/// An act: its number in the thread, its place in the source as a byte offset, and what it does.
#[cycle(term)]
#[derive(Drop)]
pub struct CoreAct {
    pub site: u32,
    pub at: u32,
    pub kind: CoreKind,
}

/// What an act does.
#[cycle(term)]
#[derive(Drop)]
pub enum CoreKind {
    /// Lets so many cycles go by.
    Cycle(u16),
    /// Writes a register, which shows the value from the next cycle on.
    Set {
        reg: u32,
        value: CoreExpr,
    },
    /// Offers a value on a port until it is taken.
    Send {
        port: u32,
        value: CoreExpr,
    },
    /// Takes the next value of a port.
    Recv {
        port: u32,
    },
    /// Goes on with one of two sides. `word` is the width of its value, and None where it has none.
    If {
        cond: CoreExpr,
        yes: Box<CoreTerm>,
        no: Option<Box<CoreTerm>>,
        word: Option<u8>,
    },
    /// A term in braces.
    Block(Box<CoreTerm>),
    /// Waits for the act that makes a variable. The variable has the site of that act.
    Wait {
        var: u32,
    },
    /// Computes a value.
    Pure(CoreExpr),
    /// Does nothing.
    Unit,
}

/// An expression. A variable has the site of the act that makes it.
#[derive(Drop)]
pub enum CoreExpr {
    Lit(Bits),
    Var(u32),
    Reg(u32),
    Not(Box<CoreExpr>),
    Bin(BinOp, Box<CoreExpr>, Box<CoreExpr>),
    /// The bits of a variable from `high` down to `low`.
    Slice { var: u32, high: u8, low: u8 },
    /// The second where the first, of one bit, is 1, else the third.
    Choose(Box<CoreExpr>, Box<CoreExpr>, Box<CoreExpr>),
}

/// What a value rests on, told from the text: the data of a `recv`, a register that an act reads, the side of an `if`. Atoms
/// come in the order of these kinds, then of sites, then of registers.
#[derive(Clone, Copy, Debug, PartialEq, Eq, PartialOrd, Ord)]
pub enum SourceAtom {
    Wire { site: u32 },
    Reg { site: u32, reg: u32 },
    Choice { site: u32 },
}
