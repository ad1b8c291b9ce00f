//! Expressions.
use anvil_lexer::Name;

/// An operator or a function of two operands.
#[derive(Clone, Copy, Debug, PartialEq, Eq)]
pub enum BinOp {
    Add,
    Sub,
    Mul,
    And,
    Or,
    Xor,
    Eq,
    Ne,
    Lt,
    Le,
    Gt,
    Ge,
    Shl,
    Shr,
    Cat,
}

/// An expression, by its root node.
///
/// `at` is the place of the node: that of its literal or word, of the `*` of `*r`, of its `~`, operator or `?`, of `shl`,
/// `shr` or `cat`, or of the `(` of `()`. A slice has the place of its word.
#[cycle(expr)]
#[derive(Drop)]
pub struct Expr {
    pub at: u32,
    pub kind: ExprKind,
}

/// The node at the root of an expression, with its operands in the order of the text. Parentheses leave no node.
#[cycle(expr)]
#[derive(Drop)]
pub enum ExprKind {
    /// A literal of a width in bits.
    Lit { width: u32, value: u128 },
    Var(Name),
    /// `*r`, what the register shows.
    Deref(Name),
    /// `~e`
    Not(Box<Expr>),
    Bin(BinOp, Box<Expr>, Box<Expr>),
    /// `x[high:low]`
    Slice { name: Name, high: u32, low: u32 },
    /// `c ? a : b`
    Choose(Box<Expr>, Box<Expr>, Box<Expr>),
    /// `()`
    Unit,
}
