//! Makes the nodes of expressions that have operands, each operand in a box of its own.
ghost use Rattle.std.specs.Prelude.{◌≡◌, MatchResult};
ghost use Rattle.anvil_tree.specs.Tree as tree;
ghost use Rattle.anvil_tree.specs.View.{expr_of};

use crate::room::{boxed, boxed_pair, refused};
use anvil_grammar::ParseErr;
use anvil_tree::{BinOp, Expr, ExprKind};
use std::alloc::Global;

/// `~e`
pub fn inverse(alloc: Global, at: u32, operand: Expr) -> Result<Expr, ParseErr>
    ensures { MatchResult result (λ expr. expr_of expr ≡ tree.inverse at (expr_of operand))
        (λ refusal. refusal ≡ ParseErr.NoMemory) }
{
    match boxed(alloc, operand) {
        Ok(operand) => Ok(Expr {
            at,
            kind: ExprKind::Not(operand),
        }),
        Err(refusal) => Err(refusal),
    }
}

/// Two operands with their operator.
pub fn binary(
    alloc: Global,
    at: u32,
    operator: BinOp,
    first: Expr,
    second: Expr,
) -> Result<Expr, ParseErr>
    ensures { MatchResult result
        (λ expr. expr_of expr ≡ tree.binary at operator (expr_of first) (expr_of second))
        (λ refusal. refusal ≡ ParseErr.NoMemory) }
{
    match boxed_pair(alloc, first, second) {
        Ok((first, second)) => Ok(Expr {
            at,
            kind: ExprKind::Bin(operator, first, second),
        }),
        Err(refusal) => Err(refusal),
    }
}

/// `c ? a : b`
pub fn choice(
    alloc: Global,
    at: u32,
    condition: Expr,
    first: Expr,
    second: Expr,
) -> Result<Expr, ParseErr>
    ensures { MatchResult result
        (λ expr. expr_of expr ≡ tree.choice at (expr_of condition) (expr_of first) (expr_of second))
        (λ refusal. refusal ≡ ParseErr.NoMemory) }
{
    match boxed_pair(alloc, first, second) {
        Ok((first, second)) => chosen(alloc, at, condition, first, second),
        Err(refusal) => refused(condition, refusal),
    }
}

// The same where what is chosen lies in boxes.
fn chosen(
    alloc: Global,
    at: u32,
    condition: Expr,
    first: Box<Expr>,
    second: Box<Expr>,
) -> Result<Expr, ParseErr>
    ensures { MatchResult result
        (λ expr. expr_of expr ≡ tree.choice at (expr_of condition) (expr_of first.value) (expr_of second.value))
        (λ refusal. refusal ≡ ParseErr.NoMemory) }
{
    match boxed(alloc, condition) {
        Ok(condition) => Ok(Expr {
            at,
            kind: ExprKind::Choose(condition, first, second),
        }),
        Err(refusal) => refused((first, second), refusal),
    }
}
