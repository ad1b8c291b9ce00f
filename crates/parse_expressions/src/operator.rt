//! Operators: the tokens that are one, and how strongly each binds.
ghost use Rattle.std.specs.Prelude.{◌≡◌};
ghost use Rattle.anvil_grammar.specs.Words.{function_of};
ghost use Rattle.anvil_grammar.specs.Step.{is_comparison, operator_at, strength, strength_of, takes_first};

use anvil_lexer::{Keyword, Mark, TokenKind};
use anvil_tree::BinOp;

/// The operator that a token is.
pub fn operator_at(kind: &TokenKind) -> Option<BinOp>
    ensures { result ≡ operator_at kind.now }
{
    match kind {
        TokenKind::Mark(Mark::Star) => Some(BinOp::Mul),
        TokenKind::Mark(Mark::Plus) => Some(BinOp::Add),
        TokenKind::Mark(Mark::Minus) => Some(BinOp::Sub),
        TokenKind::Mark(Mark::EqEq) => Some(BinOp::Eq),
        TokenKind::Mark(Mark::NotEq) => Some(BinOp::Ne),
        TokenKind::Mark(Mark::Less) => Some(BinOp::Lt),
        TokenKind::Mark(Mark::LessEq) => Some(BinOp::Le),
        TokenKind::Mark(Mark::Greater) => Some(BinOp::Gt),
        TokenKind::Mark(Mark::GreaterEq) => Some(BinOp::Ge),
        TokenKind::Mark(Mark::Amp) => Some(BinOp::And),
        TokenKind::Mark(Mark::Caret) => Some(BinOp::Xor),
        TokenKind::Mark(Mark::Bar) => Some(BinOp::Or),
        _ => None,
    }
}

/// The function of two operands that a keyword is.
pub fn function_at(kind: &TokenKind) -> Option<BinOp>
    ensures { result ≡ function_of kind.now }
{
    match kind {
        TokenKind::Key(Keyword::Shl) => Some(BinOp::Shl),
        TokenKind::Key(Keyword::Shr) => Some(BinOp::Shr),
        TokenKind::Key(Keyword::Cat) => Some(BinOp::Cat),
        _ => None,
    }
}

/// How strongly an operator binds its operands.
pub fn strength_of(operator: BinOp) -> u8
    ensures { result ≡ strength_of operator }
{
    match operator {
        BinOp::Shl | BinOp::Shr | BinOp::Cat => 8,
        BinOp::Mul => 7,
        BinOp::Add | BinOp::Sub => 6,
        BinOp::Eq | BinOp::Ne | BinOp::Lt | BinOp::Le | BinOp::Gt | BinOp::Ge => 5,
        BinOp::And => 4,
        BinOp::Xor => 3,
        BinOp::Or => 2,
    }
}

/// How strongly a token goes on with the expression before it: operators as they bind, then `?`, then all else.
pub fn strength(kind: &TokenKind) -> u8
    ensures { result ≡ strength kind.now }
{
    match operator_at(kind) {
        Some(operator) => strength_of(operator),
        None => match kind {
            TokenKind::Mark(Mark::Question) => 1,
            _ => 0,
        },
    }
}

/// Whether an operator compares, so that its result is compared no more.
pub fn is_comparison(operator: BinOp) -> bool
    ensures { result ≡ is_comparison operator }
{
    strength_of(operator) == 5
}

/// Whether an operator takes the operand before it ahead of a token of the strength.
pub fn takes_first(operator: BinOp, strong: u8) -> bool
    ensures { result ≡ takes_first operator strong }
{
    strong < strength_of(operator) || (strong == strength_of(operator) && !is_comparison(operator))
}
