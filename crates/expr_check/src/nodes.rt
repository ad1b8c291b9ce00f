//! The checks of single nodes of an expression, once its operands have their widths.
ghost use Rattle.std.specs.Prelude.{◌≡◌, ◌≤◌, None, Some, MatchResult};
ghost use Rattle.core_term.specs.Widths.{result_width};
ghost use Rattle.first_check.specs.Check.{first_refusal};
ghost use Rattle.core_file.specs.declared.error.NameErr.TheVariants.{WidthDiffers};
ghost use Rattle.core_file.specs.Refused.{is_width, literal_checks};
ghost use Rattle.core_file.specs.CoreTerm.{operator_of};
ghost use Rattle.core_file.specs.ExprChecks.{operator_checks, choice_checks};

use anvil_bits::Bits;
use anvil_tree::BinOp;
use core_file::NameErr;

/// The widest value, in bits.
const WIDEST: u32 = 64;

/// The operator of a core term.
pub fn core_operator(operator: BinOp) -> core_term::BinOp
    ensures { result ≡ operator_of operator }
{
    match operator {
        BinOp::Add => core_term::BinOp::Add,
        BinOp::Sub => core_term::BinOp::Sub,
        BinOp::Mul => core_term::BinOp::Mul,
        BinOp::And => core_term::BinOp::And,
        BinOp::Or => core_term::BinOp::Or,
        BinOp::Xor => core_term::BinOp::Xor,
        BinOp::Eq => core_term::BinOp::Eq,
        BinOp::Ne => core_term::BinOp::Ne,
        BinOp::Lt => core_term::BinOp::Lt,
        BinOp::Le => core_term::BinOp::Le,
        BinOp::Gt => core_term::BinOp::Gt,
        BinOp::Ge => core_term::BinOp::Ge,
        BinOp::Shl => core_term::BinOp::Shl,
        BinOp::Shr => core_term::BinOp::Shr,
        BinOp::Cat => core_term::BinOp::Cat,
    }
}

/// Whether a value can be so many bits wide.
pub fn is_width(width: u32) -> bool
    ensures { result ≡ is_width width }
{
    width >= 1 && width <= WIDEST
}

/// A literal, or the first check of it that fails.
pub fn read_literal(at: u32, width: u32, value: u128) -> Result<Bits, NameErr>
    ensures { MatchResult result
        (λ bits. (first_refusal (literal_checks at width value) ≡ None) × (bits.width ≡ width) × (bits.value ≡ value))
        (λ fault. first_refusal (literal_checks at width value) ≡ Some fault) }
{
    if !is_width(width) {
        return Err(NameErr::BadWidth { at });
    }
    if value >= 1 << width {
        return Err(NameErr::LiteralTooLarge { at });
    }
    Ok(Bits::new(width as u8, value as u64))
}

/// The refusal of two widths that differ.
pub fn differ(at: u32, left: u8, right: u8) -> NameErr
    ensures { result ≡ WidthDiffers at left right }
{
    NameErr::WidthDiffers {
        at,
        left: left as u32,
        right: right as u32,
    }
}

/// The width of a node with two operands of these widths, or the check of it that fails.
pub fn operator_width(at: u32, operator: BinOp, left: u8, right: u8) -> Result<u8, NameErr>
    ensures { MatchResult result
        (λ width. (first_refusal (operator_checks at operator left right) ≡ None) × (width ≡ result_width (operator_of operator) left right))
        (λ fault. first_refusal (operator_checks at operator left right) ≡ Some fault) }
{
    match operator {
        BinOp::Shl | BinOp::Shr => Ok(left),
        BinOp::Cat => {
            if left as u32 + right as u32 <= WIDEST {
                Ok(left + right)
            } else {
                Err(NameErr::BadWidth { at })
            }
        }
        BinOp::Add | BinOp::Sub | BinOp::Mul | BinOp::And | BinOp::Or | BinOp::Xor => {
            if left == right {
                Ok(left)
            } else {
                Err(differ(at, left, right))
            }
        }
        BinOp::Eq | BinOp::Ne | BinOp::Lt | BinOp::Le | BinOp::Gt | BinOp::Ge => {
            if left == right {
                Ok(1)
            } else {
                Err(differ(at, left, right))
            }
        }
    }
}

/// The width of a choice whose three parts have these widths, or the first check of it that fails.
pub fn choice_width(at: u32, condition: u8, first: u8, second: u8) -> Result<u8, NameErr>
    ensures { MatchResult result
        (λ width. (first_refusal (choice_checks at condition first second) ≡ None) × (width ≡ first))
        (λ fault. first_refusal (choice_checks at condition first second) ≡ Some fault) }
{
    if condition != 1 {
        return Err(differ(at, 1, condition));
    }
    if first != second {
        return Err(differ(at, first, second));
    }
    Ok(first)
}
