//! Literals: `W'dN`.
ghost use Rattle.std.specs.Prelude.{◌≡◌, ◌≤◌, ◌^◌, MatchOption, None, Some, nat_lt};
ghost use Rattle.sv_lines.specs.Operands.{literal_by, literal_of};
ghost use Rattle.sv_lines.specs.Step.{last_literal};

use crate::pieces::{Run, after, number_at, run_at};
use anvil_bits::Bits;

fn fits(width: u8, value: u64) -> bool
    requires at_least { 1 ≤ width }
    requires at_most { width ≤ 64 }
    ensures { result ≡ nat_lt value (2 ^ width) }
{
    width == 64 || value < 1 << width
}

fn literal_by(width: u64, value: u64) -> Option<Bits>
    ensures { MatchOption result
        (literal_by record { width = width; value = value } ≡ None)
        (λ number. literal_by record { width = width; value = value } ≡ Some number) }
{
    if width < 1 || width > 64 {
        return None;
    }
    if fits(width as u8, value) {
        Some(Bits::new(width as u8, value))
    } else {
        None
    }
}

/// A literal.
pub fn literal_of(text: &[u8]) -> Option<Bits>
    ensures { MatchOption result
        (literal_of text.now ≡ None)
        (λ number. literal_of text.now ≡ Some number) }
{
    let Some((width, rest)) = number_at(text) else {
        return None;
    };
    let Some(rest) = after(rest, b"'d") else {
        return None;
    };
    let Some((value, rest)) = number_at(rest) else {
        return None;
    };
    if rest == b"".as_slice() {
        literal_by(width, value)
    } else {
        None
    }
}

/// A literal, and the end of the line.
pub fn last_literal(text: &[u8]) -> Option<Bits>
    ensures { MatchOption result
        (last_literal text.now ≡ None)
        (λ number. last_literal text.now ≡ Some number) }
{
    let (front, rest) = run_at(Run::Operand, text);
    let Some(number) = literal_of(front) else {
        return None;
    };
    if rest == b";".as_slice() {
        Some(number)
    } else {
        None
    }
}
