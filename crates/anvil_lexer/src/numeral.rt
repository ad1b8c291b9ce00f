//! Numbers, and literals with their width, base and digits.
ghost use Rattle.std.specs.Prelude.{◌≡◌, ◌≤◌, ◌<◌, ◌∷◌, ◌++◌, MatchOption, MatchResult, Some, None};
ghost use Rattle.std.specs.Str.{chars};
ghost use Rattle.std.specs.Char.{digit_value};
ghost use Rattle.anvil_lexer.specs.Characters.{letter, radix, value_of};
ghost use Rattle.anvil_lexer.specs.Lexeme.{number, literal};
ghost use Rattle.anvil_lexer.specs.TokenText.{said_by};
ghost use Rattle.anvil_lexer.specs.Scan.{IsEndOf, IsLiteralEnd, Reads, Fails, base_of, literal_end, numeral};

use crate::class::{Base, Class};
use crate::error::LexErr;
use crate::front::{begins_with, split_front};
use crate::token::TokenKind;

/// How many digits the base has.
fn radix(base: Base) -> u128
    ensures { result ≡ radix base }
{
    match base {
        Base::Decimal => 10,
        Base::Hexadecimal => 16,
        Base::Binary => 2,
    }
}

/// The base that the letter names in a literal.
fn base_of(letter: char) -> Option<Base>
    ensures { result ≡ base_of letter }
{
    match letter {
        'd' => Some(Base::Decimal),
        'h' => Some(Base::Hexadecimal),
        'b' => Some(Base::Binary),
        _ => None,
    }
}

/// The number that a digit stands for, by the letters past 9, and 36 for any other character.
fn digit_value(digit: char) -> u128
    ensures value { result ≡ digit_value digit }
    ensures small { result ≤ 36 }
{
    u128::from(digit.to_digit(36).unwrap_or(36))
}

/// The number that the digits spell, where it is at most `most`.
fn value(digits: &str, base: Base, most: u128) -> Option<u128>
    ensures { MatchOption result (most < value_of base (chars digits.now)) (λ v. (v ≡ value_of base (chars digits.now)) × (v ≤ most)) }
{
    let mut rest = digits.chars();
    let mut value: u128 = 0;
    while let Some(digit) = rest.next() {
        let Some(shifted) = value.checked_mul(radix(base)) else {
            return None;
        };
        let Some(next) = shifted.checked_add(digit_value(digit)) else {
            return None;
        };
        if most < next {
            return None;
        }
        value = next;
    }
    Some(value)
}

/// What makes a literal of the number before it: the base and the digits, and what follows them.
fn literal_end(after: &str) -> Option<(Base, &str, &str)>
    ensures { MatchOption result (literal_end (chars after.now) ≡ None) (λ end. IsLiteralEnd after.now end.0 end.1.now end.2.now) }
{
    let mut rest = after.chars();
    let Some(quote) = rest.next() else {
        return None;
    };
    let Some(letter) = rest.next() else {
        return None;
    };
    if quote != '\'' {
        return None;
    }
    let Some(base) = base_of(letter) else {
        return None;
    };
    let (digits, after) = split_front(rest.as_str(), Class::Digit(base));
    if digits.is_empty() {
        return None;
    }
    Some((base, digits, after))
}

/// The number with these digits, before `after`.
fn number(digits: &str, after: &str, at: u32) -> Result<TokenKind, LexErr>
    ensures { result ≡ said_by at (number (chars digits.now)) (chars after.now) }
{
    if begins_with(after, Class::Identifier) || begins_with(after, Class::Only('\'')) {
        return Err(LexErr::BadNumber { at });
    }
    match value(digits, Base::Decimal, u128::from(u32::MAX)) {
        Some(value) => Ok(TokenKind::Number(value as u32)),
        None => Err(LexErr::BadNumber { at }),
    }
}

/// The literal with this width, base and digits, before `after`.
fn literal(width: &str, base: Base, digits: &str, after: &str, at: u32) -> Result<TokenKind, LexErr>
    ensures { result ≡ said_by at (literal (chars width.now) base (chars digits.now)) (chars after.now) }
{
    if begins_with(after, Class::Identifier) {
        return Err(LexErr::BadNumber { at });
    }
    let Some(width) = value(width, Base::Decimal, u128::from(u32::MAX)) else {
        return Err(LexErr::BadNumber { at });
    };
    match value(digits, base, u128::MAX) {
        Some(value) => Ok(TokenKind::Literal {
            width: width as u32,
            value,
        }),
        None => Err(LexErr::BadNumber { at }),
    }
}

/// The number or literal whose digits begin the text, and what follows it. `at` is the place of the text.
pub(crate) fn numeral(text: &str, at: u32) -> Result<(TokenKind, &str), LexErr>
    ensures { MatchResult result (λ read. Reads at (numeral (chars text.now)) text.now read.0 read.1.now) (λ refusal. Fails at (numeral (chars text.now)) (chars text.now) refusal) }
{
    let (width, after) = split_front(text, Class::Digit(Base::Decimal));
    match literal_end(after) {
        Some((base, digits, after)) => match literal(width, base, digits, after, at) {
            Ok(kind) => Ok((kind, after)),
            Err(refusal) => Err(refusal),
        },
        None => match number(width, after, at) {
            Ok(kind) => Ok((kind, after)),
            Err(refusal) => Err(refusal),
        },
    }
}
