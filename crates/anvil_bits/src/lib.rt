//! Numbers of a stated width, with arithmetic modulo a power of two.
//!
//! Takes no memory and refuses nothing: what the caller has to know is a condition of each call. A value keeps that its
//! width is within the limit and that its number is below 2 to the power of the width.
#![tactic(auto)]

ghost use Rattle.std.specs.Prelude.{◌≡◌, ◌≤◌, ◌<◌, ◌+◌, ◌-◌, ◌%◌, ◌^◌};
ghost use Rattle.anvil_bits.specs.Number.{widest};
ghost use Rattle.anvil_bits.specs.Operators.{truth, sum_of, difference_of, product_of, and_of, or_of, xor_of, not_of, equal_of, differs_of, less_of, at_most_of, shift_left_of, shift_right_of, concatenation_of, slice_of, choice_of};

use std::marker::Model;

/// The widest number, in bits: as many as the machine's word that holds one.
pub const WIDEST: u8 = 64;

/// A number of 1 to [`WIDEST`] bits.
#[derive(Debug, PartialEq, Eq, Clone, Copy)]
pub struct Bits {
    width: u8,
    value: u64,
}

impl Model for Bits {
    ghost use Rattle.std.specs.Prelude.{◌≡◌, ◌≤◌, ◌<◌, ◌^◌};
    ghost use Rattle.anvil_bits.specs.Number.{Number, widest};

    ghost Value = { Number };

    ghost view = { λ b. record { width = b.width; value = b.value } };

    ghost invariant = { λ b. (1 ≤ b.width) × (b.width ≤ widest) × (b.value < 2 ^ b.width) };

    ghost inverse = { λ n. record { width = n.width; value = n.value } };
}

impl Bits {
    /// The number `value` of `width` bits.
    pub fn new(width: u8, value: u64) -> Bits
        requires at_least { 1 ≤ width }
        requires at_most { width ≤ widest }
        requires fits { value < 2 ^ width }
        ensures { result ≡ record { width = width; value = value } }
    {
        Bits { width, value }
    }

    /// How many bits the number has.
    pub fn width(self) -> u8
        ensures width { result ≡ self.width }
        ensures at_least { 1 ≤ result }
        ensures at_most { result ≤ widest }
    {
        self.width
    }

    /// The number.
    pub fn value(self) -> u64
        ensures value { result ≡ self.value }
        ensures fits { result < 2 ^ self.width }
    {
        self.value
    }

    /// The low `width` bits of a machine's word.
    fn of_word(width: u8, word: u64) -> Bits
        requires at_least { 1 ≤ width }
        requires at_most { width ≤ widest }
        ensures { result ≡ record { width = width; value = word % 2 ^ width } }
    {
        let ones = u64::MAX >> (WIDEST - width);
        Bits {
            width,
            value: word & ones,
        }
    }

    /// A test as a number of one bit.
    fn of_test(test: bool) -> Bits
        ensures { result ≡ record { width = 1; value = truth test } }
    {
        Bits {
            width: 1,
            value: u64::from(test),
        }
    }

    /// The sum, modulo 2 to the power of the width.
    pub fn add(self, other: Bits) -> Bits
        requires { self.width ≡ other.width }
        ensures { result ≡ record { width = self.width; value = sum_of self.width self.value other.value } }
    {
        Bits::of_word(self.width, self.value.wrapping_add(other.value))
    }

    /// The difference, modulo 2 to the power of the width.
    pub fn sub(self, other: Bits) -> Bits
        requires { self.width ≡ other.width }
        ensures { result ≡ record { width = self.width; value = difference_of self.width self.value other.value } }
    {
        Bits::of_word(self.width, self.value.wrapping_sub(other.value))
    }

    /// The product, modulo 2 to the power of the width.
    pub fn mul(self, other: Bits) -> Bits
        requires { self.width ≡ other.width }
        ensures { result ≡ record { width = self.width; value = product_of self.width self.value other.value } }
    {
        Bits::of_word(self.width, self.value.wrapping_mul(other.value))
    }

    /// Each bit is 1 where it is 1 in both.
    pub fn and(self, other: Bits) -> Bits
        requires { self.width ≡ other.width }
        ensures { result ≡ record { width = self.width; value = and_of self.value other.value } }
    {
        Bits {
            width: self.width,
            value: self.value & other.value,
        }
    }

    /// Each bit is 1 where it is 1 in either.
    pub fn or(self, other: Bits) -> Bits
        requires { self.width ≡ other.width }
        ensures { result ≡ record { width = self.width; value = or_of self.value other.value } }
    {
        Bits {
            width: self.width,
            value: self.value | other.value,
        }
    }

    /// Each bit is 1 where the two differ.
    pub fn xor(self, other: Bits) -> Bits
        requires { self.width ≡ other.width }
        ensures { result ≡ record { width = self.width; value = xor_of self.value other.value } }
    {
        Bits {
            width: self.width,
            value: self.value ^ other.value,
        }
    }

    /// Each bit flipped.
    pub fn not(self) -> Bits
        ensures { result ≡ record { width = self.width; value = not_of self.width self.value } }
    {
        Bits::of_word(self.width, !self.value)
    }

    /// Whether the two are equal, as one bit.
    pub fn eq_bits(self, other: Bits) -> Bits
        requires { self.width ≡ other.width }
        ensures { result ≡ record { width = 1; value = equal_of self.value other.value } }
    {
        Bits::of_test(self.value == other.value)
    }

    /// Whether the two differ, as one bit.
    pub fn ne_bits(self, other: Bits) -> Bits
        requires { self.width ≡ other.width }
        ensures { result ≡ record { width = 1; value = differs_of self.value other.value } }
    {
        Bits::of_test(self.value != other.value)
    }

    /// Whether this is below the other, as one bit.
    pub fn lt(self, other: Bits) -> Bits
        requires { self.width ≡ other.width }
        ensures { result ≡ record { width = 1; value = less_of self.value other.value } }
    {
        Bits::of_test(self.value < other.value)
    }

    /// Whether this is at most the other, as one bit.
    pub fn le(self, other: Bits) -> Bits
        requires { self.width ≡ other.width }
        ensures { result ≡ record { width = 1; value = at_most_of self.value other.value } }
    {
        Bits::of_test(self.value <= other.value)
    }

    /// Whether this is above the other, as one bit.
    pub fn gt(self, other: Bits) -> Bits
        requires { self.width ≡ other.width }
        ensures { result ≡ record { width = 1; value = less_of other.value self.value } }
    {
        Bits::of_test(self.value > other.value)
    }

    /// Whether this is at least the other, as one bit.
    pub fn ge(self, other: Bits) -> Bits
        requires { self.width ≡ other.width }
        ensures { result ≡ record { width = 1; value = at_most_of other.value self.value } }
    {
        Bits::of_test(self.value >= other.value)
    }

    /// The bits moved up by `by` places, with 0 below; 0 where `by` is the width or more.
    pub fn shl(self, by: Bits) -> Bits
        ensures { result ≡ record { width = self.width; value = shift_left_of self.width self.value by.value } }
    {
        if by.value < u64::from(self.width) {
            Bits::of_word(self.width, self.value << by.value)
        } else {
            Bits::of_word(self.width, 0)
        }
    }

    /// The bits moved down by `by` places, with 0 above; 0 where `by` is the width or more.
    pub fn shr(self, by: Bits) -> Bits
        ensures { result ≡ record { width = self.width; value = shift_right_of self.width self.value by.value } }
    {
        if by.value < u64::from(self.width) {
            Bits::of_word(self.width, self.value >> by.value)
        } else {
            Bits::of_word(self.width, 0)
        }
    }

    /// The bits of this above those of `low`.
    pub fn cat(self, low: Bits) -> Bits
        requires { self.width + low.width ≤ widest }
        ensures { result ≡ record { width = self.width + low.width; value = concatenation_of low.width self.value low.value } }
    {
        Bits {
            width: self.width + low.width,
            value: (self.value << low.width) | low.value,
        }
    }

    /// The bits from `high` down to `low`, counted from 0 at the lowest.
    pub fn slice(self, high: u8, low: u8) -> Bits
        requires ordered { low ≤ high }
        requires within { high < self.width }
        ensures { result ≡ record { width = high + 1 - low; value = slice_of high low self.value } }
    {
        Bits::of_word(high - low + 1, self.value >> low)
    }

    /// `yes` where this is 1, and else `no`.
    pub fn mux(self, yes: Bits, no: Bits) -> Bits
        requires one_bit { self.width ≡ 1 }
        requires same { yes.width ≡ no.width }
        ensures { result ≡ record { width = yes.width; value = choice_of self.value yes.value no.value } }
    {
        if self.value == 1 { yes } else { no }
    }
}
