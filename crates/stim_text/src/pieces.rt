//! The pieces of a line of a stimulus, from its front.
ghost use Rattle.std.specs.Prelude.{◌≡◌, ◌≤◌, ◌<◌, ◌^◌, nat_lt, length, MatchOption, None, Some};
ghost use Rattle.std.specs.Char.{is_ascii_digit};
ghost use Rattle.std.specs.List.{prefix_len};
ghost use Rattle.stim_text.specs.Pieces.{after_byte, after_digits, bit_at, digits_of, number_at};

use std::str;

/// What stands after a byte.
pub fn after_byte(byte: u8, text: &[u8]) -> Option<&[u8]>
    ensures { MatchOption result (after_byte byte text.now ≡ None) (λ rest. after_byte byte text.now ≡ Some rest.now) }
{
    match text {
        [] => None,
        [first, rest @ ..] => if *first == byte { Some(rest) } else { None },
    }
}

/// A bit, `0` or `1`, and what stands after it.
pub fn bit_at(text: &[u8]) -> Option<(bool, &[u8])>
    ensures { MatchOption result (bit_at text.now ≡ None) (λ found. bit_at text.now ≡ Some (found.0, found.1.now)) }
{
    match text {
        [b'0', rest @ ..] => Some((false, rest)),
        [b'1', rest @ ..] => Some((true, rest)),
        _ => None,
    }
}

fn digits_len(text: &[u8]) -> usize
    ensures count { result ≡ prefix_len is_ascii_digit text.now }
    ensures within { result ≤ length text.now }
{
    text.iter().take_while(|byte| byte.is_ascii_digit()).count()
}

fn digits_run(text: &[u8]) -> (&[u8], &[u8])
    ensures front { result.0.now ≡ digits_of text.now }
    ensures rest { result.1.now ≡ after_digits text.now }
{
    let count = digits_len(text);
    text.split_at(count)
}

/// A decimal number below 2^64 without leading zeros, and what stands after it.
pub fn number_at(text: &[u8]) -> Option<(u64, &[u8])>
    ensures { MatchOption result (number_at text.now ≡ None) (λ found. number_at text.now ≡ Some (found.0, found.1.now)) }
{
    let (digits, rest) = digits_run(text);
    let Ok(written) = str::from_utf8(digits) else {
        return None;
    };
    let Ok(value) = written.parse::<u64>() else {
        return None;
    };
    let mut buffer = itoa::Buffer::new();
    if buffer.format(value) == written {
        Some((value, rest))
    } else {
        None
    }
}
