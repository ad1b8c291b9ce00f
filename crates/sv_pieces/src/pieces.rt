//! The pieces of a line, from its front: words, runs of bytes, numbers, names that end with `__`, widths.
ghost use Rattle.std.specs.Prelude.{◌≡◌, ◌≤◌, ◌+◌, List, drop, length, take, MatchOption, None, Some, IfSome};
ghost use Rattle.std.specs.List.{prefix_len};
ghost use Rattle.sv_lines.specs.Pieces.{after, after_run, cut, front_run, number_at, range_at};
ghost use Rattle.sv_pieces.specs.Runs.{passes};
ghost use Rattle.anvil_bits.specs.Number.{widest};

use anvil_lexer::may_stand_in_name;
use std::str;

/// What stands after a word.
pub fn after<'a>(text: &'a [u8], word: &[u8]) -> Option<&'a [u8]>
    ensures { MatchOption result
        (after word.now text.now ≡ None)
        (λ rest. after word.now text.now ≡ Some rest.now) }
{
    text.strip_prefix(word)
}

/// Which bytes make a run: those that may stand in a name, those that may stand in an operand, those up to a blank, digits.
#[derive(Clone, Copy)]
pub enum Run {
    Name,
    Operand,
    Unbroken,
    Digits,
}

fn passes(run: Run, byte: u8) -> bool
    ensures { result ≡ passes run byte }
{
    match run {
        Run::Name => may_stand_in_name(byte),
        Run::Operand => may_stand_in_name(byte) || byte == b'\'',
        Run::Unbroken => !(byte == b' '),
        Run::Digits => byte.is_ascii_digit(),
    }
}

fn run_len(run: Run, text: &[u8]) -> usize
    ensures count { result ≡ prefix_len (passes run) text.now }
    ensures within { result ≤ length text.now }
{
    text.iter().take_while(|byte| passes(run, **byte)).count()
}

/// The longest run in front, and what stands after it.
pub fn run_at(run: Run, text: &[u8]) -> (&[u8], &[u8])
    ensures front { result.0.now ≡ front_run (passes run) text.now }
    ensures rest { result.1.now ≡ after_run (passes run) text.now }
{
    let count = run_len(run, text);
    text.split_at(count)
}

/// A decimal number below 2^64 without leading zeros, and what stands after it.
pub fn number_at(text: &[u8]) -> Option<(u64, &[u8])>
    ensures { MatchOption result
        (number_at text.now ≡ None)
        (λ found. number_at text.now ≡ Some (found.0, found.1.now)) }
{
    let (digits, rest) = run_at(Run::Digits, text);
    let Ok(written) = str::from_utf8(digits) else {
        return None;
    };
    let Ok(value) = written.parse::<u64>() else {
        return None;
    };
    let mut buffer = itoa::Buffer::new();
    if buffer.format(value) == written {
        Some((value, rest))
    } else {
        None
    }
}

/// A width, as its highest bit: `H:0] `.
pub fn range_at(text: &[u8]) -> Option<(u8, &[u8])>
    ensures range { MatchOption result
        (range_at text.now ≡ None)
        (λ found. range_at text.now ≡ Some (found.0, found.1.now)) }
    ensures within { IfSome result (λ found. (1 ≤ found.0) × (found.0 ≤ widest)) }
{
    let Some((high, behind)) = number_at(text) else {
        return None;
    };
    let Some(rest) = after(behind, b":0] ") else {
        return None;
    };
    if high < 64 {
        Some((high as u8 + 1, rest))
    } else {
        None
    }
}

// Where the first `__` stands.
fn cut_len(text: &[u8]) -> Option<usize>
    ensures { MatchOption result (cut text.now ≡ None)
        (λ count. (count + 2 ≤ length text.now)
        × (cut text.now ≡ Some (take count text.now, drop (count + 2) text.now))) }
{
    let mut count = 0;
    while count < text.len() && count + 1 < text.len() {
        if text[count] == b'_' && text[count + 1] == b'_' {
            return Some(count);
        }
        count += 1;
    }
    None
}

/// What stands in front of the first `__`, and what stands after it.
pub fn cut(text: &[u8]) -> Option<(&[u8], &[u8])>
    ensures { MatchOption result
        (cut text.now ≡ None)
        (λ parts. cut text.now ≡ Some (parts.0.now, parts.1.now)) }
{
    match cut_len(text) {
        Some(count) => Some((&text[..count], &text[count + 2..])),
        None => None,
    }
}
