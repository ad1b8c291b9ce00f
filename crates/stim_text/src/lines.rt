//! The lines of a text, one after another.
ghost use Rattle.std.specs.Prelude.{◌≡◌, ◌≤◌, ◌++◌, ◌∷◌, [], length, MatchOption};
ghost use Rattle.std.specs.List.{prefix_len};
ghost use Rattle.stim_text.specs.Cut.{is_no_feed, without_return, CutsLine, Quiet};

const LINE_FEED: u8 = 10;

/// How many bytes stand before the first line feed.
fn line_len(text: &[u8]) -> usize
    ensures count { result ≡ prefix_len is_no_feed text.now }
    ensures within { result ≤ length text.now }
{
    text.iter().take_while(|byte| **byte != LINE_FEED).count()
}

/// A line without the carriage return at its end.
fn without_return(line: &[u8]) -> &[u8]
    ensures { result.now ≡ without_return line.now }
{
    match line.strip_suffix(b"\r") {
        Some(front) => front,
        None => line,
    }
}

/// What stands before the first line feed, and what stands after it; None where there is no line feed.
fn first_piece(text: &[u8]) -> Option<(&[u8], &[u8])>
    ensures { MatchOption result
        (Quiet text.now)
        (λ found. Quiet found.0.now × (text.now ≡ found.0.now ++ 10 ∷ found.1.now)) }
{
    let count = line_len(text);
    if count == text.len() {
        return None;
    }
    let (front, rest) = text.split_at(count);
    Some((front, &rest[1..]))
}

/// The first line of a text, without its end, and what stands after it; None where there is no line.
pub fn first_line(text: &[u8]) -> Option<(&[u8], &[u8])>
    ensures { MatchOption result (text.now ≡ []) (λ found. CutsLine text.now found.0.now found.1.now) }
{
    match first_piece(text) {
        Some((front, rest)) => Some((without_return(front), rest)),
        None => if text.is_empty() {
            None
        } else {
            Some((text, b""))
        },
    }
}
