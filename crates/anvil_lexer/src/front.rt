//! Fronts of a text: the longest one of characters of a kind, and whether there is one.
ghost use Rattle.std.specs.Prelude.{◌≡◌, ◌++◌, take, drop};
ghost use Rattle.std.specs.Str.{IsUtf8, chars};
ghost use Rattle.anvil_lexer.specs.Characters.{belongs, begins_with};
ghost use Rattle.anvil_lexer.specs.Scan as scan;

use crate::class::Class;

/// What follows the longest front of characters of the kind.
fn after_front(text: &str, class: Class) -> &str
    ensures left { chars result.now ≡ scan.after_front (belongs class) (chars text.now) }
    ensures end { scan.IsEndOf text.now result.now }
{
    let mut rest = text.chars();
    loop {
        let here = rest.as_str();
        match rest.next() {
            Some(character) if class.has(character) => {}
            _ => return here,
        }
    }
}

/// The text before an end of it, and that end.
fn cut<'a>(text: &'a str, end: &str) -> (&'a str, &'a str)
    requires { scan.IsEndOf text.now end.now }
    ensures left { result.1.now ≡ end.now }
    ensures joined { text.now ≡ result.0.now ++ end.now }
    ensures utf8 { IsUtf8 result.0.now }
{
    text.split_at(text.len() - end.len())
}

/// The longest front of characters of the kind, and what follows it.
pub(crate) fn split_front(text: &str, class: Class) -> (&str, &str)
    ensures passing { chars result.0.now ≡ scan.front (belongs class) (chars text.now) }
    ensures left { chars result.1.now ≡ scan.after_front (belongs class) (chars text.now) }
    ensures joined { text.now ≡ result.0.now ++ result.1.now }
    ensures utf8 { IsUtf8 result.0.now }
    ensures left_utf8 { IsUtf8 result.1.now }
{
    cut(text, after_front(text, class))
}

/// The first characters of the text, `count` of them or all, and what follows them.
pub(crate) fn split_count(text: &str, count: usize) -> (&str, &str)
    ensures taken { chars result.0.now ≡ take count (chars text.now) }
    ensures left { chars result.1.now ≡ drop count (chars text.now) }
    ensures joined { text.now ≡ result.0.now ++ result.1.now }
    ensures utf8 { IsUtf8 result.0.now }
    ensures left_utf8 { IsUtf8 result.1.now }
{
    let mut rest = text.chars();
    for _ in 0..count {
        let _ = rest.next();
    }
    cut(text, rest.as_str())
}

/// Whether the text begins with a character of the kind.
pub(crate) fn begins_with(text: &str, class: Class) -> bool
    ensures { result ≡ begins_with (belongs class) (chars text.now) }
{
    match text.chars().next() {
        Some(character) => class.has(character),
        None => false,
    }
}
