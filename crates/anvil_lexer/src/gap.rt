//! What stands between tokens: blanks, and comments from `//` to a line feed or to the end.
ghost use Rattle.std.specs.Prelude.{◌≡◌, false};
ghost use Rattle.std.specs.Str.{chars};
ghost use Rattle.anvil_lexer.specs.Gap.{is_blank};
ghost use Rattle.anvil_lexer.specs.Scan.{IsEndOf, skip};

use crate::class::Class;
use crate::front::begins_with;

fn is_blank(character: char) -> bool
    ensures { result ≡ is_blank character }
{
    matches!(character, ' ' | '\t' | '\n' | '\r')
}

/// What is left of the text after blanks and comments.
pub(crate) fn after_gap(text: &str) -> &str
    ensures left { chars result.now ≡ skip false (chars text.now) }
    ensures end { IsEndOf text.now result.now }
{
    let mut rest = text.chars();
    let mut in_comment = false;
    loop {
        let here = rest.as_str();
        let Some(character) = rest.next() else {
            return here;
        };
        if in_comment {
            in_comment = character != '\n';
        } else if is_blank(character) {} else if character == '/'
            && begins_with(rest.as_str(), Class::Only('/'))
        {
            in_comment = true;
        } else {
            return here;
        }
    }
}
