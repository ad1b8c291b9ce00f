//! Whether a token is the mark that is wanted.
ghost use Rattle.std.specs.Prelude.{◌≡◌, ◌≢◌, MatchBool};

use anvil_lexer::{Mark, Token, TokenKind};

/// Whether the token is the mark.
pub fn is_mark(token: &Token, mark: Mark) -> bool
    ensures { MatchBool result (token.now.kind ≡ TokenKind.Mark mark) (token.now.kind ≢ TokenKind.Mark mark) }
{
    match &token.kind {
        TokenKind::Mark(found) if *found == mark => true,
        _ => false,
    }
}
