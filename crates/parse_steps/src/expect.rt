//! Tokens that are wanted at a state, and what follows where they stand there.
ghost use Rattle.std.specs.Prelude.{◌≡◌, ◌≢◌, ℕ, List, MatchBool, MatchResult};
ghost use Rattle.anvil_grammar.specs.Words.{side_of};

use crate::label::Label;
use crate::step::{Begun, Reached, goes_on};
use anvil_grammar::ParseErr;
use anvil_lexer::{Keyword, Mark, Token, TokenKind};
use anvil_tree::Side;

/// Goes on at the next state where the token is the mark.
pub fn await_mark<S: Drop, R: Drop>(
    token: &Token,
    mark: Mark,
    state: &mut S,
    next: S,
) -> Result<Reached<R>, ParseErr>
    ensures { MatchResult result
        (λ reached. (token.now.kind ≡ TokenKind.Mark mark) × (reached ≡ Reached.Onward Begun.Nothing)
        × (state.new ≡ next))
        (λ refusal. (token.now.kind ≢ TokenKind.Mark mark) × (refusal ≡ ParseErr.Unexpected token.now.at)) }
{
    match &token.kind {
        TokenKind::Mark(found) if *found == mark => { goes_on(state, next) }
        _ => Err(ParseErr::Unexpected { at: token.at }),
    }
}

/// The word that the token is.
pub fn word(token: &Token) -> Result<Label, ParseErr>
    ensures { MatchResult result
        (λ label. (token.now.kind ≡ TokenKind.Word label.name) × (label.at ≡ token.now.at))
        (λ refusal. ((name : List ℕ) → token.now.kind ≢ TokenKind.Word name)
        × (refusal ≡ ParseErr.Unexpected token.now.at)) }
{
    match &token.kind {
        TokenKind::Word(name) => Ok(Label {
            name: name.copy(),
            at: token.at,
        }),
        _ => Err(ParseErr::Unexpected { at: token.at }),
    }
}

/// The side that the token names.
pub fn side(token: &Token) -> Option<Side>
    ensures { result ≡ side_of token.now.kind }
{
    match &token.kind {
        TokenKind::Key(Keyword::Left) => Some(Side::Left),
        TokenKind::Key(Keyword::Right) => Some(Side::Right),
        _ => None,
    }
}

/// Whether the token is the keyword.
pub fn is_key(token: &Token, key: Keyword) -> bool
    ensures { MatchBool result (token.now.kind ≡ TokenKind.Key key) (token.now.kind ≢ TokenKind.Key key) }
{
    match &token.kind {
        TokenKind::Key(found) if *found == key => true,
        _ => false,
    }
}
