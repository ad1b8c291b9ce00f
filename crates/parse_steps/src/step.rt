//! What a token comes to at a state, and the things that begin with it.
ghost use Rattle.std.specs.Prelude.{◌≡◌, MatchResult};

use anvil_grammar::{Counted, ParseErr};
use anvil_lexer::Token;

/// A thing that begins, with the place of the token by which it does. A node has the place of its own token.
#[derive(Clone, Copy)]
pub struct Begin {
    pub kind: Counted,
    pub at: u32,
}

/// The things that begin with a token, in the order of the text.
#[derive(Clone, Copy)]
pub enum Begun {
    Nothing,
    One(Begin),
    /// An act, and the first node of its expression.
    Two(Begin, Begin),
}

/// What a token comes to where it may stand: the reading of a part goes on, or the part is whole.
#[derive(Drop)]
pub enum Reached<R> {
    Onward(Begun),
    Finished(R),
}

/// Goes on at the next state.
pub fn goes_on<S: Drop, R: Drop>(state: &mut S, next: S) -> Result<Reached<R>, ParseErr>
    ensures { MatchResult result (λ reached. (reached ≡ Reached.Onward Begun.Nothing) × (state.new ≡ next)) (λ _. ⊥) }
{
    *state = next;
    Ok(Reached::Onward(Begun::Nothing))
}

/// Goes on at the next state where something of a kind begins at the token.
pub fn begins<S: Drop, R: Drop>(
    state: &mut S,
    next: S,
    kind: Counted,
    token: &Token,
) -> Result<Reached<R>, ParseErr>
    ensures { MatchResult result
        (λ reached. (reached ≡ Reached.Onward (Begun.One (record { kind = kind; at = token.now.at })))
        × (state.new ≡ next))
        (λ _. ⊥) }
{
    *state = next;
    Ok(Reached::Onward(Begun::One(Begin { kind, at: token.at })))
}
