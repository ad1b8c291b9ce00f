//! Growing values, which may want memory, and letting values go.
//!
//! A tree is let go through a function of any type: where a function lets go a tree of its own, its proof takes the tree's
//! type apart, which is dear.
ghost use Rattle.std.specs.Prelude.{◌≡◌, ◌++◌, ◌∷◌, [], IfErr, MatchResult, OnOk};

use anvil_grammar::ParseErr;
use anvil_lexer::Token;
use std::alloc::Global;

/// Puts an item after the others.
pub fn push<T: Drop>(items: &mut Vec<T>, item: T) -> Result<(), ParseErr>
    ensures pushed { OnOk result (items.new.items ≡ items.old.items ++ item ∷ []) }
    ensures full { IfErr result (λ refusal. refusal ≡ ParseErr.NoMemory) }
{
    match items.push(item) {
        Ok(()) => Ok(()),
        Err(_) => Err(ParseErr::NoMemory),
    }
}

/// Puts a value in a place, and lets go what was there.
pub fn put<T: Drop>(place: &mut T, value: T)
    ensures { place.new ≡ value }
{
    *place = value;
}

/// A value in a box of its own.
pub fn boxed<T: Drop>(alloc: Global, value: T) -> Result<Box<T>, ParseErr>
    ensures { MatchResult result (λ held. held.value ≡ value) (λ refusal. refusal ≡ ParseErr.NoMemory) }
{
    match Box::new(alloc, value) {
        Ok(held) => Ok(held),
        Err(_) => Err(ParseErr::NoMemory),
    }
}

/// Two values, each in a box of its own.
pub fn boxed_pair<S: Drop, T: Drop>(
    alloc: Global,
    first: S,
    second: T,
) -> Result<(Box<S>, Box<T>), ParseErr>
    ensures { MatchResult result
        (λ held. (held.0.value ≡ first) × (held.1.value ≡ second))
        (λ refusal. refusal ≡ ParseErr.NoMemory) }
{
    match boxed(alloc, first) {
        Ok(first) => match boxed(alloc, second) {
            Ok(second) => Ok((first, second)),
            Err(refusal) => Err(refusal),
        },
        Err(refusal) => Err(refusal),
    }
}

/// The refusal, where a value is let go.
pub fn refused<T: Drop, R: Drop>(_value: T, refusal: ParseErr) -> Result<R, ParseErr>
    ensures { MatchResult result (λ _. ⊥) (λ found. found ≡ refusal) }
{
    Err(refusal)
}

/// Lets a value go: the token cannot stand behind it.
pub fn refuse<T: Drop, R: Drop>(_value: T, token: &Token) -> Result<R, ParseErr>
    ensures { MatchResult result (λ _. ⊥) (λ refusal. refusal ≡ ParseErr.Unexpected token.now.at) }
{
    Err(ParseErr::Unexpected { at: token.at })
}

/// The first value; the other one is let go.
pub fn first_of<S: Drop, T: Drop>(first: S, _other: T) -> S
    ensures { result ≡ first }
{
    first
}
