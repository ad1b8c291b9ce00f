//! The tokens of a source, one after the other.
ghost use Rattle.std.specs.Prelude.{◌≡◌, ◌≢◌, ◌⊎◌, ◌≤◌, ◌^◌, List, true, length, slice_get, MatchOption, MatchResult, IfOk, IfErr, OnOk, Some, None, ◌++◌, ◌∷◌, []};
ghost use Rattle.std.specs.Str.{chars};
ghost use Rattle.anvil_lexer.specs.Characters.{begins_with, begins_identifier};
ghost use Rattle.anvil_lexer.specs.TokenText.{AreClosed, ArePlacesRising, AreTokensFrom, IsTokenText, IsLexRefusal};
ghost use Rattle.anvil_lexer.specs.Scan.{FailsOrFull, IsMarkAt, ReadsNext, FailsNext, mark_at, named, Reads, Fails};

use crate::class::{Base, Class, begins_identifier};
use crate::error::LexErr;
use crate::front::{split_count, split_front};
use crate::gap::after_gap;
use crate::name::LONGEST_NAME;
use crate::numeral::numeral;
use crate::table::{kind_of_word, mark_spelled};
use crate::token::{Mark, Token, TokenKind};
use std::alloc::Global;
use std::str::from_utf8;

/// The mark at the front of the text, and what follows it: one of two characters comes before one of one.
fn mark(text: &str) -> Option<(Mark, &str)>
    ensures { MatchOption result (mark_at (chars text.now) ≡ None) (λ found. IsMarkAt text.now found.0 found.1.now) }
{
    let (two, after_two) = split_count(text, 2);
    if let Some(mark) = mark_spelled(two) {
        return Some((mark, after_two));
    }
    let (one, after_one) = split_count(text, 1);
    match mark_spelled(one) {
        Some(mark) => Some((mark, after_one)),
        None => None,
    }
}

/// The keyword or word whose characters begin the text, and what follows it. `at` is the place of the text.
fn word(alloc: Global, text: &str, at: u32) -> Result<(TokenKind, &str), LexErr>
    requires { begins_with begins_identifier (chars text.now) ≡ true }
    ensures { MatchResult result (λ read. Reads at (named (chars text.now)) text.now read.0 read.1.now) (λ refusal. Fails at (named (chars text.now)) (chars text.now) refusal) }
{
    let (name, after) = split_front(text, Class::Identifier);
    if name.len() > LONGEST_NAME {
        return Err(LexErr::LongName { at });
    }
    Ok((kind_of_word(alloc, name), after))
}

/// The token at the front of the text, whose first character is `first`, and what follows it. `at` is the place of the text.
fn token(alloc: Global, text: &str, first: char, at: u32) -> Result<(TokenKind, &str), LexErr>
    requires { slice_get (chars text.now) 0 ≡ Some first }
    ensures { MatchResult result (λ read. ReadsNext at text.now read.0 read.1.now) (λ refusal. FailsNext at text.now refusal) }
{
    if begins_identifier(first) {
        return word(alloc, text, at);
    }
    if Class::Digit(Base::Decimal).has(first) {
        return numeral(text, at);
    }
    match mark(text) {
        Some((mark, after)) => Ok((TokenKind::Mark(mark), after)),
        None => Err(LexErr::BadChar { at }),
    }
}

/// Puts a token after the others, or wants memory for it.
fn push(tokens: &mut Vec<Token>, token: Token) -> Result<(), LexErr>
    ensures items { OnOk result (tokens.new.items ≡ tokens.old.items ++ token ∷ []) }
    ensures full { IfErr result (λ refusal. refusal ≡ LexErr.NoMemory) }
{
    match tokens.push(token) {
        Ok(()) => Ok(()),
        Err(_) => Err(LexErr::NoMemory),
    }
}

/// The tokens of a text, closed by `End`.
fn tokens_of(alloc: Global, text: &str) -> Result<Vec<Token>, LexErr>
    requires { length text.now ≤ 2 ^ 20 }
    ensures { MatchResult result (λ tokens. AreTokensFrom text.now 0 tokens.items) (λ refusal. FailsOrFull text.now refusal) }
{
    let mut tokens = Vec::new(alloc);
    let mut rest = text;
    loop {
        let here = after_gap(rest);
        let at = (text.len() - here.len()) as u32;
        let Some(first) = here.chars().next() else {
            let kind = TokenKind::End;
            return match push(&mut tokens, Token { kind, at, len: 0 }) {
                Ok(()) => Ok(tokens),
                Err(refusal) => Err(refusal),
            };
        };
        match token(alloc, here, first, at) {
            Ok((kind, after)) => {
                let len = (here.len() - after.len()) as u32;
                match push(&mut tokens, Token { kind, at, len }) {
                    Ok(()) => rest = after,
                    Err(refusal) => return Err(refusal),
                }
            }
            Err(refusal) => return Err(refusal),
        }
    }
}

/// The tokens of a source, closed by one `End` whose place is the length of the source.
///
/// A place is a byte offset. Each other token's text is the slice of the source at its place, the longest that makes a token
/// there; places rise, and only blanks and comments stand between tokens.
///
/// # Errors
///
/// `NotUtf8` exactly where the source isn't UTF-8, with the length of its longest valid front. Otherwise, at the first place
/// where no token can be made: `LongName` for an identifier of more than 64 bytes, `BadNumber` for digits that make no number
/// and no literal, and `BadChar` for any other character that begins no token. `NoMemory` may come in place of any answer.
pub fn lex(alloc: Global, source: &[u8]) -> Result<Vec<Token>, LexErr>
    requires { length source.now ≤ 2 ^ 20 }
    ensures tokens { IfOk result (λ tokens. IsTokenText source.now tokens.items) }
    ensures every_text { (tokens : List Token) → IsTokenText source.now tokens → MatchResult result (λ found. found.items ≡ tokens) (λ refusal. refusal ≡ LexErr.NoMemory) }
    ensures refused { IfErr result (λ refusal. refusal ≢ LexErr.NoMemory → IsLexRefusal source.now refusal) }
    ensures every_refusal { (refusal : LexErr) → IsLexRefusal source.now refusal → MatchResult result (λ _. ⊥) (λ found. (found ≡ refusal) ⊎ (found ≡ LexErr.NoMemory)) }
    ensures closed { IfOk result (λ tokens. AreClosed tokens.items) }
    ensures rising { IfOk result (λ tokens. ArePlacesRising tokens.items) }
{
    match from_utf8(source) {
        Ok(text) => tokens_of(alloc, text),
        Err(error) => Err(LexErr::NotUtf8 {
            at: error.valid_up_to() as u32,
        }),
    }
}
