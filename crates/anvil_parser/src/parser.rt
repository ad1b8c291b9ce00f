//! The tree of a list of tokens, or the first reason why there is none.
ghost use Rattle.std.specs.Prelude.{◌≡◌, ◌≢◌, ◌⊎◌, IfErr, IfOk, MatchResult};
ghost use Rattle.anvil_lexer.specs.TokenText.{AreClosed, ArePlacesRising};
ghost use Rattle.anvil_tree.specs.Tree as tree;
ghost use Rattle.anvil_tree.specs.View.{file_of};
ghost use Rattle.anvil_tree.specs.Few.{IsFew};
ghost use Rattle.anvil_tree.specs.Order.{ActsNeverFall, NeverFall, places_of_file};
ghost use Rattle.anvil_grammar.specs.Refusal.{IsAccepted, IsFirstRefusal, IsSameRefusal};
ghost use Rattle.anvil_grammar.specs.Limited.{Tally, admitted_with, goes_on, opened, past_limit, refused, take_token, verdict, within_limits};
ghost use Rattle.parse_steps.specs.Seen.{begun_of};
ghost use Rattle.anvil_parser.specs.SeenFile.{reading_of};
ghost use Rattle.parse_steps.specs.SeenCounts.{tally_of};

use crate::state::Reading;
use anvil_grammar::ParseErr;
use anvil_lexer::Token;
use anvil_tree::File;
use parse_expressions::refused;
use parse_steps::{Begun, Counts, Reached};
use std::alloc::Global;

// The counts behind a token and the things that begin with it.
fn counted(counts: Counts, token: &Token, begun: Begun) -> Result<Counts, ParseErr>
    ensures { MatchResult result
        (λ after. admitted_with (opened (tally_of counts) token.now) (begun_of begun) ≡ within_limits (tally_of after))
        (λ refusal. admitted_with (opened (tally_of counts) token.now) (begun_of begun) ≡ past_limit refusal) }
{
    match counts.with_token(token) {
        Ok(counts) => counts.with_begun(begun),
        Err(refusal) => Err(refusal),
    }
}

// One token more.
fn take_token(
    alloc: Global,
    reading: &mut Reading,
    counts: Counts,
    token: &Token,
) -> Result<Counts, ParseErr>
    ensures { MatchResult result
        (λ after. take_token (reading_of reading.old) (tally_of counts) token.now
        ≡ goes_on (reading_of reading.new) (tally_of after))
        (λ refusal. (refusal ≡ ParseErr.NoMemory)
        ⊎ (take_token (reading_of reading.old) (tally_of counts) token.now ≡ refused refusal)) }
{
    match reading.step(alloc, token) {
        Ok(Reached::Onward(begun)) => counted(counts, token, begun),
        Ok(Reached::Finished(_)) => Err(ParseErr::Unexpected { at: token.at }),
        Err(refusal) => Err(refusal),
    }
}

// All tokens, one after the other, as far as they go.
fn read(alloc: Global, tokens: &[Token]) -> Result<Reading, ParseErr>
    ensures { MatchResult result
        (λ reading. (tally : Tally) × (verdict tokens.now ≡ goes_on (reading_of reading) tally))
        (λ refusal. (refusal ≡ ParseErr.NoMemory) ⊎ (verdict tokens.now ≡ refused refusal)) }
{
    let mut reading = Reading::new(alloc);
    let mut counts = Counts::none();
    for token in tokens {
        match take_token(alloc, &mut reading, counts, token) {
            Ok(after) => counts = after,
            Err(refusal) => return refused(reading, refusal),
        }
    }
    Ok(reading)
}

/// The tree of the tokens, which is the one file that they are by the grammar, within all limits; its places are in
/// order.
///
/// The limits are 64 open brackets, 256 nodes of an expression, 512 acts of a thread, 16 threads of a process, and 64
/// registers and endpoints of a process, messages of a class, processes and classes. No input makes the call stack
/// grow: what is begun waits in a vector.
///
/// # Errors
///
/// The refusal with the least place, and at one place in this order: `Unexpected` exactly where the tokens before the
/// one at `at` begin some file, and with it none; `TooDeep` exactly where the bracket at `at` opens while 64 are open;
/// `TooMany` exactly where the token at `at` begins the thing that is one past a limit. `NoMemory` may come in place of
/// any answer.
pub fn parse(alloc: Global, tokens: &[Token]) -> Result<File, ParseErr>
    requires closed { AreClosed tokens.now }
    requires rising { ArePlacesRising tokens.now }
    ensures tree { IfOk result (λ file. IsAccepted tokens.now (file_of file)) }
    ensures every_file { (file : tree.File) → IsAccepted tokens.now file
        → MatchResult result (λ found. file_of found ≡ file) (λ refusal. refusal ≡ ParseErr.NoMemory) }
    ensures few { IfOk result (λ file. IsFew (file_of file)) }
    ensures in_order { IfOk result (λ file. NeverFall (places_of_file (file_of file))) }
    ensures acts_in_order { IfOk result (λ file. ActsNeverFall (file_of file)) }
    ensures refused { IfErr result (λ refusal. refusal ≢ ParseErr.NoMemory → IsFirstRefusal tokens.now refusal) }
    ensures every_refusal { (refusal : ParseErr) → IsFirstRefusal tokens.now refusal
        → MatchResult result (λ _. ⊥) (λ found. IsSameRefusal found refusal ⊎ (found ≡ ParseErr.NoMemory)) }
{
    match read(alloc, tokens) {
        Ok(reading) => match reading.into_items() {
            Some(items) => Ok(File { items }),
            None => unreachable!(),
        },
        Err(refusal) => Err(refusal),
    }
}
