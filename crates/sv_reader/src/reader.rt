//! Reads a whole text.
ghost use Rattle.std.specs.Prelude.{◌≡◌, ◌≢◌, ◌⊎◌, ◌-◌, ◌^◌, ◌≤◌, ◌++◌, ◌∷◌, [], ℕ, List, length, IfOk, IfErr, MatchOption, MatchResult};
ghost use Rattle.std.specs.List.{prefix_len};
ghost use Rattle.sv_tree.specs.Module.{Module};
ghost use Rattle.sv_tree.specs.Text.{IsTextOf};
ghost use Rattle.sv_lines.specs.Refused.{IsNotEmitted};
ghost use Rattle.sv_lines.specs.State.{between, start};
ghost use Rattle.sv_lines.specs.Step.{read_on, read_to_end, stopped};
ghost use Rattle.sv_reader.specs.SeenState.{IsRefusedBy, Quiet, fault_at, is_quiet_byte, state_of};

use crate::error::SvErr;
use crate::reading::Reading;
use std::alloc::Global;
use sv_draft::Fault;
use sv_tree::SvModule;

const LINE_FEED: u8 = 10;

// How many bytes stand before the first line feed.
fn line_len(text: &[u8]) -> usize
    ensures count { result ≡ prefix_len is_quiet_byte text.now }
    ensures within { result ≤ length text.now }
{
    text.iter().take_while(|byte| **byte != LINE_FEED).count()
}

// The first line without its line feed, and what stands behind that, where there is one.
fn first_line(text: &[u8]) -> Option<(&[u8], &[u8])>
    ensures { MatchOption result
        (Quiet text.now)
        (λ found. Quiet found.0.now × (text.now ≡ found.0.now ++ 10 ∷ found.1.now)) }
{
    let count = line_len(text);
    if count == text.len() {
        return None;
    }
    let (line, rest) = text.split_at(count);
    Some((line, &rest[1..]))
}

// Why a line is not read, as an answer: the line begins at the place.
fn refusal(fault: Fault, at: usize) -> SvErr
    requires { at ≤ 2 ^ 24 }
    ensures { result ≡ fault_at at fault }
{
    match fault {
        Fault::CannotStand => SvErr::NotEmitted { at: at as u32 },
        Fault::NoMemory => SvErr::NoMemory,
    }
}

// The state behind all lines, and the piece without a line feed that is left.
fn read_lines(alloc: Global, text: &[u8]) -> Result<(Reading<'_>, &[u8]), SvErr>
    requires { length text.now ≤ 2 ^ 24 }
    ensures lines { MatchResult result
        (λ end. read_on start 0 [] text.now ≡ read_to_end (state_of end.0) end.1.now)
        (λ fault. (fault ≡ SvErr.NoMemory)
        ⊎ ((at : ℕ) × (fault ≡ SvErr.NotEmitted at) × (read_on start 0 [] text.now ≡ stopped at))) }
    ensures left { IfOk result (λ end. length end.1.now ≤ length text.now) }
{
    let mut reading = Reading::new(alloc);
    let mut rest = text;
    while let Some((line, behind)) = first_line(rest) {
        match reading.step(alloc, line) {
            Ok(()) => rest = behind,
            Err(fault) => {
                drop(reading);
                return Err(refusal(fault, text.len() - rest.len()));
            }
        }
    }
    Ok((reading, rest))
}

/// The modules of which the text is the texts, one after the other, with different names. No bytes at all are no modules.
///
/// # Errors
///
/// `NotEmitted` exactly where no modules have the text, with the place of the first byte of the first line that cannot stand after the
/// lines before it; a last piece without a line feed is such a line. Where every line can stand and the text ends inside a module, the
/// place is the length of the text. `NoMemory` may come in place of any answer.
pub fn read_modules(alloc: Global, text: &[u8]) -> Result<Vec<SvModule>, SvErr>
    requires { length text.now ≤ 2 ^ 24 }
    ensures modules { IfOk result (λ modules. IsTextOf text.now modules.items) }
    ensures every_text { (modules : List Module) → IsTextOf text.now modules
        → MatchResult result (λ found. found.items ≡ modules) (λ fault. fault ≡ SvErr.NoMemory) }
    ensures refused { IfErr result (λ fault. fault ≢ SvErr.NoMemory → IsRefusedBy text.now fault) }
    ensures every_place { (place : ℕ) → IsNotEmitted text.now place
        → MatchResult result (λ _. ⊥) (λ fault. (fault ≡ SvErr.NotEmitted place) ⊎ (fault ≡ SvErr.NoMemory)) }
{
    match read_lines(alloc, text) {
        Ok((reading, left)) => ended(reading, left.len(), text.len()),
        Err(fault) => Err(fault),
    }
}

// The answer where all lines are read, and so many bytes are left behind the last one.
fn ended(reading: Reading<'_>, left: usize, len: usize) -> Result<Vec<SvModule>, SvErr>
    requires within { left ≤ len }
    requires few { len ≤ 2 ^ 24 }
    ensures { MatchResult result
        (λ modules. (left ≡ 0) × (state_of reading.entry ≡ between modules.items))
        (λ fault. (fault ≡ SvErr.NotEmitted (len - left))
        × ((left ≡ 0) → (modules : List Module) → state_of reading.entry ≢ between modules)) }
{
    if left > 0 {
        drop(reading);
        return Err(SvErr::NotEmitted {
            at: (len - left) as u32,
        });
    }
    match reading.into_modules() {
        Some(modules) => Ok(modules),
        None => Err(SvErr::NotEmitted { at: len as u32 }),
    }
}
