//! The files of the runtime as a shelf. It counts what it takes and what fails, and tells nothing of content.
ghost use Rattle.std.specs.Prelude.{◌≡◌, ◌≤◌, ◌+◌, ◌↔◌, [], List, ℕ, length, IfOk, IfSome, OnOk, OnErr, IsErrOf, None};
ghost use Rattle.std.specs.Io.KnownBytes.{Consumes, ReadConsumes};
ghost use Rattle.anvil_io.specs.Causes.{raised, FaultHasCause, LengthHasCause, TakesCounted};
ghost use Rattle.anvil_io.specs.System.{refusal_of};

use crate::{LoadErr, Shelf};
use std::fs;
use std::io::{ErrorKind, Read};
use std::rt::Files;

// How many bytes one read asks for at most.
const PIECE: u64 = 4096;

/// A shelf over files. Every name may be asked for, and is a path. An absent or unreadable file is a fault.
///
/// A read that a signal interrupts is tried again and is no fault. Where the system says that it has no memory the answer
/// is [`LoadErr::NoMemory`].
#[derive(Drop)]
pub struct FsShelf<'r, R: Files> {
    rt: &'r R,
    faults: u64,
    taken: u64,
}

impl<'r, R: Files> FsShelf<'r, R> {
    /// A shelf over the files of a runtime, with counts of 0.
    pub fn new(rt: &'r R) -> FsShelf<'r, R>
        ensures faults { result.faults ≡ 0 }
        ensures taken { result.taken ≡ 0 }
    {
        FsShelf {
            rt,
            faults: 0,
            taken: 0,
        }
    }
}

impl<'r, R: Files> Shelf for FsShelf<'r, R> {
    ghost told = { λ _ _. None };

    ghost faults = { λ s. s.faults };

    ghost taken = { λ s. s.taken };

    ghost may_ask = { λ _ _. Unit {0} };

    fn load(&mut self, name: &str, limit: u32, into: &mut Vec<u8>) -> Result<(), LoadErr>
        requires empty { into.old.items ≡ [] }
        ensures within { OnOk result (length into.new.items ≤ limit) }
        ensures emptied { OnErr result (into.new.items ≡ []) }
        ensures fault { FaultHasCause self.old.faults self.new.faults result }
        ensures too_long { LengthHasCause None limit self.old.taken self.new.taken result }
        ensures names { (n : List ℕ) → (Unit {0} ↔ Unit {0}) }
        ensures counted { OnOk result (self.new.taken ≡ raised self.old.taken (length into.new.items)) }
    {
        match read_file(self.rt, name, limit, into, &mut self.taken) {
            Ok(()) => Ok(()),
            Err(why) => {
                into.clear();
                if let LoadErr::Fault = why {
                    self.faults = self.faults.saturating_add(1);
                }
                Err(why)
            }
        }
    }
}

// Opens a file and reads it whole. After a refusal `into` may hold what was read.
fn read_file<R: Files>(
    rt: &R,
    name: &str,
    limit: u32,
    into: &mut Vec<u8>,
    taken: &mut u64,
) -> Result<(), LoadErr>
    requires { into.old.items ≡ [] }
    ensures within { OnOk result (length into.new.items ≤ limit) }
    ensures too_long { LengthHasCause None limit taken.old taken.new result }
    ensures counted { OnOk result (taken.new ≡ raised taken.old (length into.new.items)) }
{
    match fs::open(rt, name) {
        Ok(mut file) => read_whole(&mut file, limit, into, taken),
        Err(error) => Err(refusal(error.kind())),
    }
}

// Reads to the end, or until one byte more than the limit was taken.
fn read_whole<F: Read>(
    file: &mut F,
    limit: u32,
    into: &mut Vec<u8>,
    taken: &mut u64,
) -> Result<(), LoadErr>
    requires { into.old.items ≡ [] }
    ensures whole { OnOk result (IfSome (F.remaining file.old) (λ bytes. into.new.items ≡ bytes)) }
    ensures within { OnOk result (length into.new.items ≤ limit) }
    ensures too_long { LengthHasCause None limit taken.old taken.new result }
    ensures counted { OnOk result (taken.new ≡ raised taken.old (length into.new.items)) }
    ensures lost { TakesCounted (F.remaining file.old) (F.remaining file.new) (limit + 1) taken.old taken.new }
{
    let _start = *taken;
    let mut buf = [0u8; 4096];
    let mut left = u64::from(limit) + 1;
    while left > 0 {
        let most = left.min(PIECE) as usize;
        let count = read_some(file, &mut buf[..most])?;
        if count == 0 {
            return Ok(());
        }
        *taken = taken.saturating_add(count as u64);
        left -= count as u64;
        if into.extend_from_slice(&buf[..count]).is_err() {
            return Err(LoadErr::NoMemory);
        }
    }
    Err(LoadErr::TooLong)
}

// One read, tried again where a signal interrupts it.
fn read_some<F: Read>(file: &mut F, buf: &mut [u8]) -> Result<usize, LoadErr>
    ensures bound { IfOk result (λ count. count ≤ length buf.new) }
    ensures bytes { ReadConsumes (F.remaining file.old) (F.remaining file.new) result buf.new }
    ensures no_length { IsErrOf result LoadErr.TooLong → ⊥ }
{
    for _ in 0..u64::MAX {
        match file.read(buf) {
            Ok(count) => return Ok(count),
            Err(error) => {
                let kind = error.kind();
                if kind != ErrorKind::Interrupted {
                    return Err(refusal(kind));
                }
            }
        }
    }
    Err(LoadErr::Fault)
}

// What an error of the system says: that it has no memory, or that the shelf failed.
fn refusal(kind: ErrorKind) -> LoadErr
    ensures value { result ≡ refusal_of kind }
    ensures no_length { result ≡ LoadErr.TooLong → ⊥ }
{
    match kind {
        ErrorKind::OutOfMemory => LoadErr::NoMemory,
        _ => LoadErr::Fault,
    }
}
