//! A writer of std as a sink that gives it whole lines. It counts what fails, and as a sink it tells nothing of content;
//! where the writer itself tells what it holds, as one over memory does, a put says what was added to that.
ghost use Rattle.std.specs.Prelude.{◌≡◌, ◌≤◌, ◌++◌, [], length, IfOk, OnOk, OnErr, None, IsTrue};
ghost use Rattle.std.specs.Io.KnownBytes.{Appends, WriteAppends, append_known};
ghost use Rattle.anvil_io.specs.Causes.{Rose, AppendsPrefix};
ghost use Rattle.anvil_io.specs.Lines.{ends_line};

use crate::{Sink, SinkFault};
use arrayvec::ArrayVec;
use std::io::{ErrorKind, Write};

// How many bytes of an unfinished line are kept at most.
const ROOM: usize = 4096;

/// A sink over a writer of std, to which it gives whole lines.
///
/// A piece is kept until one ends with a line feed. Then all that was kept goes to the writer in one write, and the writer
/// is flushed. So a line of up to 4,096 bytes is one write, and nothing is kept after a text that ends with a line feed.
/// Where no room is left for a piece, what was kept goes to the writer, and then the piece.
///
/// A fault is counted in the put in which it comes, and what was kept is dropped there. An unfinished line that is left
/// when the sink goes never reaches the writer.
///
/// A write that a signal interrupts is tried again and is no fault. A write that takes nothing of bytes that it was given
/// is a fault.
#[derive(Drop)]
pub struct StdSink<W: Write + Drop> {
    to: W,
    line: ArrayVec<u8, ROOM>,
    faults: u64,
}

impl<W: Write + Drop> StdSink<W> {
    /// A sink over a writer, with nothing kept and a count of 0.
    pub fn new(to: W) -> StdSink<W>
        ensures writer { result.to ≡ to }
        ensures line { result.line.items ≡ [] }
        ensures faults { result.faults ≡ 0 }
    {
        StdSink {
            to,
            line: ArrayVec::new(),
            faults: 0,
        }
    }
}

impl<W: Write + Drop> Sink for StdSink<W> {
    ghost held = { λ _. None };

    ghost faults = { λ s. s.faults };

    fn put(&mut self, bytes: &[u8]) -> Result<(), SinkFault>
        ensures cause { OnErr result (Rose self.old.faults self.new.faults) }
        ensures fine { OnOk result (self.new.faults ≡ self.old.faults) }
        ensures later { self.old.faults ≤ self.new.faults }
        ensures taken { OnOk result (Appends (append_known (W.contents self.old.to) self.old.line.items)
            (append_known (W.contents self.new.to) self.new.line.items) bytes.now) }
        ensures ended { OnOk result (IsTrue (ends_line bytes.now) → self.new.line.items ≡ []) }
        ensures part { OnErr result (AppendsPrefix (W.contents self.old.to) (W.contents self.new.to)
            (self.old.line.items ++ bytes.now)) }
        ensures dropped { OnErr result (self.new.line.items ≡ []) }
    {
        let answer = take(&mut self.to, &mut self.line, bytes);
        if answer.is_err() {
            self.line.clear();
            self.faults = self.faults.saturating_add(1);
        }
        answer
    }
}

// Keeps a piece, or writes what was kept and the piece, where it ends a line or no room is left for it.
fn take<W: Write>(to: &mut W, line: &mut ArrayVec<u8, ROOM>, bytes: &[u8]) -> Result<(), SinkFault>
    ensures taken { OnOk result (Appends (append_known (W.contents to.old) line.old.items) (append_known (W.contents to.new) line.new.items) bytes.now) }
    ensures ended { OnOk result (IsTrue (ends_line bytes.now) → line.new.items ≡ []) }
    ensures part { OnErr result (AppendsPrefix (W.contents to.old) (W.contents to.new) (line.old.items ++ bytes.now)) }
{
    let Ok(()) = line.try_extend_from_slice(bytes) else {
        write_kept(to, line)?;
        return write_whole(to, bytes);
    };
    if bytes.ends_with(b"\n".as_slice()) {
        write_kept(to, line)
    } else {
        Ok(())
    }
}

// Writes all that was kept.
fn write_kept<W: Write>(to: &mut W, line: &mut ArrayVec<u8, ROOM>) -> Result<(), SinkFault>
    ensures whole { OnOk result (Appends (W.contents to.old) (W.contents to.new) line.old.items) }
    ensures emptied { OnOk result (line.new.items ≡ []) }
    ensures part { OnErr result (AppendsPrefix (W.contents to.old) (W.contents to.new) line.old.items) }
{
    write_whole(to, line.as_slice())?;
    line.clear();
    Ok(())
}

// Writes until the whole piece is taken, and flushes.
fn write_whole<W: Write>(to: &mut W, bytes: &[u8]) -> Result<(), SinkFault>
    ensures whole { OnOk result (Appends (W.contents to.old) (W.contents to.new) bytes.now) }
    ensures part { OnErr result (AppendsPrefix (W.contents to.old) (W.contents to.new) bytes.now) }
{
    let mut at = 0;
    while at < bytes.len() {
        match write_some(to, &bytes[at..]) {
            Ok(count) if count > 0 => at += count,
            _ => return Err(SinkFault),
        }
    }
    match to.flush() {
        Ok(()) => Ok(()),
        Err(_) => Err(SinkFault),
    }
}

// One write, tried again where a signal interrupts it.
fn write_some<W: Write>(to: &mut W, bytes: &[u8]) -> Result<usize, SinkFault>
    ensures bound { IfOk result (λ count. count ≤ length bytes.now) }
    ensures bytes { WriteAppends (W.contents to.old) (W.contents to.new) result bytes.now }
{
    for _ in 0..u64::MAX {
        match to.write(bytes) {
            Ok(count) => return Ok(count),
            Err(error) => {
                if error.kind() != ErrorKind::Interrupted {
                    return Err(SinkFault);
                }
            }
        }
    }
    Err(SinkFault)
}
