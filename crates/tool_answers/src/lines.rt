//! The one line on standard error that stands beside each status but `Done`.
ghost use Rattle.std.specs.Prelude.{◌≢◌, ◌++◌, codes};
ghost use Rattle.anvil_io.specs.Causes.{joined};
ghost use Rattle.tool_answers.specs.Answered.{Says, SaysLoad, sink_seen, status_of};
ghost use Rattle.tool_answers.specs.Lines.{no_memory_line, promise_line, refusal_line};

use crate::refusal::{Code, Refusal, spelling};
use crate::status::Status;
use anvil_io::{LoadErr, Sink, put_all};
use itoa::Buffer;

// Puts a line, and gives `status`, or `WriteFault` where the put failed.
fn complain<E: Sink>(err: &mut E, line: &[&[u8]], status: Status) -> Status
    requires { status ≢ Status.WriteFault }
    ensures { Says (joined line.now) status result
        (sink_seen (E.held err.old) (E.held err.new) (E.faults err.old) (E.faults err.new)) }
{
    match put_all(err, line) {
        Ok(()) => status,
        Err(_) => Status::WriteFault,
    }
}

/// Says that no memory was found.
pub fn complain_memory<E: Sink>(err: &mut E) -> Status
    ensures { Says no_memory_line Status.NoMemory result
        (sink_seen (E.held err.old) (E.held err.new) (E.faults err.old) (E.faults err.new)) }
{
    complain(err, &[b"no memory\n"], Status::NoMemory)
}

/// The line of words that have no form.
pub fn complain_usage<E: Sink>(err: &mut E, line: &[u8]) -> Status
    ensures { Says line.now Status.Usage result
        (sink_seen (E.held err.old) (E.held err.new) (E.faults err.old) (E.faults err.new)) }
{
    complain(err, &[line], Status::Usage)
}

// The same with a line that ends with the name of a file.
fn complain_of<E: Sink>(err: &mut E, what: &[u8], file: &str, status: Status) -> Status
    requires { status ≢ Status.WriteFault }
    ensures { Says (what.now ++ (file.now ++ codes "\n")) status result
        (sink_seen (E.held err.old) (E.held err.new) (E.faults err.old) (E.faults err.new)) }
{
    complain(err, &[what, file.as_bytes(), b"\n"], status)
}

/// The line of a refusal, or of want of memory.
pub fn complain_refusal<E: Sink>(err: &mut E, refusal: Refusal) -> Status
    ensures { Says (refusal_line refusal) (status_of refusal) result
        (sink_seen (E.held err.old) (E.held err.new) (E.faults err.old) (E.faults err.new)) }
{
    match refusal {
        Refusal::Bare { code } => {
            complain(err, &[b"refused: ", spelling(code), b"\n"], Status::Refused)
        }
        Refusal::Placed { code, at } => complain_at(err, code, at),
        Refusal::Paired { code, at, other } => complain_at_both(err, code, at, other),
        Refusal::Lined { code, line } => complain_at(err, code, line),
        Refusal::NoMemory => complain_memory(err),
    }
}

// The line of a refusal at a place or a line.
fn complain_at<E: Sink>(err: &mut E, code: Code, at: u32) -> Status
    ensures { Says (refusal_line (Refusal.Placed code at)) Status.Refused result
        (sink_seen (E.held err.old) (E.held err.new) (E.faults err.old) (E.faults err.new)) }
{
    let mut place = Buffer::new();
    let line: [&[u8]; 5] = [
        b"refused: ",
        spelling(code),
        b" at ",
        place.format(at).as_bytes(),
        b"\n",
    ];
    complain(err, &line, Status::Refused)
}

// The line of a refusal at two places.
fn complain_at_both<E: Sink>(err: &mut E, code: Code, at: u32, other: u32) -> Status
    ensures { Says (refusal_line (Refusal.Paired code at other)) Status.Refused result
        (sink_seen (E.held err.old) (E.held err.new) (E.faults err.old) (E.faults err.new)) }
{
    let mut first = Buffer::new();
    let mut second = Buffer::new();
    let line: [&[u8]; 7] = [
        b"refused: ",
        spelling(code),
        b" at ",
        first.format(at).as_bytes(),
        b" and ",
        second.format(other).as_bytes(),
        b"\n",
    ];
    complain(err, &line, Status::Refused)
}

/// The line of a broken promise, by the names of its port.
pub fn complain_promise<E: Sink>(err: &mut E, cycle: u32, endpoint: &[u8], message: &[u8]) -> Status
    ensures { Says (promise_line cycle endpoint.now message.now) Status.Breach result
        (sink_seen (E.held err.old) (E.held err.new) (E.faults err.old) (E.faults err.new)) }
{
    let mut number = Buffer::new();
    let line: [&[u8]; 7] = [
        b"breach: cycle ",
        number.format(cycle).as_bytes(),
        b" port ",
        endpoint,
        b".",
        message,
        b"\n",
    ];
    complain(err, &line, Status::Breach)
}

/// The line of a load that failed.
pub fn complain_load<E: Sink>(err: &mut E, file: &str, fault: LoadErr) -> Status
    ensures { SaysLoad fault file.now result
        (sink_seen (E.held err.old) (E.held err.new) (E.faults err.old) (E.faults err.new)) }
{
    match fault {
        LoadErr::Fault => complain_of(err, b"read fault: ", file, Status::ReadFault),
        LoadErr::TooLong => complain_of(err, b"too long: ", file, Status::TooLong),
        LoadErr::NoMemory => complain_memory(err),
    }
}
