//! Calls of the tool, and how they ended. What is owned is let go by `drop`.
use crate::extent::{Ended, extent_of};
use crate::parts::{Call, Faults, NO_FAULTS, shelf_of, sink_of, words_of};
use anvil_tool::{MemShelf, MemSink, run_tool};
use std::alloc::{AllocError, Global};

/// How a call with these faults ends, beside what is wanted on `out` and on `err`.
pub fn call_against(
    alloc: Global,
    call: Call<'_>,
    faults: Faults<'_>,
    out: &[u8],
    err: &[u8],
) -> Result<Ended, AllocError> {
    let list = words_of(alloc, call.words)?;
    let ended = over_files(alloc, &list, call, faults, out, err);
    drop(list);
    ended
}

/// The same, where what the same call puts to `out` without faults is wanted there.
pub fn call_beside(
    alloc: Global,
    call: Call<'_>,
    faults: Faults<'_>,
    err: &[u8],
) -> Result<Ended, AllocError> {
    let list = words_of(alloc, call.words)?;
    let ended = beside_whole(alloc, &list, call, faults, err);
    drop(list);
    ended
}

/// How a call with these faults ends, where `err` is wanted alone, and how the same call ends then on the same shelf and on new sinks
/// without faults, where `out` is wanted alone.
pub fn call_twice(
    alloc: Global,
    call: Call<'_>,
    faults: Faults<'_>,
    out: &[u8],
    err: &[u8],
) -> Result<(Ended, Ended), AllocError> {
    let list = words_of(alloc, call.words)?;
    let ended = twice_over_files(alloc, &list, call, faults, out, err);
    drop(list);
    ended
}

fn over_files(
    alloc: Global,
    list: &[String],
    call: Call<'_>,
    faults: Faults<'_>,
    out: &[u8],
    err: &[u8],
) -> Result<Ended, AllocError> {
    let mut shelf = shelf_of(alloc, call.files, faults.loads)?;
    let ended = over_shelf(alloc, list, &mut shelf, faults, out, err);
    drop(shelf);
    ended
}

fn twice_over_files(
    alloc: Global,
    list: &[String],
    call: Call<'_>,
    faults: Faults<'_>,
    out: &[u8],
    err: &[u8],
) -> Result<(Ended, Ended), AllocError> {
    let mut shelf = shelf_of(alloc, call.files, faults.loads)?;
    let ended = twice_over_shelf(alloc, list, &mut shelf, faults, out, err);
    drop(shelf);
    ended
}

fn twice_over_shelf(
    alloc: Global,
    list: &[String],
    shelf: &mut MemShelf,
    faults: Faults<'_>,
    out: &[u8],
    err: &[u8],
) -> Result<(Ended, Ended), AllocError> {
    let first = over_shelf(alloc, list, shelf, faults, b"", err)?;
    let again = over_shelf(alloc, list, shelf, NO_FAULTS, out, b"")?;
    Ok((first, again))
}

// The output of the call without faults is wanted.
fn beside_whole(
    alloc: Global,
    list: &[String],
    call: Call<'_>,
    faults: Faults<'_>,
    err: &[u8],
) -> Result<Ended, AllocError> {
    let mut whole = sink_of(alloc, &[])?;
    let ended = beside(alloc, list, call, faults, err, &mut whole);
    drop(whole);
    ended
}

// The same over a sink for that output.
fn beside(
    alloc: Global,
    list: &[String],
    call: Call<'_>,
    faults: Faults<'_>,
    err: &[u8],
    whole: &mut MemSink,
) -> Result<Ended, AllocError> {
    put_whole(alloc, list, call, whole)?;
    over_files(alloc, list, call, faults, whole.bytes(), err)
}

fn put_whole(
    alloc: Global,
    list: &[String],
    call: Call<'_>,
    whole: &mut MemSink,
) -> Result<Ended, AllocError> {
    let mut shelf = shelf_of(alloc, call.files, &[])?;
    let ended = over_sink(alloc, list, &mut shelf, whole, NO_FAULTS, b"", b"");
    drop(shelf);
    ended
}

fn over_shelf(
    alloc: Global,
    list: &[String],
    shelf: &mut MemShelf,
    faults: Faults<'_>,
    out: &[u8],
    err: &[u8],
) -> Result<Ended, AllocError> {
    let mut to = sink_of(alloc, faults.outs)?;
    let ended = over_sink(alloc, list, shelf, &mut to, faults, out, err);
    drop(to);
    ended
}

// The call over a shelf and a sink for `out`.
fn over_sink(
    alloc: Global,
    list: &[String],
    shelf: &mut MemShelf,
    to: &mut MemSink,
    faults: Faults<'_>,
    out: &[u8],
    err: &[u8],
) -> Result<Ended, AllocError> {
    let mut line = sink_of(alloc, faults.errs)?;
    let status = run_tool(alloc, list, shelf, to, &mut line);
    let ended = Ended {
        status,
        out: extent_of(to.bytes(), out),
        err: extent_of(line.bytes(), err),
        out_length: to.bytes().len(),
        err_length: line.bytes().len(),
    };
    drop(line);
    Ok(ended)
}
