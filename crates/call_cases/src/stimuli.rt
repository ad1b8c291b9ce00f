//! A stimulus of an exchanger is read, with values written out by hand; each call that takes memory meets none that is refused.
use crate::samples::exchanger;
use anvil_bits::Bits;
use core_term::CoreProc;
use std::alloc::Global;
use stim_text::{InCell, StimErr, Watch, read_stim};

// How many rows a text has, and whether these are the cells of the last one.
fn last_row(
    alloc: Global,
    proc: &CoreProc,
    text: &[u8],
    cells: &[InCell],
) -> Option<(usize, bool)> {
    match read_stim(alloc, proc, text) {
        Ok(rows) => {
            let same = match rows.last() {
                Some(row) => row.cells.as_slice() == cells,
                None => false,
            };
            let count = rows.len();
            drop(rows);
            Some((count, same))
        }
        Err(_) => None,
    }
}

// The same for a stimulus of the exchanger.
fn last_row_read(alloc: Global, text: &[u8], cells: &[InCell]) -> Option<(usize, bool)> {
    match exchanger(alloc) {
        Ok(proc) => {
            let told = last_row(alloc, &proc, text, cells);
            drop(proc);
            told
        }
        Err(_) => None,
    }
}

#[test]
fn a_carriage_return_and_a_last_piece_are_read(rt: HostRuntime) {
    let valid = InCell::Received {
        valid: true,
        value: Bits::new(8, 255),
    };
    let cells = [valid, InCell::Sent { ack: false }];
    let told = last_row_read(rt.alloc(), b"0:0 1\r\n1:255 0", &cells);
    assert_eq!(rt; told, Some((2, true)));
}

// The line of a stimulus that is no row.
fn bad_line(alloc: Global, proc: &CoreProc, text: &[u8]) -> Option<u32> {
    match read_stim(alloc, proc, text) {
        Err(StimErr::BadStim { line }) => Some(line),
        Err(_) => None,
        Ok(rows) => {
            drop(rows);
            None
        }
    }
}

fn bad_line_read(alloc: Global, text: &[u8]) -> Option<u32> {
    match exchanger(alloc) {
        Ok(proc) => {
            let line = bad_line(alloc, &proc, text);
            drop(proc);
            line
        }
        Err(_) => None,
    }
}

#[test]
fn a_line_that_is_no_row_is_named(rt: HostRuntime) {
    let texts: [&[u8]; 7] = [
        b"0:0 0\n0:256 0\n",
        b"0:0 0\n0:00 0\n",
        b"0:0 0\n\n",
        b"0:0 0\n0:1  0\n",
        b"0:0 0\n2:0 0\n",
        b"0:0 0\n0:1 0 \n",
        b"0:0 0\n0:1\n",
    ];
    for text in texts {
        assert_eq!(rt; bad_line_read(rt.alloc(), text), Some(2), "{text:?}");
    }
}

// Whether a new watch of a process has these flags.
fn has_flags(alloc: Global, proc: &CoreProc, flags: &[bool]) -> bool {
    match Watch::new(alloc, proc) {
        Ok(watch) => {
            let same = watch.flags() == flags;
            drop(watch);
            same
        }
        Err(_) => false,
    }
}

fn is_watched(alloc: Global, flags: &[bool]) -> bool {
    match exchanger(alloc) {
        Ok(proc) => {
            let same = has_flags(alloc, &proc, flags);
            drop(proc);
            same
        }
        Err(_) => false,
    }
}

#[test]
fn a_new_watch_has_a_flag_for_each_port(rt: HostRuntime) {
    assert!(rt; is_watched(rt.alloc(), &[false, false]));
}
