//! A sink over a real stream, and over writers that count, take nothing or cannot be flushed.
use anvil_io::{Sink, SinkFault, StdSink, put_all};
use std::io::{Cursor, ErrorKind, Write};
use std::test::Fail;
use std::{fs, io};

const FOLDER: &str = "call_cases_stream_test";

const TEXT: &str = "call_cases_stream_test/text";

// Whether the file has this text.
fn holds(rt: &HostRuntime, wanted: &str) -> bool {
    match fs::read_to_string(rt, TEXT) {
        Ok(text) => {
            let same = text.as_str() == wanted;
            drop(text);
            same
        }
        Err(_) => false,
    }
}

// Puts one line in pieces, and then one without an end: which steps went as they should.
fn steps(rt: &HostRuntime) -> [bool; 6] {
    let Ok(file) = fs::create(rt, TEXT) else {
        return [false; 6];
    };
    let mut sink = StdSink::new(file);
    let begun = sink.put(b"one, ").is_ok() && sink.put(b"").is_ok();
    let kept = holds(rt, "");
    let ended = put_all(&mut sink, &[b"two, ", b"three\n"]).is_ok();
    let whole = holds(rt, "one, two, three\n");
    let begun_again = sink.put(b"four").is_ok();
    drop(sink);
    let left = holds(rt, "one, two, three\n");
    [begun, kept, ended, whole, begun_again, left]
}

// What is answered over a stream that is only read.
fn put_to_read(rt: &HostRuntime) -> Option<Result<(), SinkFault>> {
    let Ok(file) = fs::open(rt, TEXT) else {
        return None;
    };
    let mut sink = StdSink::new(file);
    let answer = sink.put(b"five\n");
    drop(sink);
    Some(answer)
}

#[test]
fn a_sink_over_a_stream_writes_whole_lines(rt: HostRuntime) -> Result<(), Fail> {
    let _ = fs::remove_dir_all(&rt, FOLDER);
    fs::create_dir(&rt, FOLDER)?;
    assert_eq!(rt; steps(&rt), [true; 6]);
    assert!(rt; put_to_read(&rt) == Some(Err(SinkFault)));
    fs::remove_dir_all(&rt, FOLDER)?;
    Ok(())
}

// What three puts answer over four bytes: a line that fits, one that does not, and nothing.
fn answers_in_four() -> [bool; 3] {
    let mut sink = StdSink::new(Cursor::new([0u8; 4]));
    let answers = [
        sink.put(b"ab\n").is_ok(),
        sink.put(b"cd\n").is_ok(),
        sink.put(b"").is_ok(),
    ];
    drop(sink);
    answers
}

#[test]
fn a_write_that_takes_nothing_is_a_fault(rt: HostRuntime) {
    assert_eq!(rt; answers_in_four(), [true, false, true]);
}

// A writer that takes every piece and counts its calls and bytes.
#[derive(Drop)]
struct Counting {
    writes: u32,
    bytes: usize,
}

impl Write for Counting {
    fn write(&mut self, buf: &[u8]) -> io::Result<usize> {
        self.writes = self.writes.saturating_add(1);
        self.bytes = self.bytes.saturating_add(buf.len());
        Ok(buf.len())
    }

    fn flush(&mut self) -> io::Result<()> {
        Ok(())
    }
}

// A part of a long line.
const PART: &[u8] = &[b'x'; 1000];

// How often a writer is called for a text of these pieces, and how many bytes it takes.
fn moved(pieces: &[&[u8]]) -> (u32, usize) {
    let mut to = Counting {
        writes: 0,
        bytes: 0,
    };
    let mut sink = StdSink::new(&mut to);
    let _ = put_all(&mut sink, pieces);
    drop(sink);
    (to.writes, to.bytes)
}

#[test]
fn a_line_is_one_write(rt: HostRuntime) {
    let rows: [(&str, &[&[u8]], u32, usize); 5] = [
        ("no piece", &[], 0, 0),
        (
            "one line",
            &[b"  logic ", b"[7:0]", b" a__q", b";\n"],
            1,
            20,
        ),
        ("two lines", &[b"a", b"b\n", b"", b"c", b"\n"], 2, 5),
        (
            "a line of 4,001 bytes",
            &[PART, PART, PART, PART, b"\n"],
            1,
            4001,
        ),
        (
            "a line of 5,001 bytes, more than are kept",
            &[PART, PART, PART, PART, PART, b"\n"],
            3,
            5001,
        ),
    ];
    for (what, pieces, writes, bytes) in rows {
        assert_eq!(rt; moved(pieces), (writes, bytes), "{what}");
    }
}

// A writer that takes every piece and cannot be flushed.
#[derive(Drop)]
struct Unflushed;

impl Write for Unflushed {
    fn write(&mut self, buf: &[u8]) -> io::Result<usize> {
        Ok(buf.len())
    }

    fn flush(&mut self) -> io::Result<()> {
        Err(io::Error::from(ErrorKind::Other))
    }
}

// What a put answers over it.
fn put_unflushed() -> Result<(), SinkFault> {
    let mut sink = StdSink::new(Unflushed);
    let answer = sink.put(b"ab\n");
    drop(sink);
    answer
}

#[test]
fn a_flush_that_fails_is_a_fault(rt: HostRuntime) {
    assert_eq!(rt; put_unflushed(), Err(SinkFault));
}
