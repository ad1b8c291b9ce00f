//! Pieces, put in order until one fails.
use anvil_io::{MemSink, Sink, SinkFault, put_all};
use std::alloc::Global;

// Whether three pieces are put so, where the put of a number fails.
fn are_put(alloc: Global, number: u32, answer: Result<(), SinkFault>, held: &[u8]) -> bool {
    let failing = Vec::from_slice(alloc, &[number]).unwrap_or(Vec::new(alloc));
    match MemSink::new(alloc, 20, failing) {
        Ok(sink) => {
            let mut sink = sink;
            let put = put_all(&mut sink, &[b"ab", b"cdef", b"g"]);
            let same = put == answer && sink.bytes() == held;
            drop(sink);
            same
        }
        Err(_) => false,
    }
}

#[test]
fn pieces_are_put_until_one_fails(rt: HostRuntime) {
    let rows: [(u32, Result<(), SinkFault>, &[u8]); 4] = [
        (0, Err(SinkFault), b"a"),
        (1, Err(SinkFault), b"abcd"),
        (2, Err(SinkFault), b"abcdef"),
        (3, Ok(()), b"abcdefg"),
    ];
    for (number, answer, held) in rows {
        assert!(rt;
            are_put(rt.alloc(), number, answer, held),
            "fails at {number}"
        );
    }
}
