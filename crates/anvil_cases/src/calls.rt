//! Calls of every command, and what each answers where nothing fails. Answers and lines are worked out by hand from the documents.
use crate::programs::{
    BROKEN, COUNTER, ECHO, ECHO_FRONT, ECHO_LOG, MODULE, ROWS, TAKER, TAKER_FRONT, TWO_SETS, USAGE,
};
use anvil_tool::Status;
use tool_bench::Call;

/// A call and its answer.
#[derive(Clone, Copy)]
pub struct Case<'a> {
    pub what: &'a str,
    pub call: Call<'a>,
    /// For each file that it loads, in order, the line where this load fails.
    pub loads: &'a [&'a [u8]],
    pub status: Status,
    /// What is put to `out`, where it is known by hand; else something is.
    pub out: Option<&'a [u8]>,
    /// Where there is an output, the fewest puts that it takes.
    pub puts: u32,
    pub err: &'a [u8],
}

const FILE: &[&[u8]] = &[b"read fault: f\n"];

const FILE_AND_STIM: &[&[u8]] = &[b"read fault: f\n", b"read fault: s\n"];

const ALL: &[&[u8]] = &[b"read fault: f\n", b"read fault: v\n", b"read fault: s\n"];

pub const CHECKS: [Case<'static>; 5] = [
    Case {
        what: "check of an echo",
        call: Call {
            words: &["check", "f"],
            files: &[("f", ECHO)],
        },
        loads: FILE,
        status: Status::Done,
        out: Some(b"accepted\n"),
        puts: 1,
        err: b"",
    },
    Case {
        what: "check of no bytes",
        call: Call {
            words: &["check", "f"],
            files: &[("f", b"")],
        },
        loads: FILE,
        status: Status::Done,
        out: Some(b"accepted\n"),
        puts: 1,
        err: b"",
    },
    Case {
        what: "check of two sets at once",
        call: Call {
            words: &["check", "f"],
            files: &[("f", TWO_SETS)],
        },
        loads: FILE,
        status: Status::Refused,
        out: Some(b""),
        puts: 0,
        err: b"refused: V3 at 36 and 52\n",
    },
    Case {
        what: "check of bytes that are no UTF-8",
        call: Call {
            words: &["check", "f"],
            files: &[("f", b"proc\xff")],
        },
        loads: FILE,
        status: Status::Refused,
        out: Some(b""),
        puts: 0,
        err: b"refused: NotUtf8 at 4\n",
    },
    Case {
        what: "check of an absent file",
        call: Call {
            words: &["check", "none"],
            files: &[],
        },
        loads: &[b"read fault: none\n"],
        status: Status::ReadFault,
        out: Some(b""),
        puts: 0,
        err: b"read fault: none\n",
    },
];

pub const COMPILES: [Case<'static>; 3] = [
    Case {
        what: "compile of a counter",
        call: Call {
            words: &["compile", "f"],
            files: &[("f", COUNTER)],
        },
        loads: FILE,
        status: Status::Done,
        out: None,
        puts: 41,
        err: b"",
    },
    Case {
        what: "compile of two sets at once",
        call: Call {
            words: &["compile", "f"],
            files: &[("f", TWO_SETS)],
        },
        loads: FILE,
        status: Status::Refused,
        out: Some(b""),
        puts: 0,
        err: b"refused: V3 at 36 and 52\n",
    },
    Case {
        what: "compile of an absent file",
        call: Call {
            words: &["compile", "none"],
            files: &[],
        },
        loads: &[b"read fault: none\n"],
        status: Status::ReadFault,
        out: Some(b""),
        puts: 0,
        err: b"read fault: none\n",
    },
];

pub const RUNS: [Case<'static>; 5] = [
    Case {
        what: "run of an echo",
        call: Call {
            words: &["run", "f", "e", "s"],
            files: &[("f", ECHO), ("s", ROWS)],
        },
        loads: FILE_AND_STIM,
        status: Status::Done,
        out: Some(ECHO_LOG),
        puts: 5,
        err: b"",
    },
    Case {
        what: "run of a promise that breaks",
        call: Call {
            words: &["run", "f", "e", "s"],
            files: &[("f", ECHO), ("s", BROKEN)],
        },
        loads: FILE_AND_STIM,
        status: Status::Breach,
        out: Some(ECHO_FRONT),
        puts: 1,
        err: b"breach: cycle 2 port p.req\n",
    },
    Case {
        what: "run of a line that is no row",
        call: Call {
            words: &["run", "f", "e", "s"],
            files: &[("f", ECHO), ("s", b"0:0 0\n2:7 0\n")],
        },
        loads: FILE_AND_STIM,
        status: Status::Refused,
        out: Some(b""),
        puts: 0,
        err: b"refused: BadStim at 2\n",
    },
    Case {
        what: "run of an absent stimulus",
        call: Call {
            words: &["run", "f", "e", "none"],
            files: &[("f", ECHO)],
        },
        loads: &[b"read fault: f\n", b"read fault: none\n"],
        status: Status::ReadFault,
        out: Some(b""),
        puts: 0,
        err: b"read fault: none\n",
    },
    Case {
        what: "run of no file",
        call: Call {
            words: &["run", "f", "c", "s"],
            files: &[("f", b""), ("s", b"")],
        },
        loads: FILE,
        status: Status::Refused,
        out: Some(b""),
        puts: 0,
        err: b"refused: NoProcess\n",
    },
];

pub const MODULE_RUNS: [Case<'static>; 4] = [
    Case {
        what: "runsv of a counter",
        call: Call {
            words: &["runsv", "f", "v", "c", "s"],
            files: &[("f", COUNTER), ("v", MODULE), ("s", b"\n\n\n\n\n")],
        },
        loads: ALL,
        status: Status::Done,
        out: Some(b"a=0\na=1\na=1\na=1\na=2\n"),
        puts: 1,
        err: b"",
    },
    Case {
        what: "runsv of a promise that breaks",
        call: Call {
            words: &["runsv", "f", "v", "e", "s"],
            files: &[("f", ECHO), ("v", TAKER), ("s", BROKEN)],
        },
        loads: ALL,
        status: Status::Breach,
        out: Some(TAKER_FRONT),
        puts: 1,
        err: b"breach: cycle 2 port p.req\n",
    },
    Case {
        what: "runsv of no modules",
        call: Call {
            words: &["runsv", "f", "v", "c", "s"],
            files: &[("f", COUNTER), ("v", b""), ("s", b"\n")],
        },
        loads: &[b"read fault: f\n", b"read fault: v\n"],
        status: Status::Refused,
        out: Some(b""),
        puts: 0,
        err: b"refused: NoModule\n",
    },
    Case {
        what: "runsv of an absent stimulus",
        call: Call {
            words: &["runsv", "f", "v", "c", "none"],
            files: &[("f", COUNTER), ("v", MODULE)],
        },
        loads: &[
            b"read fault: f\n",
            b"read fault: v\n",
            b"read fault: none\n",
        ],
        status: Status::ReadFault,
        out: Some(b""),
        puts: 0,
        err: b"read fault: none\n",
    },
];

pub const OTHERS: [Case<'static>; 2] = [
    Case {
        what: "gen of one process",
        call: Call {
            words: &["gen", "1"],
            files: &[],
        },
        loads: &[],
        status: Status::Done,
        out: Some(b"processes=1 bytes=191 cycles=100 exchanges=100 registers=50\n"),
        puts: 1,
        err: b"",
    },
    Case {
        what: "a word too many",
        call: Call {
            words: &["check", "x", "y"],
            files: &[],
        },
        loads: &[],
        status: Status::Usage,
        out: Some(b""),
        puts: 0,
        err: USAGE,
    },
];

/// The calls of every command.
pub const CALLS: [&[Case<'static>]; 5] = [&CHECKS, &COMPILES, &RUNS, &MODULE_RUNS, &OTHERS];
