//! Loads and puts that fail, one after the other, for every command.
use crate::calls::{CALLS, Case};
use crate::programs::ECHO;
use anvil_tool::Status;
use std::alloc::{AllocError, Global};
use std::test::Fail;
use tool_bench::{Call, Ended, Extent, Faults, NO_FAULTS, call_against, call_beside, call_twice};

/// More puts than a call makes.
const MANY: u32 = 10_000;

// Where puts fail.
#[derive(Clone, Copy)]
enum Stream {
    Out,
    Err,
}

impl Stream {
    // The faults of puts of these numbers.
    fn fails_at(self, numbers: &[u32]) -> Faults<'_> {
        match self {
            Stream::Out => Faults {
                outs: numbers,
                ..NO_FAULTS
            },
            Stream::Err => Faults {
                errs: numbers,
                ..NO_FAULTS
            },
        }
    }

    fn length_of(self, end: Ended) -> usize {
        match self {
            Stream::Out => end.out_length,
            Stream::Err => end.err_length,
        }
    }

    // Whether a put failed after at least so many bytes: a front part stands on the stream. Nothing stands on `err` where it was a put to `out`, and
    // all that is wanted on `out` where it was one to `err`.
    fn is_cut(self, end: Ended, length: usize) -> bool {
        let stands = match self {
            Stream::Out => end.out == Extent::Front && end.err_length == 0,
            Stream::Err => end.err == Extent::Front && end.out == Extent::Whole,
        };
        end.status == Status::WriteFault && stands && self.length_of(end) >= length
    }
}

// How a case ends with these faults, beside its answer without any.
fn ended(alloc: Global, case: &Case<'_>, faults: Faults<'_>) -> Result<Ended, AllocError> {
    match case.out {
        Some(out) => call_against(alloc, case.call, faults, out, case.err),
        None => call_beside(alloc, case.call, faults, case.err),
    }
}

// Whether a call ended with its answer.
fn is_answer(case: &Case<'_>, end: Ended) -> bool {
    end.status == case.status && end.out == Extent::Whole && end.err == Extent::Whole
}

// Whether a call may make so many puts to `out`.
fn may_put(case: &Case<'_>, puts: u32) -> bool {
    match case.out {
        Some(b"") => puts == 0,
        _ => puts >= case.puts,
    }
}

// How many loads fail in turn with their lines and nothing on `out`.
fn loads_that_fail(alloc: Global, case: &Case<'_>) -> Result<u32, AllocError> {
    let mut number = 0u32;
    for line in case.loads {
        let faults = Faults {
            loads: &[number],
            ..NO_FAULTS
        };
        let end = call_against(alloc, case.call, faults, b"", line)?;
        if end.status != Status::ReadFault || end.out != Extent::Whole || end.err != Extent::Whole {
            break;
        }
        number = number.saturating_add(1);
    }
    Ok(number)
}

// How many puts to a stream fail in turn, each cut short as `is_cut` says, until the call ends with its answer; or none where one ends otherwise.
fn puts_that_fail(
    alloc: Global,
    case: &Case<'_>,
    stream: Stream,
) -> Result<Option<u32>, AllocError> {
    let mut length = 0usize;
    for number in 0..MANY {
        let end = ended(alloc, case, stream.fails_at(&[number]))?;
        if is_answer(case, end) {
            return Ok(Some(number));
        }
        if !stream.is_cut(end, length) {
            break;
        }
        length = stream.length_of(end);
    }
    Ok(None)
}

// Each load of each command fails in turn, and the line names its operand; the load after the last is none.
#[test]
fn each_load_fails_in_turn(rt: HostRuntime) -> Result<(), Fail> {
    for cases in &CALLS {
        for case in *cases {
            let number = loads_that_fail(rt.alloc(), case)?;
            let end = ended(
                rt.alloc(),
                case,
                Faults {
                    loads: &[number],
                    ..NO_FAULTS
                },
            )?;
            let all = number as usize == case.loads.len() && is_answer(case, end);
            assert!(rt; all, "{}: load {number}", case.what);
        }
    }
    Ok(())
}

// Whichever put to `out` fails, a front part of what is wanted stands there, and nothing on `err`.
#[test]
fn each_put_of_out_fails_in_turn(rt: HostRuntime) -> Result<(), Fail> {
    for cases in &CALLS {
        for case in *cases {
            let number = puts_that_fail(rt.alloc(), case, Stream::Out)?;
            let all = number.is_some_and(|number| may_put(case, number));
            assert!(rt; all, "{}: {number:?}", case.what);
        }
    }
    Ok(())
}

// Where the line on `err` is cut, the answer is a write fault, `out` is as without the fault, and a front part of the line stands on `err`.
#[test]
fn each_put_of_err_fails_in_turn(rt: HostRuntime) -> Result<(), Fail> {
    for cases in &CALLS {
        for case in *cases {
            let number = puts_that_fail(rt.alloc(), case, Stream::Err)?;
            let all = number.is_some_and(|number| (number > 0) != case.err.is_empty());
            assert!(rt; all, "{}: {number:?}", case.what);
        }
    }
    Ok(())
}

// A put that fails takes the first half of its piece: of the 99 bytes of the usage line 49.
#[test]
fn half_of_a_piece_stands(rt: HostRuntime) -> Result<(), Fail> {
    let call = Call {
        words: &["help"],
        files: &[],
    };
    let front: &[u8] = b"usage: anvil check FILE | compile FILE | run FILE";
    let end = call_against(
        rt.alloc(),
        call,
        Faults {
            errs: &[0],
            ..NO_FAULTS
        },
        b"",
        front,
    )?;
    let half = end.status == Status::WriteFault
        && end.out == Extent::Whole
        && end.err == Extent::Whole;
    assert!(rt; half);
    Ok(())
}

// A load that failed leaves the shelf as it was: the same words are answered the next time.
#[test]
fn a_shelf_answers_after_a_fault(rt: HostRuntime) -> Result<(), Fail> {
    let call = Call {
        words: &["check", "f"],
        files: &[("f", ECHO)],
    };
    let faults = Faults {
        loads: &[0],
        ..NO_FAULTS
    };
    let (first, again) = call_twice(rt.alloc(), call, faults, b"accepted\n", b"read fault: f\n")?;
    let failed = first.status == Status::ReadFault
        && first.out == Extent::Whole
        && first.err == Extent::Whole;
    assert!(rt; failed);
    let done = again.status == Status::Done
        && again.out == Extent::Whole
        && again.err == Extent::Whole;
    assert!(rt; done);
    Ok(())
}
