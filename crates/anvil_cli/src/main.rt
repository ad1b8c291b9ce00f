//! The program: it hands its words, the files and its two outputs to the tool, and ends with the status's number.
#![tactic(auto)]

use anvil_tool::{FsShelf, Status, StdSink, run_tool};
use std::alloc::Global;
use std::process::ExitCode;
use std::{env, io, vec};

/// The status where the system does not give the words. The tool never gives it.
const NO_WORDS: u8 = 8;

fn main(rt: HostRuntime) -> ExitCode {
    let words = match words_of(&rt) {
        Ok(words) => words,
        Err(status) => return ExitCode::from(status),
    };
    let mut shelf = FsShelf::new(&rt);
    let mut out = StdSink::new(rt.stdout());
    let mut err = StdSink::new(rt.stderr());
    let status = run_tool(rt.alloc(), &words, &mut shelf, &mut out, &mut err);
    ExitCode::from(status.number())
}

// The words after the program's own name, or the status to end with.
fn words_of<R: env::Env + AllocGlobal>(rt: &R) -> Result<Vec<String>, u8> {
    let words = match env::args(rt) {
        Ok(words) => words,
        Err(why) if why.kind() == io::ErrorKind::OutOfMemory => return Err(
            Status::NoMemory.number(),
        ),
        Err(_) => return Err(NO_WORDS),
    };
    let mut own = Vec::new(rt.alloc());
    for word in words.skip(1) {
        if own.push(word).is_err() {
            return Err(Status::NoMemory.number());
        }
    }
    Ok(own)
}
