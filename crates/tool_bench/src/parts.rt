//! What a call takes: its words, and the shelf and the sinks in memory. Each function owns one value at most where it may fail.
use anvil_tool::{MemShelf, MemSink};
use std::alloc::{AllocError, Global};

/// The words of a call, and the files on its shelf, by name.
#[derive(Clone, Copy)]
pub struct Call<'a> {
    pub words: &'a [&'a str],
    pub files: &'a [(&'a str, &'a [u8])],
}

/// Which loads and puts fail, by their numbers.
#[derive(Clone, Copy)]
pub struct Faults<'a> {
    pub loads: &'a [u32],
    pub outs: &'a [u32],
    pub errs: &'a [u32],
}

pub const NO_FAULTS: Faults = Faults {
    loads: &[],
    outs: &[],
    errs: &[],
};

/// The bytes that a sink has room for.
const ROOM: u32 = 65_536;

/// The words as the tool takes them.
pub fn words_of(alloc: Global, words: &[&str]) -> Result<Vec<String>, AllocError> {
    let mut list = Vec::new(alloc);
    for word in words {
        list.push(String::from_str(alloc, word)?)?;
    }
    Ok(list)
}

/// A shelf with these files, of which the loads of these numbers fail.
pub fn shelf_of(
    alloc: Global,
    files: &[(&str, &[u8])],
    failing: &[u32],
) -> Result<MemShelf, AllocError> {
    let failing = Vec::from_slice(alloc, failing)?;
    let files = files_of(alloc, files)?;
    Ok(MemShelf::new(files, failing))
}

/// A sink, of which the puts of these numbers fail.
pub fn sink_of(alloc: Global, failing: &[u32]) -> Result<MemSink, AllocError> {
    MemSink::new(alloc, ROOM, Vec::from_slice(alloc, failing)?)
}

fn files_of(alloc: Global, files: &[(&str, &[u8])]) -> Result<Vec<(String, Vec<u8>)>, AllocError> {
    let mut list = Vec::new(alloc);
    for (name, bytes) in files {
        list.push(file_of(alloc, name, bytes)?)?;
    }
    Ok(list)
}

fn file_of(alloc: Global, name: &str, bytes: &[u8]) -> Result<(String, Vec<u8>), AllocError> {
    let name = String::from_str(alloc, name)?;
    Ok((name, Vec::from_slice(alloc, bytes)?))
}
