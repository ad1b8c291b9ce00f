//! A shelf over real files: what loads answer and give.
use anvil_io::{FsShelf, LoadErr, Shelf};
use std::fs;
use std::test::Fail;

const FOLDER: &str = "call_cases_files_test";

const LONG: &str = "call_cases_files_test/long";

const NONE: &str = "call_cases_files_test/none";

// Writes 10,000 bytes, so many that several reads are needed.
fn write_long(rt: &HostRuntime) -> bool {
    let mut long = Vec::new(rt.alloc());
    for at in 0..10_000u32 {
        let _ = long.push((at % 251) as u8);
    }
    let written = fs::write(rt, LONG, long.as_slice()).is_ok();
    drop(long);
    written
}

// Whether bytes are the first of those.
fn counts_up(bytes: &[u8]) -> bool {
    bytes
        .iter()
        .enumerate()
        .all(|(at, byte)| usize::from(*byte) == at % 251)
}

// How many of these bytes a load gives.
fn count_of(rt: &HostRuntime, name: &str, limit: u32) -> Result<usize, LoadErr> {
    let mut shelf = FsShelf::new(rt);
    let mut into = Vec::new(rt.alloc());
    let answer = shelf.load(name, limit, &mut into);
    let count = into.len();
    let same = counts_up(&into);
    drop(into);
    match answer {
        Ok(()) if same => Ok(count),
        Ok(()) => Ok(usize::MAX),
        Err(refusal) if count == 0 => Err(refusal),
        Err(_) => Ok(count),
    }
}

#[test]
fn a_shelf_over_files_gives_their_bytes(rt: HostRuntime) -> Result<(), Fail> {
    let _ = fs::remove_dir_all(&rt, FOLDER);
    fs::create_dir(&rt, FOLDER)?;
    assert!(rt; write_long(&rt));
    let rows = [
        ("several reads", LONG, 20_000, Ok(10_000)),
        ("just within the limit", LONG, 10_000, Ok(10_000)),
        (
            "one byte past the limit",
            LONG,
            9_999,
            Err(LoadErr::TooLong),
        ),
        ("an absent file", NONE, 9, Err(LoadErr::Fault)),
        ("a folder", FOLDER, 9, Err(LoadErr::Fault)),
        ("the greatest limit", LONG, u32::MAX, Ok(10_000)),
    ];
    for (what, name, limit, wanted) in rows {
        assert!(rt; count_of(&rt, name, limit) == wanted, "{what}");
    }
    fs::remove_dir_all(&rt, FOLDER)?;
    Ok(())
}
