//! Calls that a signal interrupts: they are tried again, by a sink over a writer and by a shelf over the files of a runtime.
ghost use Rattle.std.specs.Prelude.{◌≤◌, IfOk};

use anvil_io::{FsShelf, LoadErr, Shelf, Sink, StdSink};
use std::alloc::{Allocator, Global};
use std::fs::{Metadata, OpenFile, OpenOptions};
use std::io;
use std::io::{ErrorKind, Read, Seek, SeekFrom, Write};
use std::rt::Files;

// A reader and writer whose first call is interrupted by a signal. The second call moves two bytes at most, and each
// later one fails in its own way.
#[derive(Drop)]
struct Unsteady {
    calls: u32,
    failure: ErrorKind,
}

impl Unsteady {
    fn new(failure: ErrorKind) -> Unsteady {
        Unsteady { calls: 0, failure }
    }

    // How many of so many bytes this call moves.
    fn step(&mut self, most: usize) -> io::Result<usize>
        ensures { IfOk result (λ count. count ≤ most) }
    {
        self.calls = self.calls.saturating_add(1);
        match self.calls {
            1 => Err(io::Error::from(ErrorKind::Interrupted)),
            2 => Ok(most.min(2)),
            _ => Err(io::Error::from(self.failure)),
        }
    }
}

impl Read for Unsteady {
    fn read(&mut self, buf: &mut [u8]) -> io::Result<usize> {
        let count = self.step(buf.len())?;
        buf[..count].fill(b'x');
        Ok(count)
    }
}

impl Write for Unsteady {
    fn write(&mut self, buf: &[u8]) -> io::Result<usize> {
        self.step(buf.len())
    }

    fn flush(&mut self) -> io::Result<()> {
        Ok(())
    }
}

// What no test asks for.
fn unsupported<T>() -> io::Result<T> {
    Err(io::Error::from(ErrorKind::Unsupported))
}

impl Seek for Unsteady {
    fn seek(&mut self, _to: SeekFrom) -> io::Result<u64> {
        unsupported()
    }
}

impl OpenFile for Unsteady {
    fn metadata(&self) -> io::Result<Metadata> {
        unsupported()
    }

    fn set_len(&self, _size: u64) -> io::Result<()> {
        unsupported()
    }

    fn sync_all(&self) -> io::Result<()> {
        unsupported()
    }

    fn sync_data(&self) -> io::Result<()> {
        unsupported()
    }
}

// A runtime each of whose files is such a reader.
#[derive(Drop)]
struct UnsteadyFiles {
    failure: ErrorKind,
}

impl Files for UnsteadyFiles {
    type File = Unsteady;

    type Dir = Unsteady;

    fn open_file(&self, _how: &OpenOptions, _path: &str) -> io::Result<Unsteady> {
        Ok(Unsteady::new(self.failure))
    }

    fn open_dir(&self, _path: &str) -> io::Result<Unsteady> {
        unsupported()
    }

    fn metadata(&self, _path: &str) -> io::Result<Metadata> {
        unsupported()
    }

    fn symlink_metadata(&self, _path: &str) -> io::Result<Metadata> {
        unsupported()
    }

    fn copy(&self, _from: &str, _to: &str) -> io::Result<u64> {
        unsupported()
    }

    fn rename(&self, _from: &str, _to: &str) -> io::Result<()> {
        unsupported()
    }

    fn remove_file(&self, _path: &str) -> io::Result<()> {
        unsupported()
    }

    fn create_dir(&self, _path: &str) -> io::Result<()> {
        unsupported()
    }

    fn remove_dir(&self, _path: &str) -> io::Result<()> {
        unsupported()
    }

    fn remove_dir_all<B: Allocator>(&self, _alloc: B, _path: &str) -> io::Result<()> {
        unsupported()
    }
}

// What two puts of a line answer over such a writer.
fn puts() -> [bool; 2] {
    let mut sink = StdSink::new(Unsteady::new(ErrorKind::Other));
    let answers = [sink.put(b"a\n").is_ok(), sink.put(b"b\n").is_ok()];
    drop(sink);
    answers
}

#[test]
fn an_interrupted_write_is_tried_again(rt: HostRuntime) {
    assert_eq!(rt; puts(), [true, false]);
}

// What a load answers whose reader fails so behind two bytes.
fn load(alloc: Global, failure: ErrorKind, limit: u32) -> Result<(), LoadErr> {
    let files = UnsteadyFiles { failure };
    let mut shelf = FsShelf::new(&files);
    let mut into = Vec::new(alloc);
    let answer = shelf.load("f", limit, &mut into);
    drop(into);
    answer
}

#[test]
fn an_interrupted_read_is_tried_again(rt: HostRuntime) {
    let rows = [
        (ErrorKind::Other, 9, LoadErr::Fault),
        (ErrorKind::OutOfMemory, 9, LoadErr::NoMemory),
        (ErrorKind::Other, 1, LoadErr::TooLong),
    ];
    for (failure, limit, refusal) in rows {
        assert_eq!(rt;
            load(rt.alloc(), failure, limit),
            Err(refusal),
            "{failure:?}"
        );
    }
}
