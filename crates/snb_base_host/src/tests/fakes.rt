//! Runtimes that fail when a test wants it: a clock of the system, and files and standard output.

ghost use Rattle.std.specs.Prelude.{◌≤◌, length, IfOk};

use std::alloc::{Allocator, Global};
use std::cell::{Cell, RefCell};
use std::fmt::Display;
use std::fs::{Metadata, OpenFile, OpenOptions};
use std::io;
use std::io::{ErrorKind, Print, Read, Seek, SeekFrom, Write};
use std::rt::{Clock, Files};
use std::time::Duration;

// A clock of the system that a rest alone moves on, and that can't be read where it shows no moment.
// Both count milliseconds.
#[derive(Drop)]
pub struct FakeClock {
    pub shown: Cell<Option<u64>>,
    pub rested: Cell<u64>,
}

impl Clock for FakeClock {
    fn monotonic(&self) -> io::Result<Duration> {
        match self.shown.get() {
            Some(shown) => Ok(Duration::from_millis(shown)),
            None => unsupported(),
        }
    }

    // The time of day isn't what a harness is to ask.
    fn since_1970(&self) -> io::Result<Duration> {
        unsupported()
    }

    fn sleep(&self, duration: Duration) {
        let more = u64::try_from(duration.as_millis()).unwrap_or(u64::MAX);
        self.rested.set(self.rested.get().saturating_add(more));
        if let Some(shown) = self.shown.get() {
            self.shown.set(Some(shown.saturating_add(more)));
        }
    }
}

// How the system of a test answers, and what it was asked for.
#[derive(Drop)]
pub struct Calls {
    // What a read or a write answers: an error, or the count of bytes that it takes at most.
    pub answer: Cell<Result<usize, ErrorKind>>,
    // A path that can't be opened, and why.
    pub closed: Cell<Option<(&'static str, ErrorKind)>>,
    // How many bytes an open file says that it has, if it says so.
    pub length: Cell<Option<u64>>,
    // How often a file was to be opened, and how often one that can be written.
    pub opened: Cell<u32>,
    pub writable: Cell<u32>,
    // How often a file was to be read or written at another place.
    pub sought: Cell<u32>,
    // How often anything was to be read or written, and what was written.
    pub passed: Cell<u32>,
    pub written: RefCell<Vec<u8>>,
}

impl Calls {
    // Each file can be opened and tells no length, and no byte is taken.
    pub fn new(alloc: Global) -> Calls {
        Calls {
            answer: Cell::new(Ok(0)),
            closed: Cell::new(None),
            length: Cell::new(None),
            opened: Cell::new(0),
            writable: Cell::new(0),
            sought: Cell::new(0),
            passed: Cell::new(0),
            written: RefCell::new(Vec::new(alloc)),
        }
    }

    // How many bytes a call takes of as many as these.
    fn take_some(&self, bytes: usize) -> io::Result<usize>
        ensures { IfOk result (λ count. count ≤ bytes) }
    {
        count_up(&self.passed);
        match self.answer.get() {
            Ok(most) => Ok(bytes.min(most)),
            Err(kind) => Err(io::Error::from(kind)),
        }
    }

    // Writes as many bytes as are taken.
    fn write_some(&self, piece: &[u8]) -> io::Result<usize>
        ensures { IfOk result (λ count. count ≤ length piece.now) }
    {
        let count = self.take_some(piece.len())?;
        if let Ok(mut written) = self.written.try_borrow_mut() {
            written.extend_from_slice(&piece[..count])?;
        }
        Ok(count)
    }
}

fn count_up(count: &Cell<u32>) {
    count.set(count.get().saturating_add(1));
}

// Standard output and files, all of which answer as they are told.
#[derive(Drop)]
pub struct FakeSystem<'a> {
    pub calls: &'a Calls,
}

impl<'a> Print for FakeSystem<'a> {
    fn print<D: Display + Drop>(&self, _value: D) -> io::Result<()> {
        unsupported()
    }

    fn println<D: Display + Drop>(&self, _value: D) -> io::Result<()> {
        unsupported()
    }

    fn write_all(&self, _bytes: &[u8]) -> io::Result<()> {
        unsupported()
    }

    fn write_some(&self, bytes: &[u8]) -> io::Result<usize> {
        self.calls.write_some(bytes)
    }
}

impl<'a> Write for FakeSystem<'a> {
    fn write(&mut self, piece: &[u8]) -> io::Result<usize> {
        self.calls.write_some(piece)
    }

    fn flush(&mut self) -> io::Result<()> {
        Ok(())
    }
}

impl<'a> Read for FakeSystem<'a> {
    // The bytes of the buffer stay as they are.
    fn read(&mut self, into: &mut [u8]) -> io::Result<usize> {
        self.calls.take_some(into.len())
    }
}

impl<'a> Seek for FakeSystem<'a> {
    fn seek(&mut self, to: SeekFrom) -> io::Result<u64> {
        count_up(&self.calls.sought);
        match to {
            SeekFrom::Start(at) => Ok(at),
            _ => unsupported(),
        }
    }
}

impl<'a> OpenFile for FakeSystem<'a> {
    fn metadata(&self) -> io::Result<Metadata> {
        match self.calls.length.get() {
            Some(length) => Ok(Metadata::of_file(length)),
            None => unsupported(),
        }
    }

    fn set_len(&self, _size: u64) -> io::Result<()> {
        unsupported()
    }

    fn sync_all(&self) -> io::Result<()> {
        unsupported()
    }

    fn sync_data(&self) -> io::Result<()> {
        unsupported()
    }
}

impl<'a> Files for FakeSystem<'a> {
    type File = FakeSystem<'a>;

    type Dir = FakeSystem<'a>;

    fn open_file(&self, how: &OpenOptions, path: &str) -> io::Result<FakeSystem<'a>> {
        let calls = self.calls;
        count_up(&calls.opened);
        if how.asks_write() || how.asks_append() {
            count_up(&calls.writable);
        }
        match calls.closed.get() {
            Some((closed, kind)) if closed == path => Err(io::Error::from(kind)),
            _ => Ok(FakeSystem { calls }),
        }
    }

    fn open_dir(&self, _path: &str) -> io::Result<FakeSystem<'a>> {
        unsupported()
    }

    fn metadata(&self, _path: &str) -> io::Result<Metadata> {
        unsupported()
    }

    fn symlink_metadata(&self, _path: &str) -> io::Result<Metadata> {
        unsupported()
    }

    fn copy(&self, _from: &str, _to: &str) -> io::Result<u64> {
        unsupported()
    }

    fn rename(&self, _from: &str, _to: &str) -> io::Result<()> {
        unsupported()
    }

    fn remove_file(&self, _path: &str) -> io::Result<()> {
        unsupported()
    }

    fn create_dir(&self, _path: &str) -> io::Result<()> {
        unsupported()
    }

    fn remove_dir(&self, _path: &str) -> io::Result<()> {
        unsupported()
    }

    fn remove_dir_all<B: Allocator>(&self, _alloc: B, _path: &str) -> io::Result<()> {
        unsupported()
    }
}

fn unsupported<T>() -> io::Result<T> {
    Err(io::Error::from(ErrorKind::Unsupported))
}
