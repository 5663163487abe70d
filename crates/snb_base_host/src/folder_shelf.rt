//! A shelf over real files.

ghost use Rattle.std.specs.Prelude.{◌≡◌, ◌≤◌, length, None, IfOk, IfSome};
ghost use Rattle.snb_base.specs.Shelf.{any_name};

use snb_base::{Got, Shelf};
use std::fs::{File, OpenFile};
use std::io;
use std::io::{ErrorKind, Read, Seek, SeekFrom};
use std::rt::Files;

// The file that is being read.
struct Held<F> {
    // Its name, unless there was no memory to keep it.
    name: Option<String>,
    // The open file, until a read of it fails.
    file: Option<F>,
    // How many bytes it had when it was opened, or 0 where that isn't known.
    length: u64,
    // Where the next read would go on, where that is known.
    place: Option<u64>,
}

impl<F: Drop> Drop for Held<F> {
    fn drop(self) {
        let Held {
            name: _,
            file: _,
            length: _,
            place: _,
        } = self;
    }
}

impl<F: Read + Seek + OpenFile + Drop> Held<F> {
    // Opens the file of this name.
    fn open<R: AllocGlobal + Files<File = F>>(rt: &R, name: &str) -> io::Result<Held<F>> {
        let file = File::open(rt, name)?;
        let length = match file.metadata() {
            Ok(metadata) => metadata.len(),
            Err(_) => 0,
        };
        Ok(Held {
            name: String::from_str(rt.alloc(), name).ok(),
            file: Some(file),
            length,
            place: None,
        })
    }

    // Whether a read of this name from the byte `at` on is one of this file. After a fault that is so of later
    // bytes alone, none of which can be read.
    fn serves(&self, name: &str, at: u64) -> bool {
        match &self.name {
            Some(own) => own.as_str() == name && (at > 0 || self.file.is_some()),
            None => false,
        }
    }

    // Reads once, from the byte `at` on. An error closes the file.
    fn read_at(&mut self, at: u64, into: &mut [u8]) -> io::Result<usize>
        ensures { IfOk result (λ count. count ≤ length into.old) }
    {
        let Some(mut file) = self.file.take() else {
            return Err(io::Error::from(ErrorKind::UnexpectedEof));
        };
        if self.place != Some(at) {
            file.seek(SeekFrom::Start(at))?;
        }
        let count = file.read(into)?;
        // It had more bytes than that, so it was cut short.
        if count == 0 && at < self.length {
            return Err(io::Error::from(ErrorKind::UnexpectedEof));
        }
        self.place = at.checked_add(count as u64);
        self.file = Some(file);
        Ok(count)
    }
}

/// The files of the system, each under its path. It tells no contents, and may be asked for each name.
///
/// It keeps the file that it reads open until another name is asked for, so all that is read under a name, piece
/// after piece, is of one file, even if that is removed or replaced meanwhile. Bytes that are added are read too.
/// Where memory doesn't suffice to keep the name, the next read opens the file again.
///
/// A file is absent where the system doesn't find it at a read from its first byte on. All else is a fault: a file
/// that can't be opened or read, one that isn't found at a later byte, and one that ends before the length that it
/// had when it was opened. After a fault in reading, each read of the same name is a fault until its first byte is
/// asked for, which opens the file again. A file that can't seek, such as a pipe, can't be read.
pub struct FolderShelf<R: Files> {
    rt: R,
    held: Option<Held<R::File>>,
    faults: u64,
}

impl<R: Files + Drop> Drop for FolderShelf<R> {
    fn drop(self) {
        let FolderShelf {
            rt: _,
            held: _,
            faults: _,
        } = self;
    }
}

impl<R: AllocGlobal + Files> FolderShelf<R> {
    /// The files that the runtime reaches. Reads nothing yet.
    pub fn new(rt: R) -> FolderShelf<R>
        ensures faults { ⟦<FolderShelf<R> as Shelf>⟧.faults result ≡ 0 }
        ensures names { ⟦<FolderShelf<R> as Shelf>⟧.may result ≡ any_name }
    {
        FolderShelf {
            rt,
            held: None,
            faults: 0,
        }
    }
}

impl<R: AllocGlobal + Files> Shelf for FolderShelf<R> {
    ghost contents = { λ _. None };

    ghost faults = { λ s. s.faults };

    ghost may = { λ _. any_name };

    fn read(&mut self, name: &str, at: u64, into: &mut [u8]) -> Got {
        match read_file(&self.rt, &mut self.held, name, at, into) {
            Ok(Some(count)) => Got::Took { count },
            Ok(None) => Got::Absent,
            Err(_) => {
                self.faults = self.faults.saturating_add(1);
                Got::Failed
            }
        }
    }
}

// Reads once from the file of this name, from the byte `at` on: the file that is held, or else one that is opened
// and held from then on. None where it isn't found.
fn read_file<R: AllocGlobal + Files>(
    rt: &R,
    held: &mut Option<Held<R::File>>,
    name: &str,
    at: u64,
    into: &mut [u8],
) -> io::Result<Option<usize>>
    ensures { IfOk result (λ read. IfSome read (λ count. count ≤ length into.old)) }
{
    if let Some(file) = held
        && file.serves(name, at)
    {
        return Ok(Some(file.read_at(at, into)?));
    }
    // What was held is closed before another file is opened.
    *held = None;
    match Held::open(rt, name) {
        Ok(mut file) => {
            let count = file.read_at(at, into);
            *held = Some(file);
            Ok(Some(count?))
        }
        // Only who has read its first bytes asks for later ones, so by then it was found.
        Err(error) if error.kind() == ErrorKind::NotFound && at == 0 => Ok(None),
        Err(error) => Err(error),
    }
}
