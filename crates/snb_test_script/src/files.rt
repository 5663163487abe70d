//! The files in memory, as the script has made them so far.

ghost use Rattle.std.specs.Prelude.{◌<◌, length, IfSome};

use crate::change::{add_line, add_many, cut_at, leave_line, put_line};
use crate::flaw::Flaw;
use snb_base::{Got, MemoryShelf, Shelf};
use std::alloc::{AllocError, Global};
use std::mem;

// A file and its name.
#[derive(Clone)]
struct Named {
    name: String,
    bytes: Vec<u8>,
}

impl Drop for Named {
    fn drop(self) {
        let Named { name: _, bytes: _ } = self;
    }
}

// The files of a case, and its name.
struct Folder {
    case: String,
    files: Vec<Named>,
}

impl Drop for Folder {
    fn drop(self) {
        let Folder { case: _, files: _ } = self;
    }
}

/// The files of the case that is played, no two of one name, and those that it can begin with.
pub struct Files {
    alloc: Global,
    /// Those that were made where no case was played, no two of one name.
    shared: Vec<Named>,
    /// What the cases before it left.
    left: Vec<Folder>,
    /// The name of the case, where one is played.
    case: Option<String>,
    all: Vec<Named>,
    /// The file that lines are added to.
    begun: Option<usize>,
}

impl Drop for Files {
    fn drop(self) {
        let Files {
            alloc: _,
            shared: _,
            left: _,
            case: _,
            all: _,
            begun: _,
        } = self;
    }
}

// Where the file of this name stands.
fn place_of(all: &[Named], name: &str) -> Option<usize>
    ensures { IfSome result (λ at. at < length all.now) }
{
    all.iter().position(|file| file.name.as_str() == name)
}

// Where the files stand that the case of this name left.
fn place_of_case(left: &[Folder], case: &str) -> Option<usize>
    ensures { IfSome result (λ at. at < length left.now) }
{
    left.iter().position(|left| left.case.as_str() == case)
}

impl Files {
    /// No files.
    pub fn new(alloc: Global) -> Files {
        Files {
            alloc,
            shared: Vec::new(alloc),
            left: Vec::new(alloc),
            case: None,
            all: Vec::new(alloc),
            begun: None,
        }
    }

    /// Ends the case, if one is played: a later one can begin with what it leaves. What was made where none was
    /// played is shared from now on.
    pub fn end_case(&mut self) -> Result<(), AllocError> {
        let files = mem::replace(&mut self.all, Vec::new(self.alloc));
        self.begun = None;
        match self.case.take() {
            Some(case) => Ok(self.left.push(Folder { case, files })?),
            None => {
                for file in files {
                    self.shared.push(file)?;
                }
                Ok(())
            }
        }
    }

    /// Begins a case, which has no files yet.
    pub fn begin_case(&mut self, name: &str) -> Result<(), Flaw> {
        self.end_case()?;
        if place_of_case(&self.left, name).is_some() {
            return Err(Flaw::CaseTwice);
        }
        self.case = Some(String::from_str(self.alloc, name)?);
        Ok(())
    }

    // Gives the case the files that an earlier one left, and no others.
    fn begin_like(&mut self, case: &str) -> Result<(), Flaw> {
        match place_of_case(&self.left, case) {
            Some(at) => {
                self.all = self.left[at].files.clone()?;
                self.begun = None;
                Ok(())
            }
            None => Err(Flaw::NoFile),
        }
    }

    /// The bytes of the file of this name.
    pub fn bytes(&self, name: &str) -> Result<&[u8], Flaw> {
        if let Some(at) = place_of(&self.all, name) {
            return Ok(self.all[at].bytes.as_slice());
        }
        match place_of(&self.shared, name) {
            Some(at) => Ok(self.shared[at].bytes.as_slice()),
            None => Err(Flaw::NoFile),
        }
    }

    // Begins a file anew, with these bytes.
    fn begin(&mut self, name: &str, bytes: Vec<u8>) -> Result<(), Flaw> {
        if name.is_empty() {
            return Err(Flaw::NoName);
        }
        match place_of(&self.all, name) {
            Some(at) => {
                self.all[at].bytes = bytes;
                self.begun = Some(at);
            }
            None => {
                if self.case.is_none() && place_of(&self.shared, name).is_some() {
                    return Err(Flaw::FileTwice);
                }
                let name = String::from_str(self.alloc, name)?;
                self.begun = Some(self.all.len());
                self.all.push(Named { name, bytes })?;
            }
        }
        Ok(())
    }

    // `NAME`: begins a file without lines. `NAME = OTHER`: begins it as a copy of another.
    fn begin_file(&mut self, text: &str) -> Result<(), Flaw> {
        match text.split_once(" = ") {
            Some((name, other)) => {
                let bytes = Vec::from_slice(self.alloc, self.bytes(other)?)?;
                self.begin(name, bytes)
            }
            None => self.begin(text, Vec::new(self.alloc)),
        }
    }

    // Lets the lines that follow change this file of the case.
    fn change(&mut self, name: &str) -> Result<(), Flaw> {
        self.begun = Some(place_of(&self.all, name).ok_or(Flaw::NoFile)?);
        Ok(())
    }

    // The bytes of the file that is begun.
    fn begun_bytes(&mut self) -> Result<&mut Vec<u8>, Flaw> {
        let at = self.begun.ok_or(Flaw::NoPlace)?;
        match self.all.get_mut(at) {
            Some(file) => Ok(&mut file.bytes),
            None => Err(Flaw::NoPlace),
        }
    }

    // Takes a file away. No file is begun then.
    fn remove(&mut self, name: &str) -> Result<(), Flaw> {
        match place_of(&self.all, name) {
            Some(at) => {
                let _ = self.all.remove(at);
                self.begun = None;
                Ok(())
            }
            None => Err(Flaw::NoFile),
        }
    }

    // Changes the file that is begun.
    fn change_begun(&mut self, word: &str, rest: &str) -> Result<(), Flaw> {
        let bytes = self.begun_bytes()?;
        match word {
            ":" => add_line(rest, bytes),
            "many" => add_many(rest, bytes),
            "put" => put_line(rest, bytes),
            "leave" => leave_line(rest, bytes),
            "cut" => cut_at(rest, bytes),
            _ => Err(Flaw::NoWord),
        }
    }

    /// Takes a line of the script that begins with this word; None where it says nothing of a file.
    pub fn take_line(&mut self, word: &str, rest: &str) -> Option<Result<(), Flaw>> {
        match word {
            "like" => Some(self.begin_like(rest)),
            "file" => Some(self.begin_file(rest)),
            "change" => Some(self.change(rest)),
            "gone" => Some(self.remove(rest)),
            ":" | "many" | "put" | "leave" | "cut" => Some(self.change_begun(word, rest)),
            _ => None,
        }
    }

    /// A shelf in memory that has the files of the case in this folder, or under their own names where the
    /// folder has none. Each of them is read once, when it is put there.
    pub fn on_shelf(&self, alloc: Global, folder: &str) -> Result<MemoryShelf, Flaw> {
        let mut shelf = MemoryShelf::new(alloc);
        for file in &self.all {
            let name = file.name.as_str();
            let bytes = file.bytes.as_slice();
            if folder.is_empty() {
                add_file(&mut shelf, name, bytes)?;
            } else {
                let path = format!(in alloc; "{folder}/{name}")?;
                add_file(&mut shelf, path.as_str(), bytes)?;
            }
        }
        Ok(shelf)
    }

    /// How many files the case has.
    pub fn count(&self) -> usize {
        self.all.len()
    }
}

/// Puts a file onto the shelf, where none has its name. It is read once.
pub fn add_file(shelf: &mut MemoryShelf, path: &str, bytes: &[u8]) -> Result<(), Flaw> {
    let mut buffer = [0u8; 1];
    match shelf.read(path, 0, &mut buffer) {
        Got::Absent => shelf.add(path, bytes)?,
        Got::Took { .. } | Got::Failed => return Err(Flaw::FileTwice),
    }
    Ok(())
}
