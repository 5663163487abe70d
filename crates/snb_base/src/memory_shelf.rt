//! A shelf in memory.

ghost use Rattle.std.specs.Prelude.{◌≡◌, ◌≢◌, ◌-◌, ◌^◌, ◌<◌, ◌≤◌, ◌↔◌, ◌∷◌, ◌++◌, [], length, take, drop, map, min, MatchOption, Some, None, IsTrue, OnOk, OnErr};
ghost use Rattle.snb_base.specs.MemoryShelf.{file_of, is_listed, is_failing, after_read, IsFullReading};
ghost use Rattle.snb_base.specs.Shelf.{FitsBuffer, HasRead, IsReading, any_name, is_failed};

use crate::calls::is_on;
use crate::shelf::{Got, Shelf};
use std::alloc::{AllocError, Global};
use std::marker::Model;

// A file and its name.
struct HeldFile {
    name: Vec<u8>,
    bytes: Vec<u8>,
}

impl Drop for HeldFile {
    fn drop(self) {
        let HeldFile { name: _, bytes: _ } = self;
    }
}

/// A shelf in memory, which tells its contents and fails at the listed calls alone.
///
/// A contract sees its files, its list of failing calls, and its counts of calls and of faults.
pub struct MemoryShelf {
    alloc: Global,
    files: Vec<HeldFile>,
    failing: Vec<u64>,
    calls: u64,
    faults: u64,
}

impl Drop for MemoryShelf {
    fn drop(self) {
        let MemoryShelf {
            alloc: _,
            files: _,
            failing: _,
            calls: _,
            faults: _,
        } = self;
    }
}

impl Model for MemoryShelf {
    ghost use Rattle.std.specs.Prelude.{◌≤◌, map};
    ghost use Rattle.snb_base.specs.MemoryShelf.{Held};

    ghost Value = { Held };

    ghost view = { λ s. record {
      files = map (λ f. (f.name.items, f.bytes.items)) s.files.items;
      failing = s.failing.items;
      calls = s.calls;
      faults = s.faults;
    } };

    ghost invariant = { λ s. s.faults ≤ s.calls };
}

impl MemoryShelf {
    /// An empty shelf. Takes no memory.
    pub fn new(alloc: Global) -> MemoryShelf
        ensures { result ≡ record { files = []; failing = []; calls = 0; faults = 0 } }
    {
        MemoryShelf {
            alloc,
            files: Vec::new(alloc),
            failing: Vec::new(alloc),
            calls: 0,
            faults: 0,
        }
    }

    /// Adds a file under a name that isn't held. Want of memory leaves the shelf as it was.
    pub fn add(&mut self, name: &str, bytes: &[u8]) -> Result<(), AllocError>
        requires { file_of self.old.files name.now ≡ None }
        ensures ok { OnOk result (self.new ≡ record self.old { files = self.old.files ++ (name.now, bytes.now) ∷ [] }) }
        ensures err { OnErr result (self.new ≡ self.old) }
    {
        let name = Vec::from_slice(self.alloc, name.as_bytes())?;
        let bytes = Vec::from_slice(self.alloc, bytes)?;
        self.files.push(HeldFile { name, bytes })?;
        Ok(())
    }

    /// Lets the call of `read` with this number fail, where calls are numbered from 0. Want of memory
    /// leaves the shelf as it was.
    pub fn fail_at(&mut self, call: u64) -> Result<(), AllocError>
        ensures ok { OnOk result (self.new ≡ record self.old { failing = self.old.failing ++ call ∷ [] }) }
        ensures err { OnErr result (self.new ≡ self.old) }
    {
        self.failing.push(call)?;
        Ok(())
    }

    // Reads as a call of `read` that does not fail, and counts no call.
    pub(crate) fn read_held(&self, name: &str, at: u64, into: &mut [u8]) -> Got
        ensures full { IsFullReading (file_of self.now.files) name.now at (length into.old) result }
        ensures told { 0 < length into.old → IsReading (file_of self.now.files) name.now at into.new result }
    {
        match find(self.files.as_slice(), name.as_bytes()) {
            Some(bytes) => Got::Took {
                count: copy_from(bytes, at, into),
            },
            None => Got::Absent,
        }
    }
}

impl Shelf for MemoryShelf {
    ghost contents = { λ s. Some (file_of s.files) };

    ghost faults = { λ s. s.faults };

    ghost may = { λ _. any_name };

    /// Reads as many bytes as there are and as the buffer takes.
    fn read(&mut self, name: &str, at: u64, into: &mut [u8]) -> Got
        requires { 0 < length into.old }
        ensures room { FitsBuffer (length into.old) result }
        ensures told { IsReading (file_of self.old.files) name.now at into.new result }
        ensures read { HasRead (is_failed result) (Some (file_of self.old.files)) any_name self.old.faults
            (Some (file_of self.new.files)) any_name self.new.faults }

        // It fails at the listed calls alone, and else reads all that it can.
        ensures listed { self.old.calls < 2 ^ 64 - 1 →
            ((result ≡ Got.Failed) ↔ IsTrue (is_listed self.old.failing self.old.calls)) }
        ensures failing { (result ≡ Got.Failed) ↔ IsTrue (is_failing self.old) }
        ensures full { result ≢ Got.Failed →
            IsFullReading (file_of self.old.files) name.now at (length into.old) result }
        ensures after { self.new ≡ after_read self.old }
    {
        let call = self.calls;
        self.calls = call.saturating_add(1);
        if call < u64::MAX && is_on(self.failing.as_slice(), call) {
            self.faults += 1;
            return Got::Failed;
        }
        self.read_held(name, at, into)
    }
}

// The bytes of the first file of this name.
fn find<'a>(files: &'a [HeldFile], name: &[u8]) -> Option<&'a [u8]>
    ensures { let held = map (λ f. (f.name.items, f.bytes.items)) files.now in
        MatchOption result (file_of held name.now ≡ None) (λ bytes. file_of held name.now ≡ Some bytes.now) }
{
    for file in files {
        if file.name.as_slice() == name {
            return Some(file.bytes.as_slice());
        }
    }
    None
}

// Copies the bytes from `at` on into the front of the buffer, as many as there are and as it takes.
fn copy_from(bytes: &[u8], at: u64, into: &mut [u8]) -> usize
    ensures count { result ≡ min (length into.old) (length bytes.now - at) }
    ensures copied { take result into.new ≡ take result (drop at bytes.now) }
{
    let start = at as usize;
    if start >= bytes.len() {
        return 0;
    }
    let rest = &bytes[start..];
    let count = into.len().min(rest.len());
    into[..count].copy_from_slice(&rest[..count]);
    count
}
