//! An outbox over standard output and real files.

ghost use Rattle.std.specs.Prelude.{◌≡◌, ◌≤◌, length, None, IfOk};

use snb_base::{Channel, Outbox, Put};
use std::fs::File;
use std::io;
use std::io::{Print, Write};
use std::rt::Files;

/// Standard output for the screen, and for each other channel a file of the current folder:
/// `snb.log`, `snb.answers`, `snb.final` and `snb.cases`. It tells no bytes.
///
/// Log, answers and final graph are one run's. At the first write to one of them all three are made anew, in this
/// order and before anything is written, so that none keeps bytes of an earlier run. Where one of them can't be
/// made, that write is a fault, and the next write to one of the three makes those that are missing. The file
/// of cases is made anew at the first write to it. A channel that is never written to leaves its file as it is,
/// but for those of a run that has begun to write.
pub struct FolderOutbox<R: Files> {
    rt: R,
    log: Option<R::File>,
    answers: Option<R::File>,
    finals: Option<R::File>,
    cases: Option<R::File>,
    faults: u64,
}

impl<R: Files + Drop> Drop for FolderOutbox<R> {
    fn drop(self) {
        let FolderOutbox {
            rt: _,
            log: _,
            answers: _,
            finals: _,
            cases: _,
            faults: _,
        } = self;
    }
}

impl<R: Files + Print> FolderOutbox<R> {
    /// An outbox that has made no file yet.
    pub fn new(rt: R) -> FolderOutbox<R>
        ensures { ⟦<FolderOutbox<R> as Outbox>⟧.faults result ≡ 0 }
    {
        FolderOutbox {
            rt,
            log: None,
            answers: None,
            finals: None,
            cases: None,
            faults: 0,
        }
    }

    // Writes once to the channel.
    fn write_once(&mut self, channel: Channel, piece: &[u8]) -> io::Result<usize>
        ensures count { IfOk result (λ count. count ≤ length piece.now) }
        ensures faults { self.new.faults ≡ self.old.faults }
    {
        match channel {
            Channel::Screen => self.rt.write_some(piece),
            Channel::Log => {
                self.make_run()?;
                write_file(&mut self.log, piece)
            }
            Channel::Answers => {
                self.make_run()?;
                write_file(&mut self.answers, piece)
            }
            Channel::Final => {
                self.make_run()?;
                write_file(&mut self.finals, piece)
            }
            Channel::Cases => {
                make_file(&self.rt, &mut self.cases, "snb.cases")?;
                write_file(&mut self.cases, piece)
            }
        }
    }

    // Makes those files of a run that aren't open yet.
    fn make_run(&mut self) -> io::Result<()>
        ensures { self.new.faults ≡ self.old.faults }
    {
        make_file(&self.rt, &mut self.log, "snb.log")?;
        make_file(&self.rt, &mut self.answers, "snb.answers")?;
        make_file(&self.rt, &mut self.finals, "snb.final")
    }
}

impl<R: Files + Print> Outbox for FolderOutbox<R> {
    ghost written = { λ _. None };

    ghost faults = { λ s. s.faults };

    ghost ready = { λ _ _. ⊥ };

    fn write(&mut self, channel: Channel, piece: &[u8]) -> Put {
        let count = self.write_once(channel, piece).unwrap_or(0);
        if count == 0 {
            self.faults = self.faults.saturating_add(1);
            return Put::Failed;
        }
        Put::Took { count }
    }
}

// Makes the file anew, unless it is open.
fn make_file<R: Files>(rt: &R, open: &mut Option<R::File>, name: &str) -> io::Result<()> {
    if open.is_none() {
        *open = Some(File::create(rt, name)?);
    }
    Ok(())
}

// Writes once to the file, if it is open.
fn write_file<F: Write>(open: &mut Option<F>, piece: &[u8]) -> io::Result<usize>
    ensures { IfOk result (λ count. count ≤ length piece.now) }
{
    match open {
        Some(file) => file.write(piece),
        None => Ok(0),
    }
}
