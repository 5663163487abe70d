//! The calls that read a log, and write again what was read.

ghost use Rattle.std.specs.Prelude.{◌≡◌, ◌≤◌, IsTrue, false};
ghost use Rattle.snb_schema.specs.declared.limits.TheConstants.{MAX_AT, MAX_BYTES};
ghost use Rattle.snb_history.specs.History.{moment};
ghost use Rattle.snb_runlog.specs.declared.columns.TheConstants.{LAST_VERSION};
ghost use Rattle.snb_runlog.specs.Columns.{HasCount};
ghost use Rattle.snb_runlog.specs.Writing.{AreCounted};

use crate::feeding::{Feeds, told_fed};
use crate::pieces::{Reads, told_cut};
use snb_history::{Event, Header, Logged};
use snb_runlog::{LogReader, write_log};
use snb_schema::{Fault, MAX_AT, MAX_BYTES, MAX_WORKERS};
use snb_test_script::{Files, Flaw, shown_lines};
use std::alloc::{AllocError, Global};

// A reader of a log, and what the header said, once the log has ended.
struct Log {
    reader: LogReader,
    header: Option<Header>,
}

impl Drop for Log {
    fn drop(self) {
        let Log {
            reader: _,
            header: _,
        } = self;
    }
}

// Before the first byte of a log.
fn new_log(alloc: Global) -> Log
    ensures fresh { result.reader.fed ≡ 0 }
    ensures open { result.reader.over ≡ false }
{
    Log {
        reader: LogReader::new(alloc),
        header: None,
    }
}

// An event.
fn told_event(alloc: Global, event: Event) -> Result<String, AllocError> {
    match event {
        Event::Start { op, worker, at } => format!(in alloc; "start {op} {worker} {at}"),
        Event::Finish {
            op,
            worker,
            at,
            front,
        } => format!(in alloc; "finish {op} {worker} {at} {front}"),
        Event::Halt { worker } => format!(in alloc; "halt {worker}"),
    }
}

impl Feeds for Log {
    type Item = Logged;

    ghost fed = { λ log. log.reader.fed };

    ghost over = { λ log. log.reader.over };

    fn take(&mut self, piece: &[u8], into: &mut Vec<Logged>) -> Result<(), Fault> {
        self.reader.feed(piece, into)
    }

    fn finish(&mut self, into: &mut Vec<Logged>) -> Result<(), Fault> {
        match self.reader.end(into) {
            Ok(header) => {
                self.header = Some(header);
                Ok(())
            }
            Err(fault) => Err(fault),
        }
    }

    fn told_item(&self, alloc: Global, item: &Logged) -> Result<String, Flaw> {
        let event = told_event(alloc, item.event)?;
        match item.rows {
            Some(rows) => {
                let event = event.as_str();
                Ok(format!(in alloc; "{event}, {rows} rows")?)
            }
            None => Ok(event),
        }
    }

    fn told_end(&self, alloc: Global) -> Result<String, AllocError> {
        let Some(header) = self.header else {
            return Ok(String::new(alloc));
        };
        let version = header.version;
        let workers = header.workers;
        match header.operations {
            Some(count) => {
                format!(in alloc; "version {version}, {workers} workers, {count} operations")
            }
            None => format!(in alloc; "version {version}, {workers} workers"),
        }
    }
}

// Reads a log.
#[derive(Clone, Copy)]
struct Logs;

impl Reads for Logs {
    fn told(&self, alloc: Global, first: &[u8], second: &[u8]) -> Result<String, Flaw> {
        told_fed(alloc, &mut new_log(alloc), first, second)
    }
}

/// `log_events FILE`
pub(crate) fn log_events(alloc: Global, files: &Files, rest: &str) -> Result<String, Flaw> {
    told_cut(alloc, &Logs, files.bytes(rest)?)
}

// Whether a log of version 2 may tell this.
fn is_writable(one: &Logged) -> bool
    ensures timed { IsTrue result → moment one.now.event ≤ MAX_AT }
    ensures counted { IsTrue result → HasCount LAST_VERSION one.now }
{
    match one.event {
        Event::Start { at, .. } => at <= MAX_AT && one.rows.is_none(),
        Event::Finish { at, .. } => at <= MAX_AT && one.rows.is_some(),
        Event::Halt { .. } => one.rows.is_none(),
    }
}

// Whether it may tell all of this.
fn are_writable(logged: &[Logged]) -> bool
    ensures { IsTrue result → AreCounted logged.now }
{
    for i in 0..logged.len() {
        if !is_writable(&logged[i]) {
            return false;
        }
    }
    true
}

// The log of version 2 that is written of this.
fn told_written(alloc: Global, header: Header, logged: &[Logged]) -> Result<String, Flaw> {
    let Some(operations) = header.operations else {
        return Err(Flaw::OtherValue);
    };
    if header.workers < 1 || header.workers > MAX_WORKERS || !are_writable(logged) {
        return Err(Flaw::OtherValue);
    }
    let mut text = Vec::from_slice(alloc, b"before\n")?;
    write_log(header.workers, operations, logged, &mut text)?;
    Ok(shown_lines(alloc, text.as_slice())?)
}

/// `log_again FILE`
pub(crate) fn log_again(alloc: Global, files: &Files, rest: &str) -> Result<String, Flaw> {
    let text = files.bytes(rest)?;
    if text.len() as u64 > MAX_BYTES {
        return Err(Flaw::OtherValue);
    }
    let mut reader = LogReader::new(alloc);
    let mut logged = Vec::new(alloc);
    match reader.feed(text, &mut logged) {
        Ok(()) => {}
        Err(_) => return Err(Flaw::OtherValue),
    }
    match reader.end(&mut logged) {
        Ok(header) => told_written(alloc, header, &logged),
        Err(_) => Err(Flaw::OtherValue),
    }
}
