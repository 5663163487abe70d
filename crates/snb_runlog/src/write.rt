//! The writing of a log.

ghost use Rattle.std.specs.Prelude.{◌≡◌, ◌++◌, ◌∷◌, ◌≤◌, codes, length, take, All, OnErr, OnOk};
ghost use Rattle.std.specs.Fmt.{decimal};
ghost use Rattle.std.specs.List.{flat_map};
ghost use Rattle.snb_schema.specs.declared.limits.TheConstants.{MAX_WORKERS};
ghost use Rattle.snb_history.specs.RunTexts.{count_text, header_line, log_text, logged_line as line_text};
ghost use Rattle.snb_runlog.specs.Columns.{CanBeHeader, event_columns, event_numbers, event_kind_of, letter_of};
ghost use Rattle.snb_runlog.specs.Writing.{AppendsSome, AreCounted, cells_text, line_with, logged_text};

use crate::columns::{EventKind, FIRST_VERSION, LAST_VERSION, columns_of};
use snb_base::put_number;
use snb_history::{Event, Header, Logged};
use std::alloc::AllocError;

// Which of the three the event is.
fn kind_in(event: &Event) -> EventKind
    ensures { result ≡ event_kind_of event.now }
{
    match *event {
        Event::Start { .. } => EventKind::Start,
        Event::Finish { .. } => EventKind::Finish,
        Event::Halt { .. } => EventKind::Halt,
    }
}

// The letter of the kind.
fn letter(kind: EventKind) -> &'static [u8]
    ensures { result.now ≡ letter_of kind }
{
    match kind {
        EventKind::Start => "S".as_bytes(),
        EventKind::Finish => "F".as_bytes(),
        EventKind::Halt => "H".as_bytes(),
    }
}

// The numbers of the event, in the order of its columns, and 0 after them.
fn numbers_in(event: &Event) -> [u64; 4]
    ensures { take (length (event_columns 1 (event_kind_of event.now))) result ≡ event_numbers event.now }
{
    match *event {
        Event::Start { op, worker, at } => [u64::from(op), u64::from(worker), at, 0],
        Event::Finish {
            op,
            worker,
            at,
            front,
        } => [u64::from(op), u64::from(worker), at, u64::from(front)],
        Event::Halt { worker } => [u64::from(worker), 0, 0, 0],
    }
}

// Appends each number with a bar before it.
fn put_numbers(numbers: &[u64], to: &mut Vec<u8>) -> Result<(), AllocError>
    ensures ok { OnOk result (to.new.items ≡ to.old.items ++ cells_text numbers.now) }
    ensures err { OnErr result (AppendsSome to.old.items to.new.items (cells_text numbers.now)) }
{
    for number in numbers {
        to.extend_from_slice("|".as_bytes())?;
        put_number(*number, to)?;
    }
    Ok(())
}

// Appends a count with a bar before it, where there is one.
fn put_count(count: Option<u32>, to: &mut Vec<u8>) -> Result<(), AllocError>
    ensures ok { OnOk result (to.new.items ≡ to.old.items ++ count_text count) }
    ensures err { OnErr result (AppendsSome to.old.items to.new.items (count_text count)) }
{
    match count {
        Some(n) => put_numbers(&[u64::from(n)], to),
        None => Ok(()),
    }
}

// Appends a line: what it begins with, the numbers after it, and a count where there is one.
fn put_line(
    first: &[u8],
    numbers: &[u64],
    count: Option<u32>,
    to: &mut Vec<u8>,
) -> Result<(), AllocError>
    ensures ok { OnOk result (to.new.items ≡ to.old.items ++ line_with first.now numbers.now count) }
    ensures err { OnErr result (AppendsSome to.old.items to.new.items (line_with first.now numbers.now count)) }
{
    to.extend_from_slice(first)?;
    put_numbers(numbers, to)?;
    put_count(count, to)?;
    to.extend_from_slice("\n".as_bytes())?;
    Ok(())
}

// Appends the line of what the log tells.
fn write_line(logged: &Logged, to: &mut Vec<u8>) -> Result<(), AllocError>
    ensures ok { OnOk result (to.new.items ≡ to.old.items ++ line_text logged.now) }
    ensures err { OnErr result (AppendsSome to.old.items to.new.items (line_text logged.now)) }
{
    let kind = kind_in(&logged.event);
    let columns = columns_of(FIRST_VERSION, kind);
    let numbers = numbers_in(&logged.event);
    put_line(letter(kind), &numbers[..columns.len()], logged.rows, to)
}

/// Appends the line of a header that a log can have: of version 1 or 2, of one to `MAX_WORKERS` workers,
/// and with a count of operations exactly in version 2. Where memory runs out, a first part of it is
/// appended.
pub fn write_header(header: &Header, to: &mut Vec<u8>) -> Result<(), AllocError>
    requires fits { CanBeHeader header.now }
    ensures ok { OnOk result (to.new.items ≡ to.old.items ++ header_line header.now) }
    ensures err { OnErr result (AppendsSome to.old.items to.new.items (header_line header.now)) }
{
    let numbers = [u64::from(header.version), u64::from(header.workers)];
    put_line("snblog".as_bytes(), &numbers, header.operations, to)
}

/// Appends the lines of what a log of version 2 tells. No moment is above `MAX_AT`, and there is a count of
/// rows exactly at each Finish. Where memory runs out, a first part of them is appended.
pub fn write_lines(logged: &[Logged], to: &mut Vec<u8>) -> Result<(), AllocError>
    requires counted { AreCounted logged.now }
    ensures ok { OnOk result (to.new.items ≡ to.old.items ++ logged_text logged.now) }
    ensures err { OnErr result (AppendsSome to.old.items to.new.items (logged_text logged.now)) }
{
    for one in logged {
        write_line(one, to)?;
    }
    Ok(())
}

/// Appends the log of a run of so many workers, of a plan with so many operations, which tells this:
/// version 2. No moment is above `MAX_AT`, and there is a count of rows exactly at each Finish. Where
/// memory runs out, a first part of it is appended.
///
/// It is `write_header` and then `write_lines`, which may be called in its place where the events come in
/// pieces.
pub fn write_log(
    workers: u32,
    operations: u32,
    logged: &[Logged],
    to: &mut Vec<u8>,
) -> Result<(), AllocError>
    requires some { 1 ≤ workers }
    requires few { workers ≤ MAX_WORKERS }
    requires counted { AreCounted logged.now }
    ensures ok { OnOk result (to.new.items ≡ to.old.items ++ log_text workers operations logged.now) }
    ensures err { OnErr result (AppendsSome to.old.items to.new.items (log_text workers operations logged.now)) }
{
    let header = Header {
        version: LAST_VERSION,
        workers,
        operations: Some(operations),
    };
    write_header(&header, to)?;
    write_lines(logged, to)
}
