//! What the lines of a log say.

ghost use Rattle.std.specs.Prelude.{◌≡◌, ◌+◌, ◌≤◌, ◌∷◌, [], ℕ, length, take, drop, IfErr, IfOk, MatchOption};
ghost use Rattle.snb_base.specs.Spellings.{Num};
ghost use Rattle.snb_schema.specs.UpdateLines.{field};
ghost use Rattle.snb_runlog.specs.declared.columns.EventKind.{EventKind as Kind};
ghost use Rattle.snb_runlog.specs.Columns.{AreWithin, event_columns, count_columns, count_numbers, header_columns, header_numbers, event_kind_of, letter_of, numbers_of};
ghost use Rattle.snb_runlog.specs.Lines.{AreNumbers, IsEvent, IsHeader, IsNoEvent, IsNoHeader, IsNumber, HasAllColumns, NumbersStopAfter};

use crate::columns::{Column, EventKind, VERSION, columns_of, has_counts, header_columns_of};
use snb_base::read_number;
use snb_history::{Event, Header, Logged};
use snb_input_lines::{Grammar, Record};
use snb_schema::LineFault;

// The field at a place, or an empty one.
fn field_at(fields: &Record, place: usize) -> &[u8]
    ensures { result.now ≡ field place fields.now }
{
    match fields.get(place) {
        Some(found) => found,
        None => &[],
    }
}

// The number of a column that the field spells. None exactly where it spells none.
fn number_in(column: Column, field: &[u8]) -> Option<u64>
    ensures { MatchOption result ((n : ℕ) → ¬ IsNumber column field.now n) (IsNumber column field.now) }
{
    match read_number(field, column.1) {
        Some(n) => { if n >= column.0 { Some(n) } else { None } }
        None => None,
    }
}

// The numbers that the fields after the first so many spell, one of each column. What follows them is 0.
//
// The error is the first column that has none, where the first field is column 1. There is a field
// for each column (`wide`), and there are five columns at most (`few`).
fn read_numbers(before: usize, columns: &[Column], fields: &Record) -> Result<[u64; 5], u32>
    requires first { before ≤ 2 }
    requires few { length columns.now ≤ 5 }
    requires wide { length fields.now ≡ length columns.now + before }
    ensures ok { IfOk result (λ numbers.
        AreNumbers columns.now (drop before fields.now) (take (length columns.now) numbers)) }
    ensures bad { IfErr result (λ column.
        (n : ℕ) × NumbersStopAfter columns.now (drop before fields.now) n × (column ≡ n + (before + 1))) }
{
    let mut numbers = [0; 5];
    for i in 0..columns.len() {
        let Some(field) = fields.get(i + before) else {
            unreachable!();
        };
        match number_in(columns[i], field) {
            Some(n) => numbers[i] = n,
            None => return Err((i + before) as u32 + 1),
        }
    }
    Ok(numbers)
}

// The kind of event whose letter the field is.
fn kind_in(field: &[u8]) -> Option<EventKind>
    ensures { MatchOption result ((kind : Kind) → ¬ (field.now ≡ letter_of kind)) (λ kind. field.now ≡ letter_of kind) }
{
    if field == "S".as_bytes() {
        return Some(EventKind::Start);
    }
    if field == "F".as_bytes() {
        return Some(EventKind::Finish);
    }
    if field == "H".as_bytes() {
        return Some(EventKind::Halt);
    }
    None
}

// The count that a log of this version has where this is the number of its column.
fn count_in(version: u32, number: u64) -> Option<u32>
    requires { AreWithin (count_columns version) (take (length (count_columns version)) (number ∷ [])) }
    ensures { count_numbers result ≡ take (length (count_columns version)) (number ∷ []) }
{
    if has_counts(version) {
        Some(number as u32)
    } else {
        None
    }
}

// What a line of this kind tells that has these numbers, which are numbers of its columns.
fn logged_of(version: u32, kind: EventKind, numbers: &[u64; 5]) -> Logged
    requires { AreWithin (event_columns version kind) (take (length (event_columns version kind)) numbers.now) }
    ensures kind { event_kind_of result.event ≡ kind }
    ensures numbers { numbers_of result ≡ take (length (event_columns version kind)) numbers.now }
{
    match kind {
        EventKind::Start => Logged {
            event: Event::Start {
                op: numbers[0] as u32,
                worker: numbers[1] as u32,
                at: numbers[2],
            },
            rows: None,
        },
        EventKind::Finish => Logged {
            event: Event::Finish {
                op: numbers[0] as u32,
                worker: numbers[1] as u32,
                at: numbers[2],
                front: numbers[3] as u32,
            },
            rows: count_in(version, numbers[4]),
        },
        EventKind::Halt => Logged {
            event: Event::Halt {
                worker: numbers[0] as u32,
            },
            rows: None,
        },
    }
}

// The header of this version that has these numbers, which are numbers of its columns.
fn header_of(version: u32, numbers: &[u64; 5]) -> Header
    requires { AreWithin (header_columns version) (take (length (header_columns version)) numbers.now) }
    ensures { header_numbers result ≡ version ∷ take (length (header_columns version)) numbers.now }
{
    Header {
        version,
        workers: numbers[0] as u32,
        operations: count_in(version, numbers[1]),
    }
}

// The header that the fields are. The error is their bad column.
fn header_in(fields: &Record) -> Result<Header, u32>
    ensures ok { IfOk result (IsHeader fields.now) }
    ensures bad { IfErr result (IsNoHeader fields.now) }
{
    if fields.len() < 3 || fields.len() > 4 {
        return Err(0);
    }
    if field_at(fields, 0) != "snblog".as_bytes() {
        return Err(1);
    }
    let Some(number) = number_in(VERSION, field_at(fields, 1)) else {
        return Err(2);
    };
    let version = number as u32;
    let columns = header_columns_of(version);
    if fields.len() != columns.len() + 2 {
        return Err(0);
    }
    match read_numbers(2, columns, fields) {
        Ok(numbers) => Ok(header_of(version, &numbers)),
        Err(column) => Err(column),
    }
}

// What the fields spell in a log of this version. The error is their bad column.
fn event_in(version: u32, fields: &Record) -> Result<Logged, u32>
    ensures ok { IfOk result (IsEvent version fields.now) }
    ensures bad { IfErr result (IsNoEvent version fields.now) }
{
    let Some(kind) = kind_in(field_at(fields, 0)) else {
        return Err(1);
    };
    let columns = columns_of(version, kind);
    if fields.len() != columns.len() + 1 {
        return Err(0);
    }
    match read_numbers(1, columns, fields) {
        Ok(numbers) => Ok(logged_of(version, kind, &numbers)),
        Err(column) => Err(column),
    }
}

/// What the lines of a log say. The first with a byte is the header: `snblog|1|WORKERS` or
/// `snblog|2|WORKERS|OPERATIONS`. Each later one is an event: `S|op|worker|at`, `H|worker`, and
/// `F|op|worker|at|front` in version 1 or `F|op|worker|at|front|rows` in version 2.
///
/// A header's bad column is 0 where it has fewer than three fields or more than four; else 1 or 2 for a
/// wrong name or version; else 0 where the number of its fields isn't that version's; else 3 or 4 for a
/// wrong count of workers or of operations: the first of these. Another line's is 1 where its first field
/// is no letter; else 0 where the number of its fields isn't that letter's in that version; else the first
/// that spells no number of its column, counted from 1. Reading a line takes no memory.
#[derive(Clone, Copy)]
pub struct LogLines {}

impl Grammar for LogLines {
    type Item = Logged;

    type Known = Header;

    ghost use Rattle.snb_runlog.specs.Lines.{log_language};

    ghost language = { λ _. log_language };

    fn begin(&self) -> Option<Header> {
        None
    }

    fn splits(&self) -> bool {
        true
    }

    fn read_header(&self, _line: &[u8], fields: &Record) -> Result<Header, LineFault> {
        match header_in(fields) {
            Ok(head) => Ok(head),
            Err(column) => Err(LineFault::Bad { column }),
        }
    }

    fn read_item(
        &self,
        known: &Header,
        _number: u32,
        _line: &[u8],
        fields: &Record,
    ) -> Result<Logged, LineFault> {
        match event_in(known.version, fields) {
            Ok(logged) => Ok(logged),
            Err(column) => Err(LineFault::Bad { column }),
        }
    }
}
