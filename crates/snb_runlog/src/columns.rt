//! The table of the columns of a log.

ghost use Rattle.std.specs.Prelude.{◌≡◌, ◌==◌, ◌∷◌, []};
ghost use Rattle.snb_runlog.specs.Columns.{event_columns, header_columns};

use snb_schema::{MAX_AT, MAX_WORKERS};

/// What a line after the header tells of.
#[derive(Clone, Copy)]
pub enum EventKind {
    Start,
    Finish,
    Halt,
}

/// The least and the greatest number of a column.
pub type Column = (u64, u64);

/// The least version of a log.
pub const FIRST_VERSION: u32 = 1;

/// The greatest version of a log. It alone has counts: of the operations of the plan in its header, and
/// of the rows that a read gave at its Finish.
pub const LAST_VERSION: u32 = 2;

/// The greatest number of an operation, of a worker, of events, of operations or of rows.
pub const MAX_NUMBER: u64 = 4294967295;

/// The column of the version, which follows the name of a header.
pub const VERSION: Column = (FIRST_VERSION as u64, LAST_VERSION as u64);

const NUMBER: Column = (0, MAX_NUMBER);

const MOMENT: Column = (0, MAX_AT);

const WORKERS: Column = (1, MAX_WORKERS as u64);

const HEADER: [Column; 2] = [WORKERS, NUMBER];

const HEADER_WITHOUT_COUNT: [Column; 1] = [WORKERS];

const START: [Column; 3] = [NUMBER, NUMBER, MOMENT];

const FINISH: [Column; 5] = [NUMBER, NUMBER, MOMENT, NUMBER, NUMBER];

const FINISH_WITHOUT_COUNT: [Column; 4] = [NUMBER, NUMBER, MOMENT, NUMBER];

const HALT: [Column; 1] = [NUMBER];

/// Whether a log of this version has counts.
pub fn has_counts(version: u32) -> bool
    ensures { result ≡ (version == LAST_VERSION) }
{
    version == LAST_VERSION
}

/// The columns that follow the version of a header of this version.
pub fn header_columns_of(version: u32) -> &'static [Column]
    ensures { result.now ≡ header_columns version }
{
    if has_counts(version) {
        &HEADER
    } else {
        &HEADER_WITHOUT_COUNT
    }
}

/// The columns that follow the letter of a line of this kind, in a log of this version.
pub fn columns_of(version: u32, kind: EventKind) -> &'static [Column]
    ensures { result.now ≡ event_columns version kind }
{
    match kind {
        EventKind::Start => &START,
        EventKind::Finish => if has_counts(version) {
            &FINISH
        } else {
            &FINISH_WITHOUT_COUNT
        },
        EventKind::Halt => &HALT,
    }
}
