//! Summaries as text.

ghost use Rattle.std.specs.Prelude.{◌≡◌, ◌++◌, OnErr, OnOk};
ghost use Rattle.snb_summary.specs.SummaryTexts.{cells_text, insert_text, op_kind_text, measure_line, measures_text as summary_text, measure_numbers, what_text};

use crate::kind::{OpKind, What};
use crate::summary::{Measure, Summary};
use snb_base::put_number;
use snb_schema::InsertKind;
use std::alloc::AllocError;

// The word of an insert.
fn insert_word(kind: InsertKind) -> &'static str
    ensures { result.now ≡ insert_text kind }
{
    match kind {
        InsertKind::AddPerson => "AddPerson",
        InsertKind::LikePost => "LikePost",
        InsertKind::LikeComment => "LikeComment",
        InsertKind::AddForum => "AddForum",
        InsertKind::AddMember => "AddMember",
        InsertKind::AddPost => "AddPost",
        InsertKind::AddComment => "AddComment",
        InsertKind::AddFriend => "AddFriend",
    }
}

// The word of a kind.
fn kind_word(kind: OpKind) -> &'static str
    ensures { result.now ≡ op_kind_text kind }
{
    match kind {
        OpKind::Insert { kind } => insert_word(kind),
        OpKind::Read { kind } => kind.word(),
    }
}

// The word of a measure.
fn what_word(what: What) -> &'static str
    ensures { result.now ≡ what_text what }
{
    match what {
        What::Latency => "latency",
        What::Lateness => "lateness",
        What::Slack => "slack",
    }
}

// What the measure tells, in order.
fn numbers_in(measure: Measure) -> [u64; 7]
    ensures { result ≡ measure_numbers measure }
{
    [
        measure.count,
        measure.least,
        measure.p50,
        measure.p90,
        measure.p95,
        measure.p99,
        measure.greatest,
    ]
}

// Appends each number with a bar before it.
fn put_numbers(numbers: &[u64], to: &mut Vec<u8>) -> Result<(), AllocError>
    ensures { OnOk result (to.new.items ≡ to.old.items ++ cells_text numbers.now) }
{
    for number in numbers {
        to.extend_from_slice("|".as_bytes())?;
        put_number(*number, to)?;
    }
    Ok(())
}

// Appends the line of a measure.
fn put_measure(measure: Measure, to: &mut Vec<u8>) -> Result<(), AllocError>
    ensures { OnOk result (to.new.items ≡ to.old.items ++ measure_line measure) }
{
    to.extend_from_slice(kind_word(measure.kind).as_bytes())?;
    to.extend_from_slice("|".as_bytes())?;
    to.extend_from_slice(what_word(measure.what).as_bytes())?;
    put_numbers(&numbers_in(measure), to)?;
    to.extend_from_slice("\n".as_bytes())
}

/// Appends the text of a summary: a first line with its version, and a line for each measure. An error says that
/// memory doesn't suffice, and then nothing is appended.
pub fn measures_text(summary: &Summary, to: &mut Vec<u8>) -> Result<(), AllocError>
    ensures ok { OnOk result (to.new.items ≡ to.old.items ++ summary_text summary.now) }
    ensures err { OnErr result (to.new.items ≡ to.old.items) }
{
    let mut text = Vec::from_slice(*to.allocator(), b"summary|1\n")?;
    for measure in summary.as_slice() {
        put_measure(*measure, &mut text)?;
    }
    to.extend_from_slice(&text)
}
