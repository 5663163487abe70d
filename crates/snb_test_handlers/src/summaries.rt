//! The call that copies a summary.

use snb_schema::{InsertKind, ReadKind};
use snb_summary::{Measure, OpKind, Summary, What, measures_text};
use snb_test_script::{Files, Flaw, number_of, shown_lines};
use std::alloc::Global;

// The kind of operation of this name, of those that the cases have.
fn kind_of(word: &str) -> Result<OpKind, Flaw> {
    let inserted = |kind| OpKind::Insert { kind };
    match word {
        "AddPerson" => Ok(inserted(InsertKind::AddPerson)),
        "AddFriend" => Ok(inserted(InsertKind::AddFriend)),
        _ => match ReadKind::of_word(word) {
            Some(kind) => Ok(OpKind::Read { kind }),
            None => Err(Flaw::NoName),
        },
    }
}

// What is measured, by its name.
fn what_of(word: &str) -> Result<What, Flaw> {
    match word {
        "latency" => Ok(What::Latency),
        "lateness" => Ok(What::Lateness),
        "slack" => Ok(What::Slack),
        _ => Err(Flaw::NoName),
    }
}

// The next of the numbers, with a bar before each.
fn next_number<'a>(rest: &'a str) -> Result<(u64, &'a str), Flaw> {
    match rest.split_once('|') {
        Some((number, rest)) => Ok((number_of(number)?, rest)),
        None => Ok((number_of(rest)?, "")),
    }
}

// The measure of a line.
fn measure_of(line: &str) -> Result<Measure, Flaw> {
    let (kind, rest) = line.split_once('|').ok_or(Flaw::NoName)?;
    let (what, rest) = rest.split_once('|').ok_or(Flaw::NoName)?;
    let (count, rest) = next_number(rest)?;
    let (least, rest) = next_number(rest)?;
    let (p50, rest) = next_number(rest)?;
    let (p90, rest) = next_number(rest)?;
    let (p95, rest) = next_number(rest)?;
    let (p99, rest) = next_number(rest)?;
    let (greatest, _) = next_number(rest)?;
    Ok(Measure {
        kind: kind_of(kind)?,
        what: what_of(what)?,
        count,
        least,
        p50,
        p90,
        p95,
        p99,
        greatest,
    })
}

/// `summary_copied FILE`
pub(crate) fn summary_copied(alloc: Global, files: &Files, rest: &str) -> Result<String, Flaw> {
    let text = str::from_utf8(files.bytes(rest)?).map_err(|_| Flaw::OtherValue)?;
    let mut summary = Summary::new(alloc);
    for line in text.lines() {
        summary.push(measure_of(line)?)?;
    }
    let copy = summary.try_copy()?;
    drop(summary);
    let mut written = Vec::new(alloc);
    measures_text(&copy, &mut written)?;
    Ok(shown_lines(alloc, written.as_slice())?)
}
