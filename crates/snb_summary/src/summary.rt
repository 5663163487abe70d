//! Summaries of runs.

ghost use Rattle.std.specs.Prelude.{◌≡◌, ◌∷◌, ◌++◌, [], ℕ, ◌<◌, ◌≤◌, List, IfOk, OnOk, length, map, nat_lt};
ghost use Rattle.snb_summary.specs.Hearing.{AreTimes, moments_in};
ghost use Rattle.snb_summary.specs.Kinds.{all_entries, all_whats, entries_of, Entry};
ghost use Rattle.snb_summary.specs.Summaries.{AreMeasures, IsMeasure, IsPercentile, IsSummary};

use crate::kind::{OpKind, What, all_kinds};
use crate::ranks::rank;
use crate::times::Times;
use snb_base::{OwnedList, TryCopy};
use snb_history::Schedule;
use std::alloc::{AllocError, Global};

/// What is told of a measure of a kind, in milliseconds. Percentiles are exact: the percentile p of n
/// values is the value whose rank is p hundredths of n, rounded up.
#[derive(Clone, Copy)]
pub struct Measure {
    pub kind: OpKind,
    pub what: What,
    /// How many operations have a value.
    pub count: u64,
    pub least: u64,
    pub p50: u64,
    pub p90: u64,
    pub p95: u64,
    pub p99: u64,
    pub greatest: u64,
}

impl TryCopy for Measure {
    fn try_copy(&self) -> Result<Measure, AllocError> {
        Ok(*self)
    }
}

/// The summary of a run: its measures in order.
pub type Summary = OwnedList<Measure>;

// The percentile p of the values, of which there are some.
fn percentile(values: &[u64], p: u32) -> u64
    requires some { 0 < length values.now }
    requires first { 1 ≤ p }
    requires last { p ≤ 100 }
    ensures { IsPercentile values.now p result }
{
    let hundredths = p as u128 * values.len() as u128;
    let r = hundredths.div_ceil(100) as u64;
    rank(values, r)
}

// What is told of the values, of which there are some.
fn measure_of(kind: OpKind, what: What, values: &[u64]) -> Measure
    requires { 0 < length values.now }
    ensures kind { result.kind ≡ kind }
    ensures what { result.what ≡ what }
    ensures exact { IsMeasure values.now result }
{
    let count = values.len() as u64;
    Measure {
        kind,
        what,
        count,
        least: rank(values, 1),
        p50: percentile(values, 50),
        p90: percentile(values, 90),
        p95: percentile(values, 95),
        p99: percentile(values, 99),
        greatest: rank(values, count),
    }
}

// Whether there is a value.
fn has_some(values: &[u64]) -> bool
    ensures { result ≡ nat_lt 0 (length values.now) }
{
    !values.is_empty()
}

// Appends the measure of an entry, if it has a value.
fn put_entry(
    alloc: Global,
    schedule: &Schedule,
    kinds: &[Option<OpKind>],
    times: &Times,
    kind: OpKind,
    what: What,
    to: &mut Summary,
) -> Result<(), AllocError>
    requires each { length kinds.now ≡ length schedule.now.steps }
    requires times { AreTimes schedule.now times.now }
    ensures { OnOk result ((entries : List Entry) →
        AreMeasures (record { kinds = kinds.now; schedule = schedule.now; moments = moments_in times.now.heard })
        entries to.old →
        AreMeasures (record { kinds = kinds.now; schedule = schedule.now; moments = moments_in times.now.heard })
        (entries ++ record { kind = kind; what = what } ∷ []) to.new) }
{
    let values = times.values(alloc, schedule, kinds, kind, what)?;
    if has_some(&values) {
        to.push(measure_of(kind, what, &values))?;
    }
    Ok(())
}

// Appends the measures of a kind.
fn put_kind(
    alloc: Global,
    schedule: &Schedule,
    kinds: &[Option<OpKind>],
    times: &Times,
    kind: OpKind,
    to: &mut Summary,
) -> Result<(), AllocError>
    requires each { length kinds.now ≡ length schedule.now.steps }
    requires times { AreTimes schedule.now times.now }
    ensures { OnOk result ((entries : List Entry) →
        AreMeasures (record { kinds = kinds.now; schedule = schedule.now; moments = moments_in times.now.heard })
        entries to.old →
        AreMeasures (record { kinds = kinds.now; schedule = schedule.now; moments = moments_in times.now.heard })
        (entries ++ entries_of kind) to.new) }
{
    put_entry(alloc, schedule, kinds, times, kind, What::Latency, to)?;
    put_entry(alloc, schedule, kinds, times, kind, What::Lateness, to)?;
    put_entry(alloc, schedule, kinds, times, kind, What::Slack, to)
}

// The measures of all entries.
pub(crate) fn measures_of(
    alloc: Global,
    schedule: &Schedule,
    kinds: &[Option<OpKind>],
    times: &Times,
) -> Result<Summary, AllocError>
    requires each { length kinds.now ≡ length schedule.now.steps }
    requires times { AreTimes schedule.now times.now }
    ensures { IfOk result (λ measures.
        AreMeasures (record { kinds = kinds.now; schedule = schedule.now; moments = moments_in times.now.heard })
        all_entries measures) }
{
    let mut measures = Summary::new(alloc);
    for kind in &all_kinds(alloc)? {
        put_kind(alloc, schedule, kinds, times, *kind, &mut measures)?;
    }
    Ok(measures)
}
