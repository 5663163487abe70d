//! The limits of the profile.

use snb_base::{LAST_AT, LAST_ID, LAST_TIME, LAST_YEAR};

/// The greatest date and time, in milliseconds since 1970-01-01 UTC.
pub const MAX_TIME: u64 = LAST_TIME;

/// The greatest id.
pub const MAX_ID: u64 = LAST_ID;

/// The greatest year.
pub const MAX_YEAR: u32 = LAST_YEAR;

/// The greatest length of a message.
pub const MAX_LENGTH: u32 = 2147483647;

/// The greatest moment of an event, in milliseconds since the start of the run's clock.
pub const MAX_AT: u64 = LAST_AT;

/// The most bytes of dataset, streams and parameter files together.
pub const MAX_BYTES: u64 = 268435456;

/// The most data lines of dataset, streams and parameter files together.
pub const MAX_ROWS: u64 = 2000000;

/// The most streams of persons, and likewise of the other inserts.
pub const MAX_LANES: u32 = 256;

/// The most parts of a table's file.
pub const MAX_PARTS: u32 = 1000;

/// The most reads of a plan.
pub const MAX_READS: u32 = 200000;

/// The greatest frequency of a complex query.
pub const MAX_FREQUENCY: u32 = 1000000;

/// The most workers of a run.
pub const MAX_WORKERS: u32 = 8;

/// The most words of a walk.
pub const MAX_WORDS: usize = 1000;

/// The greatest size of a trial.
pub const MAX_TRIAL: u32 = 5000;
