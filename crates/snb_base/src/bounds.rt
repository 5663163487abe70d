//! The greatest values that files may spell: those of this project's profile.

/// The greatest date and time, in milliseconds since 1970-01-01 UTC: the last one of `LAST_YEAR`.
pub const LAST_TIME: u64 = 253402300799999;

/// The greatest id.
pub const LAST_ID: u64 = 9223372036854775807;

/// The greatest moment of an event, in milliseconds since the start of its run's clock.
pub const LAST_AT: u64 = 9223372036854775807;

/// The greatest year.
pub const LAST_YEAR: u32 = 9999;
