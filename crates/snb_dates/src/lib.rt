//! The reading of dates and days.
#![tactic(auto)]

mod date;
mod law;

pub use date::{read_date, read_day};
pub use law::one_moment;
