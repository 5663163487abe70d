//! The latencies of a run: counts and exact percentiles, kind by kind.
#![tactic(auto)]

mod kind;
mod law;
mod ranks;
mod run;
mod summary;
mod text;
mod times;
mod works;

pub use kind::{OpKind, What};
pub use law::{each_is_told, nothing_is_cut, rank_is_one, summary_is_one};
pub use ranks::rank;
pub use run::summarise;
pub use summary::{Measure, Summary};
pub use text::measures_text;
