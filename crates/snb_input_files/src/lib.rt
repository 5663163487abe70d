//! The files of an input, read in order: one loader for any file. What their lines say, and what takes
//! it, is a `FileSink`'s; the limits, the order of the checks and the walk over the files of a folder are
//! the same for all.
#![tactic(auto)]

mod file;
mod file_sink;
mod found;
mod law;
mod load;
mod pieces;
mod series;
mod walk;

pub use file::{load_file, load_known};
pub use file_sink::FileSink;
pub use found::Found;
pub use law::{one_refusal, one_saying, stages_join};
pub use load::{Load, Used};
pub use series::Series;
pub use walk::{Walk, walk_stage};
