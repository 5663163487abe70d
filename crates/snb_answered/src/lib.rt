//! What the reads of a run were replied, as it is kept: the text of each reply, and what is logged of it.
#![tactic(auto)]

mod done;

pub use done::{Answered, Done};
