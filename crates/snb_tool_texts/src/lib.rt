//! The texts that the program writes: of a run, of a count, and of a refusal.
#![tactic(auto)]

mod answers;
mod counts;
mod final_text;
mod refusal_text;

pub use answers::answer_pieces;
pub use counts::{check_lines, summary_lines};
pub use final_text::final_lines;
pub use refusal_text::refusal_line;
