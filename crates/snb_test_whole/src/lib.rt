//! What calls of the whole program are made over: its words, a shelf and an outbox in memory and a clock that shows
//! given moments; and what came of them.
#![tactic(auto)]

mod answers;
mod case_shelf;
mod state;
mod words;

pub use answers::answer;
pub use case_shelf::{CaseShelf, Kept, Long};
pub use state::State;
pub use words::{LOG_PATH, audit_words, deeper, deeper_words, words_of};
