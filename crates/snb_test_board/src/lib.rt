//! The calls of a script that make a board over a schedule and close it, with what each answers. `answer`
//! makes a call.
#![tactic(auto)]

mod answers;
mod boards;
mod halts;

pub use answers::answer;
pub use boards::{
    board_of_two, closed_by_all, completeness, crew, fresh_word, is_insert, two_seats, verdict,
};
