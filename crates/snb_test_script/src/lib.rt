//! The script of a program of cases: how it is read, the files that it makes in memory, what can be
//! wrong with it, how answers are told, and a clock and a gate for calls. The calls themselves stand in crates above
//! this one.
#![tactic(auto)]

mod answer;
mod case;
mod change;
mod escape;
mod files;
mod flaw;
mod given;
mod play;
mod telling;
mod words;

pub use escape::{LineEnd, put_plain, shown, shown_lines};
pub use files::{Files, add_file};
pub use flaw::{Flaw, Stop};
pub use given::Given;
pub use play::{Player, Report, Step};
pub use telling::{Lines, List, told, told_number, told_whether};
pub use words::{first_word, nothing, number_of, small_number_of, two_numbers};
