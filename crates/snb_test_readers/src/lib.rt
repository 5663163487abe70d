//! The calls of a script on the library's readers of files and lines and what writes them again, and on the outbox that
//! keeps nothing. `answer` makes a call.
#![tactic(auto)]

mod answers;
mod feeding;
mod inserts;
mod logs;
mod outbox;
mod parameters;
mod pieces;
mod streams;
mod tables;
mod told;

pub use answers::answer;
