//! The calls of a script that run a plan by two workers, each in a thread of its own or one of them alone, and
//! one of a clock that they may share, with what each answers. `answer` makes a call.
#![tactic(auto)]

mod alone;
mod answers;
mod asked;
mod behind;
mod closed;
mod held;
mod holder;
mod meet;
mod meeting;
mod own;
mod pair;
mod steps;

pub use answers::answer;
