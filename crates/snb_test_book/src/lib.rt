//! The calls of a script that plan what files say, and keep books and completion times, with what each
//! answers. `answer` makes a call.
#![tactic(auto)]

mod answers;
mod books;
mod event_words;
mod plans;
mod sources;
mod state;
mod times;

pub use answers::answer;
pub use books::{
    claim, complete, completion, events, finish, halt, make_book, told_claim, told_events,
};
pub use plans::{FOLDER, Terms, flaw_of, load_plan, plan, terms_of};
pub use state::State;
