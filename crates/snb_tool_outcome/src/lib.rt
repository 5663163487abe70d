//! How a call of the program ends: what its commands find, answer and write, as definitions; and what the commands
//! share, which are the input of a folder, the texts that they leave, and their delivery.
#![tactic(auto)]

mod delivery;
mod finishing;
mod input;
mod judged;

pub use delivery::{Finished, Output, WriteFault, deliver, show};
pub use finishing::{finish, show_as};
pub use input::{Input, load_input};
pub use judged::Judged;
