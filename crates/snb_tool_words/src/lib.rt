//! The words of a command line: which command they are the line of.
#![tactic(auto)]

mod command;
mod law;
mod line;
mod number_words;
mod options;
mod reads;
mod taken;

pub use command::{Command, asks_table, command_of, waits};
pub use law::one_command;
pub use number_words::{are_words, words_of};
pub use options::{
    OptionName, Options, Via, chance_of, frequencies_of, options_of, ratio_of, size_of, via_of,
    workers_of,
};
