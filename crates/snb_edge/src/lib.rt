//! The edge of the program: the words that it is started with, and its one call.
#![tactic(auto)]

mod host;
mod program;
mod words;

pub use host::HostWords;
pub use program::serve;
pub use words::Words;
