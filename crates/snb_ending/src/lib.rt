//! How the program ends: its status, and the line that standard error then shows.
#![tactic(auto)]

mod error_lines;
mod exit;
mod fault;
mod host;
#[cfg(test)]
mod tests;

pub use error_lines::ErrorLines;
pub use exit::ending;
pub use fault::Fault;
pub use host::HostErrorLines;
