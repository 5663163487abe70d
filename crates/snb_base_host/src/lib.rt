//! The real world behind the traits of what the harness asks of it: files, standard output and time.
#![tactic(auto)]

mod folder_outbox;
mod folder_shelf;
mod host_clock;
mod standard_streams;
#[cfg(test)]
mod tests;

pub use folder_outbox::FolderOutbox;
pub use folder_shelf::FolderShelf;
pub use host_clock::HostClock;
pub use standard_streams::StandardStreams;
