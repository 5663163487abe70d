//! Links from a number to ids with dates, in two parts: a frozen one, in arrays that copies share, and an added one.
#![tactic(auto)]

mod adjacency_map;
mod links;
mod runs;
mod search;

pub use adjacency_map::AdjacencyMap;
pub use links::Links;
