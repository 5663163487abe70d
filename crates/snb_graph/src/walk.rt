//! Walks over pairs.

pub use snb_graph_links::Links;
