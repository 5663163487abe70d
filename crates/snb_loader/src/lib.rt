//! The stages in which the files of a folder are read: the tables of a dataset, the streams, and the
//! parameter files.
#![tactic(auto)]

mod dataset;
mod lacking;
mod lanes;
mod law;
mod order;
mod params;
mod streams;
mod tables;

pub use dataset::load_dataset;
pub use lanes::load_lanes;
pub use law::{one_dataset, one_lanes, one_params};
pub use order::{FORUM_STREAMS, PERSON_STREAMS, table_series};
pub use params::load_params;
pub use tables::{TableGraph, load_tables};
