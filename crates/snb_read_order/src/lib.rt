//! The first rows in an order.
#![tactic(auto)]

mod first;
mod law;
mod top_k;

pub use first::{first_of, in_order};
pub use law::{first_is_one, first_is_some};
pub use top_k::TopK;
