//! The book of a run: who has what in hand, and what has happened, as a legal history.
#![tactic(auto)]

mod book;
mod claim;
mod law;

pub use book::Book;
pub use claim::{Claim, Ticket};
pub use law::{claim_exists, claim_fits, claim_is_blocked, claim_is_not_stuck, claim_is_one};
