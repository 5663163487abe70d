//! The one call that does all that the program does.
#![tactic(auto)]

mod law;
mod table;
mod tool;

pub use law::{
    answers_have_status, audit_in_short, expect_in_short, expected_is_valid, latency_in_short,
    lines_are_operations, refusal_is_one, run_in_short, run_is_whole, validate_in_short,
    via_table_is_the_same,
};
pub use snb_trial::trial_input;
pub use tool::{snb, snb_still, snb_with};
