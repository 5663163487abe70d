//! What happens in a run: steps of a schedule, events, the rules by which one may follow others, completion
//! times, violations and the text of a log, with laws of all legal histories.
#![tactic(auto)]

mod event;
mod law;
mod logged;
mod schedule;
mod step;
mod worked;

pub use event::Event;
pub use law::{
    breaks_one, completion_decides, completion_rises, completion_waits, fits_or_breaks,
    hand_is_own, hand_is_theirs, legal_is_short, never_stuck, once_each, planned_is_timely,
    prefix_is_legal, start_stays,
};
pub use logged::{Header, Logged};
pub use schedule::Schedule;
pub use step::{LaneKind, Step};
pub use worked::{
    both_at_one_time, first_rule_first, held_keeps_the_time, tie_is_planned, tie_waits,
};
