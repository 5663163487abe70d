//! What the harness asks of the world outside it, as traits over bytes, faults and moments; small
//! owned lists and texts; and the spelling of numbers.
#![tactic(auto)]

mod bounds;
mod calls;
mod clock;
mod gate;
mod memory_outbox;
mod memory_shelf;
mod null_outbox;
mod number;
mod outbox;
mod owned_list;
mod pairs;
mod shelf;
mod steady_shelf;
mod text;
mod try_copy;

pub use bounds::{LAST_AT, LAST_ID, LAST_TIME, LAST_YEAR};
pub use clock::{Clock, FarClock, StepClock};
pub use gate::{Gate, OpenGate, Phase};
pub use memory_outbox::MemoryOutbox;
pub use memory_shelf::MemoryShelf;
pub use null_outbox::NullOutbox;
pub use number::{one_spelling, put_number, read_number};
pub use outbox::{Channel, Outbox, Put};
pub use owned_list::{Numbers, OwnedList, Texts, list_of};
pub use pairs::Pairs;
pub use shelf::{Got, Shelf};
pub use steady_shelf::SteadyShelf;
pub use text::Text;
pub use try_copy::TryCopy;
