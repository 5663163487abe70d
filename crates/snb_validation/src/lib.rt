//! Replies as JSON.
#![tactic(auto)]

mod law;
mod reply;
mod written;

pub use law::text_tells_reply;
pub use reply::{reply_text, reply_value};
