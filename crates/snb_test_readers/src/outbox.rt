//! The call of the outbox that keeps nothing.

use snb_base::{Channel, NullOutbox, Outbox, Put};
use snb_test_script::{Flaw, List, put_plain};
use std::alloc::{AllocError, Global};

// What writing the piece to the channel answers.
fn told_put(alloc: Global, channel: Channel, piece: &[u8]) -> Result<String, AllocError> {
    if piece.is_empty() {
        return String::from_str(alloc, "nothing to write");
    }
    match NullOutbox.write(channel, piece) {
        Put::Took { count } => format!(in alloc; "took {count}"),
        Put::Failed => String::from_str(alloc, "failed"),
    }
}

/// `null_outbox TEXT`
pub(crate) fn null_outbox(alloc: Global, rest: &str) -> Result<String, Flaw> {
    let mut piece = Vec::new(alloc);
    let _ = put_plain(rest, &mut piece)?;
    let mut list = List::new(alloc);
    for channel in [
        Channel::Screen,
        Channel::Log,
        Channel::Answers,
        Channel::Final,
        Channel::Cases,
    ] {
        let put = told_put(alloc, channel, piece.as_slice())?;
        list.add(put.as_str())?;
    }
    list.told(alloc)
}
