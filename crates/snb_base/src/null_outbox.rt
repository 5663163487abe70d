//! An outbox that keeps nothing.

use crate::outbox::{Channel, Outbox, Put};

/// Takes everything, tells nothing, and never fails.
#[derive(Clone, Copy)]
pub struct NullOutbox;

impl Outbox for NullOutbox {
    ghost use Rattle.std.specs.Prelude.{◌≡◌, ◌<◌, length, None};
    ghost use Rattle.snb_base.specs.Outbox.{IsWriting};

    ghost written = { λ _. None };

    ghost faults = { λ _. 0 };

    ghost ready = { λ _ _. Unit {0} };

    /// Takes the whole piece.
    fn write(&mut self, _channel: Channel, piece: &[u8]) -> Put
        requires { 0 < length piece.now }
        ensures took { IsWriting _channel piece.now None None result }
        ensures whole { result ≡ Put.Took (length piece.now) }
    {
        Put::Took { count: piece.len() }
    }
}
