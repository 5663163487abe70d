//! Where bytes are written.

ghost use Rattle.std.specs.Prelude.{ℕ, ◌<◌, ◌≤◌, length, Option};
ghost use Rattle.snb_base.specs.Outbox.{IsSure, IsWriting, Rooms, Written, write_failed, room_of};
ghost use Rattle.snb_base.specs.Shelf.{HasCounted};

/// What is written where.
#[derive(Clone, Copy, Debug, PartialEq, Eq)]
pub enum Channel {
    /// Standard output.
    Screen,
    /// The log of a run.
    Log,
    /// The replies of a run's reads.
    Answers,
    /// The final graph of a run.
    Final,
    /// Validation cases.
    Cases,
}

/// What a call of [`Outbox::write`] answers.
#[derive(Clone, Copy, Debug, PartialEq, Eq)]
pub enum Put {
    /// So many bytes of the piece were written, one at least.
    Took {
        /// How many bytes.
        count: usize,
    },
    /// The outside failed; the count of faults rose, and nothing was written.
    Failed,
}

/// Five channels of bytes that only grow.
///
/// Its meanings are the bytes of each channel, where it tells them, a count of faults that never
/// falls, and how many bytes more it takes for sure on each channel. An outbox that can take nothing
/// counts a fault.
pub trait Outbox {
    /// The bytes on each channel, where they are told.
    ghost written: { Self → Option Written };

    /// How many faults there have been.
    ghost faults: { Self → ℕ };

    /// It takes so many bytes more on each channel, and doesn't fail.
    ghost ready: { Self → Rooms → Type 0 };

    /// Appends a prefix of the piece to the channel, and nothing to another. The piece has one byte at
    /// least. The count of faults stays as it is where the answer isn't `Failed`.
    fn write(&mut self, channel: Channel, piece: &[u8]) -> Put
        requires { 0 < length piece.now }
        ensures took { IsWriting channel piece.now (written self.old) (written self.new) result }
        ensures counted { HasCounted (write_failed result) (faults self.old) (faults self.new) }
        ensures sure { (rooms : Rooms) → ready self.old rooms → length piece.now ≤ room_of rooms channel
            → IsSure result channel rooms (ready self.new) };
}
