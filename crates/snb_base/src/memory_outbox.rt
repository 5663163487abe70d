//! An outbox in memory.

ghost use Rattle.std.specs.Prelude.{◌≡◌, ℕ, ◌-◌, ◌^◌, ◌<◌, ◌≤◌, ◌↔◌, ◌⊎◌, ◌∷◌, ◌++◌, [], length, take, min, Some, IsTrue, IfOk, OnOk, OnErr};
ghost use Rattle.snb_base.specs.MemoryShelf.{is_listed};
ghost use Rattle.snb_base.specs.MemoryOutbox.{IsReady, equal_rooms, room_left, answer_of, after_write};
ghost use Rattle.snb_base.specs.Outbox.{IsSure, IsWriting, Rooms, nothing, appended, bytes_on, write_failed, room_of, with_room};
ghost use Rattle.snb_base.specs.Shelf.{HasCounted};

use crate::calls::is_on;
use crate::outbox::{Channel, Outbox, Put};
use std::alloc::{AllocError, Global};
use std::marker::Model;

// The bytes of one channel, in memory that was taken for all its room.
struct Sheet {
    bytes: Vec<u8>,
    room: usize,
}

impl Drop for Sheet {
    fn drop(self) {
        let Sheet { bytes: _, room: _ } = self;
    }
}

impl Model for Sheet {
    ghost use Rattle.std.specs.Prelude.{ℕ, List, ◌≤◌, vec_len};
    ghost use Rattle.std.specs.Vec.{vec_capacity};

    ghost Value = { List ℕ × ℕ };

    ghost view = { λ s. (s.bytes.items, s.room) };

    ghost invariant = { λ s. (vec_len s.bytes ≤ s.room) × (s.room ≤ vec_capacity s.bytes) };
}

impl Sheet {
    fn new(alloc: Global, room: usize) -> Result<Sheet, AllocError>
        ensures { IfOk result (λ s. s ≡ ([], room)) }
    {
        Ok(Sheet {
            bytes: Vec::with_capacity(alloc, room)?,
            room,
        })
    }

    // Appends what there is room for, and says how much that is. Takes no memory.
    fn append(&mut self, piece: &[u8]) -> usize
        ensures count { result ≡ min (length piece.now) (self.old.1 - length self.old.0) }
        ensures appended { self.new ≡ (self.old.0 ++ take result piece.now, self.old.1) }
    {
        let count = piece.len().min(self.room - self.bytes.len());
        match self.bytes.extend_from_slice(&piece[..count]) {
            Ok(()) => count,
            Err(_) => unreachable!(),
        }
    }

    fn limit(&mut self, room: usize)
        requires lowers { room ≤ self.old.1 }
        requires holds { length self.old.0 ≤ room }
        ensures { self.new ≡ (self.old.0, room) }
    {
        self.room = room;
    }

    fn bytes(&self) -> &[u8]
        ensures { result.now ≡ self.now.0 }
    {
        self.bytes.as_slice()
    }
}

/// An outbox in memory, which tells its bytes and fails at the listed calls and at a full channel
/// alone.
///
/// A contract sees its bytes and rooms, its list of failing calls, and its counts of calls and of
/// faults.
pub struct MemoryOutbox {
    screen: Sheet,
    log: Sheet,
    answers: Sheet,
    finals: Sheet,
    cases: Sheet,
    failing: Vec<u64>,
    calls: u64,
    faults: u64,
}

impl Drop for MemoryOutbox {
    fn drop(self) {
        let MemoryOutbox {
            screen: _,
            log: _,
            answers: _,
            finals: _,
            cases: _,
            failing: _,
            calls: _,
            faults: _,
        } = self;
    }
}

impl Model for MemoryOutbox {
    ghost use Rattle.std.specs.Prelude.{◌≤◌};
    ghost use Rattle.snb_base.specs.MemoryOutbox.{Sheets};

    ghost Value = { Sheets };

    ghost view = { λ s. record {
      written = record {
        screen = s.screen.0;
        log = s.log.0;
        answers = s.answers.0;
        finals = s.finals.0;
        cases = s.cases.0;
      };
      rooms = record {
        screen = s.screen.1;
        log = s.log.1;
        answers = s.answers.1;
        finals = s.finals.1;
        cases = s.cases.1;
      };
      failing = s.failing.items;
      calls = s.calls;
      faults = s.faults;
    } };

    ghost invariant = { λ s. s.faults ≤ s.calls };
}

impl MemoryOutbox {
    /// An empty outbox with so much room on each channel, for which it takes the memory here.
    pub fn new(alloc: Global, room: usize) -> Result<MemoryOutbox, AllocError>
        ensures { IfOk result (λ o. o ≡ record {
          written = nothing;
          rooms = equal_rooms room;
          failing = [];
          calls = 0;
          faults = 0;
        }) }
    {
        Ok(MemoryOutbox {
            screen: Sheet::new(alloc, room)?,
            log: Sheet::new(alloc, room)?,
            answers: Sheet::new(alloc, room)?,
            finals: Sheet::new(alloc, room)?,
            cases: Sheet::new(alloc, room)?,
            failing: Vec::new(alloc),
            calls: 0,
            faults: 0,
        })
    }

    /// Lets the call of `write` with this number fail, where calls are numbered from 0. Want of memory
    /// leaves the outbox as it was.
    pub fn fail_at(&mut self, call: u64) -> Result<(), AllocError>
        ensures ok { OnOk result (self.new ≡ record self.old { failing = self.old.failing ++ call ∷ [] }) }
        ensures err { OnErr result (self.new ≡ self.old) }
    {
        self.failing.push(call)?;
        Ok(())
    }

    /// Lowers the room of one channel: the new room is no greater than the old one, and no less than
    /// the bytes that the channel holds. Takes no memory.
    pub fn limit(&mut self, channel: Channel, room: usize)
        requires lowers { room ≤ room_of self.old.rooms channel }
        requires holds { length (bytes_on self.old.written channel) ≤ room }
        ensures { self.new ≡ record self.old { rooms = with_room self.old.rooms channel room } }
    {
        match channel {
            Channel::Screen => self.screen.limit(room),
            Channel::Log => self.log.limit(room),
            Channel::Answers => self.answers.limit(room),
            Channel::Final => self.finals.limit(room),
            Channel::Cases => self.cases.limit(room),
        }
    }

    /// The bytes on the channel.
    pub fn bytes(&self, channel: Channel) -> &[u8]
        ensures { result.now ≡ bytes_on self.now.written channel }
    {
        match channel {
            Channel::Screen => self.screen.bytes(),
            Channel::Log => self.log.bytes(),
            Channel::Answers => self.answers.bytes(),
            Channel::Final => self.finals.bytes(),
            Channel::Cases => self.cases.bytes(),
        }
    }

    // Appends what there is room for on the channel, and says how much that is. Takes no memory.
    fn append(&mut self, channel: Channel, piece: &[u8]) -> usize
        ensures count { result ≡ min (length piece.now) (room_left self.old channel) }
        ensures appended { self.new ≡ record self.old {
          written = appended self.old.written channel (take result piece.now);
        } }
    {
        match channel {
            Channel::Screen => self.screen.append(piece),
            Channel::Log => self.log.append(piece),
            Channel::Answers => self.answers.append(piece),
            Channel::Final => self.finals.append(piece),
            Channel::Cases => self.cases.append(piece),
        }
    }
}

impl Outbox for MemoryOutbox {
    ghost written = { λ s. Some s.written };

    ghost faults = { λ s. s.faults };

    ghost ready = { IsReady };

    /// Writes as many bytes of the piece as there is room for. Takes no memory.
    fn write(&mut self, channel: Channel, piece: &[u8]) -> Put
        requires { 0 < length piece.now }
        ensures took { IsWriting channel piece.now (Some self.old.written) (Some self.new.written) result }
        ensures counted { HasCounted (write_failed result) self.old.faults self.new.faults }

        // It fails at the listed calls and at a full channel alone, and else writes all that it can.
        ensures listed { self.old.calls < 2 ^ 64 - 1 →
            ((result ≡ Put.Failed)
            ↔ (IsTrue (is_listed self.old.failing self.old.calls) ⊎ (room_left self.old channel ≡ 0))) }
        ensures full { result ≡ answer_of self.old channel (length piece.now) }
        ensures after { self.new ≡ after_write self.old channel piece.now }
    {
        let call = self.calls;
        self.calls = call.saturating_add(1);
        let stopped = call < u64::MAX && is_on(self.failing.as_slice(), call);
        let count = if stopped {
            0
        } else {
            self.append(channel, piece)
        };
        if count == 0 {
            self.faults = self.faults.saturating_add(1);
            return Put::Failed;
        }
        Put::Took { count }
    }
}
