//! What a command answers, and texts on their channels.

ghost use Rattle.std.specs.Prelude.{◌≡◌, ℕ, ◌-◌, ◌<◌, ◌≤◌, length, take, OnOk, OnErr};
ghost use Rattle.std.specs.Option.{option_map};
ghost use Rattle.std.specs.Result.{is_err};
ghost use Rattle.snb_base.specs.Outbox.{Rooms, Written as Bytes, appended, joined, room_of, with_room};
ghost use Rattle.snb_base.specs.Shelf.{HasCounted};
ghost use Rattle.snb_tool_texts.specs.Answers.{bytes_in};
ghost use Rattle.snb_tool_outcome.specs.Output.{Fit, IsWrittenSoFar, on_screen};
ghost use Rattle.snb_tool_outcome.specs.Endings.{bytes_of};

use snb_base::{Channel, Outbox, Put};
use std::alloc::Global;

/// The texts that a call writes.
pub struct Output {
    pub log: Vec<u8>,
    pub answers: Vec<Vec<u8>>,
    pub finals: Vec<u8>,
    pub cases: Vec<u8>,
    pub screen: Vec<u8>,
}

impl Drop for Output {
    fn drop(self) {
        let Output {
            log: _,
            answers: _,
            finals: _,
            cases: _,
            screen: _,
        } = self;
    }
}

/// What a command that is done answers: its texts, and its status.
pub struct Finished {
    pub output: Output,
    pub status: u8,
}

impl Drop for Finished {
    fn drop(self) {
        let Finished {
            output: _,
            status: _,
        } = self;
    }
}

impl Finished {
    /// A text on the screen alone, with this status.
    pub fn shown(alloc: Global, screen: Vec<u8>, status: u8) -> Finished
        ensures status { result.status ≡ status }
        ensures texts { bytes_of result.output ≡ on_screen screen.items }
    {
        let output = Output {
            log: Vec::new(alloc),
            answers: Vec::new(alloc),
            finals: Vec::new(alloc),
            cases: Vec::new(alloc),
            screen,
        };
        Finished { output, status }
    }
}

/// The outbox failed.
#[derive(Clone, Copy)]
pub struct WriteFault;

// Writes all of the bytes on the channel, or a prefix of them where the outbox fails.
fn write_all<O: Outbox>(out: &mut O, channel: Channel, bytes: &[u8]) -> Result<(), WriteFault>
    ensures ok { OnOk result (O.written out.new ≡ option_map (λ w. appended w channel bytes.now) (O.written out.old)) }
    ensures err { OnErr result
        ((n : ℕ) × (n < length bytes.now)
        × (O.written out.new ≡ option_map (λ w. appended w channel (take n bytes.now)) (O.written out.old))) }
    ensures counted { HasCounted (is_err result) (O.faults out.old) (O.faults out.new) }
    ensures sure { (rooms : Rooms) → O.ready out.old rooms → length bytes.now ≤ room_of rooms channel → OnErr result ⊥ }
    ensures left { OnOk result ((rooms : Rooms) → O.ready out.old rooms → length bytes.now ≤ room_of rooms channel
        → O.ready out.new (with_room rooms channel (room_of rooms channel - length bytes.now))) }
{
    let mut done = 0;
    while done < bytes.len() {
        match out.write(channel, &bytes[done..]) {
            Put::Took { count } => done += count,
            Put::Failed => return Err(WriteFault),
        }
    }
    Ok(())
}

// Writes all of the pieces on the channel, one after another, or a prefix of them where the outbox fails.
fn write_each<O: Outbox>(
    out: &mut O,
    channel: Channel,
    pieces: &[Vec<u8>],
) -> Result<(), WriteFault>
    ensures ok { OnOk result
        (O.written out.new ≡ option_map (λ w. appended w channel (bytes_in pieces.now)) (O.written out.old)) }
    ensures err { OnErr result
        ((n : ℕ) × (n < length (bytes_in pieces.now))
        × (O.written out.new ≡ option_map (λ w. appended w channel (take n (bytes_in pieces.now)))
        (O.written out.old))) }
    ensures counted { HasCounted (is_err result) (O.faults out.old) (O.faults out.new) }
    ensures sure { (rooms : Rooms) → O.ready out.old rooms → length (bytes_in pieces.now) ≤ room_of rooms channel
        → OnErr result ⊥ }
    ensures left { OnOk result
        ((rooms : Rooms) → O.ready out.old rooms → length (bytes_in pieces.now) ≤ room_of rooms channel
        → O.ready out.new (with_room rooms channel (room_of rooms channel - length (bytes_in pieces.now)))) }
{
    for piece in pieces {
        if let Err(fault) = write_all(out, channel, piece) {
            return Err(fault);
        }
    }
    Ok(())
}

/// Writes the log, the answers, the final text, the cases and the screen's text, in this order, until the
/// outbox fails.
pub fn deliver<O: Outbox>(out: &mut O, output: &Output) -> Result<(), WriteFault>
    ensures ok { OnOk result
        (O.written out.new ≡ option_map (λ w. joined w (bytes_of output.now)) (O.written out.old)) }
    ensures err { OnErr result
        ((part : Bytes) × IsWrittenSoFar part (bytes_of output.now)
        × (O.written out.new ≡ option_map (λ w. joined w part) (O.written out.old))) }
    ensures counted { HasCounted (is_err result) (O.faults out.old) (O.faults out.new) }
    ensures sure { (rooms : Rooms) → O.ready out.old rooms → Fit (bytes_of output.now) rooms → OnErr result ⊥ }
{
    if let Err(fault) = write_all(out, Channel::Log, &output.log) {
        return Err(fault);
    }
    if let Err(fault) = write_each(out, Channel::Answers, &output.answers) {
        return Err(fault);
    }
    if let Err(fault) = write_all(out, Channel::Final, &output.finals) {
        return Err(fault);
    }
    if let Err(fault) = write_all(out, Channel::Cases, &output.cases) {
        return Err(fault);
    }
    write_all(out, Channel::Screen, &output.screen)
}

/// Writes a text on the screen alone.
pub fn show<O: Outbox>(out: &mut O, text: &[u8]) -> Result<(), WriteFault>
    ensures ok { OnOk result (O.written out.new ≡ option_map (λ w. joined w (on_screen text.now)) (O.written out.old)) }
    ensures err { OnErr result
        ((part : Bytes) × IsWrittenSoFar part (on_screen text.now)
        × (O.written out.new ≡ option_map (λ w. joined w part) (O.written out.old))) }
    ensures counted { HasCounted (is_err result) (O.faults out.old) (O.faults out.new) }
    ensures sure { (rooms : Rooms) → O.ready out.old rooms → Fit (on_screen text.now) rooms → OnErr result ⊥ }
{
    write_all(out, Channel::Screen, text)
}
