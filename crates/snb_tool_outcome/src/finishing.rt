//! The end of a command: what it answers is delivered, and gives the status.

ghost use Rattle.std.specs.Prelude.{◌≡◌, ◌≤◌, ◌⊎◌, ◌≢◌};
ghost use Rattle.snb_schema.specs.ScreenTexts.{refusal_text};
ghost use Rattle.snb_tool_outcome.specs.Endings.{Delivers, Finishes, bytes_of};
ghost use Rattle.snb_tool_outcome.specs.Output.{on_screen};

use crate::delivery::{Finished, Output, deliver, show};
use snb_base::Outbox;
use snb_input_files::Load;
use snb_schema::Refusal;
use snb_tool_texts::refusal_line;
use std::alloc::Global;

/// Shows a text on the screen, and gives the status, or 5 where the outbox fails.
pub fn show_as<O: Outbox>(out: &mut O, text: &[u8], status: u8) -> u8
    ensures shown { Delivers O.Outbox out.old out.new status (on_screen text.now) result }
    ensures later { O.faults out.old ≤ O.faults out.new }
    ensures calm { result ≢ 5 → O.faults out.new ≡ O.faults out.old }
{
    match show(out, text) {
        Ok(()) => status,
        Err(_) => 5,
    }
}

// Shows what is wrong with an input, and gives the status: 3, or 5 where the outbox fails, or 6 for
// want of memory.
fn refuse<O: Outbox>(alloc: Global, out: &mut O, refusal: Refusal) -> u8
    ensures shown { Delivers O.Outbox out.old out.new 3 (on_screen (refusal_text refusal)) result
        ⊎ ((result ≡ 6) × (O.written out.new ≡ O.written out.old)) }
    ensures later { O.faults out.old ≤ O.faults out.new }
    ensures calm { result ≢ 5 → O.faults out.new ≡ O.faults out.old }
{
    match refusal_line(alloc, refusal) {
        Ok(line) => show_as(out, &line, 3),
        Err(_) => 6,
    }
}

// Writes the texts of a command that is done, and gives its status, or 5 where the outbox fails.
fn deliver_as<O: Outbox>(out: &mut O, output: &Output, status: u8) -> u8
    ensures written { Delivers O.Outbox out.old out.new status (bytes_of output.now) result }
    ensures later { O.faults out.old ≤ O.faults out.new }
    ensures calm { result ≢ 5 → O.faults out.new ≡ O.faults out.old }
{
    match deliver(out, output) {
        Ok(()) => status,
        Err(_) => 5,
    }
}

/// Writes the texts of a command that is done, and gives its status; or shows what is wrong with its input,
/// and gives 3. Where the outbox fails, the status is 5; where a read failed, 4; and for want of memory, 6.
pub fn finish<O: Outbox>(alloc: Global, out: &mut O, answer: Result<Finished, Load>) -> u8
    ensures finished { Finishes O.Outbox out.old out.new answer result }
    ensures later { O.faults out.old ≤ O.faults out.new }
    ensures calm { result ≢ 5 → O.faults out.new ≡ O.faults out.old }
{
    match answer {
        Ok(finished) => deliver_as(out, &finished.output, finished.status),
        Err(Load::Refused { refusal }) => refuse(alloc, out, refusal),
        Err(Load::ReadFault) => 4,
        Err(Load::Memory) => 6,
    }
}
