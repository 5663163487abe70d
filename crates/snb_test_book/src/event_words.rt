//! What a history tells of a worker and an operation.

ghost use Rattle.std.specs.Prelude.{◌≡◌, ℕ, IsTrue, Some, slice_get};
ghost use Rattle.std.specs.List.{list_any};
ghost use Rattle.snb_history.specs.History.{finished, finishes, halted, halts};

use snb_history::Event;

// Whether the event halts the worker.
fn is_halt(event: &Event, worker: u32) -> bool
    ensures { result ≡ halts worker event.now }
{
    match event {
        Event::Halt { worker: other } => *other == worker,
        Event::Start { .. } | Event::Finish { .. } => false,
    }
}

/// Whether the worker has halted.
pub fn has_halted(events: &[Event], worker: u32) -> bool
    ensures { result ≡ halted events.now worker }
{
    events.iter().any(|event| is_halt(event, worker))
}

// Whether the event finishes the operation.
fn is_finish(event: &Event, op: u32) -> bool
    ensures { result ≡ finishes op event.now }
{
    match event {
        Event::Finish { op: other, .. } => *other == op,
        Event::Start { .. } | Event::Halt { .. } => false,
    }
}

/// Whether the operation is finished.
pub fn is_finished(events: &[Event], op: u32) -> bool
    ensures { result ≡ finished events.now op }
{
    events.iter().any(|event| is_finish(event, op))
}

/// Whether the worker starts the operation at this place of the history.
pub fn starts_at(events: &[Event], start: u32, op: u32, worker: u32) -> bool
    ensures { IsTrue result → (at : ℕ) × (slice_get events.now start ≡ Some (Event.Start op worker at)) }
{
    match events.get(start as usize) {
        Some(
            Event::Start {
                op: one,
                worker: other,
                at: _,
            },
        ) => *one == op && *other == worker,
        _ => false,
    }
}
