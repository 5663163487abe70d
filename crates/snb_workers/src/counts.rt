//! How many rows the reads of a run gave.

ghost use Rattle.std.specs.Prelude.{◌≡◌, ◌<◌, List, IfOk, length};
ghost use Rattle.snb_answered.specs.declared.done.Answered.{Answered as AnyAnswered};
ghost use Rattle.snb_replica.specs.Counts.{AreCountsOf, logged_by};
ghost use Rattle.snb_replica.specs.Replicas.{IfFinish};

use snb_answered::Done;
use snb_history::{Event, Logged};
use std::alloc::{AllocError, Global};
use std::marker::Model;

/// How many rows the first answer of the reply to each operation of a plan has, and 0 where there is no
/// reply. A contract sees the numbers by operation.
pub struct Counts {
    rows: Vec<u32>,
}

impl Drop for Counts {
    fn drop(self) {
        let Counts { rows: _ } = self;
    }
}

impl Model for Counts {
    ghost use Rattle.std.specs.Prelude.{ℕ, List};

    ghost Value = { List ℕ };

    ghost view = { λ v. v.rows.items };
}

impl Counts {
    /// The numbers of a plan of so many operations, by the replies to its reads.
    pub fn of(alloc: Global, operations: usize, replies: &Done) -> Result<Counts, AllocError>
        ensures many { IfOk result (λ counts. length counts ≡ operations) }
        ensures each { IfOk result (AreCountsOf replies.now) }
    {
        let items = replies.as_slice();
        let mut rows = vec![in alloc; 0; operations]?;
        let mut place = items.len();
        // From the last to the first, so that the first reply to an operation counts.
        while place > 0 {
            place -= 1;
            let op = items[place].op as usize;
            if op < rows.len() {
                rows[op] = items[place].rows;
            }
        }
        Ok(Counts { rows })
    }

    /// What a log tells of an event, where these are the numbers of some replies. Takes no memory.
    /// The condition: where the event is a Finish, there is a number of its operation.
    pub fn logged(&self, event: &Event) -> Logged
        requires there { IfFinish event.now (λ op. op < length self.now) }
        ensures { (replies : List AnyAnswered) → AreCountsOf replies self.now → result ≡ logged_by replies event.now }
    {
        let rows = match *event {
            Event::Finish { op, .. } => Some(self.rows[op as usize]),
            _ => None,
        };
        Logged {
            event: *event,
            rows,
        }
    }
}
