//! What a claim answers.

/// An operation that a worker has in hand.
#[derive(Clone, Copy)]
pub struct Ticket {
    /// The number of the operation.
    pub op: u32,
    /// The number of the worker.
    pub worker: u32,
    /// The number of the operation's Start in the history.
    pub start: u32,
}

/// The answer to a claim by a worker at a moment: the first of these that applies.
///
/// A head is the first unstarted operation of a lane. Moments are in milliseconds since the clock
/// of the run was made.
#[derive(Clone, Copy)]
pub enum Claim {
    /// Somebody has halted.
    Halted,
    /// Every operation is started.
    AllStarted,
    /// The worker itself has `op` in hand, and is `holder`; or every due head waits for an
    /// unfinished one before it in its forum lane, the first of them is `op`, and `holder` has in
    /// hand what it waits for.
    Busy {
        op: u32,
        holder: u32,
    },
    /// No head is due, and `until` is the least moment at which one is.
    NotDue {
        until: u64,
    },
    /// The worker has the ticket's operation in hand from now on: the first of the due heads that
    /// may start, by due time and then by lane.
    Go {
        ticket: Ticket,
    },
    /// The due head `op` waits for dependencies by the dependency rule of Erling et al., SIGMOD
    /// 2015: it needs all of a date and time up to `needs`, and all up to `completion`, which is
    /// smaller, are finished, both in milliseconds since 1970-01-01 UTC.
    Blocked {
        op: u32,
        needs: u64,
        completion: i64,
    },
}
