//! Laws of runs and of the counts that their logs tell. The functions only cite laws of histories, graphs and
//! replies; their contracts are the laws.

ghost use Rattle.snb_workers.specs.Laws.{CountsOfARun, FinishesAreOfOperations, OneEntry, OneMoment};

use snb_history::once_each;
use snb_read_laws::one_reply;

/// In a legal history of a plan, the operation of each Finish is one of the plan.
pub fn finishes_are_of_operations()
    ensures { FinishesAreOfOperations }
{}

/// Where a clock can answer one moment alone, each Start and Finish of a run is at it, or at MAX_AT where it is later.
pub fn one_moment()
    ensures { OneMoment }
{}

/// What the log of a run tells by the replies to its reads is its history, each Finish with its count.
pub fn counts_of_a_run()
    ensures { CountsOfARun }
{
    once_each();
}

/// On a sound graph, how many rows are kept of a reply and its text are those of the reply to the query.
pub fn one_entry()
    ensures { OneEntry }
{
    one_reply();
}
