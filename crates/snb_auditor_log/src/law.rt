//! Laws of what a log is refused for, of what it says and of the verdict on it, over every log.

ghost use Rattle.snb_auditor_log.specs.Laws.{AcceptedInOrder, AuditVerdictIsOne, LogSaysOne, OneLogRefusal, RefusedOrNot, SaidLogIsClean, WholeExactly};

use crate::file_sink::log_is_lawful;
use snb_auditor::{accepted_exactly, verdict_is_one};
use snb_miscount::one_count;
use snb_runlog::log_is_exact;

/// Something is wrong with a log in one first way, or nothing is, and it says one header and one list of
/// events with their counts.
pub fn one_log_refusal()
    ensures one { OneLogRefusal }
    ensures or_not { RefusedOrNot }
    ensures says { LogSaysOne }
{
    log_is_lawful();
}

/// Nothing is wrong with a log that says a header and a list of events, where it has no more bytes than are read.
pub fn said_log_is_clean()
    ensures { SaidLogIsClean }
{
    log_is_exact();
}

/// A log has one verdict at most, by a plan of streams whose updates are closed over a sound graph.
pub fn audit_verdict_is_one()
    ensures { AuditVerdictIsOne }
{
    verdict_is_one();
    one_count();
}

/// The status of a verdict on a log is 0 exactly where the history is legal and complete, at least 95 of 100
/// operations are on time, no count is wrong, and the number of operations, where the log states it, is the
/// plan's.
pub fn accepted_in_order()
    ensures { AcceptedInOrder }
{
    accepted_exactly();
    verdict_is_one();
}

/// The verdict on a log is that the run is accepted or late exactly where the history is legal and complete, no
/// count is wrong, and the number of operations, where the log states it, is the plan's.
pub fn whole_exactly()
    ensures { WholeExactly }
{
    verdict_is_one();
}
