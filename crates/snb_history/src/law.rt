//! Laws of histories, over every schedule and every history.

ghost use Rattle.snb_history.specs.Laws.{BreaksOne, CompletionDecides, CompletionRises, CompletionWaits, FitsOrBreaks, HandIsOwn, HandIsTheirs, NeverStuck, OnceEach, StartStays};
ghost use Rattle.snb_history.specs.ScheduleLaws.{LegalIsShort, PlannedIsTimely, PrefixIsLegal};

/// The completion time is below the t of each unfinished dependency.
pub fn completion_waits()
    ensures { CompletionWaits }
{}

/// The completion time never falls: that of the events so far is at most that of these and any that follow.
pub fn completion_rises()
    ensures { CompletionRises }
{}

/// The completion time decides when a dependent may start: the dependencies whose t is at most its t_d are
/// all finished exactly where its t_d is at most the completion time.
pub fn completion_decides()
    ensures { CompletionDecides }
{}

/// No state is stuck: where nobody has an operation in hand, nobody has halted and not all is started, there
/// is an unstarted operation, due no later than any other, that any worker may start once it is due.
pub fn never_stuck()
    ensures { NeverStuck }
{}

/// A plan is never stuck where each dependent needs only what lies before it.
pub fn planned_is_timely()
    ensures { PlannedIsTimely }
{}

/// An event fits, or there is a first rule that it breaks.
pub fn fits_or_breaks()
    ensures { FitsOrBreaks }
{}

/// No event breaks two rules as the first one, nor one with two values.
pub fn breaks_one()
    ensures { BreaksOne }
{}

/// Each operation starts at most once and finishes at most once.
pub fn once_each()
    ensures { OnceEach }
{}

/// A worker's own events tell what it has in hand and whether it has halted.
pub fn hand_is_own()
    ensures { HandIsOwn }
{}

/// A Start keeps its number when events follow.
pub fn start_stays()
    ensures { StartStays }
{}

/// A worker has in hand what it has started and what isn't finished.
pub fn hand_is_theirs()
    ensures { HandIsTheirs }
{}

/// A legal history has at most two events for each operation and one for each worker.
pub fn legal_is_short()
    ensures { LegalIsShort }
{}

/// What comes before in a legal history is legal.
pub fn prefix_is_legal()
    ensures { PrefixIsLegal }
{}
