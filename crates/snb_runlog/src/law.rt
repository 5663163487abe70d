//! Laws of the log, over every line and every text. The functions do nothing; their contracts are the
//! laws.

ghost use Rattle.std.specs.Prelude.{ℕ, List};
ghost use Rattle.snb_runlog.specs.Laws.{EventOrColumn, HeaderOrColumn, LogIsExact, LogIsOfOneHistory, LogReadsBack, OneEvent, OneHeader, OwnHeader, OwnLine, TextIsOfOneLog};
ghost use Rattle.snb_runlog.specs.WriteLaws.{FirstIsWrittenAgain, FirstLacksCounts, LastIsWrittenAgain, LogIsWrittenAgain, LogLimits, RunReadsBack, WhereCountsAre};

use snb_base::one_spelling;

/// A log is the text of one history alone, with one count of rows at each Finish (`last`); and, in whatever
/// version, of one header and one list of what its lines tell (`text`).
pub fn log_is_of_one_history()
    ensures last { LogIsOfOneHistory }
    ensures text { TextIsOfOneLog }
{}

/// The fields of a line spell one event at most, and are one header at most.
pub fn one_event()
    ensures event { OneEvent }
    ensures header { OneHeader }
{}

/// The fields of a line spell an event or have a bad column. Not both; and they have only one bad
/// column. So it is with the header.
pub fn event_or_column()
    ensures event { (version : ℕ) (fs : List (List ℕ)) → EventOrColumn version fs }
    ensures header { (fs : List (List ℕ)) → HeaderOrColumn fs }
{}

/// A line of a log says one thing at most, or has a bad column.
pub fn log_is_exact()
    ensures { LogIsExact }
{}

/// A log has counts of rows exactly at each Finish of version 2, and a count of operations exactly in
/// version 2.
pub fn counts_are_in_version_2()
    ensures { WhereCountsAre }
{}

/// The line that is written is one line, and tells what it was written of and nothing else. So it is with
/// the header.
pub fn own_line()
    ensures event { OwnLine }
    ensures header { OwnHeader }
{
    one_spelling();
}

/// The log that is written is read as it was, and in no other way, in either version (`back`), and so that
/// of a run (`run`). What a log says, whatever its text, is written as a log that says the same (`again`):
/// so writing what was read gives the canonical text, and doing so twice gives the same.
///
/// What is written again of a log of version 2 is what `write_log` writes (`last`), and of one of version 1
/// the log of version 1 of its workers and its history (`first`). A log of version 1 is one of version 2
/// without its counts, event by event: with whatever counts are added, the log of version 2 is read back
/// (`lacks`).
pub fn log_reads_back()
    ensures back { LogReadsBack }
    ensures run { RunReadsBack }
    ensures again { LogIsWrittenAgain }
    ensures last { LastIsWrittenAgain }
    ensures first { FirstIsWrittenAgain }
    ensures lacks { FirstLacksCounts }
{
    one_spelling();
}

/// There are two versions of a log, and a number in it is at most 4294967295, but for a moment.
pub fn log_limits()
    ensures { LogLimits }
{}
