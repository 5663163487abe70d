//! Laws of what the program answers. The functions only cite other laws; their contracts are the laws.

ghost use Rattle.snb_tool.specs.Laws.{AnswersHaveStatus, RefusalIsOne, RefusedOrNot};
ghost use Rattle.snb_tool.specs.LineLaws.{LinesAreOperations};
ghost use Rattle.snb_tool.specs.CaseLaws.{ExpectInShort, ExpectedIsValid, ValidateInShort, ViaTableIsTheSame};
ghost use Rattle.snb_tool.specs.Shorts.{AuditInShort, LatencyInShort, RunInShort};
ghost use Rattle.snb_tool.specs.WholeLaws.{RunIsWhole};

use snb_auditor_log::{accepted_in_order, one_log_refusal, said_log_is_clean, whole_exactly};
use snb_loader::{one_dataset, one_lanes, one_params};
use snb_plan::plan_is_one;
use snb_tool_words::one_command;
use snb_validation_check::one_cases_refusal;
use snb_validation_expect::expected_cases_are_right;
use snb_workers::counts_of_a_run;

/// What a command finds is refused for one thing at most, and then something is wrong with it.
pub fn refusal_is_one()
    ensures one { RefusalIsOne }
    ensures or_not { RefusedOrNot }
{
    one_dataset();
    one_lanes();
    one_params();
    plan_is_one();
    one_log_refusal();
    one_cases_refusal();
}

/// A status to which texts belong is 0, 1, 2 or 3.
pub fn answers_have_status()
    ensures { AnswersHaveStatus }
{}

/// Where the files and the channels are told, status 0 of `run` says: there is a legal, complete history of
/// the plan of the files, whose text was added to the log, in which no insert that waits starts before every
/// insert of a person or a forum has finished whose t is at most its t_d, and at no time the completion time
/// comes to the t of one that hasn't finished; the text has the count of rows at each Finish, and is read as
/// that history with these counts and in no other way; the replies to its reads, each on the graph of its
/// front, whose text was added to the answers; and the graph with each row of the dataset and of each insert
/// once, whose text was added to the final text.
pub fn run_in_short()
    ensures { RunInShort }
{
    one_command();
    counts_of_a_run();
}

/// Where the files and the screen are told, status 0 or 1 of `audit` says: the log of this name says one
/// header and one list of events with their counts, and the status is 0 exactly if the history is legal and
/// complete on the plan of the files, at least 95 of 100 operations are on time, no count that is stated is
/// wrong, and the number of operations, where it is stated, is the plan's.
pub fn audit_in_short()
    ensures { AuditInShort }
{
    one_command();
    accepted_in_order();
}

/// Where the files and the screen are told, status 0 or 1 of `latency` says: the log of this name says one header
/// and one list of events with their counts; the status is 0 exactly if the history is legal and complete on the
/// plan of the files, no count that is stated is wrong, and the number of operations, where it is stated, is the
/// plan's; and with status 0 the text of the summary of the history was added to the screen.
pub fn latency_in_short()
    ensures { LatencyInShort }
{
    one_command();
    whole_exactly();
}

/// Where the files and the screen are told, status 0 or 1 of `validate` says: the file of this name says some
/// cases, and the status is 0 exactly if each reply that they have is the one on the graph of the tables with
/// the inserts before it.
pub fn validate_in_short()
    ensures { ValidateInShort }
{
    one_command();
    one_cases_refusal();
}

/// Where the files and the channels are told, status 0 of `expect` says: the cases of the plan of the files
/// over their dataset were added to the cases, each insert, and each query with its reply on the dataset with
/// the inserts of smaller number; each is read from its line.
pub fn expect_in_short()
    ensures { ExpectInShort }
{
    one_command();
}

/// `validate` answers 0 to what `expect` wrote: where the files are told, the text that status 0 of `expect`
/// adds to the cases has at most `MAX_BYTES` bytes, and stands in a file while the folder's files are what they
/// were, then nothing is wrong with what `validate` of the folder and that file finds, and what it answers has
/// status 0. So by the contract of `snb`, where nothing fails and memory suffices, `validate` ends with 0.
pub fn expected_is_valid()
    ensures { ExpectedIsValid }
{
    one_command();
    refusal_is_one();
    one_dataset();
    one_cases_refusal();
    expected_cases_are_right();
}

/// A validation by a table in which each kind of read has a handler answers, where the files are told, what one by
/// the graph's own reads answers over the same files: the same status, and the same texts.
pub fn via_table_is_the_same()
    ensures { ViaTableIsTheSame }
{
    one_command();
    refusal_is_one();
    one_dataset();
    one_cases_refusal();
}

/// `audit` and `latency` find what `run` wrote a whole run: where the files are told, and the text that status 0 of
/// `run` adds to the log stands in a file while the folder's files are what they were, then nothing is wrong with what
/// either finds of the folder and that file under the same ratio and frequencies; what `audit` answers shows the
/// verdict that the run is accepted or late, and what `latency` answers has status 0.
/// So by the contract of `snb_with`, where nothing fails and memory suffices, they end so.
pub fn run_is_whole()
    ensures { RunIsWhole }
{
    one_command();
    refusal_is_one();
    one_dataset();
    one_lanes();
    one_params();
    plan_is_one();
    one_log_refusal();
    said_log_is_clean();
    whole_exactly();
    counts_of_a_run();
}

/// Each line of the streams is one operation of the plan of the files, no two lines are the same operation, and each
/// operation is that of a line, or a read that the frequencies ask.
pub fn lines_are_operations()
    ensures { LinesAreOperations }
{}
