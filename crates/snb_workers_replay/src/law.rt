//! Laws of replay. The function only cites laws of histories, graphs and inserts; its contract is the law.

ghost use Rattle.snb_workers_replay.specs.Laws.{CompleteIsFinal, HistoriesAgree, PrefixesAreSound, WelcomeInOrder, WelcomeInTurn};
ghost use Rattle.snb_workers_replay.specs.Waiting.{RunsWait};

use snb_graph_model::{graphs_are_their_rows, new_rows_are_gained};
use snb_history::{completion_waits, once_each, prefix_is_legal};
use snb_inserts::inserts_are_kept;

/// In a legal history of a plan whose updates are closed over a base, each insert finds all that it refers to
/// in the graph that has the base and the inserts that have finished before it, and its keys are new there
/// (`welcome`). After a complete one the graph has the rows of each insert, whatever the history (`last`);
/// so two complete ones leave one graph (`one`). Where the base is a sound graph, there is a graph after
/// each prefix of a legal history, and it is sound (`sound`).
pub fn replay_is_welcome()
    ensures welcome { WelcomeInTurn }
    ensures last { CompleteIsFinal }
    ensures one { HistoriesAgree }
    ensures sound { PrefixesAreSound }
{
    once_each();
    prefix_is_legal();
    graphs_are_their_rows();
    new_rows_are_gained();
    inserts_are_kept();
}

/// In the order of the numbers of a plan whose updates are closed over a base, which is the merged order of
/// its streams, each insert finds all that it refers to in the graph that has the base and the inserts of
/// smaller number, and its keys are new there.
pub fn order_is_welcome()
    ensures { WelcomeInOrder }
{}

/// In a legal history of a plan of streams no insert that waits starts before every insert of a person or a
/// forum has finished whose t is at most its t_d, and at no time has the completion time come to the t of an
/// insert of a person or a forum that hasn't finished: the dependency rule and the watermark of Erling et
/// al., SIGMOD 2015.
pub fn runs_wait()
    ensures { RunsWait }
{
    completion_waits();
}
