//! A law of the counts in a log. The function only cites laws of histories, graphs and replies; its contract is the
//! law.

ghost use Rattle.snb_miscount.specs.Laws.{OneCount};

use snb_graph_model::graphs_are_their_rows;
use snb_read_laws::one_reply;
use snb_workers_replay::replay_is_welcome;

/// In a legal history of a plan whose updates are closed over a sound base, a Finish has one count.
pub fn one_count()
    ensures { OneCount }
{
    one_reply();
    graphs_are_their_rows();
    replay_is_welcome();
}
