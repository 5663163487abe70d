//! What a run of a plan leaves.

ghost use Rattle.std.specs.Prelude.{◌≡◌};

use snb_answered::Done;
use snb_base::OwnedList;
use snb_graph::Graph;
use snb_history::Event;

/// Events, in the order in which they happened.
pub type Events = OwnedList<Event>;

/// What a run leaves: its events, the replies to its reads, and its final graph.
pub struct Outcome {
    pub events: Events,
    pub replies: Done,
    pub graph: Graph,
}

impl Drop for Outcome {
    fn drop(self) {
        let Outcome {
            events: _,
            replies: _,
            graph: _,
        } = self;
    }
}

impl Outcome {
    /// Its events, the replies to its reads, and its final graph, each for itself. Takes no memory.
    pub fn into_parts(self) -> (Events, Done, Graph)
        ensures events { result.0 ≡ self.events }
        ensures replies { result.1 ≡ self.replies }
        ensures graph { result.2 ≡ self.graph }
    {
        let Outcome {
            events,
            replies,
            graph,
        } = self;
        (events, replies, graph)
    }
}
