//! Replicas of the graph.

ghost use Rattle.std.specs.Prelude.{◌≡◌, ℕ, ◌<◌, ◌≤◌, ◌^◌, ◌∷◌, [], List, length, IfOk, MatchOption, None, OnOk, OnErr, Some};
ghost use Rattle.snb_history.specs.declared.event.Event.{Event as AnyEvent};
ghost use Rattle.snb_schema.specs.declared.row.Row.{Row};
ghost use Rattle.snb_graph_model.specs.Soundness.{Sound};
ghost use Rattle.snb_book.specs.Kept.{IsInHand};
ghost use Rattle.snb_inserts.specs.Applying.{HasLine};
ghost use Rattle.snb_plan.specs.Plans.{IsOfStreams};
ghost use Rattle.snb_workers_replay.specs.Replay.{finished_insert};
ghost use Rattle.snb_read_model.specs.Replies.{IsReply};
ghost use Rattle.snb_replica.specs.Counts.{first_rows};
ghost use Rattle.snb_replica.specs.Replicas.{HasTaken, HasTakenSome, IfFinish, MayTake};
ghost use Rattle.snb_replica.specs.ReplyTexts.{IsReplied};

use snb_board::Seat;
use snb_book::Ticket;
use snb_graph::Graph;
use snb_history::{Event, legal_is_short, prefix_is_legal};
use snb_inserts::apply_welcome;
use snb_plan::{Plan, Task};
use snb_read_model::{Answer, CowText, Reply};
use snb_replies::Replies;
use snb_schema::{Line, Query};
use snb_validation::reply_text;
use snb_workers_replay::replay_is_welcome;
use std::alloc::{AllocError, Global};
use std::marker::Model;

/// A graph that follows the history of a run, from the dataset on: each insert's rows are in it from the
/// insert's Finish on. A contract sees its graph, which is sound, and how many events it has taken.
pub struct Replica {
    graph: Graph,
    front: u32,
}

impl Drop for Replica {
    fn drop(self) {
        let Replica { graph: _, front: _ } = self;
    }
}

impl Model for Replica {
    ghost use Rattle.snb_graph_model.specs.Soundness.{Sound};
    ghost use Rattle.snb_replica.specs.Replicas.{Taken};

    ghost Value = { Taken };

    ghost view = { λ r. record { graph = r.graph; front = r.front } };

    ghost invariant = { λ r. Sound r.graph };
}

/// A reply as it is kept: how many rows its first answer has, and its compact JSON text.
pub struct ReplyText {
    pub rows: u32,
    pub text: Vec<u8>,
}

impl Drop for ReplyText {
    fn drop(self) {
        let ReplyText { rows: _, text: _ } = self;
    }
}

impl ReplyText {
    /// The number and the text, each for itself. Takes no memory.
    pub fn into_parts(self) -> (u32, Vec<u8>)
        ensures rows { result.0 ≡ self.rows }
        ensures text { result.1 ≡ self.text }
    {
        let ReplyText { rows, text } = self;
        (rows, text)
    }
}

/// How many rows an answer has. Takes no memory; 2^32 rows or more count as want of it.
pub fn count_rows(answer: &Answer<CowText<'_>>) -> Result<u32, AllocError>
    ensures ok { IfOk result (λ rows. rows ≡ length answer.now) }
    ensures err { OnErr result (2 ^ 32 ≤ length answer.now) }
{
    u32::try_from(answer.as_slice().len()).map_err(|_| AllocError)
}

/// How many rows the first answer of a reply has. Takes no memory; 2^32 rows or more count as want of it.
pub fn count_first_rows(reply: &Reply<CowText<'_>>) -> Result<u32, AllocError>
    ensures ok { IfOk result (λ rows. rows ≡ first_rows reply.now) }
    ensures err { OnErr result (2 ^ 32 ≤ first_rows reply.now) }
{
    match reply.as_slice() {
        [] => Ok(0),
        [first, ..] => count_rows(first),
    }
}

// The insert that an event finishes, if it finishes one. The operation of a Finish is in the plan.
fn finished_line<'a>(plan: &'a Plan, event: &Event) -> Option<&'a Line>
    requires streams { IsOfStreams plan.now }
    requires there { IfFinish event.now (λ op. op < length plan.now.operations) }
    ensures { MatchOption result (finished_insert plan.now event.now ≡ None)
        (λ line. (finished_insert plan.now event.now ≡ Some line.now.op) × HasLine line.now.op) }
{
    match *event {
        Event::Finish { op, .. } => match plan.task(op) {
            Task::Insert { line } => Some(line),
            Task::Ask { .. } => None,
        },
        _ => None,
    }
}

impl Replica {
    /// A replica of the base, which is sound (`sound`), before the first event.
    pub fn new(base: &Graph) -> Result<Replica, AllocError>
        requires sound { Sound base.now }
        ensures { IfOk result (λ r. r ≡ record { graph = base.now; front = 0 }) }
    {
        Ok(Replica {
            graph: base.try_copy()?,
            front: 0,
        })
    }

    /// How many events it has taken. Takes no memory.
    pub fn front(&self) -> u32
        ensures { result ≡ self.now.front }
    {
        self.front
    }

    /// Its graph, which is sound. Takes no memory.
    pub fn graph(&self) -> &Graph
        ensures value { result.now ≡ self.now.graph }
        ensures sound { Sound result.now }
    {
        &self.graph
    }

    /// Its graph, which is sound. Takes no memory.
    pub fn into_graph(self) -> Graph
        ensures value { result ≡ self.graph }
        ensures sound { Sound result }
    {
        let Replica { graph, front: _ } = self;
        graph
    }

    // Takes one event.
    fn take(&mut self, alloc: Global, plan: &Plan, event: &Event) -> Result<(), AllocError>
        requires streams { IsOfStreams plan.now }
        requires may { (base : List Row) × (g : List AnyEvent) × MayTake plan.now (event.now ∷ []) self.old base g }
        ensures ok { OnOk result (HasTaken plan.now (event.now ∷ []) self.old self.new) }
        ensures err { OnErr result (self.new ≡ self.old) }
    {
        replay_is_welcome();
        legal_is_short();
        plan.schedule().steps();
        if let Some(line) = finished_line(plan, event) {
            apply_welcome(alloc, &mut self.graph, &line.op)?;
        }
        self.front += 1;
        Ok(())
    }

    /// Takes more events of a history of the plan: the rows of each insert that finishes go into the
    /// graph.
    ///
    /// The condition: the replica stands for some history of the plan over some base over which the plan
    /// is closed, and with these events it is legal. For each such base and history it then stands for the
    /// history with these events, and after an error with some of the first of them.
    pub fn advance(
        &mut self,
        alloc: Global,
        plan: &Plan,
        events: &[Event],
    ) -> Result<(), AllocError>
        requires may { (base : List Row) × (g : List AnyEvent) × MayTake plan.now events.now self.old base g }
        ensures ok { OnOk result (HasTaken plan.now events.now self.old self.new) }
        ensures err { OnErr result (HasTakenSome plan.now events.now self.old self.new) }
    {
        plan.known();
        prefix_is_legal();
        for event in events {
            self.take(alloc, plan, event)?;
        }
        Ok(())
    }

    /// The reply to a query on its graph, by what answers reads, which is ready.
    pub fn answer_via<A: Replies>(
        &self,
        alloc: Global,
        answers: &A,
        query: &Query,
    ) -> Result<Reply<CowText<'_>>, AllocError>
        requires ready { A.ready answers.now }
        ensures { IfOk result (IsReply self.now.graph query.now) }
    {
        answers.reply_to(alloc, &self.graph, query)
    }

    /// How many rows the first answer of the reply to a query on its graph has, and the reply's compact JSON
    /// text, in no more memory than its length. An answer of 2^32 rows or more counts as want of memory.
    ///
    /// The conditions: `begun`, the ticket's operation is in the hand of the seat's worker, so that nobody answers
    /// a read before its Start; `ready`, what answers reads is ready.
    pub fn answer_text<A: Replies>(
        &self,
        alloc: Global,
        answers: &A,
        query: &Query,
        _seat: &Seat,
        _ticket: Ticket,
    ) -> Result<ReplyText, AllocError>
        requires ready { A.ready answers.now }
        requires begun { IsInHand _seat.now.seen _ticket }
        ensures { IfOk result (λ r. IsReplied self.now.graph query.now r.rows r.text.items) }
    {
        let reply = self.answer_via(alloc, answers, query)?;
        let rows = count_first_rows(&reply)?;
        // Most replies are of some thousand bytes.
        let mut text = Vec::with_capacity(alloc, 4096)?;
        reply_text(&reply, &mut text)?;
        text.shrink_to_fit();
        Ok(ReplyText { rows, text })
    }
}
