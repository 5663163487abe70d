//! Complex reads of the latest messages of persons around one.

ghost use Rattle.std.specs.Prelude.{◌≡◌, ◌∷◌, ◌++◌, ℕ, Bool, List, [], IfOk, OnOk};
ghost use Rattle.std.specs.List.{All};
ghost use Rattle.snb_complex_messages.specs.Found.{HasOffered, IsLatest, IsSentFound, sent_by, sent_first};
ghost use Rattle.snb_read_model.specs.declared.sent.Sent.{Sent};
ghost use Rattle.snb_read_model.specs.MessageReads.{Ic2Answer, Ic9Answer, IsSent, newest_first};
ghost use Rattle.snb_read_model.specs.Order.{ReadAnswers, FirstRows};
ghost use Rattle.snb_graph_model.specs.Soundness.{Sound};

use snb_base::list_of;
use snb_graph::Graph;
use snb_graph_integrity::sound_graphs;
use snb_reach::within;
use snb_read_lookups::{known, shown, words};
use snb_read_model::{Answer, AnswerRow, Cell, CowText, Sent};
use snb_read_order::TopK;
use std::alloc::{AllocError, Global};
use std::cmp::Ordering;

// The row of a message.
fn sent_row<'a>(
    alloc: Global,
    graph: &'a Graph,
    sent: &Sent,
) -> Result<AnswerRow<CowText<'a>>, AllocError>
    requires { IsSentFound graph.now sent.now }
    ensures { IfOk result (IsSent graph.now sent.now) }
{
    graph.known();
    sound_graphs();
    let Some((_, content)) = shown(graph, sent.message) else {
        unreachable!()
    };
    let person = known(graph, sent.person);
    let cells = vec![in alloc;
        Cell::number(sent.person),
        words(&person.first_name),
        words(&person.last_name),
        Cell::number(sent.message),
        words(content),
        Cell::number(sent.date),
    ]?;
    Ok(AnswerRow::from_vec(alloc, cells))
}

// How two messages stand in the answers: the later first, and of one date the one of the lower id.
fn compare(a: &Sent, b: &Sent) -> Ordering
    ensures { result ≡ sent_first a.now b.now }
{
    b.date.cmp(&a.date).then(a.message.cmp(&b.message))
}

// Nothing yet, of which the latest twenty are wanted.
fn none_yet(alloc: Global) -> TopK<Sent>
    ensures { IsLatest [] result }
{
    TopK::new(alloc, 20)
}

// Offers a message.
fn offer(top: &mut TopK<Sent>, sent: Sent) -> Result<(), AllocError>
    ensures { OnOk result ((found : List Sent) → IsLatest found top.old → IsLatest (found ++ sent ∷ []) top.new) }
{
    top.offer(sent, |a, b| compare(a, b))?;
    Ok(())
}

// The rows of the latest twenty of the messages that were offered.
fn latest_sent(
    alloc: Global,
    graph: &Graph,
    top: TopK<Sent>,
) -> Result<Answer<CowText<'_>>, AllocError>
    requires { (found : List Sent) × IsLatest found top × All (IsSentFound graph.now) found }
    ensures { IfOk result (λ answer. (found : List Sent) → IsLatest found top → All (IsSentFound graph.now) found
        → ReadAnswers found (IsSent graph.now) newest_first (FirstRows 20) answer) }
{
    graph.known();
    sound_graphs();
    let first = top.into_first(|a, b| compare(a, b));
    list_of(alloc, first.as_slice(), |sent| sent_row(alloc, graph, sent))
}

// Offers a person's messages whose dates pass.
fn offer_messages<F: Fn(u64) -> bool>(
    graph: &Graph,
    person: u64,
    passes: F,
    top: &mut TopK<Sent>,
) -> Result<(), AllocError>
    requires { F.IsAlwaysCallable passes }
    ensures { OnOk result
        ((test : ℕ → Bool) → ((date : ℕ) (answer : Bool) → F.post passes date answer → answer ≡ test date)
        → HasOffered (sent_by graph.now test person) top.old top.new) }
{
    for (message, date) in graph.messages(person) {
        if passes(date) {
            offer(
                top,
                Sent {
                    person,
                    message,
                    date,
                },
            )?;
        }
    }
    Ok(())
}

/// Complex read 2: the twenty latest messages of a person's friends, of those up to `max_date`; of messages
/// of one date the one of the lower id first. A person who isn't held gives no rows.
/// The condition: the graph is sound.
pub fn ic2(
    alloc: Global,
    graph: &Graph,
    person: u64,
    max_date: u64,
) -> Result<Answer<CowText<'_>>, AllocError>
    requires sound { Sound graph.now }
    ensures { IfOk result (Ic2Answer graph.now person max_date) }
{
    graph.known();
    sound_graphs();
    let mut top = none_yet(alloc);
    for (friend, _) in graph.friends(person) {
        offer_messages(graph, friend, |date| date <= max_date, &mut top)?;
    }
    latest_sent(alloc, graph, top)
}

/// Complex read 9: the twenty latest messages of the persons at distance 1 or 2 from a person, of those before
/// `max_date`; of messages of one date the one of the lower id first. A person who isn't held gives no rows.
/// The condition: the graph is sound.
pub fn ic9(
    alloc: Global,
    graph: &Graph,
    person: u64,
    max_date: u64,
) -> Result<Answer<CowText<'_>>, AllocError>
    requires sound { Sound graph.now }
    ensures { IfOk result (Ic9Answer graph.now person max_date) }
{
    graph.known();
    sound_graphs();
    let near = within(alloc, graph, person, 2)?;
    let mut top = none_yet(alloc);
    for one in near.as_slice() {
        offer_messages(graph, one.0, |date| date < max_date, &mut top)?;
    }
    latest_sent(alloc, graph, top)
}
