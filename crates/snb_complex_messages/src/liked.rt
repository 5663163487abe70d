//! The complex read of the likes of a person's messages.

ghost use Rattle.std.specs.Prelude.{◌≡◌, ◌∷◌, ◌==◌, [], IfOk, OnOk, if◌then◌else◌, map, not};
ghost use Rattle.std.specs.List.{All, filter, list_any};
ghost use Rattle.std.specs.List.Sorted.{IsSorted};
ghost use Rattle.snb_complex_messages.specs.Found.{HasAppended, IsLikeFound, like_of, weigh};
ghost use Rattle.snb_graph_model.specs.Around.{likes};
ghost use Rattle.snb_read_model.specs.MessageReads.{Ic7Answer, IsLiked, beats, minutes};
ghost use Rattle.snb_read_model.specs.Order.{ReadAnswers, Falling, FirstRows, Rising};
ghost use Rattle.snb_read_lookups.specs.Lookups.{IsCellNumber};
ghost use Rattle.snb_graph_model.specs.Soundness.{Sound};

use snb_base::list_of;
use snb_graph::Graph;
use snb_graph_integrity::sound_graphs;
use snb_read_lookups::{are_friends, known, shown, words};
use snb_read_model::{Answer, AnswerRow, Cell, CowText, Like};
use snb_read_order::{first_of, in_order};
use std::alloc::{AllocError, Global};

// Whole minutes from a message to a like, rounded down, also below zero.
fn latency(liked: u64, sent: u64) -> i64
    requires liked { IsCellNumber liked }
    requires sent { IsCellNumber sent }
    ensures { result ≡ minutes liked sent }
{
    (liked as i64 - sent as i64).div_euclid(60000)
}

// The row of a like of a message of the start person.
fn like_row<'a>(
    alloc: Global,
    graph: &'a Graph,
    start: u64,
    like: &Like,
) -> Result<AnswerRow<CowText<'a>>, AllocError>
    requires { IsLikeFound graph.now like.now }
    ensures { IfOk result (IsLiked graph.now start like.now) }
{
    graph.known();
    sound_graphs();
    let Some((_, content)) = shown(graph, like.message) else {
        unreachable!()
    };
    let person = known(graph, like.person);
    let is_new = !are_friends(graph, start, like.person);
    let cells = vec![in alloc;
        Cell::number(like.person),
        words(&person.first_name),
        words(&person.last_name),
        Cell::number(like.date),
        Cell::number(like.message),
        words(content),
        Cell::Number {
            value: latency(like.date, like.sent),
        },
        Cell::Flag { value: is_new },
    ]?;
    Ok(AnswerRow::from_vec(alloc, cells))
}

// The rows of the latest twenty of the likes.
fn latest_likes(
    alloc: Global,
    graph: &Graph,
    start: u64,
    likes: Vec<Like>,
) -> Result<Answer<CowText<'_>>, AllocError>
    requires { All (IsLikeFound graph.now) likes.items }
    ensures { IfOk result
        (ReadAnswers likes.items (IsLiked graph.now start) (Falling 4 ∷ Rising 1 ∷ []) (FirstRows 20)) }
{
    graph.known();
    sound_graphs();
    let first = first_of(
        likes,
        20,
        |a, b| b.date.cmp(&a.date).then(a.person.cmp(&b.person)),
    );
    list_of(
        alloc,
        first.as_slice(),
        |like| like_row(alloc, graph, start, like),
    )
}

// Whether one like stands before another of the same person: a later one, or one of the same date and a
// lower message.
fn stands_before(one: &Like, other: &Like) -> bool
    ensures { result ≡ beats one.now other.now }
{
    one.person == other.person
        && (other.date < one.date || (other.date == one.date && one.message < other.message))
}

// Of two likes the first, where they are of one person.
fn head_of(head: Like, like: Like) -> Like
    ensures { result ≡ (if head.person == like.person then head else like) }
{
    if head.person == like.person {
        head
    } else {
        like
    }
}

// The likes before which no other of their person stands, of likes by person, then from the latest on,
// then by message: those that the first of their person doesn't stand before.
fn best_of(alloc: Global, likes: &[Like]) -> Result<Vec<Like>, AllocError>
    requires { IsSorted weigh likes.now }
    ensures { IfOk result (λ best. best.items ≡ filter (λ l. not (list_any (λ k. beats k l) likes.now)) likes.now) }
{
    let mut best = Vec::new(alloc);
    let Some(first) = likes.first() else {
        return Ok(best);
    };
    let mut head = *first;
    for like in likes {
        head = head_of(head, *like);
        if !stands_before(&head, like) {
            best.push(*like)?;
        }
    }
    Ok(best)
}

// Appends the likes of a message: (message, date).
fn add_likes(graph: &Graph, message: (u64, u64), found: &mut Vec<Like>) -> Result<(), AllocError>
    requires { Sound graph.now }
    ensures { OnOk result
        (HasAppended (map (like_of message) (likes graph.now message.0)) found.old.items found.new.items) }
{
    for (person, date) in graph.likes(message.0) {
        found.push(Like {
            person,
            date,
            message: message.0,
            sent: message.1,
        })?;
    }
    Ok(())
}

/// Complex read 7: for each person who likes a message of the person, the latest of these likes, and of likes
/// of one date that of the message of the lowest id; the twenty latest of them, of one date that of the
/// person of the lower id first. A person who isn't held gives no rows.
/// The condition: the graph is sound.
pub fn ic7(alloc: Global, graph: &Graph, person: u64) -> Result<Answer<CowText<'_>>, AllocError>
    requires sound { Sound graph.now }
    ensures { IfOk result (Ic7Answer graph.now person) }
{
    graph.known();
    sound_graphs();
    let mut found = Vec::new(alloc);
    for message in graph.messages(person) {
        add_likes(graph, message, &mut found)?;
    }
    let ordered = in_order(found, |a, b| {
        a.person
            .cmp(&b.person)
            .then(b.date.cmp(&a.date).then(a.message.cmp(&b.message)))
    });
    let best = best_of(alloc, &ordered)?;
    latest_likes(alloc, graph, person, best)
}
