//! The short reads of a person.

ghost use Rattle.std.specs.Prelude.{◌≡◌, ◌∷◌, [], IfOk, Contains};
ghost use Rattle.snb_schema.specs.declared.row.Row.TheVariants as row;
ghost use Rattle.snb_read_model.specs.ShortReads.{Is1Answer, Is2Answer, Is3Answer, IsFriend, IsProfile, IsRecent};
ghost use Rattle.snb_read_lookups.specs.Found.{IsFriendFound, IsMessageFound};
ghost use Rattle.snb_graph_model.specs.Soundness.{Sound};

use crate::roots::root;
use snb_base::list_of;
use snb_graph::Graph;
use snb_graph_integrity::sound_graphs;
use snb_read_lookups::{author_id, city, collected, known, shown, words};
use snb_read_model::{Answer, AnswerRow, Cell, CowText};
use snb_read_order::{first_of, in_order};
use snb_schema::Person;
use std::alloc::{AllocError, Global};

// The answer of one row.
pub(crate) fn only<'a>(
    alloc: Global,
    row: AnswerRow<CowText<'a>>,
) -> Result<Answer<CowText<'a>>, AllocError>
    ensures { IfOk result (λ answer. answer ≡ row.entry ∷ []) }
{
    let mut answer = Answer::new(alloc);
    answer.push(row)?;
    Ok(answer)
}

// The row of a person.
fn profile<'a>(
    alloc: Global,
    graph: &Graph,
    person: &'a Person,
) -> Result<AnswerRow<CowText<'a>>, AllocError>
    requires sound { Sound graph.now }
    requires held { Contains graph.now (row.Person person.now) }
    ensures { IfOk result (IsProfile graph.now person.now) }
{
    graph.known();
    sound_graphs();
    let cells = vec![in alloc;
        words(&person.first_name),
        words(&person.last_name),
        Cell::number(person.birthday),
        words(&person.location_ip),
        words(&person.browser_used),
        Cell::number(city(graph, person.id)),
        words(&person.gender),
        Cell::number(person.creation_date),
    ]?;
    Ok(AnswerRow::from_vec(alloc, cells))
}

/// Short read 1: the person. One who isn't held gives no rows.
/// The condition: the graph is sound.
pub fn is1(alloc: Global, graph: &Graph, person: u64) -> Result<Answer<CowText<'_>>, AllocError>
    requires sound { Sound graph.now }
    ensures { IfOk result (Is1Answer graph.now person) }
{
    graph.known();
    let Some(found) = graph.person(person) else {
        return Ok(Answer::new(alloc));
    };
    only(alloc, profile(alloc, graph, found)?)
}

// The row of a message.
fn recent(
    alloc: Global,
    graph: &Graph,
    message: (u64, u64),
) -> Result<AnswerRow<CowText<'_>>, AllocError>
    requires sound { Sound graph.now }
    requires found { IsMessageFound graph.now message }
    ensures { IfOk result (IsRecent graph.now message) }
{
    graph.known();
    sound_graphs();
    let Some((_, content)) = shown(graph, message.0) else {
        unreachable!()
    };
    let post = root(graph, message.0);
    let author = known(graph, author_id(graph, post));
    let cells = vec![in alloc;
        Cell::number(message.0),
        words(content),
        Cell::number(message.1),
        Cell::number(post),
        Cell::number(author.id),
        words(&author.first_name),
        words(&author.last_name),
    ]?;
    Ok(AnswerRow::from_vec(alloc, cells))
}

/// Short read 2: the ten latest messages of a person, each with the post at its root and that post's
/// author; of messages of one date the one of the greater id first. A person who isn't held gives no
/// rows.
/// The condition: the graph is sound.
pub fn is2(alloc: Global, graph: &Graph, person: u64) -> Result<Answer<CowText<'_>>, AllocError>
    requires sound { Sound graph.now }
    ensures { IfOk result (Is2Answer graph.now person) }
{
    graph.known();
    sound_graphs();
    let found = collected(alloc, graph.messages(person))?;
    let latest = first_of(found, 10, |a, b| b.1.cmp(&a.1).then(b.0.cmp(&a.0)));
    list_of(
        alloc,
        latest.as_slice(),
        |message| recent(alloc, graph, *message),
    )
}

// The row of a friend.
fn friend_row(
    alloc: Global,
    graph: &Graph,
    friend: (u64, u64),
) -> Result<AnswerRow<CowText<'_>>, AllocError>
    requires { IsFriendFound graph.now friend }
    ensures { IfOk result (IsFriend graph.now friend) }
{
    let person = known(graph, friend.0);
    let cells = vec![in alloc;
        Cell::number(friend.0),
        words(&person.first_name),
        words(&person.last_name),
        Cell::number(friend.1),
    ]?;
    Ok(AnswerRow::from_vec(alloc, cells))
}

/// Short read 3: the friends of a person, from the latest friendship on; of friendships of one date the
/// friend of the lower id first. A person who isn't held gives no rows.
/// The condition: the graph is sound.
pub fn is3(alloc: Global, graph: &Graph, person: u64) -> Result<Answer<CowText<'_>>, AllocError>
    requires sound { Sound graph.now }
    ensures { IfOk result (Is3Answer graph.now person) }
{
    graph.known();
    sound_graphs();
    let found = collected(alloc, graph.friends(person))?;
    let ordered = in_order(found, |a, b| b.1.cmp(&a.1).then(a.0.cmp(&b.0)));
    list_of(
        alloc,
        ordered.as_slice(),
        |friend| friend_row(alloc, graph, *friend),
    )
}
