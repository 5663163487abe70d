//! What a read looks up: each of these is the only one in a sound graph.

ghost use Rattle.std.specs.Prelude.{◌≡◌, ◌∷◌, [], IfOk, MatchOption};
ghost use Rattle.snb_schema.specs.declared.table.Kind.TheVariants as kinds;
ghost use Rattle.snb_schema.specs.RowKeys.{node_key};
ghost use Rattle.snb_graph_links.specs.Pairs.{rest};
ghost use Rattle.snb_read_model.specs.declared.cell.Cell.TheVariants.{Words};
ghost use Rattle.snb_graph_model.specs.Around.{containers, is_friend, with_id};
ghost use Rattle.snb_graph_model.specs.RowParts.{or_else};
ghost use Rattle.snb_read_model.specs.Distance.{IsPerson};
ghost use Rattle.snb_read_lookups.specs.Lookups.{IsOnlyAuthor, IsOnlyCity, IsOnlyForum, IsOnlyMessage, IsOnlyModerator, IsOnlyPerson};
ghost use Rattle.snb_graph_model.specs.Graphs.{HasKey};
ghost use Rattle.snb_graph_model.specs.Messages.{HasMessage};
ghost use Rattle.snb_graph_model.specs.Soundness.{Sound};

use snb_base::Text;
use snb_graph::{Graph, Links};
use snb_graph_integrity::sound_graphs;
use snb_read_model::{Cell, CowText};
use snb_schema::{Forum, Held, Key, Person, Post, Table};
use std::alloc::{AllocError, Global};

/// The cell of a text, which lends it. Takes no memory.
pub fn words(text: &Text) -> Cell<CowText<'_>>
    ensures { result ≡ Words text.now }
{
    Cell::Words {
        text: CowText::lent(text),
    }
}

/// The pairs of a walk, in its order.
pub fn collected(alloc: Global, links: Links<'_>) -> Result<Vec<(u64, u64)>, AllocError>
    ensures { IfOk result (λ pairs. pairs.items ≡ rest links.entry) }
{
    let mut pairs = Vec::new(alloc);
    for pair in links {
        pairs.push(pair)?;
    }
    Ok(pairs)
}

/// The person of this id. Takes no memory.
/// The condition: the person is held.
pub fn known(graph: &Graph, id: u64) -> &Person
    requires held { IsPerson graph.now id }
    ensures { IsOnlyPerson graph.now id result.now }
{
    graph.known();
    sound_graphs();
    match graph.person(id) {
        Some(person) => person,
        None => unreachable!(),
    }
}

// What a post shows: its content, or its image where it has none.
fn post_content(post: &Post) -> &Text
    ensures { result.now ≡ or_else post.now.content post.now.image_file }
{
    if post.content.as_str().is_empty() {
        &post.image_file
    } else {
        &post.content
    }
}

/// The date of a message and what it shows: the content of a comment, and of a post its content or, where
/// it has none, its image. Takes no memory.
pub fn shown(graph: &Graph, id: u64) -> Option<(u64, &Text)>
    ensures { MatchOption result (with_id graph.now id ≡ []) (λ m. IsOnlyMessage graph.now id m.0 m.1.now) }
{
    graph.known();
    sound_graphs();
    if let Some(post) = graph.post(id) {
        return Some((post.creation_date, post_content(post)));
    }
    match graph.comment(id) {
        Some(comment) => Some((comment.creation_date, &comment.content)),
        None => None,
    }
}

/// The id of the person who created a message. Takes no memory.
/// The conditions: the graph is sound, and the message is held.
pub fn author_id(graph: &Graph, message: u64) -> u64
    requires sound { Sound graph.now }
    requires held { HasMessage graph.now message }
    ensures { IsOnlyAuthor graph.now message result }
{
    graph.known();
    sound_graphs();
    if let Some(person) = graph.one(Table::PostHasCreatorPerson, message) {
        return person;
    }
    match graph.one(Table::CommentHasCreatorPerson, message) {
        Some(creator) => creator,
        None => unreachable!(),
    }
}

/// The id of the city where a person lives. Takes no memory.
/// The conditions: the graph is sound, and the person is held.
pub fn city(graph: &Graph, person: u64) -> u64
    requires sound { Sound graph.now }
    requires held { IsPerson graph.now person }
    ensures { IsOnlyCity graph.now person result }
{
    graph.known();
    sound_graphs();
    match graph.one(Table::PersonIsLocatedInPlace, person) {
        Some(city) => city,
        None => unreachable!(),
    }
}

// The id of the forum that has a post.
fn forum_id(graph: &Graph, post: u64) -> u64
    requires sound { Sound graph.now }
    requires held { HasKey graph.now (node_key kinds.Post post) }
    ensures inside { containers graph.now post ≡ result ∷ [] }
    ensures held { HasKey graph.now (node_key kinds.Forum result) }
{
    graph.known();
    sound_graphs();
    match graph.one(Table::ForumContainerOfPost, post) {
        Some(forum) => forum,
        None => unreachable!(),
    }
}

/// The forum that has a post. Takes no memory.
/// The conditions: the graph is sound, and the post is held.
pub fn forum(graph: &Graph, post: u64) -> &Forum
    requires sound { Sound graph.now }
    requires held { HasKey graph.now (node_key kinds.Post post) }
    ensures { IsOnlyForum graph.now post result.now }
{
    graph.known();
    sound_graphs();
    match graph.forum(forum_id(graph, post)) {
        Some(forum) => forum,
        None => unreachable!(),
    }
}

/// The id of the moderator of a forum. Takes no memory.
/// The conditions: the graph is sound, and the forum is held.
pub fn moderator(graph: &Graph, forum: u64) -> u64
    requires sound { Sound graph.now }
    requires held { HasKey graph.now (node_key kinds.Forum forum) }
    ensures { IsOnlyModerator graph.now forum result }
{
    graph.known();
    sound_graphs();
    match graph.one(Table::ForumHasModeratorPerson, forum) {
        Some(person) => person,
        None => unreachable!(),
    }
}

/// Whether two persons are friends: nobody is their own. Takes no memory.
pub fn are_friends(graph: &Graph, one: u64, other: u64) -> bool
    ensures { result ≡ is_friend graph.now one other }
{
    graph.known();
    graph.has(&Key::Knows {
        low: one.min(other),
        high: one.max(other),
    })
}
