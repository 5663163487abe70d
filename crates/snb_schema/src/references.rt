//! What an insert takes, adds and refers to.

ghost use Rattle.std.specs.Prelude.{◌≡◌, ◌∷◌, [], length, map};
ghost use Rattle.std.specs.Iterator.{at_most};
ghost use Rattle.std.specs.Map.Iter.{TakesFirst};
ghost use Rattle.snb_schema.specs.declared.key.Key.TheVariants as key;
ghost use Rattle.snb_schema.specs.declared.table.Kind.TheVariants as kinds;
ghost use Rattle.snb_schema.specs.Inserts.{keys_of, listed, message_keys};
ghost use Rattle.snb_schema.specs.References.{added_node, parent_ref, ref, refs_of};

use crate::key::Key;
use crate::op::{Op, Parent};
use crate::refusal::Missing;
use crate::table::Kind;
use std::marker::Model;

/// The keys that an insert takes: one, or two for a message.
#[derive(Clone, Copy)]
pub struct Keys {
    pub one: Key,
    pub other: Option<Key>,
}

// The one key of a node.
fn node_key(kind: Kind, id: u64) -> Keys
    ensures { listed result ≡ key.Node kind id ∷ [] }
{
    one_key(Key::Node { kind, id })
}

// One key alone.
fn one_key(one: Key) -> Keys
    ensures { listed result ≡ one ∷ [] }
{
    Keys { one, other: None }
}

// The keys of a message id, which posts and comments share.
fn message_keys(id: u64) -> Keys
    ensures { listed result ≡ message_keys id }
{
    Keys {
        one: Key::Node {
            kind: Kind::Post,
            id,
        },
        other: Some(Key::Node {
            kind: Kind::Comment,
            id,
        }),
    }
}

/// The keys that an insert takes: that of its node or of its edge, and for a post or a comment that of
/// either with its id.
pub fn keys_of(op: &Op) -> Keys
    ensures { listed result ≡ keys_of op.now }
{
    match op {
        Op::AddPerson { person_id, .. } => node_key(Kind::Person, *person_id),
        Op::LikePost {
            person_id,
            post_id,
            ..
        } => one_key(Key::LikesPost {
            person: *person_id,
            post: *post_id,
        }),
        Op::LikeComment {
            person_id,
            comment_id,
            ..
        } => one_key(Key::LikesComment {
            person: *person_id,
            comment: *comment_id,
        }),
        Op::AddForum { forum_id, .. } => node_key(Kind::Forum, *forum_id),
        Op::AddMember {
            person_id,
            forum_id,
            ..
        } => one_key(Key::Member {
            forum: *forum_id,
            person: *person_id,
        }),
        Op::AddPost { post_id, .. } => message_keys(*post_id),
        Op::AddComment { comment_id, .. } => message_keys(*comment_id),
        Op::AddFriend {
            person1_id,
            person2_id,
            ..
        } => one_key(Key::Knows {
            low: (*person1_id).min(*person2_id),
            high: (*person1_id).max(*person2_id),
        }),
    }
}

/// The node that an insert adds, if it adds one.
pub fn added_node(op: &Op) -> Option<Missing>
    ensures { result ≡ added_node op.now }
{
    let (kind, id) = match op {
        Op::AddPerson { person_id, .. } => (Kind::Person, *person_id),
        Op::AddForum { forum_id, .. } => (Kind::Forum, *forum_id),
        Op::AddPost { post_id, .. } => (Kind::Post, *post_id),
        Op::AddComment { comment_id, .. } => (Kind::Comment, *comment_id),
        _ => return None,
    };
    Some(Missing { kind, id })
}

/// The nodes that an insert refers to and that a walk has still to give, in the order of its fields: up
/// to three nodes, then tags, then the organisations of studies and of works. A contract sees the list.
pub struct Refs<'a> {
    first: Option<Missing>,
    second: Option<Missing>,
    third: Option<Missing>,
    tags: &'a [u64],
    study: &'a [(u64, u32)],
    work: &'a [(u64, u32)],
}

impl Drop for Refs<'_> {
    fn drop(self) {
        let Refs {
            first: _,
            second: _,
            third: _,
            tags: _,
            study: _,
            work: _,
        } = self;
    }
}

impl<'a> Model for Refs<'a> {
    ghost use Rattle.std.specs.Prelude.{◌++◌, List, map};
    ghost use Rattle.std.specs.List.{cons_option};
    ghost use Rattle.snb_schema.specs.declared.refusal.Missing.{Missing};
    ghost use Rattle.snb_schema.specs.declared.table.Kind.TheVariants as kinds;
    ghost use Rattle.snb_schema.specs.References.{ref, organisation_refs};

    ghost Value = { List Missing };

    ghost view = { λ r. cons_option r.first (cons_option r.second (cons_option r.third
        (map (ref kinds.Tag) r.tags.now ++ organisation_refs r.study.now ++ organisation_refs r.work.now))) };
}

// The node of a kind that has this id.
fn node(kind: Kind, id: u64) -> Missing
    ensures { result ≡ ref kind id }
{
    Missing { kind, id }
}

// The message that a comment replies to.
fn parent_node(parent: Parent) -> Missing
    ensures { result ≡ parent_ref parent }
{
    match parent {
        Parent::Post { id } => node(Kind::Post, id),
        Parent::Comment { id } => node(Kind::Comment, id),
    }
}

impl<'a> Refs<'a> {
    // Two nodes.
    fn two(first: Missing, second: Missing) -> Refs<'a>
        ensures { result ≡ first ∷ second ∷ [] }
    {
        Refs {
            first: Some(first),
            second: Some(second),
            third: None,
            tags: &[],
            study: &[],
            work: &[],
        }
    }

    // One node, and tags.
    fn one_and_tags(first: Missing, tags: &'a [u64]) -> Refs<'a>
        ensures { result ≡ first ∷ map (ref kinds.Tag) tags.entry.now }
    {
        Refs {
            first: Some(first),
            second: None,
            third: None,
            tags,
            study: &[],
            work: &[],
        }
    }

    // Three nodes, and tags.
    fn three_and_tags(first: Missing, second: Missing, third: Missing, tags: &'a [u64]) -> Refs<'a>
        ensures { result ≡ first ∷ second ∷ third ∷ map (ref kinds.Tag) tags.entry.now }
    {
        Refs {
            first: Some(first),
            second: Some(second),
            third: Some(third),
            tags,
            study: &[],
            work: &[],
        }
    }
}

impl<'a> Iterator for Refs<'a> {
    type Item = Missing;

    ghost next_gives = { TakesFirst (λ node. node) };

    ghost remaining = { λ s. at_most (length s) };

    fn next(&mut self) -> Option<Missing> {
        if let Some(first) = self.first {
            self.first = None;
            return Some(first);
        }
        if let Some(second) = self.second {
            self.second = None;
            return Some(second);
        }
        if let Some(third) = self.third {
            self.third = None;
            return Some(third);
        }
        if let Some((tag, rest)) = self.tags.split_first() {
            self.tags = rest;
            return Some(node(Kind::Tag, *tag));
        }
        if let Some((stay, rest)) = self.study.split_first() {
            self.study = rest;
            return Some(node(Kind::Organisation, stay.0));
        }
        if let Some((stay, rest)) = self.work.split_first() {
            self.work = rest;
            return Some(node(Kind::Organisation, stay.0));
        }
        None
    }
}

/// The nodes that an insert refers to, in the order of its fields. Takes no memory.
pub fn refs_of(op: &Op) -> Refs<'_>
    ensures { result ≡ refs_of op.now }
{
    match op {
        Op::AddPerson {
            city_id,
            tag_ids,
            study_at,
            work_at,
            ..
        } => Refs {
            first: Some(node(Kind::Place, *city_id)),
            second: None,
            third: None,
            tags: tag_ids.as_slice(),
            study: study_at.as_slice(),
            work: work_at.as_slice(),
        },
        Op::LikePost {
            person_id,
            post_id,
            ..
        } => Refs::two(node(Kind::Person, *person_id), node(Kind::Post, *post_id)),
        Op::LikeComment {
            person_id,
            comment_id,
            ..
        } => Refs::two(
            node(Kind::Person, *person_id),
            node(Kind::Comment, *comment_id),
        ),
        Op::AddForum {
            moderator_id,
            tag_ids,
            ..
        } => Refs::one_and_tags(node(Kind::Person, *moderator_id), tag_ids.as_slice()),
        Op::AddMember {
            person_id,
            forum_id,
            ..
        } => Refs::two(node(Kind::Person, *person_id), node(Kind::Forum, *forum_id)),
        Op::AddPost {
            author_id,
            forum_id,
            country_id,
            tag_ids,
            ..
        } => Refs::three_and_tags(
            node(Kind::Person, *author_id),
            node(Kind::Forum, *forum_id),
            node(Kind::Place, *country_id),
            tag_ids.as_slice(),
        ),
        Op::AddComment {
            author_id,
            country_id,
            parent,
            tag_ids,
            ..
        } => Refs::three_and_tags(
            node(Kind::Person, *author_id),
            node(Kind::Place, *country_id),
            parent_node(*parent),
            tag_ids.as_slice(),
        ),
        Op::AddFriend {
            person1_id,
            person2_id,
            ..
        } => Refs::two(
            node(Kind::Person, *person1_id),
            node(Kind::Person, *person2_id),
        ),
    }
}
