//! The links of a graph, for each walk in a map of its own.

ghost use Rattle.std.specs.Prelude.{◌≡◌, Some, IfOk, OnOk, OnErr};
ghost use Rattle.snb_graph_links.specs.Pairs.{ArePairsOf, rest};
ghost use Rattle.snb_graph_adjacency.specs.Kept.{at, AreOwn, HasFrozenLink, HasGainedLink, HasGainedSome, HasLink, HasLostLink, HasLostLinkDelta, HasLostSome, HasLinkDelta, IsFresh, IsIndexed, IsNewLink, IsOwnLink, SameFrozen, SameLinks};
ghost use Rattle.snb_graph_adjacency.specs.declared.link.Link.{Link};

use crate::link::{Link, LinkDelta, Walk};
use crate::whole::{edges, friends, messages, replies};
use snb_graph_links::{AdjacencyMap, Links};
use snb_graph_tables::Tables;
use snb_schema::Table;
use std::alloc::{AllocError, Global};

/// The links of a graph.
pub struct Indexes {
    friends: AdjacencyMap,
    messages: AdjacencyMap,
    replies: AdjacencyMap,
    post_likes: AdjacencyMap,
    comment_likes: AdjacencyMap,
    work: AdjacencyMap,
    study: AdjacencyMap,
}

impl Drop for Indexes {
    fn drop(self) {
        let Indexes {
            friends: _,
            messages: _,
            replies: _,
            post_likes: _,
            comment_likes: _,
            work: _,
            study: _,
        } = self;
    }
}

impl Indexes {
    /// No links. Takes no memory.
    pub fn empty(alloc: Global) -> Indexes
        ensures none { (l : Link) → ¬ HasLink result l }
        ensures frozen { (l : Link) → ¬ HasFrozenLink result l }
    {
        Indexes {
            friends: AdjacencyMap::empty(alloc),
            messages: AdjacencyMap::empty(alloc),
            replies: AdjacencyMap::empty(alloc),
            post_likes: AdjacencyMap::empty(alloc),
            comment_likes: AdjacencyMap::empty(alloc),
            work: AdjacencyMap::empty(alloc),
            study: AdjacencyMap::empty(alloc),
        }
    }

    /// The links of all rows, frozen, in the time of a sort. An error says that memory doesn't suffice.
    pub fn of(alloc: Global, tables: &Tables) -> Result<Indexes, AllocError>
        ensures { IfOk result (IsIndexed tables.now.rows) }
    {
        tables.known();
        Ok(Indexes {
            friends: friends(alloc, tables)?,
            messages: messages(alloc, tables)?,
            replies: replies(alloc, tables)?,
            post_likes: edges(alloc, tables, Table::PersonLikesPost, true)?,
            comment_likes: edges(alloc, tables, Table::PersonLikesComment, true)?,
            work: edges(alloc, tables, Table::PersonWorkAtOrganisation, false)?,
            study: edges(alloc, tables, Table::PersonStudyAtOrganisation, false)?,
        })
    }

    /// A law: each frozen link is kept.
    pub fn known(&self)
        ensures { (l : Link) → HasFrozenLink self.now l → HasLink self.now l }
    {
        self.friends.known();
        self.messages.known();
        self.replies.known();
        self.post_likes.known();
        self.comment_likes.known();
        self.work.known();
        self.study.known();
    }

    /// Adds a link. Want of memory leaves all as it was.
    /// The condition: no link with the ends of this one is kept.
    pub fn add(&mut self, link: Link) -> Result<(), AllocError>
        requires { IsNewLink self.old link }
        ensures ok { OnOk result (HasGainedLink self.old link self.new) }
        ensures err { OnErr result (SameLinks self.old self.new) }
        ensures frozen { SameFrozen self.old self.new }
    {
        let (of, id, date) = (link.of, link.id, link.date);
        match link.walk {
            Walk::Friends => self.friends.add(of, id, date),
            Walk::Messages => self.messages.add(of, id, date),
            Walk::Replies => self.replies.add(of, id, date),
            Walk::PostLikes => self.post_likes.add(of, id, date),
            Walk::CommentLikes => self.comment_likes.add(of, id, date),
            Walk::Work => self.work.add(of, id, date),
            Walk::Study => self.study.add(of, id, date),
        }
    }

    /// Takes out the link with the ends of this one, if there is one. Takes no memory.
    /// The condition: no link with these ends is frozen.
    pub fn drop_link(&mut self, link: Link)
        requires { IsOwnLink self.old link }
        ensures gone { HasLostLink self.old link self.new }
        ensures frozen { SameFrozen self.old self.new }
    {
        let (of, id) = (link.of, link.id);
        match link.walk {
            Walk::Friends => self.friends.drop_pair(of, id),
            Walk::Messages => self.messages.drop_pair(of, id),
            Walk::Replies => self.replies.drop_pair(of, id),
            Walk::PostLikes => self.post_likes.drop_pair(of, id),
            Walk::CommentLikes => self.comment_likes.drop_pair(of, id),
            Walk::Work => self.work.drop_pair(of, id),
            Walk::Study => self.study.drop_pair(of, id),
        }
    }

    /// The links of an id along a walk, by rising id. Takes no memory.
    pub fn pairs(&self, walk: Walk, of: u64) -> Links<'_>
        ensures { ArePairsOf (at self.now walk) of (rest result) }
    {
        match walk {
            Walk::Friends => self.friends.pairs(of),
            Walk::Messages => self.messages.pairs(of),
            Walk::Replies => self.replies.pairs(of),
            Walk::PostLikes => self.post_likes.pairs(of),
            Walk::CommentLikes => self.comment_likes.pairs(of),
            Walk::Work => self.work.pairs(of),
            Walk::Study => self.study.pairs(of),
        }
    }

    // Adds a link, if there is one.
    fn add_some(&mut self, link: Option<Link>) -> Result<(), AllocError>
        requires { (k : Link) → link ≡ Some k → IsNewLink self.old k }
        ensures ok { OnOk result (HasGainedSome self.old link self.new) }
        ensures err { OnErr result (SameLinks self.old self.new) }
        ensures frozen { SameFrozen self.old self.new }
    {
        match link {
            Some(link) => self.add(link),
            None => Ok(()),
        }
    }

    // Takes out the link with the ends of this one, if there is one.
    fn drop_some(&mut self, link: Option<Link>)
        requires { (k : Link) → link ≡ Some k → IsOwnLink self.old k }
        ensures gone { HasLostSome self.old link self.new }
        ensures frozen { SameFrozen self.old self.new }
    {
        match link {
            Some(link) => self.drop_link(link),
            None => {}
        }
    }

    /// Adds the delta. Want of memory leaves the links as they were.
    /// The condition: no link with the ends of one of them is kept, and they differ in theirs.
    pub fn add_delta(&mut self, delta: LinkDelta) -> Result<(), AllocError>
        requires { IsFresh self.old delta }
        ensures ok { OnOk result (HasLinkDelta self.old delta self.new) }
        ensures err { OnErr result (SameLinks self.old self.new) }
        ensures frozen { SameFrozen self.old self.new }
    {
        self.known();
        self.add_some(delta.first)?;
        if self.add_some(delta.second).is_err() {
            self.drop_some(delta.first);
            return Err(AllocError);
        }
        Ok(())
    }

    /// Takes out the links with the ends of the delta. Takes no memory.
    /// The condition: no link with these ends is frozen.
    pub fn drop_delta(&mut self, delta: LinkDelta)
        requires { AreOwn self.old delta }
        ensures gone { HasLostLinkDelta self.old delta self.new }
        ensures frozen { SameFrozen self.old self.new }
    {
        self.drop_some(delta.first);
        self.drop_some(delta.second);
    }

    // Makes the links of each walk frozen, as far as memory suffices.
    fn freeze_each(&mut self) -> Result<(), AllocError>
        ensures { SameLinks self.old self.new }
    {
        self.friends.freeze()?;
        self.messages.freeze()?;
        self.replies.freeze()?;
        self.post_likes.freeze()?;
        self.comment_likes.freeze()?;
        self.work.freeze()?;
        self.study.freeze()
    }

    /// Makes all links frozen, so that copies share them. They stay, whatever it answers: an error says
    /// that memory doesn't suffice, and then some of the walks may be frozen and others not.
    pub fn freeze(&mut self) -> Result<(), AllocError>
        ensures same { SameLinks self.old self.new }
        ensures among { (l : Link) → HasFrozenLink self.new l → HasLink self.new l }
    {
        let frozen = self.freeze_each();
        self.known();
        frozen
    }

    /// The same links: the copy shares the frozen ones and copies the others. An error says that memory
    /// doesn't suffice.
    pub fn try_copy(&self) -> Result<Indexes, AllocError>
        ensures { IfOk result (λ copy. copy ≡ self.now) }
    {
        Ok(Indexes {
            friends: self.friends.try_copy()?,
            messages: self.messages.try_copy()?,
            replies: self.replies.try_copy()?,
            post_likes: self.post_likes.try_copy()?,
            comment_likes: self.comment_likes.try_copy()?,
            work: self.work.try_copy()?,
            study: self.study.try_copy()?,
        })
    }
}
