//! Links from one id to another, and what a row makes of them.

/// What is walked along in a graph.
#[derive(Clone, Copy)]
pub enum Walk {
    /// From a person to the friends.
    Friends,
    /// From a person to the posts and comments that the person created.
    Messages,
    /// From a post or comment to the comments that reply to it.
    Replies,
    /// From a post to the persons who like it.
    PostLikes,
    /// From a comment to the persons who like it.
    CommentLikes,
    /// From a person to the organisations where the person works.
    Work,
    /// From a person to the organisations where the person studied.
    Study,
}

/// A link from an id to another one.
#[derive(Clone, Copy)]
pub struct Link {
    pub walk: Walk,
    /// Whose link it is.
    pub of: u64,
    /// Where it leads.
    pub id: u64,
    /// In milliseconds since 1970-01-01 UTC: when the friendship or the like began, or the creation
    /// date of the message or reply. Of work and study the year.
    pub date: u64,
}

/// The links that a row more makes: none, one or two.
#[derive(Clone, Copy)]
pub struct LinkDelta {
    pub first: Option<Link>,
    pub second: Option<Link>,
}
