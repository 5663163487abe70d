//! The nodes of the social network other than persons.

ghost use Rattle.std.specs.Prelude.{◌≡◌};
ghost use Rattle.snb_schema.specs.Nodes.{NewComment, NewForum, NewPost, adding, forum_named};

use crate::op::{Op, Parent};
use snb_base::{Numbers, Text};

/// A row of the table place: a city, a country or a continent, as its kind says.
#[derive(Clone, PartialEq, Eq)]
pub struct Place {
    /// Its key.
    pub id: u64,
    pub name: Text,
    pub url: Text,
    pub kind: Text,
}

impl Drop for Place {
    fn drop(self) {
        let Place {
            id: _,
            name: _,
            url: _,
            kind: _,
        } = self;
    }
}

/// A row of the table tagclass or of the table tag.
#[derive(Clone, PartialEq, Eq)]
pub struct Named {
    /// Its key.
    pub id: u64,
    pub name: Text,
    pub url: Text,
}

impl Drop for Named {
    fn drop(self) {
        let Named {
            id: _,
            name: _,
            url: _,
        } = self;
    }
}

/// A row of the table organisation: a company or a university, as its kind says.
#[derive(Clone, PartialEq, Eq)]
pub struct Organisation {
    /// Its key.
    pub id: u64,
    pub kind: Text,
    pub name: Text,
    pub url: Text,
}

impl Drop for Organisation {
    fn drop(self) {
        let Organisation {
            id: _,
            kind: _,
            name: _,
            url: _,
        } = self;
    }
}

/// A row of the table forum.
#[derive(Clone, PartialEq, Eq)]
pub struct Forum {
    /// Its key.
    pub id: u64,
    pub title: Text,
    /// In milliseconds since 1970-01-01 UTC.
    pub creation_date: u64,
}

impl Forum {
    /// The insert of a forum, with its moderator and tags.
    pub fn into_op(self, moderator_id: u64, tag_ids: Numbers) -> Op
        ensures { result ≡ adding (NewForum self moderator_id tag_ids) }
    {
        let Forum {
            id,
            title,
            creation_date,
        } = self;
        Op::AddForum {
            forum_id: id,
            title,
            date: creation_date,
            moderator_id,
            tag_ids,
        }
    }

    /// A forum of which no more is told.
    pub fn named(id: u64, title: Text, creation_date: u64) -> Forum
        ensures { result ≡ forum_named id title creation_date }
    {
        Forum {
            id,
            title,
            creation_date,
        }
    }
}

impl Drop for Forum {
    fn drop(self) {
        let Forum {
            id: _,
            title: _,
            creation_date: _,
        } = self;
    }
}

/// A row of the table post. No comment has the same id.
#[derive(Clone, PartialEq, Eq)]
pub struct Post {
    /// Its key.
    pub id: u64,
    /// The name of an image, or empty.
    pub image_file: Text,
    /// In milliseconds since 1970-01-01 UTC.
    pub creation_date: u64,
    pub location_ip: Text,
    pub browser_used: Text,
    pub language: Text,
    /// Empty where the post is an image.
    pub content: Text,
    /// How long the content is, as its writer says.
    pub length: u32,
}

impl Post {
    /// The insert of a post, with its author, forum, country and tags.
    pub fn into_op(self, author_id: u64, forum_id: u64, country_id: u64, tag_ids: Numbers) -> Op
        ensures { result ≡ adding (NewPost self author_id forum_id country_id tag_ids) }
    {
        let Post {
            id,
            image_file,
            creation_date,
            location_ip,
            browser_used,
            language,
            content,
            length,
        } = self;
        Op::AddPost {
            post_id: id,
            image_file,
            date: creation_date,
            location_ip,
            browser_used,
            language,
            content,
            length,
            author_id,
            forum_id,
            country_id,
            tag_ids,
        }
    }
}

impl Drop for Post {
    fn drop(self) {
        let Post {
            id: _,
            image_file: _,
            creation_date: _,
            location_ip: _,
            browser_used: _,
            language: _,
            content: _,
            length: _,
        } = self;
    }
}

/// A row of the table comment. No post has the same id.
#[derive(Clone, PartialEq, Eq)]
pub struct Comment {
    /// Its key.
    pub id: u64,
    /// In milliseconds since 1970-01-01 UTC.
    pub creation_date: u64,
    pub location_ip: Text,
    pub browser_used: Text,
    pub content: Text,
    /// How long the content is, as its writer says.
    pub length: u32,
}

impl Comment {
    /// The insert of a comment, with its author, country, parent and tags.
    pub fn into_op(self, author_id: u64, country_id: u64, parent: Parent, tag_ids: Numbers) -> Op
        ensures { result ≡ adding (NewComment self author_id country_id parent tag_ids) }
    {
        let Comment {
            id,
            creation_date,
            location_ip,
            browser_used,
            content,
            length,
        } = self;
        Op::AddComment {
            comment_id: id,
            date: creation_date,
            location_ip,
            browser_used,
            content,
            length,
            author_id,
            country_id,
            parent,
            tag_ids,
        }
    }
}

impl Drop for Comment {
    fn drop(self) {
        let Comment {
            id: _,
            creation_date: _,
            location_ip: _,
            browser_used: _,
            content: _,
            length: _,
        } = self;
    }
}
