//! The inserts of the update streams.

ghost use Rattle.std.specs.Prelude.{◌≡◌, IfOk, max, min};
ghost use Rattle.snb_schema.specs.declared.row.Row.TheVariants as rows;
ghost use Rattle.snb_schema.specs.declared.table.Table.TheVariants as tables;
ghost use Rattle.snb_schema.specs.InsertLines.{kind_of};
ghost use Rattle.snb_schema.specs.Inserts.{addition_row};
ghost use Rattle.snb_schema.specs.Nodes.{addition};

use crate::nodes::{Comment, Forum, Post};
use crate::person::Person;
use crate::row::Row;
use crate::table::Table;
use snb_base::{Numbers, Pairs, Text, Texts};
use std::alloc::AllocError;

/// The message that a comment replies to.
#[derive(Clone, Copy)]
pub enum Parent {
    /// A post.
    Post { id: u64 },
    /// A comment.
    Comment { id: u64 },
}

/// An insert of the workload. Dates and days are in milliseconds since 1970-01-01 UTC.
pub enum Op {
    /// Insert 1: a person, with the city, languages, emails, interests, studies and works.
    AddPerson {
        person_id: u64,
        first_name: Text,
        last_name: Text,
        gender: Text,
        birthday: u64,
        creation_date: u64,
        location_ip: Text,
        browser_used: Text,
        city_id: u64,
        languages: Texts,
        emails: Texts,
        tag_ids: Numbers,
        /// Universities, each with a year.
        study_at: Pairs,
        /// Companies, each with a year.
        work_at: Pairs,
    },
    /// Insert 2: a person's like of a post.
    LikePost {
        person_id: u64,
        post_id: u64,
        date: u64,
    },
    /// Insert 3: a person's like of a comment.
    LikeComment {
        person_id: u64,
        comment_id: u64,
        date: u64,
    },
    /// Insert 4: a forum, with its moderator and tags.
    AddForum {
        forum_id: u64,
        title: Text,
        date: u64,
        moderator_id: u64,
        tag_ids: Numbers,
    },
    /// Insert 5: a person's membership of a forum.
    AddMember {
        person_id: u64,
        forum_id: u64,
        join_date: u64,
    },
    /// Insert 6: a post, with its author, forum, country and tags.
    AddPost {
        post_id: u64,
        image_file: Text,
        date: u64,
        location_ip: Text,
        browser_used: Text,
        language: Text,
        content: Text,
        length: u32,
        author_id: u64,
        forum_id: u64,
        country_id: u64,
        tag_ids: Numbers,
    },
    /// Insert 7: a comment, with its author, country, parent and tags.
    AddComment {
        comment_id: u64,
        date: u64,
        location_ip: Text,
        browser_used: Text,
        content: Text,
        length: u32,
        author_id: u64,
        country_id: u64,
        parent: Parent,
        tag_ids: Numbers,
    },
    /// Insert 8: a friendship of two persons, which has no direction.
    AddFriend {
        person1_id: u64,
        person2_id: u64,
        date: u64,
    },
}

impl Drop for Op {
    fn drop(self) {
        match self {
            Op::AddPerson {
                person_id: _,
                first_name: _,
                last_name: _,
                gender: _,
                birthday: _,
                creation_date: _,
                location_ip: _,
                browser_used: _,
                city_id: _,
                languages: _,
                emails: _,
                tag_ids: _,
                study_at: _,
                work_at: _,
            } => {}
            Op::LikePost {
                person_id: _,
                post_id: _,
                date: _,
            } => {}
            Op::LikeComment {
                person_id: _,
                comment_id: _,
                date: _,
            } => {}
            Op::AddForum {
                forum_id: _,
                title: _,
                date: _,
                moderator_id: _,
                tag_ids: _,
            } => {}
            Op::AddMember {
                person_id: _,
                forum_id: _,
                join_date: _,
            } => {}
            Op::AddPost {
                post_id: _,
                image_file: _,
                date: _,
                location_ip: _,
                browser_used: _,
                language: _,
                content: _,
                length: _,
                author_id: _,
                forum_id: _,
                country_id: _,
                tag_ids: _,
            } => {}
            Op::AddComment {
                comment_id: _,
                date: _,
                location_ip: _,
                browser_used: _,
                content: _,
                length: _,
                author_id: _,
                country_id: _,
                parent: _,
                tag_ids: _,
            } => {}
            Op::AddFriend {
                person1_id: _,
                person2_id: _,
                date: _,
            } => {}
        }
    }
}

// An edge with a date.
fn dated(table: Table, from: u64, to: u64, date: u64) -> Row
    ensures { result ≡ rows.Dated table from to date }
{
    Row::Dated {
        table,
        from,
        to,
        date,
    }
}

// The row of a person.
fn person_row(
    id: u64,
    first_name: &Text,
    last_name: &Text,
    gender: &Text,
    birthday: u64,
    creation_date: u64,
    location_ip: &Text,
    browser_used: &Text,
) -> Result<Row, AllocError>
    ensures { IfOk result (λ r. r ≡ rows.Person (record {
      id = id;
      first_name = first_name.now;
      last_name = last_name.now;
      gender = gender.now;
      birthday = birthday;
      creation_date = creation_date;
      location_ip = location_ip.now;
      browser_used = browser_used.now;
    })) }
{
    Ok(Row::Person {
        person: Person {
            id,
            first_name: first_name.try_copy()?,
            last_name: last_name.try_copy()?,
            gender: gender.try_copy()?,
            birthday,
            creation_date,
            location_ip: location_ip.try_copy()?,
            browser_used: browser_used.try_copy()?,
        },
    })
}

// The row of a forum.
fn forum_row(id: u64, title: &Text, creation_date: u64) -> Result<Row, AllocError>
    ensures { IfOk result (λ r. r ≡ rows.Forum (record {
      id = id;
      title = title.now;
      creation_date = creation_date;
    })) }
{
    Ok(Row::Forum {
        forum: Forum {
            id,
            title: title.try_copy()?,
            creation_date,
        },
    })
}

// The row of a post.
fn post_row(
    id: u64,
    image_file: &Text,
    creation_date: u64,
    location_ip: &Text,
    browser_used: &Text,
    language: &Text,
    content: &Text,
    length: u32,
) -> Result<Row, AllocError>
    ensures { IfOk result (λ r. r ≡ rows.Post (record {
      id = id;
      image_file = image_file.now;
      creation_date = creation_date;
      location_ip = location_ip.now;
      browser_used = browser_used.now;
      language = language.now;
      content = content.now;
      length = length;
    })) }
{
    Ok(Row::Post {
        post: Post {
            id,
            image_file: image_file.try_copy()?,
            creation_date,
            location_ip: location_ip.try_copy()?,
            browser_used: browser_used.try_copy()?,
            language: language.try_copy()?,
            content: content.try_copy()?,
            length,
        },
    })
}

// The row of a comment.
fn comment_row(
    id: u64,
    creation_date: u64,
    location_ip: &Text,
    browser_used: &Text,
    content: &Text,
    length: u32,
) -> Result<Row, AllocError>
    ensures { IfOk result (λ r. r ≡ rows.Comment (record {
      id = id;
      creation_date = creation_date;
      location_ip = location_ip.now;
      browser_used = browser_used.now;
      content = content.now;
      length = length;
    })) }
{
    Ok(Row::Comment {
        comment: Comment {
            id,
            creation_date,
            location_ip: location_ip.try_copy()?,
            browser_used: browser_used.try_copy()?,
            content: content.try_copy()?,
            length,
        },
    })
}

impl Op {
    /// The row of what the insert adds: its node, or its edge, of which a friendship has the lower id
    /// first.
    pub fn added_row(&self) -> Result<Row, AllocError>
        ensures { IfOk result (λ r. r ≡ addition_row (addition self.now)) }
    {
        match self {
            Op::AddPerson {
                person_id,
                first_name,
                last_name,
                gender,
                birthday,
                creation_date,
                location_ip,
                browser_used,
                ..
            } => person_row(
                *person_id,
                first_name,
                last_name,
                gender,
                *birthday,
                *creation_date,
                location_ip,
                browser_used,
            ),
            Op::LikePost {
                person_id,
                post_id,
                date,
            } => Ok(dated(Table::PersonLikesPost, *person_id, *post_id, *date)),
            Op::LikeComment {
                person_id,
                comment_id,
                date,
            } => Ok(dated(Table::PersonLikesComment, *person_id, *comment_id, *date)),
            Op::AddForum {
                forum_id,
                title,
                date,
                ..
            } => forum_row(*forum_id, title, *date),
            Op::AddMember {
                person_id,
                forum_id,
                join_date,
            } => Ok(dated(
                Table::ForumHasMemberPerson,
                *forum_id,
                *person_id,
                *join_date,
            )),
            Op::AddPost {
                post_id,
                image_file,
                date,
                location_ip,
                browser_used,
                language,
                content,
                length,
                ..
            } => post_row(
                *post_id,
                image_file,
                *date,
                location_ip,
                browser_used,
                language,
                content,
                *length,
            ),
            Op::AddComment {
                comment_id,
                date,
                location_ip,
                browser_used,
                content,
                length,
                ..
            } => comment_row(
                *comment_id,
                *date,
                location_ip,
                browser_used,
                content,
                *length,
            ),
            Op::AddFriend {
                person1_id,
                person2_id,
                date,
            } => Ok(dated(
                Table::PersonKnowsPerson,
                (*person1_id).min(*person2_id),
                (*person1_id).max(*person2_id),
                *date,
            )),
        }
    }

    /// Its kind.
    pub fn kind(&self) -> InsertKind
        ensures { result ≡ kind_of self.now }
    {
        match self {
            Op::AddPerson { .. } => InsertKind::AddPerson,
            Op::LikePost { .. } => InsertKind::LikePost,
            Op::LikeComment { .. } => InsertKind::LikeComment,
            Op::AddForum { .. } => InsertKind::AddForum,
            Op::AddMember { .. } => InsertKind::AddMember,
            Op::AddPost { .. } => InsertKind::AddPost,
            Op::AddComment { .. } => InsertKind::AddComment,
            Op::AddFriend { .. } => InsertKind::AddFriend,
        }
    }
}

/// The eight inserts, in the order of their numbers from 1 on.
#[derive(Clone, Copy, PartialEq, Eq)]
pub enum InsertKind {
    AddPerson,
    LikePost,
    LikeComment,
    AddForum,
    AddMember,
    AddPost,
    AddComment,
    AddFriend,
}

/// A line of an update stream.
pub struct Line {
    /// The moment of the insert, in milliseconds since 1970-01-01 UTC.
    pub t: u64,
    /// The moment up to which the insert depends on inserts of persons and forums, in the same unit; that
    /// of a person's insert depends on none.
    pub t_d: u64,
    /// What is inserted.
    pub op: Op,
    /// The line of its file, counted from 1.
    pub number: u32,
}

impl Drop for Line {
    fn drop(self) {
        let Line {
            t: _,
            t_d: _,
            op: _,
            number: _,
        } = self;
    }
}
