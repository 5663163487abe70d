//! Each node that an insert adds: out of fields, which are those of its row and the first of its insert, and as the
//! line of its row.
//!
//! A reader makes a node of the next fields, of which there is one for each of its columns. Its error is the first
//! column in which one spells no value, or want of memory. A writer appends a line with its end; want of memory
//! leaves the bytes as they were.

ghost use Rattle.std.specs.Prelude.{◌≡◌, ◌++◌, ◌∷◌, [], map, IfOk, OnErr, OnOk};
ghost use Rattle.std.specs.List.{join_with_byte};
ghost use Rattle.snb_schema.specs.Columns.{canonical_field};
ghost use Rattle.snb_schema.specs.Faults.{OnBadColumn};
ghost use Rattle.snb_schema.specs.Nodes.{comment_columns, comment_values, forum_columns, forum_values, person_columns, person_values, post_columns, post_values};
ghost use Rattle.snb_input_fields.specs.Fields.{Expects, ReadsAll, StopsIn};

use snb_input_fields::{Cell, LineFields, put_line};
use snb_schema::{Comment, Forum, LineFault, MAX_ID, MAX_LENGTH, Person, Post};
use std::alloc::AllocError;

/// Reads a person.
pub fn read_person<F: LineFields>(fields: &mut F) -> Result<Person, LineFault>
    requires { Expects F.meaning fields.old person_columns }
    ensures ok { IfOk result
        (λ person. ReadsAll F.meaning fields.old person_columns (person_values person) fields.new) }
    ensures bad { OnBadColumn result (StopsIn F.meaning fields.old person_columns) }
{
    Ok(Person {
        id: fields.number(MAX_ID)?,
        first_name: fields.text()?,
        last_name: fields.text()?,
        gender: fields.text()?,
        birthday: fields.day()?,
        creation_date: fields.date()?,
        location_ip: fields.text()?,
        browser_used: fields.text()?,
    })
}

/// Appends the line of a person's row.
pub fn put_person(person: &Person, to: &mut Vec<u8>) -> Result<(), AllocError>
    ensures ok { OnOk result
        (to.new.items ≡ to.old.items ++
        (join_with_byte 124 (map canonical_field (person_values person.now)) ++ 10 ∷ [])) }
    ensures err { OnErr result (to.new.items ≡ to.old.items) }
{
    put_line(
        &[
            Cell::Digits(person.id),
            Cell::Letters(person.first_name.as_str()),
            Cell::Letters(person.last_name.as_str()),
            Cell::Letters(person.gender.as_str()),
            Cell::Digits(person.birthday),
            Cell::Digits(person.creation_date),
            Cell::Letters(person.location_ip.as_str()),
            Cell::Letters(person.browser_used.as_str()),
        ],
        to,
    )
}

/// Reads a forum.
pub fn read_forum<F: LineFields>(fields: &mut F) -> Result<Forum, LineFault>
    requires { Expects F.meaning fields.old forum_columns }
    ensures ok { IfOk result
        (λ forum. ReadsAll F.meaning fields.old forum_columns (forum_values forum) fields.new) }
    ensures bad { OnBadColumn result (StopsIn F.meaning fields.old forum_columns) }
{
    Ok(Forum {
        id: fields.number(MAX_ID)?,
        title: fields.text()?,
        creation_date: fields.date()?,
    })
}

/// Appends the line of a forum's row.
pub fn put_forum(forum: &Forum, to: &mut Vec<u8>) -> Result<(), AllocError>
    ensures ok { OnOk result
        (to.new.items ≡ to.old.items ++
        (join_with_byte 124 (map canonical_field (forum_values forum.now)) ++ 10 ∷ [])) }
    ensures err { OnErr result (to.new.items ≡ to.old.items) }
{
    put_line(
        &[
            Cell::Digits(forum.id),
            Cell::Letters(forum.title.as_str()),
            Cell::Digits(forum.creation_date),
        ],
        to,
    )
}

/// Reads a post.
pub fn read_post<F: LineFields>(fields: &mut F) -> Result<Post, LineFault>
    requires { Expects F.meaning fields.old post_columns }
    ensures ok { IfOk result
        (λ post. ReadsAll F.meaning fields.old post_columns (post_values post) fields.new) }
    ensures bad { OnBadColumn result (StopsIn F.meaning fields.old post_columns) }
{
    Ok(Post {
        id: fields.number(MAX_ID)?,
        image_file: fields.text()?,
        creation_date: fields.date()?,
        location_ip: fields.text()?,
        browser_used: fields.text()?,
        language: fields.text()?,
        content: fields.text()?,
        length: fields.small(MAX_LENGTH)?,
    })
}

/// Appends the line of a post's row.
pub fn put_post(post: &Post, to: &mut Vec<u8>) -> Result<(), AllocError>
    ensures ok { OnOk result
        (to.new.items ≡ to.old.items ++
        (join_with_byte 124 (map canonical_field (post_values post.now)) ++ 10 ∷ [])) }
    ensures err { OnErr result (to.new.items ≡ to.old.items) }
{
    put_line(
        &[
            Cell::Digits(post.id),
            Cell::Letters(post.image_file.as_str()),
            Cell::Digits(post.creation_date),
            Cell::Letters(post.location_ip.as_str()),
            Cell::Letters(post.browser_used.as_str()),
            Cell::Letters(post.language.as_str()),
            Cell::Letters(post.content.as_str()),
            Cell::SmallDigits(post.length),
        ],
        to,
    )
}

/// Reads a comment.
pub fn read_comment<F: LineFields>(fields: &mut F) -> Result<Comment, LineFault>
    requires { Expects F.meaning fields.old comment_columns }
    ensures ok { IfOk result
        (λ comment. ReadsAll F.meaning fields.old comment_columns (comment_values comment) fields.new) }
    ensures bad { OnBadColumn result (StopsIn F.meaning fields.old comment_columns) }
{
    Ok(Comment {
        id: fields.number(MAX_ID)?,
        creation_date: fields.date()?,
        location_ip: fields.text()?,
        browser_used: fields.text()?,
        content: fields.text()?,
        length: fields.small(MAX_LENGTH)?,
    })
}

/// Appends the line of a comment's row.
pub fn put_comment(comment: &Comment, to: &mut Vec<u8>) -> Result<(), AllocError>
    ensures ok { OnOk result
        (to.new.items ≡ to.old.items ++
        (join_with_byte 124 (map canonical_field (comment_values comment.now)) ++ 10 ∷ [])) }
    ensures err { OnErr result (to.new.items ≡ to.old.items) }
{
    put_line(
        &[
            Cell::Digits(comment.id),
            Cell::Digits(comment.creation_date),
            Cell::Letters(comment.location_ip.as_str()),
            Cell::Letters(comment.browser_used.as_str()),
            Cell::Letters(comment.content.as_str()),
            Cell::SmallDigits(comment.length),
        ],
        to,
    )
}
