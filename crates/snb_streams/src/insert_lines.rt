//! The lines of the eight inserts: their columns, and an insert as a line.

ghost use Rattle.std.specs.Prelude.{◌≡◌, ◌++◌, ◌∷◌, [], OnOk, OnErr, map};
ghost use Rattle.std.specs.List.{join_with_byte};
ghost use Rattle.snb_schema.specs.declared.column.Value.TheVariants.{Digits};
ghost use Rattle.snb_schema.specs.declared.op.InsertKind.TheVariants as kinds;
ghost use Rattle.snb_schema.specs.Columns.{canonical_field};
ghost use Rattle.snb_schema.specs.UpdateLines.{canonical_line};
ghost use Rattle.snb_schema.specs.InsertLines.{kind_of, line_columns, parent_comment, parent_post};
ghost use Rattle.snb_input_fields.specs.Cells.{value_of};

use snb_input_fields::{Cell, put_fields};
use snb_schema::{Column, InsertKind, Line, MAX_ID, MAX_LENGTH, MAX_TIME, Op, Parent};
use std::alloc::AllocError;

const TIME: Column = Column::Number { most: MAX_TIME };

const ID: Column = Column::Number { most: MAX_ID };

const LENGTH: Column = Column::Small { most: MAX_LENGTH };

/// The columns before the number of an insert.
pub const TIMES: [Column; 2] = [TIME, TIME];

const PERSON: [Column; 17] = [
    TIME,
    TIME,
    Column::Number { most: 1 },
    ID,
    Column::Words,
    Column::Words,
    Column::Words,
    Column::Day,
    Column::Date,
    Column::Words,
    Column::Words,
    ID,
    Column::TextList,
    Column::TextList,
    Column::IdList,
    Column::PairList,
    Column::PairList,
];

const POST_LIKE: [Column; 6] = [TIME, TIME, Column::Number { most: 2 }, ID, ID, Column::Date];

const COMMENT_LIKE: [Column; 6] = [TIME, TIME, Column::Number { most: 3 }, ID, ID, Column::Date];

const FORUM: [Column; 8] = [
    TIME,
    TIME,
    Column::Number { most: 4 },
    ID,
    Column::Words,
    Column::Date,
    ID,
    Column::IdList,
];

const MEMBER: [Column; 6] = [TIME, TIME, Column::Number { most: 5 }, ID, ID, Column::Date];

const POST: [Column; 15] = [
    TIME,
    TIME,
    Column::Number { most: 6 },
    ID,
    Column::Words,
    Column::Date,
    Column::Words,
    Column::Words,
    Column::Words,
    Column::Words,
    LENGTH,
    ID,
    ID,
    ID,
    Column::IdList,
];

const COMMENT: [Column; 14] = [
    TIME,
    TIME,
    Column::Number { most: 7 },
    ID,
    Column::Date,
    Column::Words,
    Column::Words,
    Column::Words,
    LENGTH,
    ID,
    ID,
    Column::OptionalId,
    Column::OptionalId,
    Column::IdList,
];

const FRIEND: [Column; 6] = [TIME, TIME, Column::Number { most: 8 }, ID, ID, Column::Date];

/// The columns of a line with the insert, its two times and its number included.
pub fn columns_of(kind: InsertKind) -> &'static [Column]
    ensures { result.now ≡ line_columns kind }
{
    match kind {
        InsertKind::AddPerson => &PERSON,
        InsertKind::LikePost => &POST_LIKE,
        InsertKind::LikeComment => &COMMENT_LIKE,
        InsertKind::AddForum => &FORUM,
        InsertKind::AddMember => &MEMBER,
        InsertKind::AddPost => &POST,
        InsertKind::AddComment => &COMMENT,
        InsertKind::AddFriend => &FRIEND,
    }
}

// The cell of the post that is replied to, where it is one.
fn post_cell(parent: Parent) -> Cell<'static>
    ensures { value_of result ≡ parent_post parent }
{
    match parent {
        Parent::Post { id } => Cell::Digits(id),
        Parent::Comment { .. } => Cell::NoId,
    }
}

// The cell of the comment that is replied to, where it is one.
fn comment_cell(parent: Parent) -> Cell<'static>
    ensures { value_of result ≡ parent_comment parent }
{
    match parent {
        Parent::Post { .. } => Cell::NoId,
        Parent::Comment { id } => Cell::Digits(id),
    }
}

// Appends the line of a person's insert and its two times.
fn put_person(t: u64, t_d: u64, op: &Op, to: &mut Vec<u8>) -> Result<(), AllocError>
    requires { kind_of op.now ≡ kinds.AddPerson }
    ensures ok { OnOk result (to.new.items ≡ to.old.items ++ canonical_line t t_d op.now) }
    ensures err { OnErr result (to.new.items ≡ to.old.items) }
{
    let Op::AddPerson {
        person_id,
        first_name,
        last_name,
        gender,
        birthday,
        creation_date,
        location_ip,
        browser_used,
        city_id,
        languages,
        emails,
        tag_ids,
        study_at,
        work_at,
    } = op
    else {
        unreachable!()
    };
    put_fields(
        &[
            Cell::Digits(t),
            Cell::Digits(t_d),
            Cell::Digits(1),
            Cell::Digits(*person_id),
            Cell::Letters(first_name.as_str()),
            Cell::Letters(last_name.as_str()),
            Cell::Letters(gender.as_str()),
            Cell::Digits(*birthday),
            Cell::Digits(*creation_date),
            Cell::Letters(location_ip.as_str()),
            Cell::Letters(browser_used.as_str()),
            Cell::Digits(*city_id),
            Cell::Texts(languages.as_slice()),
            Cell::Texts(emails.as_slice()),
            Cell::Ids(tag_ids.as_slice()),
            Cell::Pairs(study_at.as_slice()),
            Cell::Pairs(work_at.as_slice()),
        ],
        to,
    )
}

// Appends the line of a post's insert and its two times.
fn put_post(t: u64, t_d: u64, op: &Op, to: &mut Vec<u8>) -> Result<(), AllocError>
    requires { kind_of op.now ≡ kinds.AddPost }
    ensures ok { OnOk result (to.new.items ≡ to.old.items ++ canonical_line t t_d op.now) }
    ensures err { OnErr result (to.new.items ≡ to.old.items) }
{
    let Op::AddPost {
        post_id,
        image_file,
        date,
        location_ip,
        browser_used,
        language,
        content,
        length,
        author_id,
        forum_id,
        country_id,
        tag_ids,
    } = op
    else {
        unreachable!()
    };
    put_fields(
        &[
            Cell::Digits(t),
            Cell::Digits(t_d),
            Cell::Digits(6),
            Cell::Digits(*post_id),
            Cell::Letters(image_file.as_str()),
            Cell::Digits(*date),
            Cell::Letters(location_ip.as_str()),
            Cell::Letters(browser_used.as_str()),
            Cell::Letters(language.as_str()),
            Cell::Letters(content.as_str()),
            Cell::SmallDigits(*length),
            Cell::Digits(*author_id),
            Cell::Digits(*forum_id),
            Cell::Digits(*country_id),
            Cell::Ids(tag_ids.as_slice()),
        ],
        to,
    )
}

// Appends the line of a comment's insert and its two times.
fn put_comment(t: u64, t_d: u64, op: &Op, to: &mut Vec<u8>) -> Result<(), AllocError>
    requires { kind_of op.now ≡ kinds.AddComment }
    ensures ok { OnOk result (to.new.items ≡ to.old.items ++ canonical_line t t_d op.now) }
    ensures err { OnErr result (to.new.items ≡ to.old.items) }
{
    let Op::AddComment {
        comment_id,
        date,
        location_ip,
        browser_used,
        content,
        length,
        author_id,
        country_id,
        parent,
        tag_ids,
    } = op
    else {
        unreachable!()
    };
    put_fields(
        &[
            Cell::Digits(t),
            Cell::Digits(t_d),
            Cell::Digits(7),
            Cell::Digits(*comment_id),
            Cell::Digits(*date),
            Cell::Letters(location_ip.as_str()),
            Cell::Letters(browser_used.as_str()),
            Cell::Letters(content.as_str()),
            Cell::SmallDigits(*length),
            Cell::Digits(*author_id),
            Cell::Digits(*country_id),
            post_cell(*parent),
            comment_cell(*parent),
            Cell::Ids(tag_ids.as_slice()),
        ],
        to,
    )
}

// Appends the line of a forum's insert and its two times.
fn put_forum(t: u64, t_d: u64, op: &Op, to: &mut Vec<u8>) -> Result<(), AllocError>
    requires { kind_of op.now ≡ kinds.AddForum }
    ensures ok { OnOk result (to.new.items ≡ to.old.items ++ canonical_line t t_d op.now) }
    ensures err { OnErr result (to.new.items ≡ to.old.items) }
{
    let Op::AddForum {
        forum_id,
        title,
        date,
        moderator_id,
        tag_ids,
    } = op
    else {
        unreachable!()
    };
    put_fields(
        &[
            Cell::Digits(t),
            Cell::Digits(t_d),
            Cell::Digits(4),
            Cell::Digits(*forum_id),
            Cell::Letters(title.as_str()),
            Cell::Digits(*date),
            Cell::Digits(*moderator_id),
            Cell::Ids(tag_ids.as_slice()),
        ],
        to,
    )
}

// Appends the line of an insert of three numbers, and its two times.
fn put_numbers(
    times: (u64, u64),
    kind: u64,
    first: u64,
    second: u64,
    date: u64,
    to: &mut Vec<u8>,
) -> Result<(), AllocError>
    ensures ok { OnOk result
        (to.new.items ≡ to.old.items ++ join_with_byte 124
        (map canonical_field
        (Digits times.0 ∷ Digits times.1 ∷ Digits kind ∷ Digits first ∷ Digits second ∷ Digits date ∷ []))) }
    ensures err { OnErr result (to.new.items ≡ to.old.items) }
{
    put_fields(
        &[
            Cell::Digits(times.0),
            Cell::Digits(times.1),
            Cell::Digits(kind),
            Cell::Digits(first),
            Cell::Digits(second),
            Cell::Digits(date),
        ],
        to,
    )
}

// Appends the line of an insert and its two times, without a line end.
fn put_op(t: u64, t_d: u64, op: &Op, to: &mut Vec<u8>) -> Result<(), AllocError>
    ensures ok { OnOk result (to.new.items ≡ to.old.items ++ canonical_line t t_d op.now) }
    ensures err { OnErr result (to.new.items ≡ to.old.items) }
{
    match op {
        Op::AddPerson { .. } => put_person(t, t_d, op, to),
        Op::LikePost {
            person_id,
            post_id,
            date,
        } => put_numbers((t, t_d), 2, *person_id, *post_id, *date, to),
        Op::LikeComment {
            person_id,
            comment_id,
            date,
        } => put_numbers((t, t_d), 3, *person_id, *comment_id, *date, to),
        Op::AddForum { .. } => put_forum(t, t_d, op, to),
        Op::AddMember {
            person_id,
            forum_id,
            join_date,
        } => put_numbers((t, t_d), 5, *person_id, *forum_id, *join_date, to),
        Op::AddPost { .. } => put_post(t, t_d, op, to),
        Op::AddComment { .. } => put_comment(t, t_d, op, to),
        Op::AddFriend {
            person1_id,
            person2_id,
            date,
        } => put_numbers((t, t_d), 8, *person1_id, *person2_id, *date, to),
    }
}

/// Appends the line, without a line end: its two times, its insert's number and fields, with numbers
/// and dates in digits, and lists in order. Want of memory leaves the bytes as they were.
///
/// Where the insert is one that a line has, this is the canonical one of its lines: the law
/// `own_line` says that it is a line of that insert, and `one_insert` that it is of no other.
pub fn write_line(line: &Line, to: &mut Vec<u8>) -> Result<(), AllocError>
    ensures ok { OnOk result (to.new.items ≡ to.old.items ++ canonical_line line.now.t line.now.t_d line.now.op) }
    ensures err { OnErr result (to.new.items ≡ to.old.items) }
{
    put_op(line.t, line.t_d, &line.op, to)
}
