//! Inserts out of the fields of a line.

ghost use Rattle.std.specs.Prelude.{◌≡◌, ◌∷◌, [], ℕ, IfOk, OnOk, length};
ghost use Rattle.snb_schema.specs.declared.column.Column.TheVariants.{Date};
ghost use Rattle.snb_schema.specs.declared.column.Value.TheVariants.{Digits};
ghost use Rattle.snb_schema.specs.declared.op.InsertKind.TheVariants as kinds;
ghost use Rattle.snb_schema.specs.Faults.{OnBadColumn};
ghost use Rattle.snb_schema.specs.InsertLines.{beside_columns, line_columns};
ghost use Rattle.snb_schema.specs.Nodes.{comment_values, forum_values, id_column, person_values, post_values};
ghost use Rattle.snb_schema.specs.UpdateLines.{Clashes, IsFirstBad};
ghost use Rattle.snb_input_fields.specs.Fields.{Expects, ReadsAll, StopsIn};
ghost use Rattle.snb_input_fields.specs.Reading.{at_first};
ghost use Rattle.snb_streams.specs.Make.{HasRead, HasSpelled, IsMade, IsMadeLine, IsParent, IsThird, at_field};

use snb_input_fields::{FieldReader, LineFields};
use snb_node_fields::{read_comment, read_forum, read_person, read_post};
use snb_schema::{
    Comment, Forum, InsertKind, Line, LineFault, MAX_ID, MAX_TIME, Op, Parent, Person, Post,
};

// The insert of a person, with what the next fields have beside it.
fn add_person<F: LineFields>(person: Person, fields: &mut F) -> Result<Op, LineFault>
    requires { Expects F.meaning fields.old (beside_columns kinds.AddPerson) }
    ensures ok { IfOk result (HasRead F.meaning kinds.AddPerson (person_values person) fields.old fields.new) }
    ensures bad { OnBadColumn result (StopsIn F.meaning fields.old (beside_columns kinds.AddPerson)) }
{
    let city_id = fields.number(MAX_ID)?;
    let languages = fields.texts()?;
    let emails = fields.texts()?;
    let tag_ids = fields.ids()?;
    let study_at = fields.pairs()?;
    let work_at = fields.pairs()?;
    Ok(person.into_op(city_id, languages, emails, tag_ids, study_at, work_at))
}

// The insert of a forum, with what the next fields have beside it.
fn add_forum<F: LineFields>(forum: Forum, fields: &mut F) -> Result<Op, LineFault>
    requires { Expects F.meaning fields.old (beside_columns kinds.AddForum) }
    ensures ok { IfOk result (HasRead F.meaning kinds.AddForum (forum_values forum) fields.old fields.new) }
    ensures bad { OnBadColumn result (StopsIn F.meaning fields.old (beside_columns kinds.AddForum)) }
{
    let moderator_id = fields.number(MAX_ID)?;
    let tag_ids = fields.ids()?;
    Ok(forum.into_op(moderator_id, tag_ids))
}

// The insert of a post, with what the next fields have beside it.
fn add_post<F: LineFields>(post: Post, fields: &mut F) -> Result<Op, LineFault>
    requires { Expects F.meaning fields.old (beside_columns kinds.AddPost) }
    ensures ok { IfOk result (HasRead F.meaning kinds.AddPost (post_values post) fields.old fields.new) }
    ensures bad { OnBadColumn result (StopsIn F.meaning fields.old (beside_columns kinds.AddPost)) }
{
    let author_id = fields.number(MAX_ID)?;
    let forum_id = fields.number(MAX_ID)?;
    let country_id = fields.number(MAX_ID)?;
    let tag_ids = fields.ids()?;
    Ok(post.into_op(author_id, forum_id, country_id, tag_ids))
}

// The insert of a person.
fn person(fields: &mut FieldReader<'_>) -> Result<Op, LineFault>
    requires { fields.old ≡ at_field kinds.AddPerson fields.old.fields 3 }
    ensures ok { IfOk result (IsMade kinds.AddPerson fields.old.fields) }
    ensures bad { OnBadColumn result (IsFirstBad kinds.AddPerson fields.old.fields) }
{
    let person = read_person(fields)?;
    add_person(person, fields)
}

// The insert of a forum.
fn forum(fields: &mut FieldReader<'_>) -> Result<Op, LineFault>
    requires { fields.old ≡ at_field kinds.AddForum fields.old.fields 3 }
    ensures ok { IfOk result (IsMade kinds.AddForum fields.old.fields) }
    ensures bad { OnBadColumn result (IsFirstBad kinds.AddForum fields.old.fields) }
{
    let forum = read_forum(fields)?;
    add_forum(forum, fields)
}

// The insert of a post.
fn post(fields: &mut FieldReader<'_>) -> Result<Op, LineFault>
    requires { fields.old ≡ at_field kinds.AddPost fields.old.fields 3 }
    ensures ok { IfOk result (IsMade kinds.AddPost fields.old.fields) }
    ensures bad { OnBadColumn result (IsFirstBad kinds.AddPost fields.old.fields) }
{
    let post = read_post(fields)?;
    add_post(post, fields)
}

// Two ids and a date.
fn edge<F: LineFields>(fields: &mut F) -> Result<(u64, u64, u64), LineFault>
    requires { Expects F.meaning fields.old (id_column ∷ id_column ∷ Date ∷ []) }
    ensures ok { IfOk result (λ edge. ReadsAll F.meaning fields.old (id_column ∷ id_column ∷ Date ∷ [])
        (Digits edge.0 ∷ Digits edge.1 ∷ Digits edge.2 ∷ []) fields.new) }
    ensures bad { OnBadColumn result (StopsIn F.meaning fields.old (id_column ∷ id_column ∷ Date ∷ [])) }
{
    Ok((
        fields.number(MAX_ID)?,
        fields.number(MAX_ID)?,
        fields.date()?,
    ))
}

fn post_like(fields: &mut FieldReader<'_>) -> Result<Op, LineFault>
    requires { fields.old ≡ at_field kinds.LikePost fields.old.fields 3 }
    ensures ok { IfOk result (IsMade kinds.LikePost fields.old.fields) }
    ensures bad { OnBadColumn result (IsFirstBad kinds.LikePost fields.old.fields) }
{
    let ends = edge(fields)?;
    Ok(Op::LikePost {
        person_id: ends.0,
        post_id: ends.1,
        date: ends.2,
    })
}

fn comment_like(fields: &mut FieldReader<'_>) -> Result<Op, LineFault>
    requires { fields.old ≡ at_field kinds.LikeComment fields.old.fields 3 }
    ensures ok { IfOk result (IsMade kinds.LikeComment fields.old.fields) }
    ensures bad { OnBadColumn result (IsFirstBad kinds.LikeComment fields.old.fields) }
{
    let ends = edge(fields)?;
    Ok(Op::LikeComment {
        person_id: ends.0,
        comment_id: ends.1,
        date: ends.2,
    })
}

fn member(fields: &mut FieldReader<'_>) -> Result<Op, LineFault>
    requires { fields.old ≡ at_field kinds.AddMember fields.old.fields 3 }
    ensures ok { IfOk result (IsMade kinds.AddMember fields.old.fields) }
    ensures bad { OnBadColumn result (IsFirstBad kinds.AddMember fields.old.fields) }
{
    let ends = edge(fields)?;
    Ok(Op::AddMember {
        person_id: ends.0,
        forum_id: ends.1,
        join_date: ends.2,
    })
}

// The parent of a comment: a post or a comment, and not both.
fn parent(fields: &mut FieldReader<'_>) -> Result<Parent, LineFault>
    requires { fields.old ≡ at_field kinds.AddComment fields.old.fields 11 }
    ensures ok { IfOk result (IsParent fields.old.fields) }
    ensures past { OnOk result (fields.new ≡ at_field kinds.AddComment fields.old.fields 13) }
    ensures one { OnOk result ((column : ℕ) → ¬ Clashes kinds.AddComment fields.old.fields column) }
    ensures bad { OnBadColumn result (IsFirstBad kinds.AddComment fields.old.fields) }
{
    let post = fields.optional_id()?;
    let comment = fields.optional_id()?;
    match (post, comment) {
        (Some(id), None) => Ok(Parent::Post { id }),
        (None, Some(id)) => Ok(Parent::Comment { id }),
        (Some(_), Some(_)) => Err(fields.clash()),
        (None, None) => Err(fields.clash()),
    }
}

// The insert of a comment, with what the next fields have beside it.
fn add_comment(comment: Comment, fields: &mut FieldReader<'_>) -> Result<Op, LineFault>
    requires { fields.old ≡ at_field kinds.AddComment fields.old.fields 9 }
    ensures ok { IfOk result (HasSpelled kinds.AddComment (comment_values comment) 9 fields.old.fields) }
    ensures bad { OnBadColumn result (IsFirstBad kinds.AddComment fields.old.fields) }
{
    let author_id = fields.number(MAX_ID)?;
    let country_id = fields.number(MAX_ID)?;
    let parent = parent(fields)?;
    let tag_ids = fields.ids()?;
    Ok(comment.into_op(author_id, country_id, parent, tag_ids))
}

// The insert of a comment.
fn comment(fields: &mut FieldReader<'_>) -> Result<Op, LineFault>
    requires { fields.old ≡ at_field kinds.AddComment fields.old.fields 3 }
    ensures ok { IfOk result (IsMade kinds.AddComment fields.old.fields) }
    ensures bad { OnBadColumn result (IsFirstBad kinds.AddComment fields.old.fields) }
{
    let comment = read_comment(fields)?;
    add_comment(comment, fields)
}

fn friend(fields: &mut FieldReader<'_>) -> Result<Op, LineFault>
    requires { fields.old ≡ at_field kinds.AddFriend fields.old.fields 3 }
    ensures ok { IfOk result (IsMade kinds.AddFriend fields.old.fields) }
    ensures bad { OnBadColumn result (IsFirstBad kinds.AddFriend fields.old.fields) }
{
    let one = fields.number(MAX_ID)?;
    let other = fields.number(MAX_ID)?;
    if one == other {
        return Err(fields.clash());
    }
    Ok(Op::AddFriend {
        person1_id: one,
        person2_id: other,
        date: fields.date()?,
    })
}

// The insert of this kind that the fields spell, whose times and number are read.
fn make_op(kind: InsertKind, fields: &mut FieldReader<'_>) -> Result<Op, LineFault>
    requires { fields.old ≡ at_field kind fields.old.fields 3 }
    ensures ok { IfOk result (IsMade kind fields.old.fields) }
    ensures bad { OnBadColumn result (IsFirstBad kind fields.old.fields) }
{
    match kind {
        InsertKind::AddPerson => person(fields),
        InsertKind::LikePost => post_like(fields),
        InsertKind::LikeComment => comment_like(fields),
        InsertKind::AddForum => forum(fields),
        InsertKind::AddMember => member(fields),
        InsertKind::AddPost => post(fields),
        InsertKind::AddComment => comment(fields),
        InsertKind::AddFriend => friend(fields),
    }
}

/// The line of this number with an insert of this kind, as its fields spell it. The error is the first
/// that isn't in its grammar, or doesn't go with one before it.
/// The conditions: no field was taken yet (`begins`), there is one for each of the kind's columns
/// (`long`), and the third is the kind's number (`third`).
pub fn make_line(
    kind: InsertKind,
    number: u32,
    fields: &mut FieldReader<'_>,
) -> Result<Line, LineFault>
    requires begins { fields.old ≡ at_first (line_columns kind) fields.old.fields }
    requires long { length fields.old.fields ≡ length (line_columns kind) }
    requires third { IsThird kind fields.old.fields }
    ensures ok { IfOk result (λ line. IsMadeLine kind fields.old.fields line × (line.number ≡ number)) }
    ensures bad { OnBadColumn result (IsFirstBad kind fields.old.fields) }
{
    let t = fields.number(MAX_TIME)?;
    let t_d = fields.number(MAX_TIME)?;
    fields.pass();
    let op = make_op(kind, fields)?;
    Ok(Line { t, t_d, op, number })
}
