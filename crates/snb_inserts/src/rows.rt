//! The rows that an insert adds.

ghost use Rattle.std.specs.Prelude.{map, take, ◌≡◌, ◌∷◌, ◌++◌, [], IfOk, OnOk};
ghost use Rattle.snb_schema.specs.declared.row.Row.TheVariants as row;
ghost use Rattle.snb_schema.specs.declared.table.Table.TheVariants as table;
ghost use Rattle.snb_schema.specs.Inserts.{addition_edges, parent_row, rows_of as rows_of_op};
ghost use Rattle.snb_schema.specs.Nodes.{addition};

use snb_base::Text;
use snb_schema::{Op, Parent, Row, Table};
use std::alloc::{AllocError, Global};

// Appends a row.
fn put(rows: &mut Vec<Row>, one: Row) -> Result<(), AllocError>
    ensures { OnOk result (rows.new.items ≡ rows.old.items ++ one ∷ []) }
{
    rows.push(one)?;
    Ok(())
}

// Appends an edge.
fn put_link(rows: &mut Vec<Row>, table: Table, from: u64, to: u64) -> Result<(), AllocError>
    ensures { OnOk result (rows.new.items ≡ rows.old.items ++ row.Link table from to ∷ []) }
{
    put(rows, Row::Link { table, from, to })
}

// Appends an edge from a node to each of these.
fn put_links(rows: &mut Vec<Row>, table: Table, from: u64, ends: &[u64]) -> Result<(), AllocError>
    ensures { OnOk result (rows.new.items ≡ rows.old.items ++ map (row.Link table from) ends.now) }
{
    for to in ends {
        put_link(rows, table, from, *to)?;
    }
    Ok(())
}

// Appends an edge with a year from a node to each of these.
fn put_stays(
    rows: &mut Vec<Row>,
    table: Table,
    from: u64,
    ends: &[(u64, u32)],
) -> Result<(), AllocError>
    ensures { OnOk result (rows.new.items ≡ rows.old.items ++ map (λ s. row.Yeared table from s.0 s.1) ends.now) }
{
    for end in ends {
        put(
            rows,
            Row::Yeared {
                table,
                from,
                to: end.0,
                year: end.1,
            },
        )?;
    }
    Ok(())
}

// Appends each of these words of a person.
fn put_words(
    rows: &mut Vec<Row>,
    table: Table,
    person: u64,
    texts: &[Text],
) -> Result<(), AllocError>
    ensures { OnOk result (rows.new.items ≡ rows.old.items ++ map (row.Word table person) texts.now) }
{
    for text in texts {
        put(
            rows,
            Row::Word {
                table,
                person,
                text: text.try_copy()?,
            },
        )?;
    }
    Ok(())
}

// Appends the edges and words of a person.
fn put_person(
    rows: &mut Vec<Row>,
    id: u64,
    city: u64,
    languages: &[Text],
    emails: &[Text],
    tags: &[u64],
    study: &[(u64, u32)],
    work: &[(u64, u32)],
) -> Result<(), AllocError>
    ensures { OnOk result
        (rows.new.items ≡ rows.old.items
        ++ (row.Link table.PersonIsLocatedInPlace id city ∷ map (row.Word table.PersonEmailEmailAddress id) emails.now
        ++ map (row.Word table.PersonSpeaksLanguage id) languages.now
        ++ map (row.Link table.PersonHasInterestTag id) tags.now
        ++ map (λ s. row.Yeared table.PersonStudyAtOrganisation id s.0 s.1) study.now
        ++ map (λ s. row.Yeared table.PersonWorkAtOrganisation id s.0 s.1) work.now)) }
{
    put_link(rows, Table::PersonIsLocatedInPlace, id, city)?;
    put_words(rows, Table::PersonEmailEmailAddress, id, emails)?;
    put_words(rows, Table::PersonSpeaksLanguage, id, languages)?;
    put_links(rows, Table::PersonHasInterestTag, id, tags)?;
    put_stays(rows, Table::PersonStudyAtOrganisation, id, study)?;
    put_stays(rows, Table::PersonWorkAtOrganisation, id, work)
}

// Appends the edges of a forum.
fn put_forum(rows: &mut Vec<Row>, id: u64, moderator: u64, tags: &[u64]) -> Result<(), AllocError>
    ensures { OnOk result
        (rows.new.items ≡ rows.old.items ++ row.Link table.ForumHasModeratorPerson id moderator
        ∷ map (row.Link table.ForumHasTagTag id) tags.now) }
{
    put_link(rows, Table::ForumHasModeratorPerson, id, moderator)?;
    put_links(rows, Table::ForumHasTagTag, id, tags)
}

// Appends the edges of a post.
fn put_post(
    rows: &mut Vec<Row>,
    id: u64,
    author: u64,
    forum: u64,
    country: u64,
    tags: &[u64],
) -> Result<(), AllocError>
    ensures { OnOk result
        (rows.new.items ≡ rows.old.items ++ row.Link table.ForumContainerOfPost forum id
        ∷ row.Link table.PostHasCreatorPerson id author
        ∷ row.Link table.PostIsLocatedInPlace id country ∷ map (row.Link table.PostHasTagTag id) tags.now) }
{
    put_link(rows, Table::ForumContainerOfPost, forum, id)?;
    put_link(rows, Table::PostHasCreatorPerson, id, author)?;
    put_link(rows, Table::PostIsLocatedInPlace, id, country)?;
    put_links(rows, Table::PostHasTagTag, id, tags)
}

// Appends the edge from a comment to its parent.
fn put_parent(rows: &mut Vec<Row>, comment: u64, parent: Parent) -> Result<(), AllocError>
    ensures { OnOk result (rows.new.items ≡ rows.old.items ++ parent_row comment parent ∷ []) }
{
    match parent {
        Parent::Post { id } => put_link(rows, Table::CommentReplyOfPost, comment, id),
        Parent::Comment { id } => put_link(rows, Table::CommentReplyOfComment, comment, id),
    }
}

// Appends the edges of a comment.
fn put_comment(
    rows: &mut Vec<Row>,
    id: u64,
    author: u64,
    country: u64,
    parent: Parent,
    tags: &[u64],
) -> Result<(), AllocError>
    ensures { OnOk result (rows.new.items ≡ rows.old.items ++ row.Link table.CommentHasCreatorPerson id author
        ∷ row.Link table.CommentIsLocatedInPlace id country ∷ parent_row id parent
        ∷ map (row.Link table.CommentHasTagTag id) tags.now) }
{
    put_link(rows, Table::CommentHasCreatorPerson, id, author)?;
    put_link(rows, Table::CommentIsLocatedInPlace, id, country)?;
    put_parent(rows, id, parent)?;
    put_links(rows, Table::CommentHasTagTag, id, tags)
}

/// The first row that the insert adds: its node, or its edge.
pub fn first_row(op: &Op) -> Result<Row, AllocError>
    ensures { IfOk result (λ r. take 1 (rows_of_op op.now) ≡ r ∷ []) }
{
    op.added_row()
}

// Appends the rows that the insert adds but for the first: the edges and words of its node.
fn put_rest(rows: &mut Vec<Row>, op: &Op) -> Result<(), AllocError>
    ensures { OnOk result (rows.new.items ≡ rows.old.items ++ addition_edges (addition op.now)) }
{
    match op {
        Op::AddPerson {
            person_id,
            city_id,
            languages,
            emails,
            tag_ids,
            study_at,
            work_at,
            ..
        } => put_person(
            rows,
            *person_id,
            *city_id,
            languages.as_slice(),
            emails.as_slice(),
            tag_ids.as_slice(),
            study_at.as_slice(),
            work_at.as_slice(),
        ),
        Op::AddForum {
            forum_id,
            moderator_id,
            tag_ids,
            ..
        } => put_forum(rows, *forum_id, *moderator_id, tag_ids.as_slice()),
        Op::AddPost {
            post_id,
            author_id,
            forum_id,
            country_id,
            tag_ids,
            ..
        } => put_post(
            rows,
            *post_id,
            *author_id,
            *forum_id,
            *country_id,
            tag_ids.as_slice(),
        ),
        Op::AddComment {
            comment_id,
            author_id,
            country_id,
            parent,
            tag_ids,
            ..
        } => put_comment(
            rows,
            *comment_id,
            *author_id,
            *country_id,
            *parent,
            tag_ids.as_slice(),
        ),
        // The others add one edge alone.
        Op::LikePost { .. } => Ok(()),
        Op::LikeComment { .. } => Ok(()),
        Op::AddMember { .. } => Ok(()),
        Op::AddFriend { .. } => Ok(()),
    }
}

// Appends the rows that the insert adds.
fn put_rows(rows: &mut Vec<Row>, op: &Op) -> Result<(), AllocError>
    ensures { OnOk result (rows.new.items ≡ rows.old.items ++ rows_of_op op.now) }
{
    put(rows, op.added_row()?)?;
    put_rest(rows, op)
}

/// The rows that the insert adds.
pub fn rows_of(alloc: Global, op: &Op) -> Result<Vec<Row>, AllocError>
    ensures { IfOk result (λ rows. rows.items ≡ rows_of_op op.now) }
{
    let mut rows = Vec::new(alloc);
    put_rows(&mut rows, op)?;
    Ok(rows)
}
