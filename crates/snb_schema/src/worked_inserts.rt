//! Worked rows: what inserts of each of the eight kinds add, take and refer to, and what rows refer
//! to.

ghost use Rattle.std.specs.Prelude.{◌≡◌, List, [], ◌∷◌, codes, true, false};
ghost use Rattle.snb_schema.specs.declared.key.Key.TheVariants as keys;
ghost use Rattle.snb_schema.specs.declared.row.Row.TheVariants as row;
ghost use Rattle.snb_schema.specs.declared.table.Kind.TheVariants as kinds;
ghost use Rattle.snb_schema.specs.declared.table.Table.TheVariants as table;
ghost use Rattle.snb_schema.specs.Awaiting.{adds_awaited, waits};
ghost use Rattle.snb_schema.specs.Inserts.{keys_of, rows_of};
ghost use Rattle.snb_schema.specs.References.{ref, refs_of, refs_of_row};
ghost use Rattle.snb_schema.specs.RowKeys.{row_key, slot, slot_of};
ghost use Rattle.snb_schema.specs.WorkedInserts.{KeysAreTheColumns, cy, cy_person, di, rows_of_cy, rows_of_group, rows_of_post, rows_of_reply_to_comment, rows_of_reply_to_post, like_of_post, like_of_comment, group, member, post, reply_to_post, reply_to_comment, friends};

/// A person's insert adds a row for each element of its lists.
pub fn person_rows()
    ensures all { rows_of cy ≡ rows_of_cy }
    ensures refs { refs_of cy ≡ ref kinds.Place 1 ∷ ref kinds.Tag 0 ∷ ref kinds.Organisation 0 ∷ [] }
    ensures studies { refs_of di ≡ ref kinds.Place 1 ∷ ref kinds.Organisation 1 ∷ [] }
{}

/// A forum comes with its moderator and tags.
pub fn forum_rows()
    ensures all { rows_of group ≡ rows_of_group }
    ensures refs { refs_of group ≡ ref kinds.Person 12 ∷ ref kinds.Tag 0 ∷ [] }
{}

/// A post comes with its forum, author, place and tags.
pub fn post_rows()
    ensures all { rows_of post ≡ rows_of_post }
    ensures refs { refs_of post ≡ ref kinds.Person 10 ∷ ref kinds.Forum 21 ∷ ref kinds.Place 0 ∷ ref kinds.Tag 0 ∷ [] }
{}

/// A comment comes with its author, place, one parent and tags.
pub fn comment_rows()
    ensures to_post { rows_of reply_to_post ≡ rows_of_reply_to_post }
    ensures to_comment { rows_of reply_to_comment ≡ rows_of_reply_to_comment }
    ensures post_refs { refs_of reply_to_post ≡ ref kinds.Person 12 ∷ ref kinds.Place 0 ∷ ref kinds.Post 30 ∷ [] }
    ensures comment_refs { refs_of reply_to_comment ≡ ref kinds.Person 12 ∷ ref kinds.Place 0 ∷ ref kinds.Comment 31
        ∷ ref kinds.Tag 0 ∷ [] }
{}

/// The other inserts add one edge each: a friendship with the lower id first, a membership with
/// the forum first.
pub fn edge_rows()
    ensures likes { rows_of like_of_post ≡ row.Dated table.PersonLikesPost 11 40 9000 ∷ [] }
    ensures liked { rows_of like_of_comment ≡ row.Dated table.PersonLikesComment 13 31 98000 ∷ [] }
    ensures joins { rows_of member ≡ row.Dated table.ForumHasMemberPerson 21 13 58000 ∷ [] }
    ensures knows { rows_of friends ≡ row.Dated table.PersonKnowsPerson 12 13 38000 ∷ [] }
    ensures like_refs { refs_of like_of_post ≡ ref kinds.Person 11 ∷ ref kinds.Post 40 ∷ [] }
    ensures liked_refs { refs_of like_of_comment ≡ ref kinds.Person 13 ∷ ref kinds.Comment 31 ∷ [] }
    ensures member_refs { refs_of member ≡ ref kinds.Person 13 ∷ ref kinds.Forum 21 ∷ [] }
    ensures friend_refs { refs_of friends ≡ ref kinds.Person 13 ∷ ref kinds.Person 12 ∷ [] }
{}

/// What inserts take: a post and a comment each take both keys of their id.
pub fn insert_keys()
    ensures person { keys_of cy ≡ keys.Node kinds.Person 12 ∷ [] }
    ensures like_post { keys_of like_of_post ≡ keys.LikesPost 11 40 ∷ [] }
    ensures like_comment { keys_of like_of_comment ≡ keys.LikesComment 13 31 ∷ [] }
    ensures forum { keys_of group ≡ keys.Node kinds.Forum 21 ∷ [] }
    ensures joins { keys_of member ≡ keys.Member 21 13 ∷ [] }
    ensures post_id { keys_of post ≡ keys.Node kinds.Post 40 ∷ keys.Node kinds.Comment 40 ∷ [] }
    ensures comment_id { keys_of reply_to_post ≡ keys.Node kinds.Post 41 ∷ keys.Node kinds.Comment 41 ∷ [] }
    ensures knows { keys_of friends ≡ keys.Knows 12 13 ∷ [] }
{}

/// A post and a comment of one id fill one slot, and so do a comment's two possible parents; a
/// forum holds a post by the post's id, and a friendship is a pair.
pub fn slots()
    ensures message { slot (table.Comment, 30, 0, []) ≡ slot (table.Post, 30, 0, []) }
    ensures parent { slot_of (row.Link table.CommentReplyOfComment 31 32)
        ≡ slot_of (row.Link table.CommentReplyOfPost 31 30) }
    ensures container { slot_of (row.Link table.ForumContainerOfPost 20 30) ≡ (table.ForumContainerOfPost, 30, 0, []) }
    ensures moderator { slot_of (row.Link table.ForumHasModeratorPerson 20 10)
        ≡ (table.ForumHasModeratorPerson, 20, 0, []) }
    ensures knows { row_key (row.Dated table.PersonKnowsPerson 10 11 3000) ≡ (table.PersonKnowsPerson, 10, 11, []) }
    ensures word { row_key (row.Word table.PersonSpeaksLanguage 10 (codes "en"))
        ≡ (table.PersonSpeaksLanguage, 10, 0, codes "en") }
{}

/// References stand in the columns of the file's line, also where a friendship's line has the
/// higher id first.
pub fn row_references()
    ensures straight { refs_of_row (row.Dated table.PersonKnowsPerson 10 11 3000) false
        ≡ (1, ref kinds.Person 10) ∷ (2, ref kinds.Person 11) ∷ [] }
    ensures turned { refs_of_row (row.Dated table.PersonKnowsPerson 10 11 3000) true
        ≡ (1, ref kinds.Person 11) ∷ (2, ref kinds.Person 10) ∷ [] }
    ensures container { refs_of_row (row.Link table.ForumContainerOfPost 20 30) false
        ≡ (1, ref kinds.Forum 20) ∷ (2, ref kinds.Post 30) ∷ [] }
    ensures word { refs_of_row (row.Word table.PersonSpeaksLanguage 10 (codes "en")) false
        ≡ (1, ref kinds.Person 10) ∷ [] }
    ensures node { refs_of_row (row.Person cy_person) false ≡ [] }
{}

/// Others wait for a person's insert, which waits for nothing. A forum's insert waits, and others wait
/// for it. Each further insert waits, and nothing waits for it.
pub fn waiting()
    ensures person { adds_awaited cy ≡ true }
    ensures person_waits { waits cy ≡ false }
    ensures forum { adds_awaited group ≡ true }
    ensures forum_waits { waits group ≡ true }
    ensures friends { adds_awaited friends ≡ false }
    ensures friends_wait { waits friends ≡ true }
{}

/// The key of a row is what the table of columns says of its values.
pub fn keys_are_the_columns()
    ensures { KeysAreTheColumns }
{}
