//! The table of columns: what the lines of each table hold, and what tells its rows apart.

ghost use Rattle.std.specs.Prelude.{◌≡◌, IsTrue, Some, None, false};
ghost use Rattle.snb_schema.specs.declared.layout.KeyColumns.TheVariants as keys;
ghost use Rattle.snb_schema.specs.declared.layout.Shape.TheVariants as shapes;
ghost use Rattle.snb_schema.specs.declared.table.Table.TheVariants as tables;
ghost use Rattle.snb_schema.specs.Layouts.{has_no_direction, key_columns, shape};
ghost use Rattle.snb_schema.specs.TableColumns.{columns};
ghost use Rattle.snb_schema.specs.CodeLayouts.{IsLayoutOf};

use crate::column::Column;
use crate::limits::{MAX_ID, MAX_LENGTH, MAX_YEAR};
use crate::table::Kind::{Comment, Forum, Organisation, Person, Place, Post, Tag, TagClass};
use crate::table::{Kind, Table};
use KeyColumns::{First, FirstTwo, Second};
use Shape::{Dated, Link, Yeared};

/// What rows of a table are like. A shape has its own columns.
#[derive(Clone, Copy)]
pub enum Shape {
    Place,
    TagClass,
    Tag,
    Organisation,
    Person,
    Forum,
    Post,
    Comment,
    /// An edge.
    Link,
    /// An edge with a date.
    Dated,
    /// An edge with a year.
    Yeared,
    /// A person with a text.
    Word,
}

/// Which columns of a table are its key: no two rows of a graph have the same.
#[derive(Clone, Copy)]
pub enum KeyColumns {
    First,
    Second,
    FirstTwo,
}

const ID: Column = Column::Number { most: MAX_ID };

const LENGTH: Column = Column::Small { most: MAX_LENGTH };

const YEAR: Column = Column::Small { most: MAX_YEAR };

const PLACE: [Column; 4] = [ID, Column::Words, Column::Words, Column::Words];

const NAMED: [Column; 3] = [ID, Column::Words, Column::Words];

const PERSON: [Column; 8] = [
    ID,
    Column::Words,
    Column::Words,
    Column::Words,
    Column::Day,
    Column::Date,
    Column::Words,
    Column::Words,
];

const FORUM: [Column; 3] = [ID, Column::Words, Column::Date];

const POST: [Column; 8] = [
    ID,
    Column::Words,
    Column::Date,
    Column::Words,
    Column::Words,
    Column::Words,
    Column::Words,
    LENGTH,
];

const COMMENT: [Column; 6] = [
    ID,
    Column::Date,
    Column::Words,
    Column::Words,
    Column::Words,
    LENGTH,
];

const LINK: [Column; 2] = [ID, ID];

const DATED: [Column; 3] = [ID, ID, Column::Date];

const YEARED: [Column; 3] = [ID, ID, YEAR];

const WORD: [Column; 2] = [ID, Column::Word];

/// What is fixed of a table.
#[derive(Clone, Copy)]
pub struct Layout {
    /// The name by which its files are named.
    pub name: &'static str,
    /// What its rows are like.
    pub shape: Shape,
    /// The columns that are its key.
    pub key_columns: KeyColumns,
    /// The kind of node that the first id of its rows refers to.
    pub from_kind: Option<Kind>,
    /// The kind of node that the second column refers to.
    pub to_kind: Option<Kind>,
    /// The kind of node of which each must have a row of it.
    pub required_of: Option<Kind>,
    /// Whether its edges have no direction: a row has the lower id first.
    pub has_no_direction: bool,
    /// Whether part 0 of its file must be there.
    pub is_needed: bool,
    /// The other table with which it shares its keys.
    pub shares: Option<Table>,
}

// A table of nodes.
fn node(name: &'static str, shape: Shape, is_needed: bool, shares: Option<Table>) -> Layout
    ensures { result ≡ record {
      name = name.entry;
      shape = shape;
      key_columns = keys.First;
      from_kind = None;
      to_kind = None;
      required_of = None;
      has_no_direction = false;
      is_needed = is_needed;
      shares = shares;
    } }
{
    Layout {
        name,
        shape,
        key_columns: First,
        from_kind: None,
        to_kind: None,
        required_of: None,
        has_no_direction: false,
        is_needed,
        shares,
    }
}

// A table of edges.
fn edge(
    name: &'static str,
    shape: Shape,
    key_columns: KeyColumns,
    from: Kind,
    to: Kind,
    required_of: Option<Kind>,
    has_no_direction: bool,
    is_needed: bool,
    shares: Option<Table>,
) -> Layout
    ensures { result ≡ record {
      name = name.entry;
      shape = shape;
      key_columns = key_columns;
      from_kind = Some from;
      to_kind = Some to;
      required_of = required_of;
      has_no_direction = has_no_direction;
      is_needed = is_needed;
      shares = shares;
    } }
{
    Layout {
        name,
        shape,
        key_columns,
        from_kind: Some(from),
        to_kind: Some(to),
        required_of,
        has_no_direction,
        is_needed,
        shares,
    }
}

// A table of words.
fn word(name: &'static str, key_columns: KeyColumns, from: Kind, is_needed: bool) -> Layout
    ensures { result ≡ record {
      name = name.entry;
      shape = shapes.Word;
      key_columns = key_columns;
      from_kind = Some from;
      to_kind = None;
      required_of = None;
      has_no_direction = false;
      is_needed = is_needed;
      shares = None;
    } }
{
    Layout {
        name,
        shape: Shape::Word,
        key_columns,
        from_kind: Some(from),
        to_kind: None,
        required_of: None,
        has_no_direction: false,
        is_needed,
        shares: None,
    }
}

/// What is fixed of the table, in the positions of its own constructor: that of nodes has name, shape,
/// is needed and shares, that of edges name, shape, key columns, from, to, required of, has no
/// direction, is needed and shares, and that of words name, key columns, from and is needed.
#[rattlefmt::skip]
pub fn layout_of(table: Table) -> Layout
    ensures { IsLayoutOf table result }
{
    match table {
        Table::Place => node("place", Shape::Place, true, None),
        Table::TagClass => node("tagclass", Shape::TagClass, true, None),
        Table::Tag => node("tag", Shape::Tag, true, None),
        Table::Organisation => node("organisation", Shape::Organisation, true, None),
        Table::Person => node("person", Shape::Person, true, None),
        Table::Forum => node("forum", Shape::Forum, true, None),
        Table::Post => node("post", Shape::Post, true, None),
        Table::Comment => node("comment", Shape::Comment, true, Some(Table::Post)),
        Table::PlaceIsPartOfPlace => edge("place_isPartOf_place", Link, First, Place, Place, None, false, true, None),
        Table::TagClassIsSubclassOfTagClass => edge("tagclass_isSubclassOf_tagclass", Link, First, TagClass, TagClass, None, false, true, None),
        Table::TagHasTypeTagClass => edge("tag_hasType_tagclass", Link, First, Tag, TagClass, Some(Tag), false, true, None),
        Table::OrganisationIsLocatedInPlace =>
            edge("organisation_isLocatedIn_place", Link, First, Organisation, Place, Some(Organisation), false, true, None),
        Table::PersonEmailEmailAddress => word("person_email_emailaddress", FirstTwo, Person, true),
        Table::PersonSpeaksLanguage => word("person_speaks_language", FirstTwo, Person, true),
        Table::PersonHasInterestTag => edge("person_hasInterest_tag", Link, FirstTwo, Person, Tag, None, false, true, None),
        Table::PersonIsLocatedInPlace => edge("person_isLocatedIn_place", Link, First, Person, Place, Some(Person), false, true, None),
        Table::PersonKnowsPerson => edge("person_knows_person", Dated, FirstTwo, Person, Person, None, true, true, None),
        Table::PersonLikesPost => edge("person_likes_post", Dated, FirstTwo, Person, Post, None, false, true, None),
        Table::PersonLikesComment => edge("person_likes_comment", Dated, FirstTwo, Person, Comment, None, false, true, None),
        Table::PersonStudyAtOrganisation => edge("person_studyAt_organisation", Yeared, FirstTwo, Person, Organisation, None, false, true, None),
        Table::PersonWorkAtOrganisation => edge("person_workAt_organisation", Yeared, FirstTwo, Person, Organisation, None, false, true, None),
        Table::ForumContainerOfPost => edge("forum_containerOf_post", Link, Second, Forum, Post, Some(Post), false, true, None),
        Table::ForumHasMemberPerson => edge("forum_hasMember_person", Dated, FirstTwo, Forum, Person, None, false, true, None),
        Table::ForumHasModeratorPerson => edge("forum_hasModerator_person", Link, First, Forum, Person, Some(Forum), false, true, None),
        Table::ForumHasTagTag => edge("forum_hasTag_tag", Link, FirstTwo, Forum, Tag, None, false, true, None),
        Table::PostHasCreatorPerson => edge("post_hasCreator_person", Link, First, Post, Person, Some(Post), false, true, None),
        Table::PostHasTagTag => edge("post_hasTag_tag", Link, FirstTwo, Post, Tag, None, false, true, None),
        Table::PostIsLocatedInPlace => edge("post_isLocatedIn_place", Link, First, Post, Place, Some(Post), false, true, None),
        Table::CommentHasCreatorPerson => edge("comment_hasCreator_person", Link, First, Comment, Person, Some(Comment), false, true, None),
        Table::CommentHasTagTag => edge("comment_hasTag_tag", Link, FirstTwo, Comment, Tag, None, false, true, None),
        Table::CommentIsLocatedInPlace => edge("comment_isLocatedIn_place", Link, First, Comment, Place, Some(Comment), false, true, None),
        Table::CommentReplyOfPost => edge("comment_replyOf_post", Link, First, Comment, Post, Some(Comment), false, true, None),
        Table::CommentReplyOfComment =>
            edge("comment_replyOf_comment", Link, First, Comment, Comment, None, false, true, Some(Table::CommentReplyOfPost)),
    }
}

/// What the rows of the table are like.
pub fn shape_of(table: Table) -> Shape
    ensures { result ≡ shape table }
{
    layout_of(table).shape
}

/// The columns of the table, in the order of its lines: this project's profile of LDBC SNB's
/// CsvBasic layout.
pub fn columns_of(table: Table) -> &'static [Column]
    ensures { result.now ≡ columns table }
{
    match shape_of(table) {
        Shape::Place | Shape::Organisation => &PLACE,
        Shape::TagClass | Shape::Tag => &NAMED,
        Shape::Person => &PERSON,
        Shape::Forum => &FORUM,
        Shape::Post => &POST,
        Shape::Comment => &COMMENT,
        Shape::Link => &LINK,
        Shape::Dated => &DATED,
        Shape::Yeared => &YEARED,
        Shape::Word => &WORD,
    }
}

/// Whether an edge of the table has no direction: its row has the lower id first.
pub fn is_undirected(table: Table) -> bool
    ensures value { result ≡ has_no_direction table }
    ensures friends { IsTrue result → table ≡ tables.PersonKnowsPerson }
{
    layout_of(table).has_no_direction
}

/// The columns of the table that are its key.
pub fn key_columns_of(table: Table) -> KeyColumns
    ensures { result ≡ key_columns table }
{
    layout_of(table).key_columns
}
