//! Rows of the tables.

ghost use Rattle.std.specs.Prelude.{◌≡◌, IfOk};
ghost use Rattle.snb_schema.specs.LentRows.{lent_row};

use crate::nodes::{Comment, Forum, Named, Organisation, Place, Post};
use crate::person::Person;
use crate::table::Table;
use snb_base::Text;
use std::alloc::AllocError;

/// A row of one of the tables. An edge tells its table, and its two ends in the order of the
/// table's name.
#[derive(Clone, Drop)]
pub enum Row {
    /// A row of the table place.
    Place {
        place: Place,
    },
    /// A row of the table tagclass.
    TagClass {
        named: Named,
    },
    /// A row of the table tag.
    Tag {
        named: Named,
    },
    /// A row of the table organisation.
    Organisation {
        organisation: Organisation,
    },
    /// A row of the table person.
    Person {
        person: Person,
    },
    /// A row of the table forum.
    Forum {
        forum: Forum,
    },
    /// A row of the table post.
    Post {
        post: Post,
    },
    /// A row of the table comment.
    Comment {
        comment: Comment,
    },
    /// A row of a table of edges.
    Link {
        table: Table,
        from: u64,
        to: u64,
    },
    /// A row of a table of edges with dates. That of a friendship has the lower id first.
    Dated {
        table: Table,
        from: u64,
        to: u64,
        /// In milliseconds since 1970-01-01 UTC.
        date: u64,
    },
    /// A row of a table of edges with years.
    Yeared {
        table: Table,
        from: u64,
        to: u64,
        year: u32,
    },
    /// A row of a table of persons' emails or languages.
    Word {
        table: Table,
        person: u64,
        /// Isn't empty.
        text: Text,
    },
}

/// A row that is lent: what a `Row` is, with what it points to.
#[derive(Clone, Copy)]
pub enum LentRow<'a> {
    Place {
        place: &'a Place,
    },
    TagClass {
        named: &'a Named,
    },
    Tag {
        named: &'a Named,
    },
    Organisation {
        organisation: &'a Organisation,
    },
    Person {
        person: &'a Person,
    },
    Forum {
        forum: &'a Forum,
    },
    Post {
        post: &'a Post,
    },
    Comment {
        comment: &'a Comment,
    },
    Link {
        table: Table,
        from: u64,
        to: u64,
    },
    Dated {
        table: Table,
        from: u64,
        to: u64,
        date: u64,
    },
    Yeared {
        table: Table,
        from: u64,
        to: u64,
        year: u32,
    },
    Word {
        table: Table,
        person: u64,
        text: &'a Text,
    },
}

impl LentRow<'_> {
    /// A copy of the row.
    pub fn try_copy(self) -> Result<Row, AllocError>
        ensures { IfOk result (λ row. row ≡ lent_row self.entry) }
    {
        Ok(match self {
            LentRow::Place { place } => Row::Place {
                place: place.clone()?,
            },
            LentRow::TagClass { named } => Row::TagClass {
                named: named.clone()?,
            },
            LentRow::Tag { named } => Row::Tag {
                named: named.clone()?,
            },
            LentRow::Organisation { organisation } => Row::Organisation {
                organisation: organisation.clone()?,
            },
            LentRow::Person { person } => Row::Person {
                person: person.clone()?,
            },
            LentRow::Forum { forum } => Row::Forum {
                forum: forum.clone()?,
            },
            LentRow::Post { post } => Row::Post {
                post: post.clone()?,
            },
            LentRow::Comment { comment } => Row::Comment {
                comment: comment.clone()?,
            },
            LentRow::Link { table, from, to } => Row::Link { table, from, to },
            LentRow::Dated {
                table,
                from,
                to,
                date,
            } => Row::Dated {
                table,
                from,
                to,
                date,
            },
            LentRow::Yeared {
                table,
                from,
                to,
                year,
            } => Row::Yeared {
                table,
                from,
                to,
                year,
            },
            LentRow::Word {
                table,
                person,
                text,
            } => Row::Word {
                table,
                person,
                text: text.clone()?,
            },
        })
    }
}

impl Row {
    /// The row, lent.
    pub fn lend(&self) -> LentRow<'_>
        ensures { lent_row result ≡ self.now }
    {
        match self {
            Row::Place { place } => LentRow::Place { place },
            Row::TagClass { named } => LentRow::TagClass { named },
            Row::Tag { named } => LentRow::Tag { named },
            Row::Organisation { organisation } => LentRow::Organisation { organisation },
            Row::Person { person } => LentRow::Person { person },
            Row::Forum { forum } => LentRow::Forum { forum },
            Row::Post { post } => LentRow::Post { post },
            Row::Comment { comment } => LentRow::Comment { comment },
            Row::Link { table, from, to } => LentRow::Link {
                table: *table,
                from: *from,
                to: *to,
            },
            Row::Dated {
                table,
                from,
                to,
                date,
            } => LentRow::Dated {
                table: *table,
                from: *from,
                to: *to,
                date: *date,
            },
            Row::Yeared {
                table,
                from,
                to,
                year,
            } => LentRow::Yeared {
                table: *table,
                from: *from,
                to: *to,
                year: *year,
            },
            Row::Word {
                table,
                person,
                text,
            } => LentRow::Word {
                table: *table,
                person: *person,
                text,
            },
        }
    }
}

/// A row, and where it stands in its file.
#[derive(Drop)]
pub struct Placed {
    /// The line of its file, counted from 1.
    pub line: u32,
    pub row: Row,
    /// Whether the line has the two ends of the row the other way round, as a friendship's may.
    pub turned: bool,
}
