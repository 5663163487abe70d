//! A table's rows, lent and copied.

ghost use Rattle.std.specs.Prelude.{◌≡◌, length};
ghost use Rattle.std.specs.Iterator.{at_most};
ghost use Rattle.std.specs.Map.Iter.{TakesFirst};
ghost use Rattle.snb_schema.specs.LentRows.{lent_row};
ghost use Rattle.snb_graph_tables.specs.Left.{left_rows};
ghost use Rattle.snb_graph_rows.specs.Rows.{GivesRow};

use snb_graph_rows::{Class, EdgeKey, MappedRows, Mark, WordKey};
use snb_schema::{Comment, Forum, LentRow, Named, Organisation, Person, Place, Post, Row};
use std::alloc::AllocError;
use std::marker::Model;

/// The rows of one part that a walk has still to give.
#[derive(Drop)]
pub(crate) enum Left<'a> {
    Place {
        rows: MappedRows<'a, u64, Place>,
    },
    TagClass {
        rows: MappedRows<'a, u64, Class>,
    },
    Tag {
        rows: MappedRows<'a, u64, Named>,
    },
    Organisation {
        rows: MappedRows<'a, u64, Organisation>,
    },
    Person {
        rows: MappedRows<'a, u64, Person>,
    },
    Forum {
        rows: MappedRows<'a, u64, Forum>,
    },
    Post {
        rows: MappedRows<'a, u64, Post>,
    },
    Comment {
        rows: MappedRows<'a, u64, Comment>,
    },
    Edges {
        rows: MappedRows<'a, EdgeKey, u64>,
    },
    Words {
        rows: MappedRows<'a, WordKey, Mark>,
    },
}

/// A table's rows, in the order of their keys. A contract sees those that are still to come.
pub struct LentRows<'a> {
    left: Left<'a>,
}

impl Drop for LentRows<'_> {
    fn drop(self) {
        let LentRows { left: _ } = self;
    }
}

impl<'a> Model for LentRows<'a> {
    ghost use Rattle.std.specs.Prelude.{List};
    ghost use Rattle.snb_schema.specs.declared.row.Row.{Row};
    ghost use Rattle.snb_graph_tables.specs.Left.{left_rows};

    ghost Value = { List Row };

    ghost view = { λ w. left_rows w.left };
}

impl<'a> LentRows<'a> {
    // A walk over what is left.
    pub(crate) fn over(left: Left<'a>) -> LentRows<'a>
        ensures { result ≡ left_rows left.entry }
    {
        LentRows { left }
    }
}

impl<'a> Iterator for LentRows<'a> {
    type Item = LentRow<'a>;

    ghost next_gives = { TakesFirst lent_row };

    ghost remaining = { λ s. at_most (length s) };

    fn next(&mut self) -> Option<LentRow<'a>> {
        match &mut self.left {
            Left::Place { rows } => rows.next(),
            Left::TagClass { rows } => rows.next(),
            Left::Tag { rows } => rows.next(),
            Left::Organisation { rows } => rows.next(),
            Left::Person { rows } => rows.next(),
            Left::Forum { rows } => rows.next(),
            Left::Post { rows } => rows.next(),
            Left::Comment { rows } => rows.next(),
            Left::Edges { rows } => rows.next(),
            Left::Words { rows } => rows.next(),
        }
    }
}

/// Copies of a table's rows, in the order of their keys, each as a `Result`. After an `Err` there
/// are no more. A contract sees the rows that are still to come.
pub struct TableRows<'a> {
    left: LentRows<'a>,
    ended: bool,
}

impl Drop for TableRows<'_> {
    fn drop(self) {
        let TableRows { left: _, ended: _ } = self;
    }
}

impl<'a> Model for TableRows<'a> {
    ghost use Rattle.std.specs.Prelude.{List};
    ghost use Rattle.snb_schema.specs.declared.row.Row.{Row};
    ghost use Rattle.snb_graph_rows.specs.Rows.{rows_left};

    ghost Value = { List Row };

    ghost view = { λ w. rows_left w.ended w.left };
}

impl<'a> TableRows<'a> {
    // Copies of the rows of a walk.
    pub(crate) fn of(left: LentRows<'a>) -> TableRows<'a>
        ensures { result ≡ left.entry }
    {
        TableRows { left, ended: false }
    }
}

impl<'a> Iterator for TableRows<'a> {
    type Item = Result<Row, AllocError>;

    ghost next_gives = { GivesRow };

    ghost remaining = { λ s. at_most (length s) };

    fn next(&mut self) -> Option<Result<Row, AllocError>> {
        if self.ended {
            return None;
        }
        let row = self.left.next()?.try_copy();
        if row.is_err() {
            self.ended = true;
        }
        Some(row)
    }
}
