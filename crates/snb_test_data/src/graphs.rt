//! A graph of friendships and forums and another one, and which of the friendships are frozen.

ghost use Rattle.std.specs.Prelude.{IfOk};
ghost use Rattle.snb_schema.specs.TableRows.{IsTableRow};

use snb_base::Text;
use snb_graph::{Graph, Links};
use snb_graph_tables::{Insert, TableRows};
use snb_schema::{Forum, MAX_ID, MAX_TIME, Row, Table};
use snb_test_script::{
    Flaw, List, first_word, nothing, number_of, told, told_number, told_whether, two_numbers,
};
use std::alloc::{AllocError, Global};
use std::mem;

/// A graph, to which the calls go, and the other one.
pub(crate) struct Graphs {
    graph: Graph,
    other: Graph,
}

impl Drop for Graphs {
    fn drop(self) {
        let Graphs { graph: _, other: _ } = self;
    }
}

// The row of a friendship, `LOW HIGH DATE`.
fn friendship(rest: &str) -> Result<Row, Flaw>
    ensures { IfOk result IsTableRow }
{
    let (low, rest) = first_word(rest);
    let low = number_of(low)?;
    let (high, date) = two_numbers(rest)?;
    if low >= high || high > MAX_ID || date > MAX_TIME {
        return Err(Flaw::OtherValue);
    }
    Ok(Row::Dated {
        table: Table::PersonKnowsPerson,
        from: low,
        to: high,
        date,
    })
}

// The row of a forum without a title, `ID DATE`.
fn forum(alloc: Global, rest: &str) -> Result<Row, Flaw>
    ensures { IfOk result IsTableRow }
{
    let (id, creation_date) = two_numbers(rest)?;
    if id > MAX_ID || creation_date > MAX_TIME {
        return Err(Flaw::OtherValue);
    }
    Ok(Row::Forum {
        forum: Forum::named(id, Text::new(alloc), creation_date),
    })
}

// Adds a pair of an id and a date to a list.
fn add_pair(alloc: Global, list: &mut List, id: u64, date: u64) -> Result<(), AllocError> {
    let item = format!(in alloc; "{id}|{date}")?;
    list.add(item.as_str())
}

// The pairs of a walk as a list.
fn told_links(alloc: Global, links: Links<'_>) -> Result<String, Flaw> {
    let mut list = List::new(alloc);
    for (id, date) in links {
        match add_pair(alloc, &mut list, id, date) {
            Ok(()) => {}
            Err(_) => return Err(Flaw::Memory),
        }
    }
    list.told(alloc)
}

// The pairs of one part of a walk as a list.
fn told_pairs(alloc: Global, pairs: &[(u64, u64)]) -> Result<String, Flaw> {
    let mut list = List::new(alloc);
    for pair in pairs {
        match add_pair(alloc, &mut list, pair.0, pair.1) {
            Ok(()) => {}
            Err(_) => return Err(Flaw::Memory),
        }
    }
    list.told(alloc)
}

// Rows of friendships and of forums as a list: ends, or id and date.
fn told_rows(alloc: Global, rows: TableRows<'_>) -> Result<String, Flaw> {
    let mut list = List::new(alloc);
    for row in rows {
        let added = match row? {
            Row::Dated {
                table: _,
                from,
                to,
                date: _,
            } => add_pair(alloc, &mut list, from, to),
            Row::Forum { forum } => add_pair(alloc, &mut list, forum.id, forum.creation_date),
            _ => return Err(Flaw::OtherValue),
        };
        match added {
            Ok(()) => {}
            Err(_) => return Err(Flaw::Memory),
        }
    }
    list.told(alloc)
}

impl Graphs {
    /// Two graphs without rows.
    pub fn new(alloc: Global) -> Graphs {
        Graphs {
            graph: Graph::empty(alloc),
            other: Graph::empty(alloc),
        }
    }

    // Adds a row.
    fn add(&mut self, alloc: Global, row: Row) -> Result<String, Flaw>
        requires { IsTableRow row }
    {
        match self.graph.insert_row(row) {
            Ok(()) => told(alloc, "Ok"),
            Err(Insert::Duplicate) => told(alloc, "Duplicate"),
            Err(Insert::Memory) => Err(Flaw::Memory),
        }
    }

    // `freeze`
    fn freeze(&mut self, alloc: Global, rest: &str) -> Result<String, Flaw> {
        nothing(rest)?;
        self.graph.freeze()?;
        told(alloc, "")
    }

    // `copy`
    fn copy(&mut self, alloc: Global, rest: &str) -> Result<String, Flaw> {
        nothing(rest)?;
        let copy = self.graph.try_copy()?;
        self.other = mem::replace(&mut self.graph, copy);
        told(alloc, "")
    }

    // `other`
    fn change(&mut self, alloc: Global, rest: &str) -> Result<String, Flaw> {
        nothing(rest)?;
        mem::swap(&mut self.graph, &mut self.other);
        told(alloc, "")
    }

    /// Makes the call of this word, and tells what it answers; None where there is no such call of a
    /// graph.
    pub fn answer(
        &mut self,
        alloc: Global,
        call: &str,
        rest: &str,
    ) -> Result<Option<String>, Flaw> {
        let answer = match call {
            "know" => self.add(alloc, friendship(rest)?)?,
            "forum" => self.add(alloc, forum(alloc, rest)?)?,
            "same_friendship" => told_whether(alloc, self.graph.same_row(&friendship(rest)?))?,
            "same_forum" => told_whether(alloc, self.graph.same_row(&forum(alloc, rest)?))?,
            "freeze" => self.freeze(alloc, rest)?,
            "copy" => self.copy(alloc, rest)?,
            "other" => self.change(alloc, rest)?,
            "rows" => told_number(alloc, self.graph.rows())?,
            "forums" => told_rows(alloc, self.graph.each(Table::Forum))?,
            "friendships" => told_rows(alloc, self.graph.each(Table::PersonKnowsPerson))?,
            "friends" => told_links(alloc, self.graph.friends(number_of(rest)?))?,
            "frozen" => told_pairs(alloc, self.graph.friends(number_of(rest)?).frozen())?,
            "added" => told_pairs(alloc, self.graph.friends(number_of(rest)?).added())?,
            _ => return Ok(None),
        };
        Ok(Some(answer))
    }
}
