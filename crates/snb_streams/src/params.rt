//! The reader of a parameter file.

ghost use Rattle.std.specs.Prelude.{◌≡◌, All, IfOk, IsUtf8};
ghost use Rattle.snb_schema.specs.Faults.{OnBadColumn};
ghost use Rattle.snb_schema.specs.ParameterLines.{IsBadQuery, SpellsQuery, query_columns};
ghost use Rattle.snb_schema.specs.Queries.{IsComplex};

use snb_input_fields::{FieldReader, read_query};
use snb_input_lines::{Grammar, LineReader, Open, Record};
use snb_schema::{Column, FileId, FileKind, LineFault, Query, ReadKind, is_complex};
use std::alloc::Global;
use std::marker::Model;

/// The columns of the parameters of the query of this number: none, where it isn't one of the seven.
pub fn columns_of(query: u32) -> &'static [Column]
    ensures { result.now ≡ query_columns query }
{
    match ReadKind::of_number(query) {
        Some(kind) => kind.columns(),
        None => &[],
    }
}

/// The query of this number whose parameters the fields spell. The number is one of the seven
/// (`complex`), and the fields are UTF-8 (`texts`).
///
/// Where they spell none, the error is their bad column: 0 where they aren't one for each parameter,
/// else the first that spells no value of its column, counted from 1. The other error is want of memory.
pub fn read_parameters(alloc: Global, query: u32, fields: &Record) -> Result<Query, LineFault>
    requires texts { All IsUtf8 fields.now }
    requires complex { IsComplex query }
    ensures ok { IfOk result (SpellsQuery query fields.now) }
    ensures bad { OnBadColumn result (IsBadQuery query fields.now) }
{
    let Some(kind) = ReadKind::of_number(query) else {
        unreachable!()
    };
    let columns = kind.columns();
    if fields.len() != columns.len() {
        return Err(LineFault::Bad { column: 0 });
    }
    read_query(kind, &mut FieldReader::new(alloc, columns, fields))
}

/// What the lines of a parameter file say: of the header only the number of fields counts, and each
/// later line has the parameters of one query. Where the number isn't one of the seven, no later line is
/// right.
pub struct QueryLines {
    alloc: Global,
    query: u32,
}

impl Drop for QueryLines {
    fn drop(self) {
        let QueryLines { alloc: _, query: _ } = self;
    }
}

impl Model for QueryLines {
    ghost use Rattle.std.specs.Prelude.{ℕ};

    ghost Value = { ℕ };

    ghost view = { λ q. q.query };
}

impl QueryLines {
    /// Those of the parameter file of this query.
    pub fn new(alloc: Global, query: u32) -> QueryLines
        ensures { result ≡ query }
    {
        QueryLines { alloc, query }
    }
}

impl Open for QueryLines {
    type Named = u32;

    ghost use Rattle.snb_schema.specs.Queries.{IsComplex};
    ghost use Rattle.snb_streams.specs.Parameters.{params_file};

    ghost can_open = { IsComplex };

    ghost file_of = { params_file };

    ghost grammar_of = { λ query. query };

    fn file(named: u32) -> FileId {
        FileId {
            kind: FileKind::Params { query: named },
            part: 0,
        }
    }

    fn open(alloc: Global, named: u32) -> QueryLines {
        QueryLines::new(alloc, named)
    }
}

impl Grammar for QueryLines {
    type Item = Query;

    type Known = ();

    ghost use Rattle.snb_streams.specs.Parameters.{params_language};

    ghost language = { params_language };

    fn begin(&self) -> Option<()> {
        None
    }

    fn splits(&self) -> bool {
        true
    }

    fn read_header(&self, _line: &[u8], fields: &Record) -> Result<(), LineFault> {
        if fields.len() == columns_of(self.query).len() {
            Ok(())
        } else {
            Err(LineFault::Bad { column: 0 })
        }
    }

    fn read_item(
        &self,
        _known: &(),
        _number: u32,
        _line: &[u8],
        fields: &Record,
    ) -> Result<Query, LineFault> {
        if !is_complex(self.query) {
            return Err(LineFault::Bad { column: 0 });
        }
        read_parameters(self.alloc, self.query, fields)
    }
}

/// Turns the pieces of a parameter file into queries: `Params::new(alloc, query)`, where the number of
/// the query is 1, 2, 7, 8, 9, 11 or 13. It is the reader of lines of `snb_input_lines`, so a line is refused
/// for its bytes first; then the first line with a byte is refused where it hasn't a field for each
/// parameter, and a later one in its first bad column. No extra field is passed over.
///
/// The parameters of the complex queries are those of LDBC SNB Interactive v1: a person and a first
/// name for 1, a person and a greatest date for 2 and 9, a person for 7 and 8, a person, a country
/// and a year for 11, and two persons for 13.
pub type Params = LineReader<QueryLines>;
