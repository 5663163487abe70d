//! The words of a read.

ghost use Rattle.std.specs.Prelude.{◌↔◌, List, IsTrue};
ghost use Rattle.std.specs.List.{AllByRecursion};
ghost use Rattle.snb_schema.specs.declared.column.Value.{Value as AnyValue};
ghost use Rattle.snb_schema.specs.declared.query.Query.{Query as AnyQuery};
ghost use Rattle.snb_schema.specs.Columns.{Spells, SpellsAll};
ghost use Rattle.snb_tool_words.specs.Commands.{IsReadOf};
ghost use Rattle.snb_tool_words.specs.Taken.{IsParameter};
ghost use Rattle.snb_tool_words.specs.Words.{texts_of};

use snb_base::read_number;
use snb_dates::read_date;
use snb_schema::{Column, ReadKind};

// Whether the word spells a value of the column. The condition: a parameter may have the column.
fn is_spelled(column: Column, word: &str) -> bool
    requires { IsParameter column }
    ensures { IsTrue result ↔ ((value : AnyValue) × Spells column word.now value) }
{
    let word = word.as_bytes();
    match column {
        Column::Number { most } => read_number(word, most).is_some(),
        Column::Small { most } => read_number(word, u64::from(most)).is_some(),
        Column::Date => read_date(word).is_some(),
        Column::Words => true,
        _ => unreachable!(),
    }
}

// Whether there is a word for each column, and it spells a value of the column. The condition:
// parameters may have the columns.
fn are_spelled(columns: &[Column], words: &[&str]) -> bool
    requires { AllByRecursion IsParameter columns.now }
    ensures { IsTrue result ↔ ((values : List AnyValue) × SpellsAll columns.now (texts_of words.now) values) }
{
    match columns {
        [] => words.is_empty(),
        [column, columns @ ..] => match words {
            [] => false,
            [word, words @ ..] => is_spelled(*column, word) && are_spelled(columns, words),
        },
    }
}

/// Whether the words are the kind and the parameters of a read. Takes no memory.
pub fn is_read(kind: &str, parameters: &[&str]) -> bool
    ensures { IsTrue result ↔ ((query : AnyQuery) × IsReadOf kind.now (texts_of parameters.now) query) }
{
    match ReadKind::of_word(kind) {
        Some(kind) => are_spelled(kind.columns(), parameters),
        None => false,
    }
}
