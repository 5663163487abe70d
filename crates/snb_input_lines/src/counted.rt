//! A sink that takes so many items at most.

ghost use Rattle.std.specs.Prelude.{◌≡◌, ◌↔◌, IsTrue, refl};
ghost use Rattle.snb_input_lines.specs.Counts.{CountsOne, IsFull, counting};

use crate::sink::Sink;
use snb_schema::{Counted, Fault, FileId, Refusal};
use std::alloc::AllocError;

/// Counts the data lines of all files, where there is a limit, and refuses the first one too many as
/// `TooMany` rows. The sink takes the others.
#[derive(Drop)]
pub struct RowCount<S> {
    /// How many there may be, where there is a limit.
    pub most: Option<u64>,
    /// How many data lines were counted, in all files.
    pub rows: u64,
    /// What takes the items.
    pub sink: S,
}

// Whether no more may be read.
fn is_full(most: Option<u64>, rows: u64) -> bool
    ensures { IsTrue result ↔ IsFull most rows }
{
    match most {
        None => false,
        Some(most) => rows >= most,
    }
}

// The count with one more, where there is a limit.
fn with_one(most: Option<u64>, rows: u64) -> u64
    requires { ¬ IsFull most rows }
    ensures { CountsOne most rows result }
{
    match most {
        None => rows,
        Some(_) => rows + 1,
    }
}

impl<T: Drop, S: Sink<T>> Sink<T> for RowCount<S> {
    ghost meaning = { counting S.meaning };

    fn put(&mut self, file: FileId, item: T) -> Result<(), Fault> {
        if is_full(self.most, self.rows) {
            return Err(Fault::Bad {
                refusal: Refusal::TooMany {
                    what: Counted::Rows,
                },
            });
        }
        self.sink.put(file, item)?;
        self.rows = with_one(self.most, self.rows);
        Ok(())
    }

    fn at_end(&self, file: FileId) -> Option<Refusal> {
        self.sink.at_end(file)
    }

    fn next_file(&mut self) -> Result<(), AllocError> {
        self.sink.next_file()
    }

    ghost same_self = { λ s. (S.same_self s.sink, refl, refl) };
}
