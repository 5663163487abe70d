//! A sink of inserts whose t never falls in a file.

ghost use Rattle.std.specs.Prelude.{◌≡◌, refl};
ghost use Rattle.snb_streams.specs.Order.{OrderRefuses, OrderTakes};

use snb_input_lines::Sink;
use snb_schema::{Fault, FileId, Line, Refusal};
use std::alloc::AllocError;

/// Refuses an insert as `OutOfOrder` where its t is below that of the insert before it in the same
/// file. The sink takes the others.
#[derive(Drop)]
pub struct InOrder<S> {
    /// The t of the last insert of the file, or 0 before the first.
    pub last: u64,
    /// What takes the inserts.
    pub sink: S,
}

impl<S: Sink<Line>> Sink<Line> for InOrder<S> {
    ghost meaning = { record {
      fits = S.meaning.fits;
      takes = λ old file x new. OrderTakes old.last x new.last × S.meaning.takes old.sink file x new.sink;
      refuses = λ old file x r. OrderRefuses old.last file x (S.meaning.refuses old.sink file x) r;
      same = λ old new. S.meaning.same old.sink new.sink × (new.last ≡ old.last);
      ends = λ old file. S.meaning.ends old.sink file;
      turns = λ old new. S.meaning.turns old.sink new.sink × (new.last ≡ 0);
    } };

    fn put(&mut self, file: FileId, item: Line) -> Result<(), Fault> {
        let t = item.t;
        if t < self.last {
            return Err(Fault::Bad {
                refusal: Refusal::OutOfOrder {
                    file,
                    line: item.number,
                },
            });
        }
        self.sink.put(file, item)?;
        self.last = t;
        Ok(())
    }

    fn at_end(&self, file: FileId) -> Option<Refusal> {
        self.sink.at_end(file)
    }

    fn next_file(&mut self) -> Result<(), AllocError> {
        self.sink.next_file()?;
        self.last = 0;
        Ok(())
    }

    ghost same_self = { λ s. (S.same_self s.sink, refl) };
}
