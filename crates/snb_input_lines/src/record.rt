//! The fields of a line.

ghost use Rattle.std.specs.Prelude.{◌≡◌, ◌+◌, ◌^◌, ◌<◌, IfSome, [], length, option_map};
ghost use Rattle.snb_input_lines.specs.Records.{field_at};

use csv::ByteRecord;
use std::alloc::Global;
use std::marker::Model;

/// The fields of a line, in order. A contract sees the list of their bytes.
pub struct Record {
    pub(crate) row: ByteRecord,
}

impl Drop for Record {
    fn drop(self) {
        let Record { row: _ } = self;
    }
}

impl Model for Record {
    ghost use Rattle.std.specs.Prelude.{ℕ, List};
    ghost use Rattle.csv.specs.Records.{fields_of};

    ghost Value = { List (List ℕ) };

    ghost view = { λ r. fields_of r.row };
}

impl Record {
    /// No fields. Takes no memory.
    pub fn new(alloc: Global) -> Record
        ensures { result ≡ [] }
    {
        Record {
            row: ByteRecord::new(alloc),
        }
    }

    /// How many fields there are.
    pub fn len(&self) -> usize
        ensures { result ≡ length self.now }
    {
        self.row.len()
    }

    /// The field at this place, counted from 0. None where there are no more than so many. No record
    /// has 2^64 fields (`place`).
    pub fn get(&self, place: usize) -> Option<&[u8]>
        ensures place { IfSome result (λ _. place + 1 < 2 ^ 64) }
        ensures value { option_map (λ field. field.now) result ≡ field_at self.now place }
    {
        self.row.get(place)
    }
}
