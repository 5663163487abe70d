//! The fields of a line, read one after another.

ghost use Rattle.std.specs.Prelude.{◌≡◌, ◌+◌, ◌<◌, ◌≤◌, ◌↔◌, ℕ, length, All, IsTrue, IsUtf8, IfOk, OnOk};
ghost use Rattle.snb_schema.specs.declared.column.Column.{Column as AnyColumn};
ghost use Rattle.snb_schema.specs.declared.column.Column.TheVariants as columns;
ghost use Rattle.snb_schema.specs.declared.column.Value.{Value as AnyValue};
ghost use Rattle.snb_schema.specs.declared.column.Value.TheVariants.{Digits, Ids, Letters, Pairs as PairsOf, SmallDigits, Texts as TextsOf};
ghost use Rattle.snb_schema.specs.declared.fault.LineFault.TheVariants as why;
ghost use Rattle.snb_schema.specs.Columns.{StopsAfter, no_id};
ghost use Rattle.snb_schema.specs.Faults.{OnBadColumn};
ghost use Rattle.snb_input_fields.specs.Reading.{IsBadIn, IsBadNext, IsNext, SpellsNext, at_first, optional_value, past, text_at};

use crate::fields::{Fields, LineFields};
use crate::lists::{read_ids, read_pairs, read_texts, text_of};
use crate::wide::COLUMNS_END;
use snb_base::{Numbers, Pairs, Text, Texts, read_number};
use snb_dates::{read_date, read_day};
use snb_input_lines::Record;
use snb_schema::{Column, LineFault, MAX_ID};
use std::alloc::Global;
use std::marker::Model;

// Whether a field stands for no id.
fn is_no_id(field: &[u8]) -> bool
    ensures { IsTrue result ↔ (field.now ≡ no_id) }
{
    field == "-1".as_bytes()
}

/// Reads the fields of a line by columns, each straight into what is made of it. A contract sees the
/// columns, the fields, and how many of them were read.
///
/// Each call reads the next field, whose column is one of the call's kind (`next`). Where the field
/// spells no value of it, the error is `Bad` with that column, counted from 1: all fields before spell
/// values of theirs. Only a text takes memory. After an error the reader is done with.
pub struct FieldReader<'a> {
    alloc: Global,
    columns: &'a [Column],
    fields: &'a Record,
    read: usize,
}

impl Drop for FieldReader<'_> {
    fn drop(self) {
        let FieldReader {
            alloc: _,
            columns: _,
            fields: _,
            read: _,
        } = self;
    }
}

impl<'a> Model for FieldReader<'a> {
    ghost use Rattle.snb_input_fields.specs.Reading.{IsSound, Reading};

    ghost Value = { Reading };

    ghost view = { λ r. record { columns = r.columns.now; fields = r.fields.now; read = r.read } };

    ghost invariant = { λ r. IsSound (record { columns = r.columns.now; fields = r.fields.now; read = r.read }) };
}

impl<'a> FieldReader<'a> {
    /// Before the first field of a line.
    ///
    /// The fields are UTF-8, and there is one for each column at least; what more there are isn't read.
    /// There are fewer columns than `COLUMNS_END`.
    pub fn new(alloc: Global, columns: &'a [Column], fields: &'a Record) -> FieldReader<'a>
        requires texts { All IsUtf8 fields.now }
        requires enough { length columns.now ≤ length fields.now }
        requires few { length columns.now < COLUMNS_END }
        ensures { result ≡ at_first columns.now fields.now }
    {
        FieldReader {
            alloc,
            columns,
            fields,
            read: 0,
        }
    }

    // The next field.
    fn next_field(&self) -> &[u8]
        requires next { (column : AnyColumn) × IsNext self.now column }
        ensures text { result.now ≡ text_at self.now.fields self.now.read }
        ensures utf8 { IsUtf8 result.now }
    {
        match self.fields.get(self.read) {
            Some(field) => field,
            None => unreachable!(),
        }
    }

    // Why the next field, which spells no value of its column, is refused.
    fn refusal(&self) -> LineFault
        requires bad { (column : AnyColumn) × IsNext self.now column
            × ((v : AnyValue) → ¬ SpellsNext self.now column v) }
        ensures column { result ≡ why.Bad (self.now.read + 1) }
        ensures stops { StopsAfter self.now.columns self.now.fields self.now.read }
    {
        LineFault::Bad {
            column: self.read as u32 + 1,
        }
    }

    /// Goes past the next field, which spells a value of its column.
    pub fn pass(&mut self)
        requires good { (column : AnyColumn) × IsNext self.old column × (v : AnyValue) × SpellsNext self.old column v }
        ensures { self.new ≡ past self.old }
    {
        self.read += 1;
    }

    /// Why the field that was read last is refused, where it doesn't go with one before it.
    pub fn clash(&self) -> LineFault
        ensures column { result ≡ why.Bad self.now.read }
        ensures first { (n : ℕ) → StopsAfter self.now.columns self.now.fields n → self.now.read ≤ n }
    {
        LineFault::Bad {
            column: self.read as u32,
        }
    }

    /// A number, in a column of numbers up to this one.
    pub fn number(&mut self, most: u64) -> Result<u64, LineFault>
        requires next { IsNext self.old (columns.Number most) }
        ensures ok { IfOk result (λ n. SpellsNext self.old (columns.Number most) (Digits n)) }
        ensures past { OnOk result (self.new ≡ past self.old) }
        ensures bad { OnBadColumn result (IsBadNext self.old) }
        ensures some { OnBadColumn result (IsBadIn self.old.columns self.old.fields) }
    {
        match read_number(self.next_field(), most) {
            Some(n) => {
                self.pass();
                Ok(n)
            }
            None => Err(self.refusal()),
        }
    }

    /// A year or a length, in a column of small numbers up to this one.
    pub fn small(&mut self, most: u32) -> Result<u32, LineFault>
        requires next { IsNext self.old (columns.Small most) }
        ensures ok { IfOk result (λ n. SpellsNext self.old (columns.Small most) (SmallDigits n)) }
        ensures past { OnOk result (self.new ≡ past self.old) }
        ensures bad { OnBadColumn result (IsBadNext self.old) }
        ensures some { OnBadColumn result (IsBadIn self.old.columns self.old.fields) }
    {
        match read_number(self.next_field(), u64::from(most)) {
            Some(n) => {
                self.pass();
                Ok(n as u32)
            }
            None => Err(self.refusal()),
        }
    }

    /// A date and time, in milliseconds since 1970-01-01 UTC.
    pub fn date(&mut self) -> Result<u64, LineFault>
        requires next { IsNext self.old columns.Date }
        ensures ok { IfOk result (λ n. SpellsNext self.old columns.Date (Digits n)) }
        ensures past { OnOk result (self.new ≡ past self.old) }
        ensures bad { OnBadColumn result (IsBadNext self.old) }
        ensures some { OnBadColumn result (IsBadIn self.old.columns self.old.fields) }
    {
        match read_date(self.next_field()) {
            Some(n) => {
                self.pass();
                Ok(n)
            }
            None => Err(self.refusal()),
        }
    }

    /// A day, in milliseconds since 1970-01-01 UTC.
    pub fn day(&mut self) -> Result<u64, LineFault>
        requires next { IsNext self.old columns.Day }
        ensures ok { IfOk result (λ n. SpellsNext self.old columns.Day (Digits n)) }
        ensures past { OnOk result (self.new ≡ past self.old) }
        ensures bad { OnBadColumn result (IsBadNext self.old) }
        ensures some { OnBadColumn result (IsBadIn self.old.columns self.old.fields) }
    {
        match read_day(self.next_field()) {
            Some(n) => {
                self.pass();
                Ok(n)
            }
            None => Err(self.refusal()),
        }
    }

    /// A text, which may be empty. The one error is want of memory.
    pub fn text(&mut self) -> Result<Text, LineFault>
        requires next { IsNext self.old columns.Words }
        ensures ok { IfOk result (λ text. SpellsNext self.old columns.Words (Letters text)) }
        ensures past { OnOk result (self.new ≡ past self.old) }
        ensures bad { OnBadColumn result (λ _. ⊥) }
    {
        let text = text_of(self.alloc, self.next_field())?;
        self.pass();
        Ok(text)
    }

    /// A text that isn't empty.
    pub fn word(&mut self) -> Result<Text, LineFault>
        requires next { IsNext self.old columns.Word }
        ensures ok { IfOk result (λ text. SpellsNext self.old columns.Word (Letters text)) }
        ensures past { OnOk result (self.new ≡ past self.old) }
        ensures bad { OnBadColumn result (IsBadNext self.old) }
        ensures some { OnBadColumn result (IsBadIn self.old.columns self.old.fields) }
    {
        if self.next_field().is_empty() {
            return Err(self.refusal());
        }
        let text = text_of(self.alloc, self.next_field())?;
        self.pass();
        Ok(text)
    }

    /// An id, or none where the field is `-1`.
    pub fn optional_id(&mut self) -> Result<Option<u64>, LineFault>
        requires next { IsNext self.old columns.OptionalId }
        ensures ok { IfOk result (λ id. SpellsNext self.old columns.OptionalId (optional_value id)) }
        ensures past { OnOk result (self.new ≡ past self.old) }
        ensures bad { OnBadColumn result (IsBadNext self.old) }
        ensures some { OnBadColumn result (IsBadIn self.old.columns self.old.fields) }
    {
        if is_no_id(self.next_field()) {
            self.pass();
            return Ok(None);
        }
        match read_number(self.next_field(), MAX_ID) {
            Some(id) => {
                self.pass();
                Ok(Some(id))
            }
            None => Err(self.refusal()),
        }
    }

    /// Texts, each once.
    pub fn texts(&mut self) -> Result<Texts, LineFault>
        requires next { IsNext self.old columns.TextList }
        ensures ok { IfOk result (λ texts. SpellsNext self.old columns.TextList (TextsOf texts)) }
        ensures past { OnOk result (self.new ≡ past self.old) }
        ensures bad { OnBadColumn result (IsBadNext self.old) }
        ensures some { OnBadColumn result (IsBadIn self.old.columns self.old.fields) }
    {
        match read_texts(self.alloc, self.next_field())? {
            Some(texts) => {
                self.pass();
                Ok(texts)
            }
            None => Err(self.refusal()),
        }
    }

    /// Ids, each once.
    pub fn ids(&mut self) -> Result<Numbers, LineFault>
        requires next { IsNext self.old columns.IdList }
        ensures ok { IfOk result (λ ids. SpellsNext self.old columns.IdList (Ids ids)) }
        ensures past { OnOk result (self.new ≡ past self.old) }
        ensures bad { OnBadColumn result (IsBadNext self.old) }
        ensures some { OnBadColumn result (IsBadIn self.old.columns self.old.fields) }
    {
        match read_ids(self.alloc, self.next_field())? {
            Some(ids) => {
                self.pass();
                Ok(ids)
            }
            None => Err(self.refusal()),
        }
    }

    /// Ids with years, each id once.
    pub fn pairs(&mut self) -> Result<Pairs, LineFault>
        requires next { IsNext self.old columns.PairList }
        ensures ok { IfOk result (λ pairs. SpellsNext self.old columns.PairList (PairsOf pairs)) }
        ensures past { OnOk result (self.new ≡ past self.old) }
        ensures bad { OnBadColumn result (IsBadNext self.old) }
        ensures some { OnBadColumn result (IsBadIn self.old.columns self.old.fields) }
    {
        match read_pairs(self.alloc, self.next_field())? {
            Some(pairs) => {
                self.pass();
                Ok(pairs)
            }
            None => Err(self.refusal()),
        }
    }
}

impl<'a> Fields for FieldReader<'a> {
    ghost use Rattle.snb_input_fields.specs.Reading.{line_meaning};

    ghost meaning = { line_meaning };

    fn number(&mut self, most: u64) -> Result<u64, LineFault> {
        FieldReader::number(self, most)
    }

    fn small(&mut self, most: u32) -> Result<u32, LineFault> {
        FieldReader::small(self, most)
    }

    fn date(&mut self) -> Result<u64, LineFault> {
        FieldReader::date(self)
    }

    fn text(&mut self) -> Result<Text, LineFault> {
        FieldReader::text(self)
    }
}

impl<'a> LineFields for FieldReader<'a> {
    fn day(&mut self) -> Result<u64, LineFault> {
        FieldReader::day(self)
    }

    fn texts(&mut self) -> Result<Texts, LineFault> {
        FieldReader::texts(self)
    }

    fn ids(&mut self) -> Result<Numbers, LineFault> {
        FieldReader::ids(self)
    }

    fn pairs(&mut self) -> Result<Pairs, LineFault> {
        FieldReader::pairs(self)
    }
}
