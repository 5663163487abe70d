//! Typed fields, read one after another.

ghost use Rattle.std.specs.Prelude.{IfOk};
ghost use Rattle.snb_schema.specs.declared.column.Column.TheVariants.{Date, Day, IdList, Number, PairList, Small, TextList, Words};
ghost use Rattle.snb_schema.specs.declared.column.Value.TheVariants.{Digits, Ids, Letters, Pairs as PairsOf, SmallDigits, Texts as TextsOf};
ghost use Rattle.snb_schema.specs.Faults.{OnBadColumn};
ghost use Rattle.snb_input_fields.specs.Fields.{FieldsMeaning};

use snb_base::{Numbers, Pairs, Text, Texts};
use snb_schema::LineFault;

/// Fields that are read one after another, each by a column that a read's parameter may have, straight
/// into what is made of it: those of a line, the values of a JSON array, the words of a command line.
///
/// Where the next field spells no value of the column, the error is `Bad` with the number of that
/// column, counted from 1. The other error is want of memory. After an error no more is read.
pub trait Fields {
    /// By what columns the fields may be read, what they spell, and where one spells nothing.
    ghost meaning: { FieldsMeaning Self };

    /// A number, in a column of numbers up to this one.
    fn number(&mut self, most: u64) -> Result<u64, LineFault>
        requires { meaning.expects self.old (Number most) }
        ensures ok { IfOk result (λ n. meaning.reads self.old (Number most) (Digits n) self.new) }
        ensures bad { OnBadColumn result (meaning.stops self.old (Number most)) };

    /// A year or a length, in a column of small numbers up to this one.
    fn small(&mut self, most: u32) -> Result<u32, LineFault>
        requires { meaning.expects self.old (Small most) }
        ensures ok { IfOk result (λ n. meaning.reads self.old (Small most) (SmallDigits n) self.new) }
        ensures bad { OnBadColumn result (meaning.stops self.old (Small most)) };

    /// A date and time, in milliseconds since 1970-01-01 UTC.
    fn date(&mut self) -> Result<u64, LineFault>
        requires { meaning.expects self.old Date }
        ensures ok { IfOk result (λ n. meaning.reads self.old Date (Digits n) self.new) }
        ensures bad { OnBadColumn result (meaning.stops self.old Date) };

    /// A text, which may be empty.
    fn text(&mut self) -> Result<Text, LineFault>
        requires { meaning.expects self.old Words }
        ensures ok { IfOk result (λ text. meaning.reads self.old Words (Letters text) self.new) }
        ensures bad { OnBadColumn result (meaning.stops self.old Words) };
}

/// Fields of a line, which are read by further columns than a read's parameter may have.
pub trait LineFields: Fields {
    /// A day, in milliseconds since 1970-01-01 UTC.
    fn day(&mut self) -> Result<u64, LineFault>
        requires { Self.meaning.expects self.old Day }
        ensures ok { IfOk result (λ n. Self.meaning.reads self.old Day (Digits n) self.new) }
        ensures bad { OnBadColumn result (Self.meaning.stops self.old Day) };

    /// Texts, each once.
    fn texts(&mut self) -> Result<Texts, LineFault>
        requires { Self.meaning.expects self.old TextList }
        ensures ok { IfOk result (λ texts. Self.meaning.reads self.old TextList (TextsOf texts) self.new) }
        ensures bad { OnBadColumn result (Self.meaning.stops self.old TextList) };

    /// Ids, each once.
    fn ids(&mut self) -> Result<Numbers, LineFault>
        requires { Self.meaning.expects self.old IdList }
        ensures ok { IfOk result (λ ids. Self.meaning.reads self.old IdList (Ids ids) self.new) }
        ensures bad { OnBadColumn result (Self.meaning.stops self.old IdList) };

    /// Ids with years, each id once.
    fn pairs(&mut self) -> Result<Pairs, LineFault>
        requires { Self.meaning.expects self.old PairList }
        ensures ok { IfOk result (λ pairs. Self.meaning.reads self.old PairList (PairsOf pairs) self.new) }
        ensures bad { OnBadColumn result (Self.meaning.stops self.old PairList) };
}
