//! Inserts read out of the fields of a line, or out of one line.

ghost use Rattle.std.specs.Prelude.{◌≡◌, All, Contains, IfOk, IsUtf8, MatchOption};
ghost use Rattle.snb_base.specs.Spellings.{Num};
ghost use Rattle.snb_schema.specs.declared.op.InsertKind.{InsertKind as Kind};
ghost use Rattle.snb_schema.specs.Faults.{OnBadColumn};
ghost use Rattle.snb_schema.specs.UpdateLines.{IsBadInsert, IsBadLine, IsLine, NamesInsert};
ghost use Rattle.snb_schema.specs.InsertLines.{kind_number};
ghost use Rattle.snb_streams.specs.Spelled.{SpellsInsert};

use crate::insert_lines::{TIMES, columns_of};
use crate::kinds::kind_of_number;
use crate::make::make_line;
use crate::text::fields_in;
use snb_base::read_number;
use snb_input_fields::FieldReader;
use snb_input_lines::Record;
use snb_schema::{InsertKind, Line, LineFault, MAX_TIME};
use std::alloc::Global;

/// The inserts of a person stream.
pub const PERSON_INSERTS: [InsertKind; 2] = [InsertKind::AddPerson, InsertKind::AddFriend];

/// The inserts of a forum stream.
pub const FORUM_INSERTS: [InsertKind; 6] = [
    InsertKind::LikePost,
    InsertKind::LikeComment,
    InsertKind::AddForum,
    InsertKind::AddMember,
    InsertKind::AddPost,
    InsertKind::AddComment,
];

/// The eight inserts.
pub const ALL_INSERTS: [InsertKind; 8] = [
    InsertKind::AddPerson,
    InsertKind::LikePost,
    InsertKind::LikeComment,
    InsertKind::AddForum,
    InsertKind::AddMember,
    InsertKind::AddPost,
    InsertKind::AddComment,
    InsertKind::AddFriend,
];

// The greatest number of an insert.
const MOST_INSERTS: u64 = 8;

// The one of these inserts whose number is the field.
fn kind_in(kinds: &[InsertKind], field: &[u8]) -> Option<InsertKind>
    ensures { MatchOption result
        ((kind : Kind) → Contains kinds.now kind → ¬ Num field.now (kind_number kind) (kind_number kind))
        (λ kind. Contains kinds.now kind × Num field.now (kind_number kind) (kind_number kind)) }
{
    match read_number(field, MOST_INSERTS) {
        Some(number) => kind_of_number(kinds, number),
        None => None,
    }
}

// The one of these inserts that the third field names.
fn named_kind(alloc: Global, kinds: &[InsertKind], fields: &Record) -> Result<InsertKind, LineFault>
    requires { All IsUtf8 fields.now }
    ensures ok { IfOk result (NamesInsert kinds.now fields.now) }
    ensures bad { OnBadColumn result (IsBadInsert kinds.now fields.now) }
{
    let Some(third) = fields.get(2) else {
        return Err(LineFault::Bad { column: 0 });
    };
    if let Some(kind) = kind_in(kinds, third) {
        return Ok(kind);
    }
    let mut times = FieldReader::new(alloc, &TIMES, fields);
    times.number(MAX_TIME)?;
    times.number(MAX_TIME)?;
    Err(LineFault::Bad { column: 3 })
}

/// The line of this number with an insert of one of these kinds, as its fields spell it. Where they
/// spell none, the error is the first bad column: 0 where there are fewer than three fields; else the
/// first of the first three that is bad, where the third names none of these kinds; else 0 where the
/// insert has another number of fields; else the first that isn't in its grammar, or that doesn't go
/// with one before it, as in a friendship with oneself, or in a comment with no parent or two.
///
/// The fields are UTF-8. Lines are those of LDBC SNB Interactive v1's update streams.
pub fn read_insert(
    alloc: Global,
    kinds: &[InsertKind],
    number: u32,
    fields: &Record,
) -> Result<Line, LineFault>
    requires { All IsUtf8 fields.now }
    ensures ok { IfOk result (λ l. SpellsInsert kinds.now fields.now l.t l.t_d l.op × (l.number ≡ number)) }
    ensures bad { OnBadColumn result (IsBadInsert kinds.now fields.now) }
{
    let kind = named_kind(alloc, kinds, fields)?;
    let columns = columns_of(kind);
    if fields.len() != columns.len() {
        return Err(LineFault::Bad { column: 0 });
    }
    make_line(kind, number, &mut FieldReader::new(alloc, columns, fields))
}

/// Reads one line of any of the eight inserts, without a line end. It is line 1. Where the text is
/// no such line, the error is the first bad column: 1 where it begins with a byte order mark, 0 where
/// it isn't UTF-8 or has a line end, else that of `read_insert`.
pub fn read_line(alloc: Global, text: &[u8]) -> Result<Line, LineFault>
    ensures ok { IfOk result (λ l. IsLine text.now l.t l.t_d l.op × (l.number ≡ 1)) }
    ensures bad { OnBadColumn result (IsBadLine text.now) }
{
    let fields = fields_in(alloc, text)?;
    read_insert(alloc, &ALL_INSERTS, 1, &fields)
}
