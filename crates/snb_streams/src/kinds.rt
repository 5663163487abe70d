//! The numbers of the eight inserts.

ghost use Rattle.std.specs.Prelude.{◌≡◌, ◌≢◌, Contains, MatchOption};
ghost use Rattle.snb_schema.specs.declared.op.InsertKind.{InsertKind as Kind};
ghost use Rattle.snb_schema.specs.InsertLines.{kind_number};

use snb_schema::InsertKind;

/// The number by which a line names the insert.
pub fn number_of(kind: InsertKind) -> u64
    ensures { result ≡ kind_number kind }
{
    match kind {
        InsertKind::AddPerson => 1,
        InsertKind::LikePost => 2,
        InsertKind::LikeComment => 3,
        InsertKind::AddForum => 4,
        InsertKind::AddMember => 5,
        InsertKind::AddPost => 6,
        InsertKind::AddComment => 7,
        InsertKind::AddFriend => 8,
    }
}

/// The insert of this number, where it is one of these.
pub fn kind_of_number(kinds: &[InsertKind], number: u64) -> Option<InsertKind>
    ensures { MatchOption result ((kind : Kind) → Contains kinds.now kind → kind_number kind ≢ number)
        (λ kind. Contains kinds.now kind × (kind_number kind ≡ number)) }
{
    for kind in kinds {
        if number_of(*kind) == number {
            return Some(*kind);
        }
    }
    None
}
