//! Rows as lines.

ghost use Rattle.std.specs.Prelude.{◌≡◌, ◌++◌, ◌∷◌, [], OnOk, OnErr};
ghost use Rattle.snb_schema.specs.declared.row.Row.TheVariants as rows;
ghost use Rattle.snb_schema.specs.LentRows.{lent_row};
ghost use Rattle.snb_schema.specs.RowLines.{canonical};

use snb_input_fields::{Cell, put_line};
use snb_node_fields::{put_comment, put_forum, put_person, put_post};
use snb_schema::{LentRow, Named, Organisation, Place, Row};
use std::alloc::AllocError;

fn put_place(place: &Place, to: &mut Vec<u8>) -> Result<(), AllocError>
    ensures ok { OnOk result (to.new.items ≡ to.old.items ++ (canonical (rows.Place place.now) ++ 10 ∷ [])) }
    ensures err { OnErr result (to.new.items ≡ to.old.items) }
{
    put_line(
        &[
            Cell::Digits(place.id),
            Cell::Letters(place.name.as_str()),
            Cell::Letters(place.url.as_str()),
            Cell::Letters(place.kind.as_str()),
        ],
        to,
    )
}

// Appends the line of a tag, or of a class of tags.
fn put_named(named: &Named, to: &mut Vec<u8>) -> Result<(), AllocError>
    ensures tag { OnOk result (to.new.items ≡ to.old.items ++ (canonical (rows.Tag named.now) ++ 10 ∷ [])) }
    ensures class { OnOk result (to.new.items ≡ to.old.items ++ (canonical (rows.TagClass named.now) ++ 10 ∷ [])) }
    ensures err { OnErr result (to.new.items ≡ to.old.items) }
{
    put_line(
        &[
            Cell::Digits(named.id),
            Cell::Letters(named.name.as_str()),
            Cell::Letters(named.url.as_str()),
        ],
        to,
    )
}

fn put_organisation(organisation: &Organisation, to: &mut Vec<u8>) -> Result<(), AllocError>
    ensures ok { OnOk result
        (to.new.items ≡ to.old.items ++ (canonical (rows.Organisation organisation.now) ++ 10 ∷ [])) }
    ensures err { OnErr result (to.new.items ≡ to.old.items) }
{
    put_line(
        &[
            Cell::Digits(organisation.id),
            Cell::Letters(organisation.kind.as_str()),
            Cell::Letters(organisation.name.as_str()),
            Cell::Letters(organisation.url.as_str()),
        ],
        to,
    )
}

/// Appends the row's line and its line end: its columns in the order of its table, with numbers and
/// dates in digits, and no extra field. Want of memory leaves the bytes as they were.
///
/// Where the row is one that a line of its table spells, this is the canonical one of its lines: the
/// law `own_line` says that it spells that row and no other.
pub fn write_row(row: &Row, to: &mut Vec<u8>) -> Result<(), AllocError>
    ensures ok { OnOk result (to.new.items ≡ to.old.items ++ (canonical row.now ++ 10 ∷ [])) }
    ensures err { OnErr result (to.new.items ≡ to.old.items) }
{
    write_lent(row.lend(), to)
}

/// Appends the line and line end of a row that is lent, as `write_row` does.
pub fn write_lent(row: LentRow<'_>, to: &mut Vec<u8>) -> Result<(), AllocError>
    ensures ok { OnOk result (to.new.items ≡ to.old.items ++ (canonical (lent_row row.entry) ++ 10 ∷ [])) }
    ensures err { OnErr result (to.new.items ≡ to.old.items) }
{
    match row {
        LentRow::Place { place } => put_place(place, to),
        LentRow::TagClass { named } => put_named(named, to),
        LentRow::Tag { named } => put_named(named, to),
        LentRow::Organisation { organisation } => put_organisation(organisation, to),
        LentRow::Person { person } => put_person(person, to),
        LentRow::Forum { forum } => put_forum(forum, to),
        LentRow::Post { post } => put_post(post, to),
        LentRow::Comment { comment } => put_comment(comment, to),
        LentRow::Link { from, to: end, .. } => put_line(
            &[Cell::Digits(from), Cell::Digits(end)],
            to,
        ),
        LentRow::Dated {
            from,
            to: end,
            date,
            ..
        } => put_line(
            &[Cell::Digits(from), Cell::Digits(end), Cell::Digits(date)],
            to,
        ),
        LentRow::Yeared {
            from,
            to: end,
            year,
            ..
        } => put_line(
            &[
                Cell::Digits(from),
                Cell::Digits(end),
                Cell::SmallDigits(year),
            ],
            to,
        ),
        LentRow::Word { person, text, .. } => {
            put_line(&[Cell::Digits(person), Cell::Letters(text.as_str())], to)
        }
    }
}
