//! Rows out of the fields of a line.

ghost use Rattle.std.specs.Prelude.{◌≡◌, IfOk};
ghost use Rattle.snb_schema.specs.declared.layout.Shape.TheVariants as shapes;
ghost use Rattle.snb_schema.specs.declared.row.Row.TheVariants as rows;
ghost use Rattle.snb_schema.specs.Faults.{OnBadColumn};
ghost use Rattle.snb_schema.specs.Layouts.{shape};
ghost use Rattle.snb_schema.specs.TableColumns.{columns, shape_columns};
ghost use Rattle.snb_schema.specs.RowValues.{values};
ghost use Rattle.snb_input_fields.specs.Reading.{IsBadIn, SpellsFrom, at_first};
ghost use Rattle.snb_csv.specs.Make.{AreFriends, AreNoFriends, IsMadeOf};

use snb_input_fields::FieldReader;
use snb_node_fields::{read_comment, read_forum, read_person, read_post};
use snb_schema::{
    LineFault, MAX_ID, MAX_YEAR, Named, Organisation, Place, Placed, Row, Shape, Table, shape_of,
};

fn place(table: Table, fields: &mut FieldReader<'_>) -> Result<Row, LineFault>
    requires { fields.old ≡ at_first (shape_columns shapes.Place) fields.old.fields }
    ensures ok { IfOk result (IsMadeOf shapes.Place table fields.old.fields) }
    ensures bad { OnBadColumn result (IsBadIn (shape_columns shapes.Place) fields.old.fields) }
{
    Ok(Row::Place {
        place: Place {
            id: fields.number(MAX_ID)?,
            name: fields.text()?,
            url: fields.text()?,
            kind: fields.text()?,
        },
    })
}

// A tag, or a class of tags.
fn named(fields: &mut FieldReader<'_>) -> Result<Named, LineFault>
    requires { fields.old ≡ at_first (shape_columns shapes.Tag) fields.old.fields }
    ensures ok { IfOk result
        (λ named. SpellsFrom 0 (shape_columns shapes.Tag) fields.old.fields (values (rows.Tag named))) }
    ensures bad { OnBadColumn result (IsBadIn (shape_columns shapes.Tag) fields.old.fields) }
{
    Ok(Named {
        id: fields.number(MAX_ID)?,
        name: fields.text()?,
        url: fields.text()?,
    })
}

fn tag_class(table: Table, fields: &mut FieldReader<'_>) -> Result<Row, LineFault>
    requires { fields.old ≡ at_first (shape_columns shapes.TagClass) fields.old.fields }
    ensures ok { IfOk result (IsMadeOf shapes.TagClass table fields.old.fields) }
    ensures bad { OnBadColumn result (IsBadIn (shape_columns shapes.TagClass) fields.old.fields) }
{
    Ok(Row::TagClass {
        named: named(fields)?,
    })
}

fn tag(table: Table, fields: &mut FieldReader<'_>) -> Result<Row, LineFault>
    requires { fields.old ≡ at_first (shape_columns shapes.Tag) fields.old.fields }
    ensures ok { IfOk result (IsMadeOf shapes.Tag table fields.old.fields) }
    ensures bad { OnBadColumn result (IsBadIn (shape_columns shapes.Tag) fields.old.fields) }
{
    Ok(Row::Tag {
        named: named(fields)?,
    })
}

fn organisation(table: Table, fields: &mut FieldReader<'_>) -> Result<Row, LineFault>
    requires { fields.old ≡ at_first (shape_columns shapes.Organisation) fields.old.fields }
    ensures ok { IfOk result (IsMadeOf shapes.Organisation table fields.old.fields) }
    ensures bad { OnBadColumn result (IsBadIn (shape_columns shapes.Organisation) fields.old.fields) }
{
    Ok(Row::Organisation {
        organisation: Organisation {
            id: fields.number(MAX_ID)?,
            kind: fields.text()?,
            name: fields.text()?,
            url: fields.text()?,
        },
    })
}

fn person(table: Table, fields: &mut FieldReader<'_>) -> Result<Row, LineFault>
    requires { fields.old ≡ at_first (shape_columns shapes.Person) fields.old.fields }
    ensures ok { IfOk result (IsMadeOf shapes.Person table fields.old.fields) }
    ensures bad { OnBadColumn result (IsBadIn (shape_columns shapes.Person) fields.old.fields) }
{
    Ok(Row::Person {
        person: read_person(fields)?,
    })
}

fn forum(table: Table, fields: &mut FieldReader<'_>) -> Result<Row, LineFault>
    requires { fields.old ≡ at_first (shape_columns shapes.Forum) fields.old.fields }
    ensures ok { IfOk result (IsMadeOf shapes.Forum table fields.old.fields) }
    ensures bad { OnBadColumn result (IsBadIn (shape_columns shapes.Forum) fields.old.fields) }
{
    Ok(Row::Forum {
        forum: read_forum(fields)?,
    })
}

fn post(table: Table, fields: &mut FieldReader<'_>) -> Result<Row, LineFault>
    requires { fields.old ≡ at_first (shape_columns shapes.Post) fields.old.fields }
    ensures ok { IfOk result (IsMadeOf shapes.Post table fields.old.fields) }
    ensures bad { OnBadColumn result (IsBadIn (shape_columns shapes.Post) fields.old.fields) }
{
    Ok(Row::Post {
        post: read_post(fields)?,
    })
}

fn comment(table: Table, fields: &mut FieldReader<'_>) -> Result<Row, LineFault>
    requires { fields.old ≡ at_first (shape_columns shapes.Comment) fields.old.fields }
    ensures ok { IfOk result (IsMadeOf shapes.Comment table fields.old.fields) }
    ensures bad { OnBadColumn result (IsBadIn (shape_columns shapes.Comment) fields.old.fields) }
{
    Ok(Row::Comment {
        comment: read_comment(fields)?,
    })
}

fn link(table: Table, fields: &mut FieldReader<'_>) -> Result<Row, LineFault>
    requires { fields.old ≡ at_first (shape_columns shapes.Link) fields.old.fields }
    ensures ok { IfOk result (IsMadeOf shapes.Link table fields.old.fields) }
    ensures bad { OnBadColumn result (IsBadIn (shape_columns shapes.Link) fields.old.fields) }
{
    Ok(Row::Link {
        table,
        from: fields.number(MAX_ID)?,
        to: fields.number(MAX_ID)?,
    })
}

fn dated(table: Table, fields: &mut FieldReader<'_>) -> Result<Row, LineFault>
    requires { fields.old ≡ at_first (shape_columns shapes.Dated) fields.old.fields }
    ensures ok { IfOk result (IsMadeOf shapes.Dated table fields.old.fields) }
    ensures bad { OnBadColumn result (IsBadIn (shape_columns shapes.Dated) fields.old.fields) }
{
    Ok(Row::Dated {
        table,
        from: fields.number(MAX_ID)?,
        to: fields.number(MAX_ID)?,
        date: fields.date()?,
    })
}

fn yeared(table: Table, fields: &mut FieldReader<'_>) -> Result<Row, LineFault>
    requires { fields.old ≡ at_first (shape_columns shapes.Yeared) fields.old.fields }
    ensures ok { IfOk result (IsMadeOf shapes.Yeared table fields.old.fields) }
    ensures bad { OnBadColumn result (IsBadIn (shape_columns shapes.Yeared) fields.old.fields) }
{
    Ok(Row::Yeared {
        table,
        from: fields.number(MAX_ID)?,
        to: fields.number(MAX_ID)?,
        year: fields.small(MAX_YEAR)?,
    })
}

fn word(table: Table, fields: &mut FieldReader<'_>) -> Result<Row, LineFault>
    requires { fields.old ≡ at_first (shape_columns shapes.Word) fields.old.fields }
    ensures ok { IfOk result (IsMadeOf shapes.Word table fields.old.fields) }
    ensures bad { OnBadColumn result (IsBadIn (shape_columns shapes.Word) fields.old.fields) }
{
    Ok(Row::Word {
        table,
        person: fields.number(MAX_ID)?,
        text: fields.word()?,
    })
}

/// The row of the table that the fields of a line spell, in the order in which they have its ids. The
/// error is the first column whose field spells no value of it, or want of memory.
pub fn make_row(table: Table, fields: &mut FieldReader<'_>) -> Result<Row, LineFault>
    requires { fields.old ≡ at_first (columns table) fields.old.fields }
    ensures ok { IfOk result (IsMadeOf (shape table) table fields.old.fields) }
    ensures bad { OnBadColumn result (IsBadIn (columns table) fields.old.fields) }
{
    match shape_of(table) {
        Shape::Place => place(table, fields),
        Shape::TagClass => tag_class(table, fields),
        Shape::Tag => tag(table, fields),
        Shape::Organisation => organisation(table, fields),
        Shape::Person => person(table, fields),
        Shape::Forum => forum(table, fields),
        Shape::Post => post(table, fields),
        Shape::Comment => comment(table, fields),
        Shape::Link => link(table, fields),
        Shape::Dated => dated(table, fields),
        Shape::Yeared => yeared(table, fields),
        Shape::Word => word(table, fields),
    }
}

/// The friendship that the fields of a line of this number spell, with the lower id first. The error is
/// column 2 where it leads back to the person it comes from, else the first column whose field spells no
/// value of it, or want of memory.
pub fn make_friends(
    table: Table,
    line: u32,
    fields: &mut FieldReader<'_>,
) -> Result<Placed, LineFault>
    requires { fields.old ≡ at_first (shape_columns shapes.Dated) fields.old.fields }
    ensures ok { IfOk result (λ p. AreFriends table fields.old.fields p.row p.turned × (p.line ≡ line)) }
    ensures bad { OnBadColumn result (AreNoFriends fields.old.fields) }
{
    let one = fields.number(MAX_ID)?;
    let other = fields.number(MAX_ID)?;
    if one == other {
        return Err(fields.clash());
    }
    let date = fields.date()?;
    Ok(Placed {
        line,
        row: Row::Dated {
            table,
            from: one.min(other),
            to: one.max(other),
            date,
        },
        turned: other < one,
    })
}
