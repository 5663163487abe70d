//! The reads that parameters make.

ghost use Rattle.std.specs.Prelude.{◌≡◌, ◌∷◌, [], IfOk, map};
ghost use Rattle.snb_schema.specs.declared.column.Column.TheVariants.{Date, Small, Words};
ghost use Rattle.snb_schema.specs.declared.column.Value.TheVariants.{Digits, Letters, SmallDigits};
ghost use Rattle.snb_schema.specs.Faults.{OnBadColumn};
ghost use Rattle.snb_schema.specs.ReadKinds.{parameter_columns, parameter_values, read_kind_of};
ghost use Rattle.snb_input_fields.specs.Cells.{value_of};
ghost use Rattle.snb_input_fields.specs.Fields.{Expects, ReadsAll, StopsIn};

use crate::fields::Fields;
use crate::write::Cell;
use snb_schema::{LineFault, MAX_ID, MAX_YEAR, Query, ReadKind};
use std::alloc::{AllocError, Global};

/// The read of this kind whose parameters the next fields spell. The error is the first column in
/// which one spells none, or want of memory. The fields have a place for each parameter of the kind.
pub fn read_query<F: Fields>(kind: ReadKind, fields: &mut F) -> Result<Query, LineFault>
    requires { Expects F.meaning fields.old (parameter_columns kind) }
    ensures kind { IfOk result (λ query. read_kind_of query ≡ kind) }
    ensures ok { IfOk result
        (λ query. ReadsAll F.meaning fields.old (parameter_columns kind) (parameter_values query) fields.new) }
    ensures bad { OnBadColumn result (StopsIn F.meaning fields.old (parameter_columns kind)) }
{
    let id = fields.number(MAX_ID)?;
    match kind {
        ReadKind::Is1 => Ok(Query::Is1 { person: id }),
        ReadKind::Is2 => Ok(Query::Is2 { person: id }),
        ReadKind::Is3 => Ok(Query::Is3 { person: id }),
        ReadKind::Is4 => Ok(Query::Is4 { message: id }),
        ReadKind::Is5 => Ok(Query::Is5 { message: id }),
        ReadKind::Is6 => Ok(Query::Is6 { message: id }),
        ReadKind::Is7 => Ok(Query::Is7 { message: id }),
        ReadKind::Ic1 => Ok(Query::Ic1 {
            person: id,
            first_name: fields.text()?,
        }),
        ReadKind::Ic2 => Ok(Query::Ic2 {
            person: id,
            max_date: fields.date()?,
        }),
        ReadKind::Ic7 => Ok(Query::Ic7 { person: id }),
        ReadKind::Ic8 => Ok(Query::Ic8 { person: id }),
        ReadKind::Ic9 => Ok(Query::Ic9 {
            person: id,
            max_date: fields.date()?,
        }),
        ReadKind::Ic11 => Ok(Query::Ic11 {
            person: id,
            country: fields.text()?,
            year: fields.small(MAX_YEAR)?,
        }),
        ReadKind::Ic13 => Ok(Query::Ic13 {
            from: id,
            to: fields.number(MAX_ID)?,
        }),
    }
}

/// The parameters of a read, in the order of its columns.
pub fn parameters_of(alloc: Global, query: &Query) -> Result<Vec<Cell<'_>>, AllocError>
    ensures { IfOk result (λ cells. map value_of cells.items ≡ parameter_values query.now) }
{
    match query {
        Query::Is1 { person }
        | Query::Is2 { person }
        | Query::Is3 { person }
        | Query::Ic7 { person }
        | Query::Ic8 { person } => Vec::from_slice(alloc, &[Cell::Digits(*person)]),
        Query::Is4 { message }
        | Query::Is5 { message }
        | Query::Is6 { message }
        | Query::Is7 { message } => Vec::from_slice(alloc, &[Cell::Digits(*message)]),
        Query::Ic1 { person, first_name } => Vec::from_slice(
            alloc,
            &[Cell::Digits(*person), Cell::Letters(first_name.as_str())],
        ),
        Query::Ic2 { person, max_date } | Query::Ic9 { person, max_date } => {
            Vec::from_slice(alloc, &[Cell::Digits(*person), Cell::Digits(*max_date)])
        }
        Query::Ic11 {
            person,
            country,
            year,
        } => Vec::from_slice(
            alloc,
            &[
                Cell::Digits(*person),
                Cell::Letters(country.as_str()),
                Cell::SmallDigits(*year),
            ],
        ),
        Query::Ic13 { from, to } => {
            Vec::from_slice(alloc, &[Cell::Digits(*from), Cell::Digits(*to)])
        }
    }
}
