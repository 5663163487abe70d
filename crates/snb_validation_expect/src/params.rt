//! The parameters of a read as a JSON value.

ghost use Rattle.std.specs.Prelude.{◌≡◌, IfOk};
ghost use Rattle.serde_json.specs.View.{view};
ghost use Rattle.snb_input_fields.specs.Cells.{value_of};
ghost use Rattle.snb_schema.specs.ReadKinds.{parameter_values};
ghost use Rattle.snb_validation.specs.ReplyData.{array_of};
ghost use Rattle.snb_validation_model.specs.CaseTexts.{parameter_data};

use serde_json::Value;
use snb_input_fields::{Cell, parameters_of};
use snb_schema::Query;
use std::alloc::{AllocError, Global};

// A parameter: an id, a date or a year is a number, and a name a string; there are no others.
fn parameter_value(alloc: Global, cell: Cell<'_>) -> Result<Value, AllocError>
    ensures { IfOk result (λ v. view v ≡ parameter_data (value_of cell.entry)) }
{
    match cell {
        Cell::Digits(n) => Ok(Value::from(n)),
        Cell::SmallDigits(n) => Ok(Value::from(n)),
        Cell::Letters(text) => Value::try_from_str(alloc, text),
        _ => Ok(Value::Null),
    }
}

/// The array of a query's parameters, in the order of its columns.
pub fn params_value(alloc: Global, query: &Query) -> Result<Value, AllocError>
    ensures { IfOk result (λ v. view v ≡ array_of parameter_data (parameter_values query.now)) }
{
    let cells = parameters_of(alloc, query)?;
    let mut values = Vec::new(alloc);
    for cell in &cells {
        values.push(parameter_value(alloc, *cell)?)?;
    }
    Ok(Value::Array(values))
}
