//! The targets of answers.

ghost use Rattle.std.specs.Prelude.{◌≡◌, ◌∷◌, ◌++◌, [], map, OnOk};
ghost use Rattle.std.specs.List.{AllByRecursion};
ghost use Rattle.snb_read_model.specs.Columns.{HasColumns, HaveColumns};
ghost use Rattle.snb_read_model.specs.Replies.{id_at};
ghost use Rattle.snb_read_model.specs.Tails.{IsNumberAt, IsTargetOf};
ghost use Rattle.snb_walk.specs.Targets.{row_targets, target_at, targets_of};

use crate::target::Target;
use snb_base::Text;
use snb_read_model::{Answer, AnswerRow, Cell, TargetColumn, id_of, layout_of_query};
use snb_schema::Query;
use std::alloc::AllocError;

// The id in a column of a row, counted from 1. A number below zero is no id, and stands for 0.
fn id_at(row: &AnswerRow<Text>, at: usize) -> u64
    requires { IsNumberAt row.now at }
    ensures { result ≡ id_at at row.now }
{
    match &row.as_slice()[at - 1] {
        Cell::Number { value } => id_of(*value),
        _ => unreachable!(),
    }
}

// Adds the target in a column.
fn push_target(
    targets: &mut Vec<Target>,
    row: &AnswerRow<Text>,
    column: TargetColumn,
) -> Result<(), AllocError>
    requires { IsTargetOf row.now column }
    ensures { OnOk result (targets.new.items ≡ targets.old.items ++ target_at row.now column ∷ []) }
{
    let target = match column {
        TargetColumn::PersonAt { at } => Target::Person { id: id_at(row, at) },
        TargetColumn::MessageAt { at } => Target::Message { id: id_at(row, at) },
    };
    targets.push(target)?;
    Ok(())
}

// Adds the targets in columns.
fn push_columns(
    targets: &mut Vec<Target>,
    row: &AnswerRow<Text>,
    columns: &[TargetColumn],
) -> Result<(), AllocError>
    requires { AllByRecursion (IsTargetOf row.now) columns.now }
    ensures { OnOk result (targets.new.items ≡ targets.old.items ++ map (target_at row.now) columns.now) }
{
    for column in columns {
        push_target(targets, row, *column)?;
    }
    Ok(())
}

// Adds the targets of a row, by rising column.
// The condition: it has the columns of the read.
fn push_row(
    targets: &mut Vec<Target>,
    query: &Query,
    row: &AnswerRow<Text>,
) -> Result<(), AllocError>
    requires columns { HasColumns query.now row.now }
    ensures { OnOk result (targets.new.items ≡ targets.old.items ++ row_targets query.now row.now) }
{
    push_columns(targets, row, layout_of_query(query).targets)
}

// Adds the targets of an answer, row by row, and of each row by rising column. An error says that memory doesn't
// suffice.
// The condition: each row has the columns of the read.
pub(crate) fn push_targets(
    targets: &mut Vec<Target>,
    query: &Query,
    answer: &Answer<Text>,
) -> Result<(), AllocError>
    requires columns { HaveColumns query.now answer.now }
    ensures { OnOk result (targets.new.items ≡ targets.old.items ++ targets_of query.now answer.now) }
{
    for row in answer.as_slice() {
        push_row(targets, query, row)?;
    }
    Ok(())
}
