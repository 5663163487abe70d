//! The tokens of a reply, written from its cells.

ghost use Rattle.std.specs.Prelude.{◌<◌, ◌^◌, OnOk};
ghost use Rattle.std.specs.List.{AllByRecursion};
ghost use Rattle.serde_json.specs.Data.{string};
ghost use Rattle.snb_validation.specs.Laws.{AreOfTypes, IsOfType};
ghost use Rattle.snb_validation.specs.ReplyData.{array_of, cell_data, reply_data, stay_data};
ghost use Rattle.snb_validation.specs.Written.{WritesData};

use json::Writer;
use snb_read_model::{Answer, AnswerRow, Cell, CowText, Reply};
use std::alloc::AllocError;

// Writes a reply's array. Want of memory leaves some of its tokens written, here and below.
pub(crate) fn write_reply(to: &mut Writer, reply: &Reply<CowText<'_>>) -> Result<(), AllocError>
    ensures written { WritesData result to.old to.new (reply_data reply.now) }
    ensures types { OnOk result (AreOfTypes reply.now) }
{
    to.begin_array()?;
    'answers: for answer in reply.as_slice() {
        write_answer(to, answer)?;
    }
    to.end_array()?;
    Ok(())
}

fn write_answer(to: &mut Writer, answer: &Answer<CowText<'_>>) -> Result<(), AllocError>
    ensures written { WritesData result to.old to.new (array_of (array_of cell_data) answer.now) }
    ensures types { OnOk result (AllByRecursion (AllByRecursion IsOfType) answer.now) }
{
    to.begin_array()?;
    'rows: for row in answer.as_slice() {
        write_row(to, row)?;
    }
    to.end_array()?;
    Ok(())
}

fn write_row(to: &mut Writer, row: &AnswerRow<CowText<'_>>) -> Result<(), AllocError>
    ensures written { WritesData result to.old to.new (array_of cell_data row.now) }
    ensures types { OnOk result (AllByRecursion IsOfType row.now) }
{
    to.begin_array()?;
    'cells: for cell in row.as_slice() {
        write_cell(to, cell)?;
    }
    to.end_array()?;
    Ok(())
}

fn write_cell(to: &mut Writer, cell: &Cell<CowText<'_>>) -> Result<(), AllocError>
    ensures written { WritesData result to.old to.new (cell_data cell.now) }
    ensures types { OnOk result (IsOfType cell.now) }
{
    match cell {
        Cell::Number { value } => to.i64(*value),
        Cell::Flag { value } => to.boolean(*value),
        Cell::Words { text } => to.string(text.as_str()),
        Cell::List { texts } => write_texts(to, texts.as_slice()),
        Cell::Stays { stays } => write_stays(to, stays.as_slice()),
    }
}

fn write_texts(to: &mut Writer, texts: &[CowText<'_>]) -> Result<(), AllocError>
    ensures { WritesData result to.old to.new (array_of string texts.now) }
{
    to.begin_array()?;
    'texts: for text in texts {
        to.string(text.as_str())?;
    }
    to.end_array()?;
    Ok(())
}

fn write_stays(to: &mut Writer, stays: &[(CowText<'_>, u32, CowText<'_>)]) -> Result<(), AllocError>
    ensures written { WritesData result to.old to.new (array_of stay_data stays.now) }
    ensures types { OnOk result (AllByRecursion (λ s. s.1 < 2 ^ 32) stays.now) }
{
    to.begin_array()?;
    'stays: for stay in stays {
        write_stay(to, stay)?;
    }
    to.end_array()?;
    Ok(())
}

fn write_stay(to: &mut Writer, stay: &(CowText<'_>, u32, CowText<'_>)) -> Result<(), AllocError>
    ensures written { WritesData result to.old to.new (stay_data stay.now) }
    ensures types { OnOk result (stay.now.1 < 2 ^ 32) }
{
    to.begin_array()?;
    to.string(stay.0.as_str())?;
    to.u64(u64::from(stay.1))?;
    to.string(stay.2.as_str())?;
    to.end_array()?;
    Ok(())
}
