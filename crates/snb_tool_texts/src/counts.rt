//! Lines that count.

ghost use Rattle.std.specs.Prelude.{◌≡◌, IfOk};
ghost use Rattle.snb_schema.specs.ScreenTexts.{summary_text};
ghost use Rattle.snb_tool_texts.specs.Counts.{check_text};

use std::alloc::{AllocError, Global};

/// The lines that count the rows of a dataset and the updates and reads of a plan, and say that it is
/// closed.
pub fn check_lines(
    alloc: Global,
    rows: u64,
    updates: u64,
    reads: u64,
) -> Result<Vec<u8>, AllocError>
    ensures { IfOk result (λ text. text.items ≡ check_text rows updates reads) }
{
    let text = format!(in alloc; "rows {rows}\nupdates {updates}\nreads {reads}\nclosed\n")?;
    Ok(text.into_bytes())
}

/// The lines that count a run's operations, updates and reads, and the rows of its final graph.
pub fn summary_lines(
    alloc: Global,
    operations: u64,
    updates: u64,
    reads: u64,
    rows: u64,
) -> Result<Vec<u8>, AllocError>
    ensures { IfOk result (λ text. text.items ≡ summary_text operations updates reads rows) }
{
    let text = format!(in alloc;
        "operations {operations}\nupdates {updates}\nreads {reads}\nrows {rows}\n"
    )?;
    Ok(text.into_bytes())
}
