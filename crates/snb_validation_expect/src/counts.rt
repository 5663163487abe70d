//! What is shown of cases that were written.

ghost use Rattle.std.specs.Prelude.{◌≡◌, IfOk};
ghost use Rattle.snb_validation_model.specs.CaseTexts.{case_count_text};

use std::alloc::{AllocError, Global};

/// The line that counts the cases.
pub fn count_line(alloc: Global, cases: u64) -> Result<Vec<u8>, AllocError>
    ensures { IfOk result (λ text. text.items ≡ case_count_text cases) }
{
    let text = format!(in alloc; "cases {cases}\n")?;
    Ok(text.into_bytes())
}
