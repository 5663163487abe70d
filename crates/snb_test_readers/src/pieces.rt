//! Files that are read in two pieces, cut at each place.

ghost use Rattle.std.specs.Prelude.{◌+◌, ◌≤◌, length};
ghost use Rattle.snb_schema.specs.declared.limits.TheConstants.{MAX_BYTES};

use snb_test_script::Flaw;
use std::alloc::Global;

// The most bytes that a file of these calls has.
const MOST: usize = 1_000_000;

/// What reads a file from its first byte on.
pub(crate) trait Reads {
    /// Reads the file in these two pieces, and tells what came.
    fn told(&self, alloc: Global, first: &[u8], second: &[u8]) -> Result<String, Flaw>
        requires { length first.now + length second.now + length second.now ≤ MAX_BYTES };
}

/// What comes of the file, wherever it is cut in two.
pub(crate) fn told_cut<R: Reads>(alloc: Global, reads: &R, text: &[u8]) -> Result<String, Flaw> {
    if text.len() > MOST {
        return Err(Flaw::OtherValue);
    }
    let wanted = reads.told(alloc, text, b"")?;
    for at in 0..text.len() {
        let came = reads.told(alloc, &text[..at], &text[at..])?;
        if came.as_str() != wanted.as_str() {
            let came = came.as_str();
            return Ok(format!(in alloc; "differs when it is cut at {at}: {came}")?);
        }
    }
    Ok(wanted)
}
