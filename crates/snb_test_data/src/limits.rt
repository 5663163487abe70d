//! Calls that read the dataset, the streams and the parameter files of a folder, after so many bytes and lines of
//! others.

ghost use Rattle.std.specs.Prelude.{◌≤◌, IfOk};
ghost use Rattle.snb_schema.specs.declared.limits.TheConstants.{MAX_BYTES, MAX_ROWS};

use snb_input_files::{Load, Used};
use snb_loader::{load_dataset, load_lanes, load_params};
use snb_schema::{Counted, Frequencies, MAX_BYTES, MAX_ROWS, Refusal, name_text};
use snb_test_script::{Files, Flaw, first_word, two_numbers};
use std::alloc::{AllocError, Global};

// The folder in which the files stand.
const FOLDER: &str = "d";

// How much was read before, as the text says.
fn used_of(text: &str) -> Result<Used, Flaw>
    ensures bytes { IfOk result (λ used. used.bytes ≤ MAX_BYTES) }
    ensures rows { IfOk result (λ used. used.rows ≤ MAX_ROWS) }
{
    let (bytes, rows) = two_numbers(text)?;
    if bytes > MAX_BYTES || rows > MAX_ROWS {
        return Err(Flaw::OtherValue);
    }
    Ok(Used { bytes, rows })
}

// Which limit it was.
fn told_refusal(alloc: Global, refusal: Refusal) -> Result<String, AllocError> {
    match refusal {
        Refusal::TooLarge { file } => {
            let name = name_text(alloc, file)?;
            let name = name.as_str();
            format!(in alloc; "too large {name}")
        }
        Refusal::TooMany {
            what: Counted::Rows,
        } => String::from_str(alloc, "too many rows"),
        _ => String::from_str(alloc, "refused for another reason"),
    }
}

// What came of reading, and how much was read.
fn told_read<T: Drop>(alloc: Global, read: Result<T, Load>, used: Used) -> Result<String, Flaw> {
    let outcome = match read {
        Ok(_) => String::from_str(alloc, "read")?,
        Err(Load::Refused { refusal }) => told_refusal(alloc, refusal)?,
        Err(Load::ReadFault) => return Err(Flaw::ReadFault),
        Err(Load::Memory) => return Err(Flaw::Memory),
    };
    let outcome = outcome.as_str();
    let Used { bytes, rows } = used;
    Ok(format!(in alloc; "{outcome}, used {bytes} bytes, {rows} rows")?)
}

/// `dataset BYTES ROWS`
pub fn dataset(alloc: Global, files: &Files, rest: &str) -> Result<String, Flaw> {
    let mut used = used_of(rest)?;
    let mut shelf = files.on_shelf(alloc, FOLDER)?;
    let read = load_dataset(alloc, &mut shelf, FOLDER, &mut used);
    told_read(alloc, read, used)
}

/// `lanes BYTES ROWS`
pub fn lanes(alloc: Global, files: &Files, rest: &str) -> Result<String, Flaw> {
    let mut used = used_of(rest)?;
    let mut shelf = files.on_shelf(alloc, FOLDER)?;
    let read = load_lanes(alloc, &mut shelf, FOLDER, &mut used);
    told_read(alloc, read, used)
}

/// `parameters FREQUENCIES BYTES ROWS`
pub fn parameters(alloc: Global, files: &Files, rest: &str) -> Result<String, Flaw> {
    let (text, rest) = first_word(rest);
    let frequencies = Frequencies::read(text.as_bytes()).ok_or(Flaw::NoFrequencies)?;
    let mut used = used_of(rest)?;
    let mut shelf = files.on_shelf(alloc, FOLDER)?;
    let read = load_params(alloc, &mut shelf, FOLDER, &frequencies, &mut used);
    told_read(alloc, read, used)
}
