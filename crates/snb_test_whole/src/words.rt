//! The words of a call of the program.

use snb_test_script::{Flaw, put_plain};
use std::alloc::{AllocError, Global};

/// The path of the log that a call left, for the audit of it.
pub const LOG_PATH: &str = "log-that-came";

// The word that is spelled like this.
fn plain_word(alloc: Global, spelled: &str) -> Result<String, Flaw> {
    let mut bytes = Vec::new(alloc);
    let _ = put_plain(spelled, &mut bytes)?;
    match String::from_utf8(bytes) {
        Ok(word) => Ok(word),
        Err(_) => Err(Flaw::BadEscape),
    }
}

/// The path below so many folders of the name `d`.
pub fn deeper(alloc: Global, depth: usize, path: &str) -> Result<String, AllocError> {
    let mut deep = String::new(alloc);
    for at in 0..depth {
        deep.push_str(if at == 0 { "d" } else { "/d" })?;
    }
    if depth > 0 && !path.is_empty() {
        deep.push('/')?;
    }
    deep.push_str(path)?;
    Ok(deep)
}

/// The words of a call whose second one is a path below so many folders.
pub fn deeper_words(
    alloc: Global,
    depth: usize,
    words: Vec<String>,
) -> Result<Vec<String>, AllocError> {
    let mut deep = words;
    if let Some(path) = deep.get_mut(1) {
        *path = deeper(alloc, depth, path.as_str())?;
    }
    Ok(deep)
}

/// The words that the text has, with one space between two.
pub fn words_of(alloc: Global, text: &str) -> Result<Vec<String>, Flaw> {
    let mut words = Vec::new(alloc);
    if text.is_empty() {
        return Ok(words);
    }
    for spelled in text.split(' ') {
        words.push(plain_word(alloc, spelled)?)?;
    }
    Ok(words)
}

/// The words of an audit of the log that came, where these were those of a run: the folder, the log, and the
/// options but the number of workers.
pub fn audit_words(alloc: Global, words: &[String]) -> Result<Vec<String>, AllocError> {
    let mut audit = Vec::new(alloc);
    audit.push(String::from_str(alloc, "audit")?)?;
    if let Some(folder) = words.get(1) {
        audit.push(folder.clone()?)?;
    }
    audit.push(String::from_str(alloc, LOG_PATH)?)?;
    let mut left_out = false;
    for word in words.iter().skip(2) {
        let is_workers = word.as_str() == "--workers";
        if !is_workers && !left_out {
            audit.push(word.clone()?)?;
        }
        left_out = is_workers;
    }
    Ok(audit)
}
