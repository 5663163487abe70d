//! What a case says of its calls and asks of what came, by its words.

use crate::state::{State, channel_of};
use snb_base::Channel;
use snb_test_script::{Flaw, Lines, List, shown_lines};
use std::alloc::Global;

// The first line of the answers.
fn answers_head(alloc: Global, state: &mut State) -> Result<String, Flaw> {
    let lines = state.lines(Channel::Answers)?;
    match lines.split_once('\n') {
        Some((head, _)) => Ok(String::from_str(alloc, head)?),
        None => Ok(lines),
    }
}

// The moments of the log, each once where equal ones follow one another.
fn moments(alloc: Global, state: &mut State) -> Result<String, Flaw> {
    let lines = state.lines(Channel::Log)?;
    let mut list = List::new(alloc);
    let mut last = "";
    for line in lines.lines().skip(1) {
        let moment = line.split('|').nth(3).unwrap_or("none");
        if moment != last {
            list.add(moment)?;
        }
        last = moment;
    }
    list.told(alloc)
}

// The lines of the final text that name a table, with how many rows it has.
fn sections(alloc: Global, state: &mut State) -> Result<String, Flaw> {
    let lines = state.lines(Channel::Final)?;
    let mut named = Lines::new(alloc);
    for line in lines.lines() {
        if let Some(b'a'..=b'z') = line.as_bytes().first() {
            named.add(line)?;
        }
    }
    Ok(named.told())
}

/// Keeps what the line says of calls, or tells what it asks of the last one; None where it does neither.
pub fn answer(
    alloc: Global,
    state: &mut State,
    word: &str,
    rest: &str,
) -> Result<Option<String>, Flaw> {
    if state.set(word, rest)? {
        return Ok(Some(String::new(alloc)));
    }
    if !rest.is_empty() {
        return Ok(None);
    }
    if let Some(channel) = channel_of(word) {
        return Ok(Some(state.lines(channel)?));
    }
    match word {
        "moments" => Ok(Some(moments(alloc, state)?)),
        "sections" => Ok(Some(sections(alloc, state)?)),
        "answers_head" => Ok(Some(answers_head(alloc, state)?)),
        "story" => Ok(Some(shown_lines(alloc, state.story.as_bytes())?)),
        "asked" => {
            let asked = state.asked;
            Ok(Some(format!(in alloc; "{asked}")?))
        }
        "picked" => {
            let picked = state.picked;
            Ok(Some(format!(in alloc; "{picked}")?))
        }
        _ => Ok(None),
    }
}
