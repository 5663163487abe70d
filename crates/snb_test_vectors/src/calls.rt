//! The program is called.

ghost use Rattle.std.specs.Prelude.{◌≡◌, ◌-◌, ◌<◌, IfOk, length};
ghost use Rattle.snb_graph_model.specs.Soundness.{Sound};
ghost use Rattle.snb_read_model.specs.ComplexReads.{IsAnswer};
ghost use Rattle.snb_walk.specs.declared.target.Pick.TheVariants as picks;
ghost use Rattle.snb_walk.specs.Picks.{index_of};

use snb_base::{Channel, MemoryOutbox, MemoryShelf, Text};
use snb_graph::Graph;
use snb_handlers::{Call, Handler, Handlers, KINDS};
use snb_read_model::{Answer, copy_answer};
use snb_read_replies::own_answer;
use snb_schema::Query;
use snb_test_script::{Files, Flaw, Given, add_file};
use snb_test_whole::{CaseShelf, LOG_PATH, Long, State, audit_words, deeper_words, words_of};
use snb_tool::{snb, snb_with};
use snb_walk::{Call as PickCall, Pick, Policy, Target};
use std::alloc::{AllocError, Global};
use std::cell::Cell;
use std::rc::Rc;
use std::sync::Wait;
use std::thread::Threads;

// Calls the program with these words over this shelf and this outbox, with the handlers that the case has, each of
// which answers by the graph's own reads, and its policy. Both count how often they are asked. Tells the status and
// which channels have bytes.
fn call<R: AllocGlobal + Threads + Wait + Sync>(
    rt: &R,
    alloc: Global,
    state: &mut State,
    words: &[String],
    shelf: MemoryShelf,
    long: Option<Long>,
    mut out: MemoryOutbox,
) -> Result<String, Flaw> {
    let words: Vec<&str> = words.iter().map(|word| word.as_str()).collect(alloc)?;
    let mut shelf = CaseShelf::new(shelf, state.steady, state.fading, long);
    let count = Rc::new(alloc, Cell::new(0u64))?;
    let mut handlers = Handlers::new(alloc);
    for kind in KINDS {
        let asked = count.clone()?;
        let call: Call = Box::new(
            alloc,
            move |graph: &Graph, query: &Query| -> Result<Answer<Text>, AllocError>
                requires { Sound graph.now }
                ensures { IfOk result (IsAnswer graph.now query.now) }
            {
                asked.set(asked.get().saturating_add(1));
                copy_answer(&own_answer(alloc, graph, query)?)
            },
        )?;
        if state.has_handler(kind) && handlers.register(Handler::new(kind, call)).is_err() {
            return Err(Flaw::Memory);
        }
    }
    let picked = Rc::new(alloc, Cell::new(0u64))?;
    let counted = picked.clone()?;
    let policy = if state.last {
        let pick: PickCall = Box::new(
            alloc,
            move |targets: &[Target], _word: u64| -> usize
                requires { 0 < length targets.now }
                ensures { result ≡ length targets.now - 1 }
            {
                counted.set(counted.get().saturating_add(1));
                targets.len() - 1
            },
        )?;
        Policy::new(Pick::Last, pick)
    } else {
        let pick: PickCall = Box::new(
            alloc,
            move |targets: &[Target], word: u64| -> usize
                requires { 0 < length targets.now }
                ensures { result ≡ index_of picks.Modulo (length targets.now) word }
            {
                counted.set(counted.get().saturating_add(1));
                (word % targets.len() as u64) as usize
            },
        )?;
        Policy::new(Pick::Modulo, pick)
    };
    let given = Given::new(alloc, &state.moments);
    let status = snb_with(
        rt, &words, &mut shelf, &mut out, &given, &given, &handlers, &policy,
    );
    state.asked = count.get();
    state.picked = picked.get();
    state.story = given.story(shelf.reads())?;
    state.keep(status, out)
}

// `snb_alone WORD WORD ..`: calls the program without handlers, over the files as they are.
fn call_alone<R: AllocGlobal + Threads + Wait + Sync>(
    rt: &R,
    alloc: Global,
    state: &mut State,
    files: &Files,
    rest: &str,
) -> Result<String, Flaw> {
    state.end()?;
    let owned = words_of(alloc, rest)?;
    let words: Vec<&str> = owned.iter().map(|word| word.as_str()).collect(alloc)?;
    let long = state.long(files)?;
    let mut shelf = CaseShelf::new(state.shelf(files)?, state.steady, state.fading, long);
    let mut out = state.outbox()?;
    let given = Given::new(alloc, &state.moments);
    let status = snb(rt, &words, &mut shelf, &mut out, &given, &given);
    state.story = given.story(shelf.reads())?;
    state.keep(status, out)
}

// `snb WORD WORD ..`
fn call_words<R: AllocGlobal + Threads + Wait + Sync>(
    rt: &R,
    alloc: Global,
    state: &mut State,
    files: &Files,
    rest: &str,
) -> Result<String, Flaw> {
    state.end()?;
    let words = deeper_words(alloc, state.depth, words_of(alloc, rest)?)?;
    let shelf = state.shelf(files)?;
    let long = state.long(files)?;
    let out = state.outbox()?;
    let answer = call(rt, alloc, state, &words, shelf, long, out)?;
    state.words = words;
    Ok(answer)
}

// `audit`: an audit of the log that came, over the same files with it beside them, where nothing fails.
fn call_audit<R: AllocGlobal + Threads + Wait + Sync>(
    rt: &R,
    alloc: Global,
    state: &mut State,
    files: &Files,
) -> Result<String, Flaw> {
    let calm = State::new(alloc);
    let mut shelf = calm.shelf(files)?;
    add_file(&mut shelf, LOG_PATH, state.bytes(Channel::Log)?)?;
    state.end()?;
    let words = audit_words(alloc, &state.words)?;
    call(rt, alloc, state, &words, shelf, None, calm.outbox()?)
}

/// Makes the call of this word, over the files as they are, and tells what it answers; None where there is no such
/// call.
pub(crate) fn answer<R: AllocGlobal + Threads + Wait + Sync>(
    rt: &R,
    alloc: Global,
    state: &mut State,
    files: &Files,
    word: &str,
    rest: &str,
) -> Result<Option<String>, Flaw> {
    match word {
        "snb" => Ok(Some(call_words(rt, alloc, state, files, rest)?)),
        "snb_alone" => Ok(Some(call_alone(rt, alloc, state, files, rest)?)),
        "audit" if rest.is_empty() => Ok(Some(call_audit(rt, alloc, state, files)?)),
        _ => Ok(None),
    }
}
