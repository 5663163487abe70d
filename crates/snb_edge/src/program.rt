//! The one call of the program, from the words that it is started with to its status.

ghost use Rattle.std.specs.Prelude.{◌≡◌, ◌++◌, ◌<◌, ℕ, IfOk, List, OnErr, length};
ghost use Rattle.std.specs.Option.{option_map};
ghost use Rattle.std.specs.Process.{exit_status};
ghost use Rattle.snb_graph_model.specs.Soundness.{Sound};
ghost use Rattle.snb_read_model.specs.ComplexReads.{IsAnswer};
ghost use Rattle.snb_tool_outcome.specs.Names.{MayAskFor};
ghost use Rattle.snb_tool_words.specs.Words.{texts_of};
ghost use Rattle.snb_walk.specs.declared.target.Pick.TheVariants as picks;
ghost use Rattle.snb_walk.specs.Picks.{index_of};
ghost use Rattle.snb_ending.specs.Endings.{shown_for};
ghost use Rattle.snb_edge.specs.Edge.{AreTold, HasObeyed, IsServed, started_with};

use crate::words::Words;
use snb_base::{Clock, Gate, Outbox, Shelf, Text, Texts};
use snb_ending::{ErrorLines, Fault, ending};
use snb_graph::Graph;
use snb_handlers::{Call, Handler, Handlers, KINDS};
use snb_read_model::{Answer, copy_answer};
use snb_read_replies::own_answer;
use snb_schema::Query;
use snb_tool::snb_with;
use snb_walk::{Call as PickCall, Pick, Policy, Target};
use std::alloc::{AllocError, Global};
use std::process::ExitCode;
use std::sync::Wait;
use std::thread::Threads;

// The texts, lent.
fn lend(alloc: Global, texts: &Texts) -> Result<Vec<&str>, AllocError>
    ensures { IfOk result (λ words. texts_of words.items ≡ texts.now) }
{
    let mut words = Vec::new(alloc);
    for text in texts.as_slice() {
        words.push(text.as_str())?;
    }
    Ok(words)
}

// The status of the call that these words ask for. An error says that memory didn't suffice before the call. The
// handlers and the policy are made here, since no function may hand out a closure that it makes.
fn obey<
    R: AllocGlobal + Threads + Wait + Sync,
    W: Words,
    S: Shelf,
    O: Outbox,
    C: Clock + Sync,
    G: Gate + Sync,
>(rt: &R, words: &W, shelf: &mut S, out: &mut O, clock: &C, gate: &G) -> Result<u8, AllocError>
    requires allowed { (texts : List (List ℕ)) → AreTold (W.told words.now) texts
        → MayAskFor (S.may shelf.old) (started_with texts) }
    ensures ok { IfOk result
        (HasObeyed S.Shelf O.Outbox (W.told words.now) (C.moments clock.now) shelf.old shelf.new out.old out.new) }
    ensures err { OnErr result ((shelf.new ≡ shelf.old) × (out.new ≡ out.old)) }
{
    let alloc = rt.alloc();
    let texts = words.read(alloc)?;
    let words = lend(alloc, &texts)?;
    let mut handlers = Handlers::new(alloc);
    for kind in KINDS {
        let call: Call = Box::new(
            alloc,
            move |graph: &Graph, query: &Query| -> Result<Answer<Text>, AllocError>
                requires { Sound graph.now }
                ensures { IfOk result (IsAnswer graph.now query.now) }
            { copy_answer(&own_answer(alloc, graph, query)?) },
        )?;
        if handlers.register(Handler::new(kind, call)).is_err() {
            return Err(AllocError);
        }
    }
    let pick: PickCall = Box::new(
        alloc,
        move |targets: &[Target], word: u64| -> usize
            requires { 0 < length targets.now }
            ensures { result ≡ index_of picks.Modulo (length targets.now) word }
        { (word % targets.len() as u64) as usize },
    )?;
    let policy = Policy::new(Pick::Modulo, pick);
    Ok(snb_with(rt, &words, shelf, out, clock, gate, &handlers, &policy))
}

/// Does all that the program does: reads the words that it is started with, does what they say by `snb_with`, with a
/// table of handlers that answer by the graph's own reads and a policy that picks by the word modulo the number of
/// targets, and ends with the status of that call. Of a fault it shows one line on standard error: `snb: read fault`
/// for 4, `snb: write fault` for 5 and `snb: out of memory` for 6, which is also the status where memory doesn't
/// suffice to begin.
///
/// The condition `allowed`: the shelf may be asked for the names of the command that the words are the line of.
pub fn serve<
    R: AllocGlobal + Threads + Wait + Sync,
    W: Words,
    E: ErrorLines,
    S: Shelf,
    O: Outbox,
    C: Clock + Sync,
    G: Gate + Sync,
>(rt: &R, words: &W, errors: &mut E, shelf: &mut S, out: &mut O, clock: &C, gate: &G) -> ExitCode
    requires allowed { (texts : List (List ℕ)) → AreTold (W.told words.now) texts
        → MayAskFor (S.may shelf.old) (started_with texts) }
    ensures served { IsServed S.Shelf O.Outbox (W.told words.now) (C.moments clock.now) shelf.old shelf.new out.old
        out.new (exit_status result) }
    ensures shown { E.given errors.new ≡ option_map (λ text. text ++ shown_for (exit_status result))
        (E.given errors.old) }
{
    match obey(rt, words, shelf, out, clock, gate) {
        Ok(status) => ending(errors, status),
        Err(AllocError) => ending(errors, Fault::Memory.status()),
    }
}
