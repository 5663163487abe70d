//! The call that copies the steps of a walk.

ghost use Rattle.std.specs.Prelude.{◌≡◌, ◌<◌, IfOk, length};
ghost use Rattle.snb_graph_model.specs.Soundness.{Sound};
ghost use Rattle.snb_read_model.specs.ComplexReads.{IsAnswer};
ghost use Rattle.snb_walk.specs.declared.target.Pick.TheVariants.{Modulo};
ghost use Rattle.snb_walk.specs.Picks.{index_of};

use crate::told::flaw_of;
use snb_base::Text;
use snb_graph::Graph;
use snb_handlers::{Call, Handler, Handlers, KINDS};
use snb_read_model::{Answer, copy_answer, lend_reply};
use snb_read_replies::own_answer;
use snb_schema::Query;
use snb_test_script::{Flaw, Lines, first_word, number_of, shown};
use snb_validation::reply_text;
use snb_walk::{Call as PickCall, Chance, Pick, Policy, Steps, Target, walk};
use std::alloc::{AllocError, Global};

// The steps, a line each.
fn told_steps(alloc: Global, steps: &Steps) -> Result<String, AllocError> {
    let mut answer = Lines::new(alloc);
    for (target, reply) in steps.as_slice() {
        let mut line = match target {
            Target::Person { id } => format!(in alloc; "person {id} ")?,
            Target::Message { id } => format!(in alloc; "message {id} ")?,
        };
        let mut text = Vec::new(alloc);
        reply_text(&lend_reply(reply)?, &mut text)?;
        line.push_str(shown(alloc, &text)?.as_str())?;
        answer.add(line.as_str())?;
    }
    Ok(answer.told())
}

// The numbers of a text, with a comma between two.
fn numbers_of(alloc: Global, text: &str) -> Result<Vec<u64>, Flaw> {
    let mut numbers = Vec::new(alloc);
    for number in text.split(',') {
        numbers.push(number_of(number)?)?;
    }
    Ok(numbers)
}

/// The steps of a copy of the walk from the friends of a person, as `PERSON CHANCE WORDS` says it, over handlers that
/// answer from the graph and a policy that picks by the word modulo how many targets there are.
pub(crate) fn walked(alloc: Global, graph: &Graph, rest: &str) -> Result<String, Flaw>
    requires { Sound graph.now }
{
    let (person, rest) = first_word(rest);
    let (chance, words) = first_word(rest);
    let person = number_of(person)?;
    let chance = Chance::read(chance.as_bytes()).ok_or(Flaw::NoNumber)?;
    let words = numbers_of(alloc, words)?;
    let mut handlers = Handlers::new(alloc);
    for kind in KINDS {
        let call: Call = Box::new(
            alloc,
            move |graph: &Graph, query: &Query| -> Result<Answer<Text>, AllocError>
                requires { Sound graph.now }
                ensures { IfOk result (IsAnswer graph.now query.now) }
            { copy_answer(&own_answer(alloc, graph, query)?) },
        )?;
        if let Err(why) = handlers.register(Handler::new(kind, call)) {
            return Err(flaw_of(why));
        }
    }
    let pick: PickCall = Box::new(
        alloc,
        move |targets: &[Target], word: u64| -> usize
            requires { 0 < length targets.now }
            ensures { result ≡ index_of Modulo (length targets.now) word }
        { (word % targets.len() as u64) as usize },
    )?;
    let policy = Policy::new(Pick::Modulo, pick);
    match handlers.missing() {
        Some(_) => Err(Flaw::OtherValue),
        None => {
            let query = Query::Is3 { person };
            let trace = walk(alloc, &handlers, &policy, graph, &query, chance, &words)?;
            let copy = trace.steps.try_copy()?;
            drop(trace);
            Ok(told_steps(alloc, &copy)?)
        }
    }
}
