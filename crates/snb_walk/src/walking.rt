//! The walk.

ghost use Rattle.std.specs.Prelude.{◌≤◌, IfOk, MatchOption, length};
ghost use Rattle.snb_graph_model.specs.Soundness.{Sound};
ghost use Rattle.snb_walk.specs.Walks.{IsWalk, MayGo, Stops};

use crate::policy::Policy;
use crate::reading::{answer_of, step_to};
use crate::target::{Stop, Target};
use crate::targets::push_targets;
use crate::trace::{Steps, Trace};
use snb_graph::Graph;
use snb_ratio::{CERTAIN, Chance};
use snb_read_laws::answers_have_columns;
use snb_replies::Replies;
use snb_schema::Query;
use std::alloc::{AllocError, Global};

// Why a walk stops before a step, if it does: by what is left of the chance, in millionths, how many steps there
// were, the words, and the targets.
fn reason(left: u32, step: usize, words: &[u64], targets: &[Target]) -> Option<Stop>
    requires { step ≤ CERTAIN }
    ensures { MatchOption result (MayGo left words.now step (length targets.now))
        (Stops left words.now step (length targets.now)) }
{
    if left == 0 {
        return Some(Stop::Chance);
    }
    if words.len() < 2 * step + 2 {
        return Some(Stop::Words);
    }
    if words[2 * step] % CERTAIN >= u64::from(left) {
        return Some(Stop::Chance);
    }
    if targets.is_empty() {
        return Some(Stop::Nowhere);
    }
    None
}

/// The walk that begins with the answer to a query and goes on from its targets, two words for each step.
///
/// It stops before a step for the first of these reasons: nothing is left of the chance; fewer than two words are
/// left; the first of the two, modulo 1000000, isn't below what is left of the chance, in millionths; the answers just
/// before have no targets. Else the policy picks the target by the second word, and the reply of the step is the
/// answers to IS1, IS2 and IS3 of a person, or to IS4, IS5, IS6 and IS7 of a message, in this order.
///
/// An error is that of what answers reads, or says that memory doesn't suffice.
/// The conditions: the graph is sound, and what answers reads is ready, as a table is in which each kind of read has a
/// handler.
pub fn walk<A: Replies>(
    alloc: Global,
    answers: &A,
    policy: &Policy,
    graph: &Graph,
    query: &Query,
    chance: Chance,
    words: &[u64],
) -> Result<Trace, AllocError>
    requires sound { Sound graph.now }
    requires ready { A.ready answers.now }
    ensures { IfOk result
        (λ trace. IsWalk graph.now policy.now.pick chance words.now query.now trace.start trace.steps trace.stop) }
{
    answers_have_columns();
    let start = answer_of(alloc, answers, graph, query)?;
    let mut targets = Vec::new(alloc);
    push_targets(&mut targets, query, &start)?;
    let mut steps = Steps::new(alloc);
    let mut left = chance.start();
    let down = chance.down();
    let mut step = 0usize;
    'walking: loop {
        match reason(left, step, words, &targets) {
            Some(stop) => return Ok(Trace { start, steps, stop }),
            None => {}
        }
        let at = policy.index(&targets, words[2 * step + 1]);
        let target = targets[at];
        let (reply, next) = step_to(alloc, answers, graph, target)?;
        steps.push((target, reply))?;
        targets = next;
        left = left.saturating_sub(down);
        step += 1;
    }
}
