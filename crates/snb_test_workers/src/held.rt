//! The call in which one of two workers finishes an insert while the other one is held with a read in hand.

ghost use Rattle.snb_test_workers.specs.Wholes.{IsWhole};

use crate::alone::{moments_of, told_work};
use crate::closed::{Planned, load_closed};
use crate::holder::{End, Holder};
use crate::pair::replies_of_seat;
use snb_answered::Answered;
use snb_base::{Gate, Phase};
use snb_test_board::board_of_two;
use snb_test_script::{Files, Flaw, Given, Lines, first_word, number_of, small_number_of};
use std::alloc::Global;
use std::sync::{Mutex, Wait};

// A gate at which the other worker finishes what it has in hand, once one is held with the operation in hand.
struct Overtaken<'a> {
    given: &'a Given<'a>,
    op: u32,
    now: u64,
    holder: Mutex<Option<Holder<'a>>>,
}

impl Drop for Overtaken<'_> {
    fn drop(self) {
        let Overtaken {
            given: _,
            op: _,
            now: _,
            holder: _,
        } = self;
    }
}

impl Gate for Overtaken<'_> {
    fn pass<R: Wait>(&self, rt: &R, worker: u32, op: u32, phase: Phase) {
        self.given.pass(rt, worker, op, phase);
        if op == self.op && matches!(phase, Phase::Held) {
            if let Some(holder) = self.holder.lock(rt).take() {
                holder.end(rt, End::Finish, self.now);
            }
        }
    }
}

// Adds a line for each reply, as the answers of a run have it.
fn tell_replies(alloc: Global, replies: &[Answered], answer: &mut Lines) -> Result<(), Flaw> {
    for reply in replies {
        let op = reply.op;
        let front = reply.front;
        let text = String::from_utf8_lossy(alloc, reply.text.as_slice())?;
        let text = text.as_str();
        let line = format!(in alloc; "{op}|{front}|{text}")?;
        answer.add(line.as_str())?;
    }
    Ok(())
}

// Worker 1 works, at a clock that shows these moments, while worker 0 has the first operation in hand, which
// must be an insert; it finishes that at the moment `now`, when worker 1 is held with the operation `op` in hand.
fn told_held<R: Wait>(
    rt: &R,
    alloc: Global,
    whole: &Planned,
    op: u32,
    now: u64,
    moments: &[u64],
) -> Result<String, Flaw>
    requires { IsWhole whole.now.graph whole.now.plan }
{
    let (board, zero, mut one) = board_of_two(alloc, whole.plan.schedule())?;
    let holder = Holder::new(rt, &board, whole.plan.schedule(), zero);
    if holder.is_none() {
        return Err(Flaw::OtherValue);
    }
    let given = Given::new(alloc, moments);
    let gate = Overtaken {
        given: &given,
        op,
        now,
        holder: Mutex::new(holder),
    };
    let done = replies_of_seat(rt, alloc, &board, &mut one, whole, &given, &gate)?;
    drop(gate);
    let mut events = Vec::new(alloc);
    board.catch_up(rt, &mut one, 0, &mut events)?;
    let replies = done.as_slice();
    let notes = given.notes();
    let told = told_work(alloc, notes.as_str(), &events, replies.len() as u64)?;
    let mut answer = Lines::new(alloc);
    answer.add(told.as_str())?;
    tell_replies(alloc, replies, &mut answer)?;
    Ok(answer.told())
}

/// `alone_held OPERATION NOW MOMENTS RATIO` or `alone_held OPERATION NOW MOMENTS RATIO FREQUENCIES`
pub fn alone_held<R: Wait>(
    rt: &R,
    alloc: Global,
    files: &Files,
    rest: &str,
) -> Result<String, Flaw> {
    let (op, rest) = first_word(rest);
    let (now, rest) = first_word(rest);
    let (moments, terms) = first_word(rest);
    let op = small_number_of(op)?;
    let now = number_of(now)?;
    let moments = moments_of(alloc, moments)?;
    let whole = load_closed(alloc, files, terms)?;
    told_held(rt, alloc, &whole, op, now, &moments)
}
