//! The lanes of all updates.

ghost use Rattle.std.specs.Prelude.{◌≡◌, ◌≤◌, ◌+◌, ◌*◌, ◌++◌, IfOk, OnOk, length};
ghost use Rattle.snb_schema.specs.declared.limits.TheConstants.{MAX_TRIAL};
ghost use Rattle.snb_trial.specs.Trial.{forum_lane, lane, lanes, lines_from, person_lane};

use crate::entries::{
    comment_line, forum_line, friendship_line, like_line, membership_line, person_line, post_line,
};
use snb_schema::{Lanes, Line};
use std::alloc::{AllocError, Global};

// Appends what a lane of persons has of an i.
fn push_person(alloc: Global, lines: &mut Vec<Line>, part: u64, i: u64) -> Result<(), AllocError>
    requires few { i ≤ MAX_TRIAL }
    requires room { length lines.old.items ≤ 25000 }
    ensures { OnOk result
        (lines.new.items ≡ lines.old.items ++ lines_from (length lines.old.items + 1) (person_lane part i)) }
{
    let number = lines.len() as u32 + 1;
    if i % 2 == part {
        lines.push(person_line(alloc, i, number)?)?;
    } else {
        lines.push(friendship_line(i, number))?;
    }
    Ok(())
}

// Appends what a forum lane has of an i.
fn push_forum(alloc: Global, lines: &mut Vec<Line>, part: u64, i: u64) -> Result<(), AllocError>
    requires few { i ≤ MAX_TRIAL }
    requires room { length lines.old.items ≤ 25000 }
    ensures { OnOk result
        (lines.new.items ≡ lines.old.items ++ lines_from (length lines.old.items + 1) (forum_lane part i)) }
{
    if i % 3 != part {
        return Ok(());
    }
    let first = lines.len() as u32 + 1;
    lines.push(forum_line(alloc, i, first)?)?;
    lines.push(membership_line(i, first + 1))?;
    lines.push(post_line(alloc, i, first + 2)?)?;
    lines.push(comment_line(alloc, i, first + 3)?)?;
    lines.push(like_line(i, first + 4))?;
    Ok(())
}

// The lines of a lane of persons.
fn person_lines(alloc: Global, part: u64, n: u32) -> Result<Vec<Line>, AllocError>
    requires { n ≤ MAX_TRIAL }
    ensures { IfOk result (λ lines. lines.items ≡ lane (person_lane part) n) }
{
    let mut lines = Vec::new(alloc);
    for before in 0..n {
        push_person(alloc, &mut lines, part, u64::from(before) + 1)?;
    }
    Ok(lines)
}

// The lines of a forum lane.
fn forum_lines(alloc: Global, part: u64, n: u32) -> Result<Vec<Line>, AllocError>
    requires { n ≤ MAX_TRIAL }
    ensures { IfOk result (λ lines. lines.items ≡ lane (forum_lane part) n) }
{
    let mut lines = Vec::new(alloc);
    for before in 0..n {
        push_forum(alloc, &mut lines, part, u64::from(before) + 1)?;
    }
    Ok(lines)
}

/// The lanes of the updates of each i from 1 to n.
pub fn trial_lanes(alloc: Global, n: u32) -> Result<Lanes, AllocError>
    requires { n ≤ MAX_TRIAL }
    ensures { IfOk result (λ made. made ≡ lanes n) }
{
    let mut made = Lanes::new(alloc);
    made.push_person(person_lines(alloc, 0, n)?)?;
    made.push_person(person_lines(alloc, 1, n)?)?;
    made.push_forum(forum_lines(alloc, 0, n)?)?;
    made.push_forum(forum_lines(alloc, 1, n)?)?;
    made.push_forum(forum_lines(alloc, 2, n)?)?;
    Ok(made)
}
