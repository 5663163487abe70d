//! The call of a clock that counts how often it is asked.

use snb_base::{Clock, StepClock};
use snb_test_script::{Flaw, number_of};
use std::alloc::Global;
use std::sync::Wait;

/// `steps UNTIL`
pub fn steps<R: Wait>(rt: &R, alloc: Global, rest: &str) -> Result<String, Flaw> {
    let until = number_of(rest)?;
    let clock = StepClock::new();
    let first = clock.now();
    let second = clock.now();
    let third = clock.now();
    clock.rest(rt, until);
    let fourth = clock.now();
    let fifth = clock.now();
    Ok(format!(in alloc; "{first} {second} {third} {fourth} {fifth}")?)
}
