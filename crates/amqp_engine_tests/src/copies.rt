//! Copies of steps.

use crate::support::{HANDSHAKE, Happens, Outcome, our_close, steps};
use amqp_engine::{Given, GivenStep, Step};
use std::alloc::Global;

fn given_is_copied(alloc: Global, given: &Given) -> bool {
    let copy = given.try_clone(alloc);
    let same = match &copy {
        Ok(copy) => *copy == *given,
        Err(_) => false,
    };
    drop(copy);
    same
}

fn given_step_is_copied(alloc: Global, what: &GivenStep) -> bool {
    let copy = what.try_clone(alloc);
    let same = match &copy {
        Ok(copy) => *copy == *what,
        Err(_) => false,
    };
    drop(copy);
    same
}

// Whether the copy of a step is equal to it. It takes the step.
fn step_is_copied(alloc: Global, step: Step) -> bool {
    let copy = step.try_clone(alloc);
    let same = match &copy {
        Ok(copy) => *copy == step,
        Err(_) => false,
    };
    drop(copy);
    drop(step);
    same
}

// Whether the copies of a script's steps are equal to them.
fn script_is_copied(alloc: Global, script: &[Happens]) -> Outcome<bool> {
    let steps = steps(alloc, script)?;
    for given in &steps {
        if !given_is_copied(alloc, given) || !given_step_is_copied(alloc, &given.what) {
            return Ok(false);
        }
    }
    Ok(true)
}

// Whether the copy of our close is equal to it.
fn close_is_copied(alloc: Global) -> Outcome<bool> {
    let close = our_close(alloc)?;
    Ok(step_is_copied(alloc, Step::Command(close)))
}

#[test]
fn copies_are_equal(rt: HostRuntime) -> Outcome<()> {
    let alloc = rt.alloc();
    assert!(rt; script_is_copied(alloc, &HANDSHAKE)?);
    assert!(rt; close_is_copied(alloc)?);
    assert!(rt; step_is_copied(alloc, Step::Room));
    Ok(())
}
