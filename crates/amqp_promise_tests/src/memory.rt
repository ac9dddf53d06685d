//! Want of memory: what was refused once has changed nothing, and is asked for again. These tests are
//! to be run with each allocation failing in turn.

use crate::support::{Answer, Resolver, polls, registers, same};
use amqp_promise::{Promise, Slot};
use amqp_types::NoMemory;
use futures::task::{Poll, Source};
use futures::test::MockTask;
use std::alloc::{AllocGlobal, Global};
use std::io;
use std::random::RandomSource;
use std::sync::Wait;
use std::test::Fail;

fn task_of<R: RandomSource + AllocGlobal>(rt: &R) -> io::Result<MockTask> {
    match MockTask::new(rt) {
        Ok(task) => Ok(task),
        Err(_) => MockTask::new(rt),
    }
}

fn ends(alloc: Global) -> Result<(Answer, Resolver), NoMemory> {
    match Promise::new(alloc, "answer") {
        Ok(ends) => Ok(ends),
        Err(NoMemory) => Promise::new(alloc, "answer"),
    }
}

// Whether a poll waits, at once or after a refusal that left the task alone.
fn waits<R: Wait>(rt: &R, task: &MockTask, promise: &Answer) -> bool {
    match task.enter(|cx| promise.poll(rt, cx)) {
        Poll::Pending => true,
        Poll::Ready(Err(NoMemory)) => {
            !task.is_woken() && polls(rt, task, promise, Poll::Pending)
        }
        Poll::Ready(Ok(outcome)) => {
            drop(outcome);
            false
        }
    }
}

fn is_woken<R: Wait>(rt: &R, task: &MockTask, promise: &Answer, resolver: &Resolver) -> bool {
    let waits = waits(rt, task, promise);
    resolver.resolve(rt, 5);
    waits && task.is_woken() && polls(rt, task, promise, Poll::Ready(Ok(Ok(5))))
}

fn wakes<R: Wait>(rt: &R, alloc: Global, task: &MockTask) -> Result<bool, NoMemory> {
    let (promise, resolver) = ends(alloc)?;
    let woken = is_woken(rt, task, &promise, &resolver);
    drop(resolver);
    drop(promise);
    Ok(woken)
}

#[test]
fn a_refused_poll_changes_nothing(rt: HostRuntime) -> Result<(), Fail> {
    let task = task_of(&rt)?;
    let told = wakes(&rt, rt.alloc(), &task);
    drop(task);
    assert!(rt; told?);
    Ok(())
}

// Whether a task that registers, at once or after a refusal that left it alone, is woken.
fn is_woken_by_a_slot(source: &Source, task: &MockTask, slot: &mut Slot<u8>) -> bool {
    let registered = registers(source, task, slot)
        || !task.is_woken() && registers(source, task, slot);
    slot.complete(Ok(5));
    registered && task.is_woken() && same(slot.take(), Some(Ok(5)))
}

#[test]
fn a_refused_place_changes_nothing(rt: HostRuntime) -> Result<(), Fail> {
    let task = task_of(&rt)?;
    let mut slot = Slot::new(rt.alloc());
    let told = is_woken_by_a_slot(&Source::new(), &task, &mut slot);
    drop(slot);
    drop(task);
    assert!(rt; told);
    Ok(())
}
