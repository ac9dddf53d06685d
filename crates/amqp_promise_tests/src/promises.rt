//! The two ends of a promise.

use crate::support::{Answer, Resolver, gives, polls};
use amqp_promise::{Cancelable, ErrorKind, Promise, Result};
use amqp_types::NoMemory;
use futures::task::Poll;
use futures::test::MockTask;
use std::alloc::Global;
use std::sync::Wait;
use std::test::Fail;

fn is_taken_once<R: Wait>(rt: &R, promise: &Answer, resolver: &Resolver) -> bool {
    let nothing = gives(rt, promise, None);
    resolver.complete(rt, Ok(5));
    resolver.complete(rt, Ok(6));
    let first = gives(rt, promise, Some(Ok(5)));
    let taken = gives(rt, promise, None);
    resolver.complete(rt, Ok(7));
    nothing && first && taken && gives(rt, promise, None)
}

#[test]
fn the_first_completion_is_taken_once(rt: HostRuntime) -> std::result::Result<(), NoMemory> {
    let (promise, resolver) = Promise::new(rt.alloc(), "answer")?;
    let told = is_taken_once(&rt, &promise, &resolver);
    drop(resolver);
    drop(promise);
    assert!(rt; told);
    Ok(())
}

// The calls that complete.
#[derive(Clone, Copy)]
enum Call {
    Complete,
    Resolve,
    Reject,
    Cancel,
}

// What a call completes with.
fn outcome_of(call: Call) -> Result<u8> {
    match call {
        Call::Complete => Ok(1),
        Call::Resolve => Ok(2),
        Call::Reject => Err(ErrorKind::InvalidChannel(3).into()),
        Call::Cancel => Err(ErrorKind::MissingHeartbeatError.into()),
    }
}

fn make_call<R: Wait>(rt: &R, resolver: &Resolver, call: Call) {
    match call {
        Call::Complete => resolver.complete(rt, Ok(1)),
        Call::Resolve => resolver.resolve(rt, 2),
        Call::Reject => resolver.reject(rt, ErrorKind::InvalidChannel(3).into()),
        Call::Cancel => resolver.cancel(rt, ErrorKind::MissingHeartbeatError.into()),
    }
}

// Whether a promise gives what a first call completes with, after another resolver's call as well.
fn is_given_after<R: Wait>(
    rt: &R,
    alloc: Global,
    first: Call,
    second: Call,
) -> std::result::Result<bool, NoMemory> {
    let (promise, resolver) = Promise::new(alloc, "answer")?;
    let told = match resolver.try_clone() {
        Ok(other) => {
            make_call(rt, &resolver, first);
            make_call(rt, &other, second);
            drop(other);
            Ok(gives(rt, &promise, Some(outcome_of(first))))
        }
        Err(e) => Err(e),
    };
    drop(resolver);
    drop(promise);
    told
}

#[test]
fn each_call_is_one_completion(rt: HostRuntime) -> std::result::Result<(), NoMemory> {
    for (first, second) in [
        (Call::Complete, Call::Cancel),
        (Call::Resolve, Call::Reject),
        (Call::Reject, Call::Complete),
        (Call::Cancel, Call::Resolve),
    ] {
        assert!(rt; is_given_after(&rt, rt.alloc(), first, second)?);
    }
    Ok(())
}

#[test]
fn a_promise_with_data_is_complete(rt: HostRuntime) -> std::result::Result<(), NoMemory> {
    let promise: Answer = Promise::new_with_data(rt.alloc(), "answer", Ok(5))?;
    let told = gives(&rt, &promise, Some(Ok(5))) && gives(&rt, &promise, None);
    drop(promise);
    assert!(rt; told);
    Ok(())
}

fn have_marker(promise: &Answer, resolver: &Resolver, marker: &str) -> bool {
    promise.marker() == marker && resolver.marker() == marker
}

#[test]
fn both_ends_have_the_marker(rt: HostRuntime) -> std::result::Result<(), NoMemory> {
    let (promise, resolver) = Promise::new(rt.alloc(), "channel.open")?;
    let told = have_marker(&promise, &resolver, "channel.open");
    drop(resolver);
    drop(promise);
    assert!(rt; told);
    Ok(())
}

fn is_woken<R: Wait>(rt: &R, task: &MockTask, promise: &Answer, resolver: &Resolver) -> bool {
    let waits = polls(rt, task, promise, Poll::Pending) && !task.is_woken();
    resolver.resolve(rt, 5);
    waits && task.is_woken() && polls(rt, task, promise, Poll::Ready(Ok(Ok(5))))
}

// The result was taken, and a task that polls is to be polled again.
fn is_polled_again<R: Wait>(rt: &R, task: &MockTask, promise: &Answer) -> bool {
    polls(rt, task, promise, Poll::Pending) && task.is_woken()
}

fn wakes<R: Wait>(rt: &R, alloc: Global, task: &MockTask) -> std::result::Result<bool, NoMemory> {
    let (promise, resolver) = Promise::new(alloc, "answer")?;
    let woken = is_woken(rt, task, &promise, &resolver);
    let again = is_polled_again(rt, task, &promise);
    drop(resolver);
    drop(promise);
    Ok(woken && again)
}

#[test]
fn a_completion_wakes_who_polled(rt: HostRuntime) -> std::result::Result<(), Fail> {
    let task = MockTask::new(&rt)?;
    let told = wakes(&rt, rt.alloc(), &task);
    drop(task);
    assert!(rt; told?);
    Ok(())
}

// Whether who polled waits on, for ever, once the one resolver was dropped. It takes the resolver.
fn waits_on<R: Wait>(rt: &R, task: &MockTask, promise: &Answer, resolver: Resolver) -> bool {
    let waits = polls(rt, task, promise, Poll::Pending);
    drop(resolver);
    let left_alone = !task.is_woken() && gives(rt, promise, None);
    let polled = polls(rt, task, promise, Poll::Pending);
    waits && left_alone && polled && !task.is_woken()
}

fn outlives<R: Wait>(
    rt: &R,
    alloc: Global,
    task: &MockTask,
) -> std::result::Result<bool, NoMemory> {
    let (promise, resolver) = Promise::new(alloc, "answer")?;
    let told = waits_on(rt, task, &promise, resolver);
    drop(promise);
    Ok(told)
}

#[test]
fn a_dropped_resolver_completes_nothing(rt: HostRuntime) -> std::result::Result<(), Fail> {
    let task = MockTask::new(&rt)?;
    let told = outlives(&rt, rt.alloc(), &task);
    drop(task);
    assert!(rt; told?);
    Ok(())
}

// Whether a completion finds who polled, though the promise was dropped. It takes the promise.
fn finds_who_polled<R: Wait>(
    rt: &R,
    task: &MockTask,
    promise: Answer,
    resolver: &Resolver,
) -> bool {
    let waits = polls(rt, task, &promise, Poll::Pending);
    drop(promise);
    let left_alone = !task.is_woken();
    resolver.resolve(rt, 5);
    resolver.reject(rt, ErrorKind::OutOfTurns.into());
    waits && left_alone && task.is_woken() && resolver.marker() == "answer"
}

fn completes_alone<R: Wait>(
    rt: &R,
    alloc: Global,
    task: &MockTask,
) -> std::result::Result<bool, NoMemory> {
    let (promise, resolver) = Promise::new(alloc, "answer")?;
    let told = finds_who_polled(rt, task, promise, &resolver);
    drop(resolver);
    Ok(told)
}

#[test]
fn a_promise_may_be_dropped_before_its_completion(
    rt: HostRuntime,
) -> std::result::Result<(), Fail> {
    let task = MockTask::new(&rt)?;
    let told = completes_alone(&rt, rt.alloc(), &task);
    drop(task);
    assert!(rt; told?);
    Ok(())
}
