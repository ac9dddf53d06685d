//! The cells by themselves.

use crate::support::{Polled, registers, same};
use amqp_promise::{
    ErrorHolder, ErrorKind, KillSwitch, Notifier, Result, Slot, Wakers,
    a_first_completion_is_taken_once,
};
use amqp_types::NoMemory;
use futures::task::{Poll, Source};
use futures::test::MockTask;
use std::alloc::Global;
use std::sync::Wait;
use std::test::Fail;

// Whether a poll by this task answers this.
fn polls(source: &Source, task: &MockTask, slot: &mut Slot<u8>, wanted: Polled) -> bool {
    let polled = task.enter(|cx| slot.poll(source, cx));
    same(polled, wanted)
}

// Whether a take gets this.
fn gives(slot: &mut Slot<u8>, wanted: Option<Result<u8>>) -> bool {
    same(slot.take(), wanted)
}

fn is_woken_by_a_slot(source: &Source, task: &MockTask, slot: &mut Slot<u8>) -> bool {
    let polled = polls(source, task, slot, Poll::Pending);
    let waits = registers(source, task, slot) && !task.is_woken();
    slot.complete(Ok(5));
    polled && waits && task.is_woken()
}

// A completed slot registers nothing, so a task that registers there is not woken.
fn is_taken_once(source: &Source, task: &MockTask, slot: &mut Slot<u8>) -> bool {
    slot.complete(Ok(6));
    let registered = registers(source, task, slot);
    slot.complete(Ok(7));
    let undisturbed = !task.is_woken();
    let given = polls(source, task, slot, Poll::Ready(Ok(Ok(5))));
    registered && undisturbed && given && gives(slot, None)
}

#[test]
fn a_slot_wakes_who_registered(rt: HostRuntime) -> std::result::Result<(), Fail> {
    a_first_completion_is_taken_once::<u8>();
    let task = MockTask::new(&rt)?;
    let source = Source::new();
    let mut slot = Slot::new(rt.alloc());
    let woken = is_woken_by_a_slot(&source, &task, &mut slot);
    let taken = is_taken_once(&source, &task, &mut slot);
    drop(slot);
    drop(task);
    assert!(rt; woken && taken);
    Ok(())
}

// Whether two tasks wait at a slot, and one completion wakes both.
fn wakes_both(source: &Source, one: &MockTask, other: &MockTask, slot: &mut Slot<u8>) -> bool {
    let one_waits = polls(source, one, slot, Poll::Pending) && !one.is_woken();
    let other_waits = polls(source, other, slot, Poll::Pending) && !other.is_woken();
    slot.complete(Ok(5));
    one_waits && other_waits && one.is_woken() && other.is_woken()
}

#[test]
fn a_slot_wakes_two_tasks(rt: HostRuntime) -> std::result::Result<(), Fail> {
    let (one, other) = (MockTask::new(&rt)?, MockTask::new(&rt)?);
    let mut slot = Slot::new(rt.alloc());
    let woken = wakes_both(&Source::new(), &one, &other, &mut slot);
    drop(slot);
    drop(other);
    drop(one);
    assert!(rt; woken);
    Ok(())
}

// What a slot says once its result was taken: who registers is left alone, and who polls is to poll
// again.
fn asks_to_be_polled_again(source: &Source, task: &MockTask, slot: &mut Slot<u8>) -> bool {
    slot.complete(Ok(5));
    let taken = gives(slot, Some(Ok(5)));
    let registered = registers(source, task, slot);
    slot.complete(Ok(6));
    let left_alone = !task.is_woken();
    let polled = polls(source, task, slot, Poll::Pending);
    taken && registered && left_alone && polled && task.is_woken()
}

#[test]
fn a_taken_slot_has_nothing_more(rt: HostRuntime) -> std::result::Result<(), Fail> {
    let task = MockTask::new(&rt)?;
    let mut slot = Slot::new(rt.alloc());
    let told = asks_to_be_polled_again(&Source::new(), &task, &mut slot);
    drop(slot);
    drop(task);
    assert!(rt; told);
    Ok(())
}

fn is_taken_between_completions(slot: &mut Slot<u8>) -> bool {
    let nothing = gives(slot, None);
    slot.complete(Err(ErrorKind::OutOfTurns.into()));
    slot.complete(Ok(6));
    let first = gives(slot, Some(Err(ErrorKind::OutOfTurns.into())));
    let taken = gives(slot, None);
    slot.complete(Ok(7));
    nothing && first && taken && gives(slot, None)
}

#[test]
fn a_slot_keeps_its_first_completion(rt: HostRuntime) {
    let mut slot = Slot::new(rt.alloc());
    let told = is_taken_between_completions(&mut slot);
    drop(slot);
    assert!(rt; told);
}

// Whether a task that registered is woken once.
fn is_woken_once(source: &Source, task: &MockTask, wakers: &mut Wakers) -> bool {
    let registered = task.enter(|cx| wakers.register(source, cx).is_ok());
    wakers.wake();
    let woken = task.is_woken();
    // This poll registers nothing.
    task.enter(|_| ());
    wakers.wake();
    registered && woken && !task.is_woken()
}

#[test]
fn places_are_empty_once_woken(rt: HostRuntime) -> std::result::Result<(), Fail> {
    let task = MockTask::new(&rt)?;
    let mut wakers = Wakers::new(rt.alloc());
    let told = is_woken_once(&Source::new(), &task, &mut wakers);
    drop(wakers);
    drop(task);
    assert!(rt; told);
    Ok(())
}

// Whether two tasks that registered are woken at once.
fn are_woken_at_once(
    source: &Source,
    one: &MockTask,
    other: &MockTask,
    wakers: &mut Wakers,
) -> bool {
    let registered = one.enter(|cx| wakers.register(source, cx).is_ok())
        && other.enter(|cx| wakers.register(source, cx).is_ok());
    let wait = !one.is_woken() && !other.is_woken();
    wakers.wake();
    registered && wait && one.is_woken() && other.is_woken()
}

#[test]
fn places_of_two_tasks_are_woken(rt: HostRuntime) -> std::result::Result<(), Fail> {
    let (one, other) = (MockTask::new(&rt)?, MockTask::new(&rt)?);
    let mut wakers = Wakers::new(rt.alloc());
    let told = are_woken_at_once(&Source::new(), &one, &other, &mut wakers);
    drop(wakers);
    drop(other);
    drop(one);
    assert!(rt; told);
    Ok(())
}

// Whether a poll by this task answers this.
fn is_told<R: Wait>(
    rt: &R,
    task: &MockTask,
    notifier: &Notifier,
    wanted: Poll<std::result::Result<(), NoMemory>>,
) -> bool {
    task.enter(|cx| notifier.poll(rt, cx) == wanted)
}

fn is_woken_by_a_notice<R: Wait>(rt: &R, task: &MockTask, notifier: &Notifier) -> bool {
    let waits = is_told(rt, task, notifier, Poll::Pending) && !task.is_woken();
    notifier.notify_all(rt);
    waits && task.is_woken()
}

// A notifier that has told keeps no waker, so who asks then is not woken by it any more.
fn is_told_at_once<R: Wait>(rt: &R, task: &MockTask, notifier: &Notifier) -> bool {
    let told = is_told(rt, task, notifier, Poll::Ready(Ok(())));
    notifier.notify_all(rt);
    told && !task.is_woken() && is_told(rt, task, notifier, Poll::Ready(Ok(())))
}

#[test]
fn a_notifier_tells_who_waits(rt: HostRuntime) -> std::result::Result<(), Fail> {
    let task = MockTask::new(&rt)?;
    let told = match Notifier::new(rt.alloc()) {
        Ok(notifier) => {
            let woken = is_woken_by_a_notice(&rt, &task, &notifier);
            let told = is_told_at_once(&rt, &task, &notifier);
            drop(notifier);
            woken && told
        }
        Err(_) => false,
    };
    drop(task);
    assert!(rt; told);
    Ok(())
}

// Whether two tasks wait for a notice that wakes both.
fn notifies_both<R: Wait>(rt: &R, one: &MockTask, other: &MockTask, notifier: &Notifier) -> bool {
    let one_waits = is_told(rt, one, notifier, Poll::Pending) && !one.is_woken();
    let other_waits = is_told(rt, other, notifier, Poll::Pending) && !other.is_woken();
    notifier.notify_all(rt);
    one_waits && other_waits && one.is_woken() && other.is_woken()
}

#[test]
fn a_notifier_tells_two_tasks(rt: HostRuntime) -> std::result::Result<(), Fail> {
    let (one, other) = (MockTask::new(&rt)?, MockTask::new(&rt)?);
    let told = match Notifier::new(rt.alloc()) {
        Ok(notifier) => {
            let told = notifies_both(&rt, &one, &other, &notifier);
            drop(notifier);
            told
        }
        Err(_) => false,
    };
    drop(other);
    drop(one);
    assert!(rt; told);
    Ok(())
}

fn is_killed_once() -> bool {
    let mut switch = KillSwitch::new();
    let new = !switch.killed();
    let killed = switch.kill() && !switch.kill() && switch.killed();
    switch.reset();
    new && killed && !switch.killed() && switch.kill()
}

#[test]
fn a_switch_is_killed_once(rt: HostRuntime) {
    assert!(rt; is_killed_once());
}

fn tells(alloc: Global, holder: &ErrorHolder, wanted: Result<()>) -> bool {
    same(holder.check(alloc), wanted)
}

fn tells_the_last(alloc: Global, holder: &mut ErrorHolder) -> bool {
    let none = tells(alloc, holder, Ok(()));
    holder.set(ErrorKind::InvalidChannel(3).into());
    let first = tells(alloc, holder, Err(ErrorKind::InvalidChannel(3).into()));
    holder.set(NoMemory.into());
    let last = tells(alloc, holder, Err(NoMemory.into()));
    none && first && last && tells(alloc, holder, Err(NoMemory.into()))
}

#[test]
fn the_last_error_is_told(rt: HostRuntime) {
    let mut holder = ErrorHolder::new();
    let told = tells_the_last(rt.alloc(), &mut holder);
    drop(holder);
    assert!(rt; told);
}
