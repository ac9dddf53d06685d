//! Promises of a number, and what they tell.
//!
//! An error is let go by a call of `drop`, and never where a scope ends: at such a place the check goes
//! through each kind of it.

use amqp_promise::{Promise, PromiseResolver, Result, Slot};
use amqp_types::NoMemory;
use futures::task::{Poll, Source};
use futures::test::MockTask;
use std::sync::Wait;

/// The end at which an answer is taken.
pub type Answer = Promise<u8>;

/// The end at which it is given.
pub type Resolver = PromiseResolver<u8>;

/// What a poll of such a promise answers.
pub type Polled = Poll<std::result::Result<Result<u8>, NoMemory>>;

/// Whether two values are equal. It takes both.
pub fn same<T: PartialEq + Drop>(value: T, other: T) -> bool {
    let same = value == other;
    drop(value);
    drop(other);
    same
}

/// Whether a promise gives this now.
pub fn gives<R: Wait>(rt: &R, promise: &Answer, wanted: Option<Result<u8>>) -> bool {
    same(promise.try_wait(rt), wanted)
}

/// Whether a poll of a promise by this task answers this.
pub fn polls<R: Wait>(rt: &R, task: &MockTask, promise: &Answer, wanted: Polled) -> bool {
    let polled = task.enter(|cx| promise.poll(rt, cx));
    same(polled, wanted)
}

/// Whether a task could register at a slot.
pub fn registers(source: &Source, task: &MockTask, slot: &mut Slot<u8>) -> bool {
    task.enter(|cx| slot.register(source, cx).is_ok())
}
