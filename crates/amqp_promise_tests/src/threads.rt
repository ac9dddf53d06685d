//! A promise between threads.

ghost use Rattle.std.specs.Prelude.{◌≡◌};
ghost use Rattle.amqp_promise.specs.Ends.{promise_source};

use crate::support::{Answer, Polled, Resolver, same};
use amqp_promise::{Promise, Result};
use amqp_types::NoMemory;
use futures::Future;
use futures::executor::block_on;
use futures::task::Context;
use std::alloc::Global;
use std::sync::Wait;
use std::thread::{self, Threads};

// A promise that is waited for, with the handle that its lock asks for.
#[derive(Drop)]
struct Waiting<'a, R: Wait> {
    rt: &'a R,
    promise: &'a Answer,
}

impl<R: Wait> Future for Waiting<'_, R> {
    type Output = std::result::Result<Result<u8>, NoMemory>;

    ghost needs = { λ waiting s. s ≡ promise_source waiting.promise.now };

    fn poll(&mut self, cx: &mut Context<'_>) -> Polled {
        self.promise.poll(self.rt, cx)
    }
}

#[test]
fn another_thread_completes(rt: HostRuntime) -> std::result::Result<(), NoMemory> {
    let (promise, resolver): (Answer, Resolver) = Promise::new(rt.alloc(), "answer")?;
    let rt = &rt;
    let waiting = Waiting {
        rt,
        promise: &promise,
    };
    let (given, ()) = thread::join(
        rt,
        move || block_on(rt, waiting),
        move || resolver.resolve(rt, 5),
    );
    drop(promise);
    let told = match given {
        Ok(outcome) => same(outcome, Ok(Ok(5))),
        Err(e) => {
            drop(e);
            false
        }
    };
    assert!(rt; told);
    Ok(())
}

// The value that a take gets, where it gets one.
fn value_of(taken: Option<Result<u8>>) -> Option<u8> {
    match taken {
        Some(Ok(value)) => Some(value),
        Some(Err(error)) => {
            drop(error);
            None
        }
        None => None,
    }
}

// What takes of one thread got: how many a value, and the last of them.
#[derive(Clone, Copy)]
struct Got {
    count: u32,
    last: u8,
}

// Takes so many times, whatever is there.
fn take<R: Wait>(rt: &R, promise: &Answer, times: u32) -> Got {
    let mut got = Got { count: 0, last: 0 };
    for _ in 0..times {
        if let Some(value) = value_of(promise.try_wait(rt)) {
            got = Got {
                count: got.count.saturating_add(1),
                last: value,
            };
        }
    }
    got
}

// Four resolvers of one cell.
#[derive(Drop)]
struct Resolvers {
    first: Resolver,
    second: Resolver,
    third: Resolver,
    fourth: Resolver,
}

// Three more resolvers of the cell that this one completes, beside itself.
fn four_of(first: Resolver) -> std::result::Result<Resolvers, NoMemory> {
    let second = first.try_clone()?;
    let third = first.try_clone()?;
    let fourth = first.try_clone()?;
    Ok(Resolvers {
        first,
        second,
        third,
        fourth,
    })
}

// Two threads that complete, each by a resolver of its own.
fn complete_twice<R: Wait + Threads + Sync>(
    rt: &R,
    resolver: Resolver,
    value: u8,
    other_resolver: Resolver,
    other_value: u8,
) {
    thread::join(
        rt,
        move || resolver.resolve(rt, value),
        move || other_resolver.resolve(rt, other_value),
    );
}

// Four threads that complete, each by a resolver of its own and with a value of its own.
fn complete_four_times<R: Wait + Threads + Sync>(rt: &R, resolvers: Resolvers) {
    let Resolvers {
        first,
        second,
        third,
        fourth,
    } = resolvers;
    thread::join(
        rt,
        move || complete_twice(rt, first, 1, second, 2),
        move || complete_twice(rt, third, 3, fourth, 4),
    );
}

// What two threads got by so many takes each, while four completed the promise.
fn take_while_four_complete<R: Wait + Threads + Sync>(
    rt: &R,
    promise: &Answer,
    resolvers: Resolvers,
    times: u32,
) -> (Got, Got) {
    let (got, ()) = thread::join(
        rt,
        move || {
            thread::join(
                rt,
                move || take(rt, promise, times),
                move || take(rt, promise, times),
            )
        },
        move || complete_four_times(rt, resolvers),
    );
    got
}

// Whether of all takes, one more in the end among them, one got a value, which is one of these.
fn is_one_of(first: Got, second: Got, last: Got, values: &[u8]) -> bool {
    match (first.count, second.count, last.count) {
        (1, 0, 0) => values.contains(&first.last),
        (0, 1, 0) => values.contains(&second.last),
        (0, 0, 1) => values.contains(&last.last),
        _ => false,
    }
}

// A promise, and four resolvers of its cell.
fn with_four_resolvers(alloc: Global) -> std::result::Result<(Answer, Resolvers), NoMemory> {
    let (promise, resolver): (Answer, Resolver) = Promise::new(alloc, "answer")?;
    match four_of(resolver) {
        Ok(resolvers) => Ok((promise, resolvers)),
        Err(refused) => {
            drop(promise);
            Err(refused)
        }
    }
}

// One take gets a value, which is that of one of the four completions.
#[test]
fn many_resolvers(rt: HostRuntime) -> std::result::Result<(), NoMemory> {
    for _ in 0..50 {
        let (promise, resolvers) = with_four_resolvers(rt.alloc())?;
        let (first, second) = take_while_four_complete(&rt, &promise, resolvers, 20);
        let last = take(&rt, &promise, 1);
        drop(promise);
        assert!(rt; is_one_of(first, second, last, &[1, 2, 3, 4]));
    }
    Ok(())
}

// The first completion was there before, and the four come too late.
#[test]
fn many_resolvers_after_the_first_completion(rt: HostRuntime) -> std::result::Result<(), NoMemory> {
    for _ in 0..50 {
        let (promise, resolvers) = with_four_resolvers(rt.alloc())?;
        resolvers.first.resolve(&rt, 5);
        let (first, second) = take_while_four_complete(&rt, &promise, resolvers, 1);
        let last = take(&rt, &promise, 1);
        drop(promise);
        assert!(rt; last.count == 0 && is_one_of(first, second, last, &[5]));
    }
    Ok(())
}
