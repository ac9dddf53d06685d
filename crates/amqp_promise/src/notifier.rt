//! A notice that is given once, to all who wait for it.

ghost use Rattle.std.specs.Prelude.{◌≡◌, [], IfOk, IsOk};
ghost use Rattle.futures.specs.Task.{Covers, Keeps};
ghost use Rattle.futures.specs.Poll.{OnPending};

use crate::Wakers;
use amqp_types::NoMemory;
use futures::task::{Context, Poll, Source};
use std::alloc::Global;
use std::sync::{Mutex, Wait};

// A notice with those who wait for it. One that was given keeps no waker.
#[derive(Drop)]
enum Notice {
    Awaited(Wakers),
    Given,
}

impl Notice {
    ghost use Rattle.amqp_promise.specs.Notices.{PollsNotice};
    ghost use Rattle.amqp_promise.specs.declared.notifier.Notice.TheVariants.{Given};

    fn give(&mut self)
        ensures { self.new ≡ Given }
    {
        if let Notice::Awaited(wakers) = self {
            wakers.wake();
        }
        *self = Notice::Given;
    }

    fn poll(&mut self, source: &Source, cx: &mut Context<'_>) -> Poll<Result<(), NoMemory>>
        ensures answer { PollsNotice cx.old cx.new self.old self.new result }
        ensures registered { OnPending result (Covers cx.new (λ s. s ≡ source.now.id)) }
        ensures kept { Keeps cx.old cx.new }
    {
        match self {
            Notice::Given => Poll::Ready(Ok(())),
            Notice::Awaited(wakers) => match wakers.register(source, cx) {
                Ok(()) => Poll::Pending,
                Err(refused) => Poll::Ready(Err(refused)),
            },
        }
    }
}

/// Tells all who wait, once. Who asks later is told at once.
#[derive(Drop)]
pub struct Notifier {
    source: Source,
    notice: Mutex<Notice>,
}

impl Notifier {
    ghost use Rattle.amqp_promise.specs.NotifierSource.{notifier_source};

    /// A notifier that has not told yet. It takes no memory today, and the answer is always Ok.
    pub fn new(alloc: Global) -> Result<Notifier, NoMemory>
        ensures { IsOk result }
    {
        Ok(Notifier {
            source: Source::new(),
            notice: Mutex::new(Notice::Awaited(Wakers::new(alloc))),
        })
    }

    /// Tells all who wait, and who asks from now on.
    pub fn notify_all<R: Wait>(&self, rt: &R) {
        self.notice.lock(rt).give();
    }

    /// Ready once the notice was given; else the polled task waits for it, or, where no memory for its
    /// place was found, nothing has changed.
    pub fn poll<R: Wait>(&self, rt: &R, cx: &mut Context<'_>) -> Poll<Result<(), NoMemory>>
        ensures registered { OnPending result (Covers cx.new (λ s. s ≡ notifier_source self.now)) }
        ensures kept { Keeps cx.old cx.new }
    {
        self.notice.lock(rt).poll(&self.source, cx)
    }
}
