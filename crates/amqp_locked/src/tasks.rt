//! Tasks that wait.

ghost use Rattle.std.specs.Prelude.{◌≡◌, [], true, OnOk, OnErr};
ghost use Rattle.futures.specs.Task.{Hears, IsArmed, Keeps};
ghost use Rattle.amqp_locked.specs.Waking.{AreWoken};

use crate::waking::News;
use amqp_promise::Wakers;
use amqp_types::NoMemory;
use futures::task::{Context, Source};
use std::alloc::Global;

// Of more places than so many all are woken at the next turn: a task that polls again and again takes one each time.
const PLACES: u64 = 1_024;

/// The wakers of the tasks that wait for one thing.
#[derive(Drop)]
pub(crate) struct Queue {
    wakers: Wakers,
    // how many there are
    places: u64,
}

/// The wakers of the tasks that wait, by what they wait for.
#[derive(Drop)]
pub(crate) struct Tasks {
    pub(crate) answers: Queue,
    pub(crate) frames: Queue,
    pub(crate) events: Queue,
    pub(crate) states: Queue,
    pub(crate) room: Queue,
}

impl Queue {
    // No task waits.
    fn new(alloc: Global) -> Queue {
        Queue {
            wakers: Wakers::new(alloc),
            places: 0,
        }
    }

    /// Makes a place, and leaves the waker of the polled task there, which then waits at this source.
    pub(crate) fn register(&mut self, source: &Source, cx: &mut Context<'_>) -> Result<(), NoMemory>
        ensures armed { OnOk result (IsArmed cx.new) }
        ensures heard { OnOk result (Hears cx.new source.now.id) }
        ensures kept { Keeps cx.old cx.new }
        ensures untouched { OnErr result (cx.new ≡ cx.old) }
    {
        self.places = self.places.saturating_add(1);
        self.wakers.register(source, cx)
    }

    // Wakes them all, where there is something for them or they are many.
    fn wake_if(&mut self, news: bool)
        ensures { news ≡ true → self.new.wakers ≡ [] }
    {
        if news || self.places > PLACES {
            self.wakers.wake();
            self.places = 0;
        }
    }
}

impl Tasks {
    /// No task waits.
    pub(crate) fn new(alloc: Global) -> Tasks {
        Tasks {
            answers: Queue::new(alloc),
            frames: Queue::new(alloc),
            events: Queue::new(alloc),
            states: Queue::new(alloc),
            room: Queue::new(alloc),
        }
    }

    /// Wakes those for whom there is something.
    pub(crate) fn wake(&mut self, news: News)
        ensures { AreWoken news self.new }
    {
        self.answers.wake_if(news.answers);
        self.frames.wake_if(news.frames);
        self.events.wake_if(news.events);
        self.states.wake_if(news.states);
        self.room.wake_if(news.room);
    }
}
