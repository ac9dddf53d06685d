//! Places for wakers.

ghost use Rattle.std.specs.Prelude.{◌≡◌, [], OnOk, OnErr};
ghost use Rattle.futures.specs.Task.{Hears, IsArmed, Keeps};
ghost use Rattle.amqp_promise.specs.Places.{HasOneMore};

use amqp_types::NoMemory;
use futures::task::{Context, Poll, Source, Waker};
use std::alloc::Global;
use std::marker::Model;

/// A plain list of places for wakers, one for each registering.
#[derive(Drop)]
pub struct Wakers {
    places: Vec<Option<Waker>>,
}

impl Model for Wakers {
    ghost use Rattle.std.specs.Prelude.{List, map};
    ghost use Rattle.amqp_promise.specs.Places.{Place, place_of};

    ghost Value = { List Place };

    ghost view = { λ w. map place_of w.places.items };
}

impl Wakers {
    /// No place.
    pub fn new(alloc: Global) -> Wakers
        ensures { result ≡ [] }
    {
        Wakers {
            places: Vec::new(alloc),
        }
    }

    /// Makes a place, and leaves the waker of the polled task there, which then waits at this source.
    pub fn register(&mut self, source: &Source, cx: &mut Context<'_>) -> Result<(), NoMemory>
        ensures more { OnOk result (HasOneMore cx.old cx.new self.old self.new) }
        ensures armed { OnOk result (IsArmed cx.new) }
        ensures heard { OnOk result (Hears cx.new source.now.id) }
        ensures kept { Keeps cx.old cx.new }
        ensures refused { OnErr result (self.new ≡ self.old) }
        ensures untouched { OnErr result (cx.new ≡ cx.old) }
    {
        self.places.reserve(1)?;
        let mut place = None;
        let _: Poll<()> = cx.register(source, &mut place);
        self.places.push_reserved(place);
        Ok(())
    }

    /// Wakes each task whose waker there is, and empties the list.
    pub fn wake(&mut self)
        ensures { self.new ≡ [] }
    {
        // A waker that is dropped wakes its task.
        self.places.clear();
    }
}
