//! What is kept for those who listen.

ghost use Rattle.std.specs.Prelude.{◌≡◌, ◌+◌, ◌≤◌, ◌∷◌, [], length, true, false, Some, None, IfOk, IfSome, IfNone, IsOk, OnOk, OnErr};
ghost use Rattle.amqp_answers.specs.Events.{unheard, event_noted, owe_event, paid, forgotten, failed};
ghost use Rattle.std.specs.VecDeque.{deque_capacity};

use crate::event::Event;
use amqp_maps::{by_channel, queue};
use amqp_promise::ErrorKind;
use amqp_types::{AMQPError, ChannelId, NoMemory};
use std::alloc::Global;
use std::collections::{BTreeMap, VecDeque};

/// The events of a session but that of its end, and the errors with which the server closed channels
/// until our close-ok is sent, which are told then.
#[derive(Drop)]
pub struct Events {
    listens: bool,
    events: VecDeque<Event>,
    // whether the event of the end is kept, which has the error of the end
    tells_end: bool,
    owed: BTreeMap<ChannelId, AMQPError>,
    // each error that is owed has a place among the events already
    ghost places: { length owed.entries + length events.items ≤ deque_capacity events },
}

impl Events {
    ghost use Rattle.amqp_answers.specs.Seen.{noted_in, HasEventPlace};

    /// No event is kept, since nobody listens.
    pub fn new(alloc: Global) -> Events
        ensures { noted_in result ≡ unheard }
    {
        Events {
            listens: false,
            events: VecDeque::new(alloc),
            tells_end: false,
            owed: BTreeMap::new(alloc),
        }
    }

    /// Equal events, and equal errors that are owed.
    pub fn try_clone(&self, alloc: Global) -> Result<Events, NoMemory>
        ensures { IfOk result (λ e. noted_in e ≡ noted_in self.now) }
    {
        let mut events = queue(alloc, &self.events)?;
        let owed = by_channel(alloc, &self.owed)?;
        events.reserve(owed.len())?;
        Ok(Events {
            listens: self.listens,
            events,
            tells_end: self.tells_end,
            owed,
        })
    }

    /// Whether events are kept.
    pub fn listens(&self) -> bool
        ensures { result ≡ (noted_in self.now).listens }
    {
        self.listens
    }

    /// Events are kept from now on.
    pub fn listen(&mut self)
        ensures { noted_in self.new ≡ record (noted_in self.old) { listens = true } }
    {
        self.listens = true;
    }

    /// Makes a place for one event more, where events are kept.
    pub fn reserve(&mut self) -> Result<(), NoMemory>
        ensures same { noted_in self.new ≡ noted_in self.old }
        ensures place { OnOk result (HasEventPlace self.new) }
        ensures idle { (noted_in self.old).listens ≡ false → IsOk result }
    {
        if self.listens {
            self.events.reserve(self.owed.len() + 1)?;
        }
        Ok(())
    }

    /// An event is kept, where events are. Its place was made.
    pub fn note_reserved(&mut self, event: Event)
        requires { HasEventPlace self.old }
        ensures { noted_in self.new ≡ event_noted event (noted_in self.old) }
    {
        if self.listens {
            self.events.push_back_reserved(event);
        } else {
            drop(event);
        }
    }

    /// The server closed a channel with this error, or without one. A place for its event is made; without
    /// an error no memory is taken.
    pub fn owe(&mut self, id: ChannelId, error: Option<AMQPError>) -> Result<(), NoMemory>
        ensures ok { OnOk result (noted_in self.new ≡ owe_event id error (noted_in self.old)) }
        ensures err { OnErr result (noted_in self.new ≡ noted_in self.old) }
        ensures idle { error ≡ None → IsOk result }
    {
        match error {
            Some(error) => self.keep_owed(id, error),
            None => Ok(()),
        }
    }

    // The server closed a channel with this error.
    fn keep_owed(&mut self, id: ChannelId, error: AMQPError) -> Result<(), NoMemory>
        ensures ok { OnOk result (noted_in self.new ≡ owe_event id (Some error) (noted_in self.old)) }
        ensures err { OnErr result (noted_in self.new ≡ noted_in self.old) }
    {
        if let Err(refused) = self.events.reserve(self.owed.len() + 1) {
            drop(error);
            return Err(refused.into());
        }
        self.owed.insert(id, error)?;
        Ok(())
    }

    /// Our close-ok was sent on a channel, and the error with which the server closed it is told, where
    /// there was one and events are kept.
    pub fn pay(&mut self, id: ChannelId)
        ensures { noted_in self.new ≡ paid id (noted_in self.old) }
    {
        let Some(error) = self.owed.remove(&id) else {
            return;
        };
        if self.listens {
            let kind = ErrorKind::ProtocolError(error);
            self.events.push_back_reserved(Event::Error(kind.into()));
        } else {
            drop(error);
        }
    }

    /// Nothing is owed any more.
    pub fn forget(&mut self)
        ensures { noted_in self.new ≡ forgotten (noted_in self.old) }
    {
        self.owed.clear();
    }

    /// The session ended by an error: nothing is owed any more, and where events are kept that of the end is.
    pub fn fail(&mut self)
        ensures { noted_in self.new ≡ failed (noted_in self.old) }
    {
        self.owed.clear();
        self.tells_end = self.listens;
    }

    /// Whether the event of the end is kept, and was not taken.
    pub fn tells_end(&self) -> bool
        ensures { result ≡ (noted_in self.now).tells_end }
    {
        self.tells_end
    }

    /// The event of the end was taken.
    pub fn tell_end(&mut self)
        ensures { noted_in self.new ≡ record (noted_in self.old) { tells_end = false } }
    {
        self.tells_end = false;
    }

    /// Takes the first event.
    pub fn take(&mut self) -> Option<Event>
        ensures first { IfSome result (λ event. (noted_in self.old).events ≡ event ∷ (noted_in self.new).events) }
        ensures none { IfNone result ((noted_in self.old).events ≡ []) }
        ensures rest { noted_in self.new ≡ record (noted_in self.old) { events = (noted_in self.new).events } }
        ensures same { IfNone result (noted_in self.new ≡ noted_in self.old) }
    {
        self.events.pop_front()
    }
}
