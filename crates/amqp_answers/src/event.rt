//! What is told to those who listen.

ghost use Rattle.std.specs.Prelude.{◌≡◌, IfOk};

use amqp_maps::Copied;
use amqp_promise::Error;
use amqp_types::{NoMemory, Text};
use std::alloc::Global;

/// An event of a session.
#[derive(Debug, PartialEq, Eq, Drop)]
pub enum Event {
    /// The connection is open.
    Connected,
    /// The server wants nothing to be written any more, for this reason, as it is shown.
    ConnectionBlocked(Text),
    /// The server lets writing go on.
    ConnectionUnblocked,
    /// The server lets content be published on a channel, or not.
    SendFlow(bool),
    /// The session ended by this error, or the server closed a channel with it.
    Error(Error),
}

impl Event {
    /// An equal event, which shares the text where it has one.
    pub fn try_clone(&self, alloc: Global) -> Result<Event, NoMemory>
        ensures { IfOk result (λ event. event ≡ self.now) }
    {
        match self {
            Event::Connected => Ok(Event::Connected),
            Event::ConnectionBlocked(reason) => Ok(Event::ConnectionBlocked(reason.try_clone()?)),
            Event::ConnectionUnblocked => Ok(Event::ConnectionUnblocked),
            Event::SendFlow(active) => Ok(Event::SendFlow(*active)),
            Event::Error(error) => Ok(Event::Error(error.try_clone(alloc)?)),
        }
    }
}

impl Copied for Event {
    fn copied(&self, alloc: Global) -> Result<Event, NoMemory> {
        self.try_clone(alloc)
    }
}
