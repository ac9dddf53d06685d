//! What is held of a connection.

use crate::stop::{Stop, text};
use crate::talk::Talk;
use amqp_session::Event;
use lapin_connection::{Connection, EventsListener, Pass, ThreadHandle};
use std::alloc::Global;

/// A connection, with the channels of it that are held.
#[derive(Drop)]
pub struct Line {
    pub connection: Option<Connection>,
    pub end: ThreadHandle,
    pub pass: Pass,
    pub talks: Vec<Talk>,
    pub events: Option<EventsListener>,
}

/// The channel that was opened last and is held, and who commands it.
pub fn talk_of(line: &mut Option<Line>) -> Result<(&mut Talk, &mut Pass), Stop> {
    let Some(line) = line else {
        return Err(Stop::Missing("connection"));
    };
    let Line { talks, pass, .. } = line;
    match talks.last_mut() {
        Some(talk) => Ok((talk, pass)),
        None => Err(Stop::Missing("channel")),
    }
}

/// The connection, and who commands it.
pub fn connection_of(line: &mut Option<Line>) -> Result<(&Connection, &mut Pass), Stop> {
    let Some(line) = line else {
        return Err(Stop::Missing("connection"));
    };
    let Line {
        connection,
        pass,
        ..
    } = line;
    match connection {
        Some(connection) => Ok((connection, pass)),
        None => Err(Stop::Missing("connection")),
    }
}

/// What is said of an event.
pub fn event_text(alloc: Global, event: Event) -> Result<String, Stop> {
    match event {
        Event::ConnectionBlocked(reason) => {
            let said = format!(in alloc; "blocked {}", reason.as_str());
            drop(reason);
            Ok(said?)
        }
        Event::ConnectionUnblocked => text(alloc, "unblocked"),
        Event::Connected => text(alloc, "connected"),
        Event::SendFlow(active) => text(alloc, if active { "flow" } else { "no flow" }),
        Event::Error(error) => {
            let said = format!(in alloc; "error {error}");
            drop(error);
            Ok(said?)
        }
    }
}
