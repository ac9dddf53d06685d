//! Those who wait, by what they wait for.

use amqp_locked::News;
use std::sync::Condvar;

/// What a caller waits for.
#[derive(Clone, Copy, Debug, PartialEq, Eq)]
pub(crate) enum Waits {
    /// The answer to a command.
    Answer,
    /// Frames of a channel.
    Frames,
    /// An event.
    Event,
    /// The state of a channel.
    State,
    /// That less waits to go out.
    Room,
    /// Whatever it looks for in the hub.
    Hub,
    /// The end.
    End,
}

impl Waits {
    // Whether it comes of what goes out, so that a loop is not to let callers gather meanwhile.
    pub(crate) fn is_short(self) -> bool {
        matches!(self, Waits::Answer | Waits::Room | Waits::Hub)
    }
}

/// The threads that wait, by what they wait for.
#[derive(Drop)]
pub(crate) struct Changes {
    answers: Condvar,
    frames: Condvar,
    events: Condvar,
    states: Condvar,
    room: Condvar,
    hub: Condvar,
    end: Condvar,
}

impl Changes {
    /// Nobody waits.
    pub(crate) fn new() -> Changes {
        Changes {
            answers: Condvar::new(),
            frames: Condvar::new(),
            events: Condvar::new(),
            states: Condvar::new(),
            room: Condvar::new(),
            hub: Condvar::new(),
            end: Condvar::new(),
        }
    }

    /// Where those sleep that wait for this.
    pub(crate) fn of(&self, waits: Waits) -> &Condvar {
        match waits {
            Waits::Answer => &self.answers,
            Waits::Frames => &self.frames,
            Waits::Event => &self.events,
            Waits::State => &self.states,
            Waits::Room => &self.room,
            Waits::Hub => &self.hub,
            Waits::End => &self.end,
        }
    }

    /// Wakes those for whom there is something.
    pub(crate) fn wake(&self, news: News) {
        if news.answers {
            self.answers.notify_all();
        }
        if news.frames {
            self.frames.notify_all();
        }
        if news.events {
            self.events.notify_all();
        }
        if news.states {
            self.states.notify_all();
        }
        if news.room {
            self.room.notify_all();
        }
        if news.end {
            self.end.notify_all();
        }
        if news.is_any() {
            self.hub.notify_all();
        }
    }
}
