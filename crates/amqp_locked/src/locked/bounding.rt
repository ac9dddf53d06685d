//! What waits to be taken, where only so much may wait.

ghost use Rattle.std.specs.Prelude.{◌≡◌};
ghost use Rattle.amqp_locked.specs.UnderLock.{contents, with_session};

use super::Locked;

// How many events are asked for in one hold.
const ASKED: usize = 64;

impl Locked {
    /// Whether only so much may wait to be taken, and the session goes on.
    pub fn is_to_bound(&self) -> bool {
        self.backlog.is_bounded() && !self.hub.session().has_ended()
    }

    /// Takes what waits to be taken from the session, and keeps it beside it; of more than may wait the oldest go.
    pub fn bound(&mut self)
        ensures { contents self.new ≡ with_session self.new.hub.engine.talk (contents self.old) }
    {
        self.bound_events();
        'channels: for at in 0..self.backlog.count() {
            self.bound_frames(at);
        }
    }

    // The same of events.
    fn bound_events(&mut self)
        ensures { contents self.new ≡ with_session self.new.hub.engine.talk (contents self.old) }
    {
        'events: for _ in 0..ASKED {
            if self.backlog.reserve_event().is_err() {
                return;
            }
            match self.hub.event() {
                Some(event) => self.backlog.keep_event(event),
                None => return,
            }
        }
    }

    // The same of the frames of the channel at this place.
    fn bound_frames(&mut self, at: usize)
        ensures { contents self.new ≡ with_session self.new.hub.engine.talk (contents self.old) }
    {
        if let Some(opened) = self.backlog.opened(at) {
            let frames = self.handed(opened);
            if frames.is_empty() {
                return;
            }
            self.backlog.keep_frames(at, frames);
        }
    }

    /// How many events went that nobody took.
    pub fn events_gone(&self) -> u64 {
        self.backlog.events_gone()
    }

    /// How many frames went that nobody took, of the channel that this promise opened.
    pub fn frames_gone(&self, opened: u64) -> u64 {
        self.backlog.frames_gone(opened)
    }
}
