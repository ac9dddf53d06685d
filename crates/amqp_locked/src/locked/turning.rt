//! What is seen of a turn, for whom there is something then, and whether callers are ahead of the loop.

ghost use Rattle.std.specs.Prelude.{◌≡◌};
ghost use Rattle.amqp_locked.specs.UnderLock.{contents};
ghost use Rattle.amqp_locked.specs.Waking.{counts_of, news_after};

use super::Locked;
use crate::waking::{Counts, News, news_after};

impl Locked {
    /// What is counted now.
    pub fn counts(&self) -> Counts
        ensures { result ≡ counts_of self.now }
    {
        let session = self.hub.session();
        Counts {
            state: session.state(),
            listed: session.listed(),
            waiting: session.waiting(),
            cleared: self.cleared,
            entries: self.hub.entries(),
            seen: self.seen,
        }
    }

    /// For whom there is something once a turn was taken in this hold, before which so much was counted.
    pub fn news_since(&mut self, before: Counts) -> News
        ensures news { result ≡ news_after before (counts_of self.new) }
        ensures rest { contents self.new ≡ contents self.old }
    {
        let entered = self.hub.since(before.entries);
        self.seen = self.seen.with_all(&mut self.reading, entered);
        let taken = self.seen.taken.wrapping_sub(before.seen.taken);
        let session = self.hub.session();
        let octets = taken.saturating_add(session.unsent());
        self.pace.turn(session.promises(), octets);
        if session.waiting() == 0 && session.unsent() == 0 {
            self.seen = self.seen.replied();
        }
        news_after(before, self.counts())
    }

    /// The loop lets callers gather before its next turn, where they are ahead of it and none of them waits. Whether
    /// it does.
    pub fn begin_gathering(&mut self) -> bool
        ensures { contents self.new ≡ contents self.old }
    {
        let gathers = self.pace.may_gather();
        if gathers {
            self.pace.begin_gathering();
        }
        gathers
    }

    /// It does so no more. Whether it did.
    pub fn end_gathering(&mut self) -> bool
        ensures { contents self.new ≡ contents self.old }
    {
        self.pace.end_gathering()
    }

    /// One caller more waits for something that goes out, for which the loop is not to let others gather.
    pub fn begin_sleep(&mut self)
        ensures { contents self.new ≡ contents self.old }
    {
        self.pace.begin_sleep();
    }

    /// One fewer does.
    pub fn end_sleep(&mut self)
        ensures { contents self.new ≡ contents self.old }
    {
        self.pace.end_sleep();
    }
}
