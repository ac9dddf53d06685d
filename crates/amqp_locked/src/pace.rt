//! How callers go on while a loop takes its turns.
//!
//! Where many commands come between two turns, the callers are ahead of the loop: a turn that waits for a moment then
//! writes more of them at once, and meets the callers less often at the lock. What is said here is a matter of cost
//! alone.

// So many commands come between two turns at least where callers are ahead.
const COMMANDS: u64 = 4;

// Where a turn had so many octets to write, it is large enough.
const OCTETS: u64 = 1 << 16;

/// How callers go on: whether they were ahead of the last turn, how many promises had been made then, how many callers
/// wait for something that goes out, and whether the loop lets them gather.
#[derive(Clone, Copy, Debug)]
pub(crate) struct Pace {
    ahead: bool,
    made: u64,
    sleepers: u64,
    gathers: bool,
}

impl Pace {
    /// Nobody waits, and no command came.
    pub(crate) fn new() -> Pace {
        Pace {
            ahead: false,
            made: 0,
            sleepers: 0,
            gathers: false,
        }
    }

    /// A turn was taken once so many promises had been made, with so many octets to write.
    pub(crate) fn turn(&mut self, made: u64, octets: u64) {
        self.ahead = made.saturating_sub(self.made) >= COMMANDS && octets < OCTETS;
        self.made = made;
    }

    /// Whether the loop may let callers gather: they are ahead of it, and none of them waits.
    pub(crate) fn may_gather(self) -> bool {
        self.ahead && self.sleepers == 0
    }

    /// The loop lets callers gather from now on.
    pub(crate) fn begin_gathering(&mut self) {
        self.gathers = true;
    }

    /// It does so no more. Whether it did.
    pub(crate) fn end_gathering(&mut self) -> bool {
        let gathered = self.gathers;
        self.gathers = false;
        gathered
    }

    /// One caller more waits.
    pub(crate) fn begin_sleep(&mut self) {
        self.sleepers = self.sleepers.saturating_add(1);
    }

    /// One fewer does.
    pub(crate) fn end_sleep(&mut self) {
        self.sleepers = self.sleepers.saturating_sub(1);
    }
}
