//! How long a wait may last.

use std::time::{Clock, Duration, Instant};

/// A wait of so long at most, from its start on. Where the clock could not be read there, it is over at once.
#[derive(Clone, Copy)]
pub(crate) struct Patience {
    start: Option<Instant>,
    limit: Duration,
}

impl Patience {
    /// A wait that begins now.
    pub(crate) fn of<R: Clock>(rt: &R, limit: Duration) -> Patience {
        Patience {
            start: Instant::now(rt).ok(),
            limit,
        }
    }

    /// What is left of it; nothing once it is over, or where the clock can't be read.
    pub(crate) fn left<R: Clock>(&self, rt: &R) -> Option<Duration> {
        let past = self.start?.elapsed(rt).ok()?;
        let left = self.limit.checked_sub(past)?;
        if left.is_zero() { None } else { Some(left) }
    }
}
