//! How long something may last, and lasted.

use std::time::{Clock, Duration, Instant};

/// A span of time that began at some moment.
#[derive(Clone, Copy)]
pub struct Span {
    // none where the clock could not be read
    start: Option<Instant>,
}

impl Span {
    /// It begins now.
    pub fn begin<R: Clock>(rt: &R) -> Span {
        Span {
            start: Instant::now(rt).ok(),
        }
    }

    // How long it has lasted.
    fn past<R: Clock>(self, rt: &R) -> Option<Duration> {
        self.start?.elapsed(rt).ok()
    }

    /// How many milliseconds it has lasted; 0 where the clock can't be read.
    pub fn milliseconds<R: Clock>(self, rt: &R) -> u128 {
        match self.past(rt) {
            Some(past) => past.as_millis(),
            None => 0,
        }
    }
}

/// So long at most.
#[derive(Clone, Copy)]
pub struct Limit {
    span: Span,
    limit: Duration,
}

impl Limit {
    /// So many milliseconds from now on.
    pub fn of<R: Clock>(rt: &R, milliseconds: u64) -> Limit {
        Limit {
            span: Span::begin(rt),
            limit: Duration::from_millis(milliseconds),
        }
    }

    /// What is left of it; nothing once it is over, or where the clock can't be read.
    pub fn left<R: Clock>(self, rt: &R) -> Option<Duration> {
        let left = self.limit.checked_sub(self.span.past(rt)?)?;
        if left.is_zero() { None } else { Some(left) }
    }
}
