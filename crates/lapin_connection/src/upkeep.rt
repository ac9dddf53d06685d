//! What a connection does by itself.

ghost use Rattle.std.specs.Prelude.{◌≡◌, Some, None};

use amqp_locked::Locked;

/// How many octets are entered at least before a journal begins anew, where nothing else is said.
pub(crate) const SETTLES_AFTER: u64 = 1 << 20;

/// How long the mark of a channel is put off while something that was sent on it waits to go out, in milliseconds,
/// where nothing else is said.
pub(crate) const DROP_LIMIT: u64 = 60_000;

/// What a connection does by itself: how many octets are entered at least before its journal begins anew, if it
/// does; how long the mark of a channel is put off, in milliseconds; and how many events, and frames of each channel,
/// wait to be taken at most, if that is bounded.
#[derive(Clone, Copy, Debug, PartialEq, Eq)]
pub struct Upkeep {
    pub(crate) settles_after: Option<u64>,
    pub(crate) drop_limit: u64,
    pub(crate) backlog_limit: Option<u64>,
}

impl Upkeep {
    /// A connection that keeps all that happens to it.
    pub(crate) fn keeping() -> Upkeep
        ensures { result ≡ record { settles_after = None; drop_limit = 60000; backlog_limit = None } }
    {
        Upkeep {
            settles_after: None,
            drop_limit: DROP_LIMIT,
            backlog_limit: None,
        }
    }

    /// A connection that settles by itself.
    pub(crate) fn settling() -> Upkeep
        ensures { result ≡ record { settles_after = Some 1048576; drop_limit = 60000; backlog_limit = None } }
    {
        Upkeep {
            settles_after: Some(SETTLES_AFTER),
            drop_limit: DROP_LIMIT,
            backlog_limit: None,
        }
    }

    /// What lies under a lock, which does what is said of it.
    pub(crate) fn of_lock(self, locked: Locked) -> Locked {
        let locked = locked.with_drop_limit(self.drop_limit);
        match self.backlog_limit {
            Some(limit) => locked.with_backlog_limit(limit as usize),
            None => locked,
        }
    }
}
