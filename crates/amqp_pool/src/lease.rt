//! Leases, and what the calls of a pool answer.

ghost use Rattle.std.specs.Prelude.{◌≡◌};

use amqp_session::ChanRef;
use std::marker::Model;

/// The right to use a channel of a pool, until it is given back. It is neither copied nor dropped.
pub struct Lease {
    pub(crate) channel: ChanRef,
}

impl Model for Lease {
    ghost use Rattle.amqp_commands.specs.declared.command.ChanRef.{ChanRef};

    ghost Value = { ChanRef };

    ghost view = { λ l. l.channel };
}

impl Lease {
    /// The channel, to command with.
    pub fn channel(&self) -> ChanRef
        ensures { result ≡ self.now }
    {
        self.channel
    }

    /// Gives up a lease whose pool is gone, and tells the channel. A pool that is not gone goes on
    /// counting the channel as leased.
    pub fn give_up(self) -> ChanRef
        ensures { result ≡ self }
    {
        let Lease { channel } = self;
        channel
    }
}

/// What a lease is answered with.
pub enum Leased {
    /// A channel that is open.
    Now(Lease),
    /// One is opened, as this promise.
    Opening(u64),
    /// The pool has this many channels, and no idle one is open.
    Full(u16),
}

/// What becomes of a channel that is given back.
pub enum Back {
    /// It is idle again.
    Kept,
    /// It was lost, and is forgotten.
    Lost,
    /// It is not leased from this pool, and its lease is handed back.
    Foreign(Lease),
}
