//! Where a connection stands with its handshake and its link, and how it ended.

ghost use Rattle.std.specs.Prelude.{◌≡◌, IfOk};
ghost use Rattle.amqp_rules.specs.Links.{dropped};
ghost use Rattle.amqp_rules.specs.Recovery.{is_uncrossed};

use amqp_promise::Error;
use amqp_types::NoMemory;
use std::alloc::Global;

/// What the handshake awaits.
#[derive(Clone, Copy, PartialEq, Eq)]
pub enum Phase {
    AwaitStart,
    AwaitTune,
    AwaitOpenOk,
}

/// What is done with the frames that come on a link.
#[derive(Clone, Copy)]
pub enum Input {
    /// They act.
    Acting,
    /// The server closed the connection, and they are read and dropped. Its close crossed ours where
    /// it came after we had closed the connection.
    Closed { crossed: bool },
    /// After that came what is no frame, and nothing more is read.
    Dropped { crossed: bool },
}

impl Input {
    /// What is done with them once what is no frame came after the server's close.
    pub fn dropped(self) -> Input
        ensures { result ≡ dropped self }
    {
        match self {
            Input::Acting => Input::Acting,
            Input::Closed { crossed } | Input::Dropped { crossed } => Input::Dropped { crossed },
        }
    }

    /// Whether the server closed the connection, and we had not closed it before.
    pub fn is_uncrossed(self) -> bool
        ensures { result ≡ is_uncrossed self }
    {
        match self {
            Input::Acting => false,
            Input::Closed { crossed } | Input::Dropped { crossed } => !crossed,
        }
    }
}

/// Where a session stands with its link. At its end it has none.
#[derive(Drop)]
pub enum Link<E> {
    /// Until this moment, in milliseconds, none is wanted.
    Due(u64),
    Wanted,
    Asked,
    Open,
    Ended(Result<(), E>),
}

/// How a session ended with an error, which is kept once.
#[derive(Drop)]
pub enum End {
    /// By the error with which the server closed the connection.
    ByServer,
    Failed(Error),
}

impl End {
    // An equal end.
    fn try_clone(&self, alloc: Global) -> Result<End, NoMemory>
        ensures { IfOk result (λ end. end ≡ self.now) }
    {
        match self {
            End::ByServer => Ok(End::ByServer),
            End::Failed(error) => Ok(End::Failed(error.try_clone(alloc)?)),
        }
    }
}

impl Link<End> {
    /// An equal one.
    pub fn try_clone(&self, alloc: Global) -> Result<Link<End>, NoMemory>
        ensures { IfOk result (λ link. link ≡ self.now) }
    {
        match self {
            Link::Due(moment) => Ok(Link::Due(*moment)),
            Link::Wanted => Ok(Link::Wanted),
            Link::Asked => Ok(Link::Asked),
            Link::Open => Ok(Link::Open),
            Link::Ended(Ok(())) => Ok(Link::Ended(Ok(()))),
            Link::Ended(Err(end)) => Ok(Link::Ended(Err(end.try_clone(alloc)?))),
        }
    }
}
