//! For how long a link may last without what is waited for on it.

ghost use Rattle.std.specs.Prelude.{◌≡◌, None};
ghost use Rattle.amqp_socket.specs.Limits.{noted, breach, silence_breach};
ghost use Rattle.amqp_socket.specs.declared.watch.Standing.TheVariants.{Open};

use crate::watch::{Cause, Standing};

/// For how long a connection may be opened, and for how long it may be closed, in milliseconds.
const PATIENCE: u64 = 10_000;

/// For how long a link may last without what is waited for on it: how the session stands, and the moments from
/// which time is counted.
#[derive(Clone, Copy, Debug)]
pub(crate) struct Limits {
    // for how long the other end may be silent, in milliseconds, if that is bounded
    pub(crate) silence: Option<u64>,
    pub(crate) standing: Standing,
    // when the link was there, when octets came on it last, and when the closing was first seen
    pub(crate) linked_at: u64,
    pub(crate) heard_at: u64,
    pub(crate) closing_at: u64,
}

impl Limits {
    // No silence is too long, and nothing is waited for.
    pub(crate) fn new() -> Limits
        ensures { result ≡ record { silence = None; standing = Open; linked_at = 0; heard_at = 0; closing_at = 0 } }
    {
        Limits {
            silence: None,
            standing: Standing::Open,
            linked_at: 0,
            heard_at: 0,
            closing_at: 0,
        }
    }

    // The session was seen to stand so.
    pub(crate) fn note(&mut self, standing: Standing, at: u64)
        ensures { self.new ≡ noted standing at self.old }
    {
        if standing == Standing::Closing && self.standing != Standing::Closing {
            self.closing_at = at;
        }
        self.standing = standing;
    }

    // The link is there.
    pub(crate) fn linked(&mut self, at: u64)
        ensures { self.new ≡ record self.old { linked_at = at; heard_at = at } }
    {
        self.linked_at = at;
        self.heard_at = at;
    }

    // Octets came on the link.
    pub(crate) fn heard(&mut self, at: u64)
        ensures { self.new ≡ record self.old { heard_at = at } }
    {
        self.heard_at = at;
    }

    // Why the link is given up now, where it is.
    pub(crate) fn breach(&self, at: u64) -> Option<Cause>
        ensures { result ≡ breach self.now at }
    {
        match self.standing {
            Standing::Opening if at.saturating_sub(self.linked_at) >= PATIENCE => {
                Some(Cause::NotOpened)
            }
            Standing::Closing if at.saturating_sub(self.closing_at) >= PATIENCE => {
                Some(Cause::NotClosed)
            }
            _ => self.silence_breach(at),
        }
    }

    // The same, where the other end was silent for too long.
    fn silence_breach(&self, at: u64) -> Option<Cause>
        ensures { result ≡ silence_breach self.now at }
    {
        match self.silence {
            Some(silence) if at.saturating_sub(self.heard_at) >= silence => Some(Cause::Silent),
            _ => None,
        }
    }
}
