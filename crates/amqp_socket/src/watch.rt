//! What a session and its port share: how the session stands, and why a link failed last.

ghost use Rattle.std.specs.Prelude.{◌≡◌};
ghost use Rattle.amqp_socket.specs.Watched.{code_of_standing, standing_of_code, code_of_cause, cause_of_code};

use std::sync::atomic::{AtomicU64, Ordering};

/// How a session stands, as far as its port asks.
#[derive(Clone, Copy, Debug, PartialEq, Eq)]
pub enum Standing {
    /// It opens its connection, for the first time or again.
    Opening,
    /// Its connection is open, or it has ended.
    Open,
    /// Its connection is being closed.
    Closing,
    /// Nobody waits for it any more.
    Abandoned,
}

impl Standing {
    // The number that stands for it.
    pub(crate) fn code(self) -> u64
        ensures { result ≡ code_of_standing self }
    {
        match self {
            Standing::Opening => 0,
            Standing::Open => 1,
            Standing::Closing => 2,
            Standing::Abandoned => 3,
        }
    }

    // What a number stands for.
    pub(crate) fn of_code(code: u64) -> Standing
        ensures { result ≡ standing_of_code code }
    {
        if code == 0 {
            return Standing::Opening;
        }
        if code == 1 {
            return Standing::Open;
        }
        if code == 2 {
            return Standing::Closing;
        }
        Standing::Abandoned
    }
}

/// Why a link failed.
#[derive(Clone, Copy, Debug, PartialEq, Eq)]
pub enum Cause {
    /// None has failed.
    Nothing,
    /// The host has no address.
    NoAddress,
    /// The other end refused it.
    Refused,
    /// The system had not connected within 10 seconds, or says that it took too long.
    TimedOut,
    /// No way leads to the address.
    Unreachable,
    /// The connection was not open 10 seconds after the link was there.
    NotOpened,
    /// The connection was not closed 10 seconds after that began.
    NotClosed,
    /// The other end was silent for longer than was allowed.
    Silent,
    /// The other end let the link go.
    Reset,
    /// The session was abandoned.
    Abandoned,
    /// The system refused it, or for another reason.
    Other,
}

impl Cause {
    // The number that stands for it.
    pub(crate) fn code(self) -> u64
        ensures { result ≡ code_of_cause self }
    {
        match self {
            Cause::Nothing => 0,
            Cause::NoAddress => 1,
            Cause::Refused => 2,
            Cause::TimedOut => 3,
            Cause::Unreachable => 4,
            Cause::NotOpened => 5,
            Cause::NotClosed => 6,
            Cause::Silent => 7,
            Cause::Reset => 8,
            Cause::Abandoned => 9,
            Cause::Other => 10,
        }
    }

    // What a number stands for.
    pub(crate) fn of_code(code: u64) -> Cause
        ensures { result ≡ cause_of_code code }
    {
        if code == 0 {
            return Cause::Nothing;
        }
        if code == 1 {
            return Cause::NoAddress;
        }
        if code == 2 {
            return Cause::Refused;
        }
        if code == 3 {
            return Cause::TimedOut;
        }
        if code == 4 {
            return Cause::Unreachable;
        }
        if code == 5 {
            return Cause::NotOpened;
        }
        if code == 6 {
            return Cause::NotClosed;
        }
        if code == 7 {
            return Cause::Silent;
        }
        if code == 8 {
            return Cause::Reset;
        }
        if code == 9 {
            return Cause::Abandoned;
        }
        Cause::Other
    }
}

/// What a number stands for is what was put into it.
pub fn is_told_as_it_is(standing: Standing, cause: Cause)
    ensures standing { standing_of_code (code_of_standing standing) ≡ standing }
    ensures cause { cause_of_code (code_of_cause cause) ≡ cause }
{
    let _standing = standing.code();
    let _cause = cause.code();
}

/// What a session and its port share: a word that says how the session stands, and one that says why a link
/// failed last. What they hold is what was told, and no proof knows it.
#[derive(Drop)]
pub struct Watch {
    standing: AtomicU64,
    cause: AtomicU64,
}

impl Watch {
    /// A session that opens its connection, and no link that failed.
    pub fn new() -> Watch {
        Watch {
            standing: AtomicU64::new(Standing::Opening.code()),
            cause: AtomicU64::new(Cause::Nothing.code()),
        }
    }

    /// Says how the session stands. One that is abandoned stays so.
    pub fn tell(&self, standing: Standing) {
        let told = standing.code();
        let held = self.standing.load(Ordering::SeqCst);
        if held == told || held == Standing::Abandoned.code() {
            return;
        }
        // Where another told meanwhile, that is the later word.
        let _ = self
            .standing
            .compare_exchange(held, told, Ordering::SeqCst, Ordering::SeqCst);
    }

    /// Says that nobody waits for the session any more.
    pub fn abandon(&self) {
        self.standing
            .store(Standing::Abandoned.code(), Ordering::SeqCst);
    }

    /// How the session stands.
    pub fn standing(&self) -> Standing {
        Standing::of_code(self.standing.load(Ordering::SeqCst))
    }

    /// Why a link failed last.
    pub fn cause(&self) -> Cause {
        Cause::of_code(self.cause.load(Ordering::SeqCst))
    }

    // A link failed, for this reason.
    pub(crate) fn note(&self, cause: Cause) {
        self.cause.store(cause.code(), Ordering::SeqCst);
    }
}
