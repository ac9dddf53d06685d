//! The faults of a link.

ghost use Rattle.std.specs.Prelude.{◌≡◌};
ghost use Rattle.amqp_promise.specs.Errors.{fault_text};

use amqp_types::Word;
use thiserror::Error;

/// What went wrong with a link.
#[derive(Clone, Copy, Debug, PartialEq, Eq, Error)]
#[error("{0}", self.text())]
pub enum IoFault {
    /// Its input ended.
    Aborted,
    /// It was asked for and did not come.
    Refused,
    /// Reading failed.
    Reset,
    /// Writing failed.
    BrokenPipe,
    /// Nothing could be done without waiting.
    WouldBlock,
    /// The call was interrupted.
    Interrupted,
    /// What the text says.
    Other(Word),
}

impl IoFault {
    /// Its text.
    pub fn text(self) -> &'static str
        ensures { result.now ≡ fault_text self }
    {
        match self {
            IoFault::Aborted => "connection aborted",
            IoFault::Refused => "connection refused",
            IoFault::Reset => "connection reset",
            IoFault::BrokenPipe => "broken pipe",
            IoFault::WouldBlock => "operation would block",
            IoFault::Interrupted => "operation interrupted",
            IoFault::Other(word) => word.text(),
        }
    }
}
