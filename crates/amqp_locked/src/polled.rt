//! What was taken, and is given to whoever it is for.

ghost use Rattle.std.specs.Prelude.{◌≡◌};
ghost use Rattle.amqp_locked.specs.Taking.{is_refused};

use amqp_hub::DropMark;
use amqp_session::{Answer, ErrorKind, Handed, Result};

/// The answer to a promise, which was taken and is given to whoever asked. It cannot be let go.
#[derive(Debug)]
pub struct Polled {
    number: u64,
    answer: Result<Answer>,
}

impl Polled {
    /// The answer to this promise.
    pub(crate) fn of(number: u64, answer: Result<Answer>) -> Polled
        ensures number { result.number ≡ number }
        ensures answer { result.answer ≡ answer }
    {
        Polled { number, answer }
    }

    /// The number of the promise.
    pub fn number(&self) -> u64
        ensures { result ≡ self.now.number }
    {
        self.number
    }

    /// The answer. The mark of who waits for it is spent, where there is one. It is not where memory for the
    /// answer's copy may have been refused: the answer is still there then.
    pub fn answer(self, mark: Option<&DropMark>) -> Result<Answer>
        ensures { result ≡ self.answer }
    {
        let Polled { number: _, answer } = self;
        if let Some(mark) = mark {
            if !is_refused(&answer) {
                mark.spend();
            }
        }
        answer
    }
}

/// Whether this is refused memory, as where memory for the copy of an error was refused.
pub(crate) fn is_refused(answer: &Result<Answer>) -> bool
    ensures { result ≡ is_refused answer.now }
{
    match answer {
        Ok(_) => false,
        Err(error) => matches!(error.kind(), ErrorKind::NoMemory),
    }
}

/// The frames handed out of the channel that a promise opened, which were taken and are given to who has that
/// channel. They cannot be let go.
#[derive(Debug)]
pub struct Taken {
    opened: u64,
    frames: Vec<Handed>,
}

impl Taken {
    /// The frames of this opening.
    pub(crate) fn of(opened: u64, frames: Vec<Handed>) -> Taken
        ensures opened { result.opened ≡ opened }
        ensures frames { result.frames ≡ frames }
    {
        Taken { opened, frames }
    }

    /// The number of the promise that opened the channel.
    pub fn opened(&self) -> u64
        ensures { result ≡ self.now.opened }
    {
        self.opened
    }

    /// The frames.
    pub fn frames(self) -> Vec<Handed>
        ensures { result ≡ self.frames }
    {
        let Taken { opened: _, frames } = self;
        frames
    }
}
