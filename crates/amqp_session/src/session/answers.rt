//! The answers to promises, the events, and the frames handed out.

ghost use Rattle.std.specs.Prelude.{◌≡◌, [], IfOk, OnErr, IsOk};
ghost use Rattle.amqp_rules.specs.Talk.{end_of};
ghost use Rattle.amqp_rules.specs.ChannelMethods.{frames_of};
ghost use Rattle.amqp_rules.specs.Answers.{rejection, answer_of, take_frames, Takes, TakesEvent, IsFailed};
ghost use Rattle.amqp_answers.specs.Settled.{IsRejected};

use super::Session;
use amqp_answers::{Answer, Event, Handed};
use amqp_promise::{ConnectionState, ErrorKind};
use amqp_rules::{End, Link};
use amqp_types::NoMemory;
use amqp_violations::ServerClose;

impl Session {
    /// Takes the answer to a promise, where there is one that was not taken. Where it is an error and
    /// memory for its copy is refused, that is told in its place, and the answer can still be taken.
    pub fn answer(&mut self, number: u64) -> Option<amqp_promise::Result<Answer>>
        ensures { Takes number result self.old self.new }
    {
        match self.untaken(number) {
            Ok(answer) => {
                if answer.is_some() {
                    self.promises.forget(number);
                }
                answer
            }
            Err(refused) => Some(Err(refused.into())),
        }
    }

    // The untaken answer to a promise; an Err where memory for an error's copy was refused.
    fn untaken(&self, number: u64) -> Result<Option<amqp_promise::Result<Answer>>, NoMemory>
        ensures answer { IfOk result (λ answer. answer ≡ answer_of number self.now) }
        ensures refused { OnErr result (IsRejected (answer_of number self.now)) }
    {
        if self.promises.waits(number) {
            return self.rejection();
        }
        self.promises.answer(self.alloc, number)
    }

    // How the end answers a promise that still waits.
    fn rejection(&self) -> Result<Option<amqp_promise::Result<Answer>>, NoMemory>
        ensures answer { IfOk result (λ answer. answer ≡ rejection (end_of self.now)) }
        ensures refused { OnErr result (IsRejected (rejection (end_of self.now))) }
    {
        match self.ended()? {
            Some(Ok(())) => {
                let closed = ErrorKind::InvalidConnectionState(ConnectionState::Closed);
                Ok(Some(Err(closed.into())))
            }
            Some(Err(error)) => Ok(Some(Err(error))),
            None => Ok(None),
        }
    }

    // The end; an Err where memory for its error's copy was refused.
    pub(super) fn ended(&self) -> Result<Option<amqp_promise::Result<()>>, NoMemory>
        ensures end { IfOk result (λ end. end ≡ end_of self.now) }
        ensures refused { OnErr result (IsFailed (end_of self.now)) }
    {
        match &self.link {
            Link::Ended(Ok(())) => Ok(Some(Ok(()))),
            Link::Ended(Err(End::Failed(error))) => Ok(Some(Err(error.try_clone(self.alloc)?))),
            Link::Ended(Err(End::ByServer)) => match &self.server_close {
                Some(ServerClose::WithError(error)) => {
                    let copy = error.try_clone(self.alloc)?;
                    Ok(Some(Err(ErrorKind::ProtocolError(copy).into())))
                }
                _ => Ok(Some(Ok(()))),
            },
            _ => Ok(None),
        }
    }

    /// Takes the first event that was not taken, where there is one. Where it is that of the end and
    /// memory for the copy of its error is refused, that is told in its place, and the event can still be
    /// taken.
    pub fn event(&mut self) -> Option<Event>
        ensures { TakesEvent result self.old self.new }
    {
        match self.events.take() {
            Some(event) => Some(event),
            None => self.end_event(),
        }
    }

    // Takes the event of the end, where no other is left.
    fn end_event(&mut self) -> Option<Event>
        requires { self.old.noted.events ≡ [] }
        ensures { TakesEvent result self.old self.new }
    {
        if !self.events.tells_end() {
            return None;
        }
        match self.ended() {
            Ok(Some(Err(error))) => {
                self.events.tell_end();
                Some(Event::Error(error))
            }
            Ok(_) => None,
            Err(refused) => Some(Event::Error(refused.into())),
        }
    }

    /// Takes the frames handed out of the channel that a promise opened, in order, as many as were
    /// not yet taken. They are moved out, and no memory is taken.
    pub fn take_frames(&mut self, opened: u64) -> Result<Vec<Handed>, NoMemory>
        ensures frames { IfOk result (λ frames. frames.items ≡ frames_of opened self.old) }
        ensures taken { self.new ≡ take_frames opened self.old }
        ensures takes_no_memory { IsOk result }
    {
        Ok(self.backlog.take(opened))
    }
}
