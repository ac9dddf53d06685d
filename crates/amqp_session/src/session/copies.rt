//! Copies of a session.

ghost use Rattle.std.specs.Prelude.{◌≡◌, IfOk};
ghost use Rattle.amqp_settings.specs.Config.{config_of};
ghost use Rattle.amqp_answers.specs.Seen.{made_in, promised, noted_in};
ghost use Rattle.amqp_outgoing.specs.Outgoings.{queue_of, marks};
ghost use Rattle.amqp_rules.specs.Parts.{link_seen};

use super::Session;
use amqp_answers::{Backlog, Events, Promises};
use amqp_channels::Channels;
use amqp_outgoing::Outgoing;
use amqp_rules::{End, Link};
use amqp_settings::Options;
use amqp_types::NoMemory;
use amqp_uri::AMQPUri;
use amqp_violations::ServerClose;

impl Session {
    /// A session with an equal value, which goes on by itself: what is told to one is not told to the
    /// other. It takes the memory of all that it keeps.
    pub fn snapshot(&self) -> Result<Session, NoMemory>
        ensures { IfOk result (λ s. s ≡ self.now) }
    {
        let answers = self.copied_answers()?;
        let waiting = match self.copied_waiting() {
            Ok(waiting) => waiting,
            Err(refused) => {
                drop(answers);
                return Err(refused);
            }
        };
        let origin = match self.copied_origin() {
            Ok(origin) => origin,
            Err(refused) => {
                drop(answers);
                drop(waiting);
                return Err(refused);
            }
        };
        let ends = match self.copied_ends() {
            Ok(ends) => ends,
            Err(refused) => {
                drop(answers);
                drop(waiting);
                drop(origin);
                return Err(refused);
            }
        };
        let (backlog, events, promises) = answers;
        let (channels, outgoing) = waiting;
        let (uri, options) = origin;
        let (server_close, link) = ends;
        Ok(Session {
            alloc: self.alloc,
            uri,
            options,
            state: self.state,
            phase: self.phase,
            link,
            input: self.input,
            blocked: self.blocked,
            configuration: self.configuration,
            capacity: self.capacity.copied(),
            channels,
            outgoing,
            backlog,
            promises,
            server_close,
            events,
            present: self.present,
            last_read: self.last_read,
            last_write: self.last_write,
            secret_at: self.secret_at,
            refreshing: self.refreshing,
            tried: self.tried,
        })
    }

    // What it hands out and answers.
    fn copied_answers(&self) -> Result<(Backlog, Events, Promises), NoMemory>
        ensures handed { IfOk result (λ copy. copy.0 ≡ self.now.handed) }
        ensures noted { IfOk result (λ copy. noted_in copy.1 ≡ self.now.noted) }
        ensures made { IfOk result (λ copy. made_in copy.2 ≡ self.now.made) }
        ensures promises { IfOk result (λ copy. promised copy.2 ≡ self.now.promises) }
    {
        let backlog = self.backlog.try_clone(self.alloc)?;
        let events = self.events.try_clone(self.alloc)?;
        let promises = self.promises.try_clone(self.alloc)?;
        Ok((backlog, events, promises))
    }

    // The listed channels, and what is to go out.
    fn copied_waiting(&self) -> Result<(Channels, Outgoing), NoMemory>
        ensures listed { IfOk result (λ copy. copy.0.listed ≡ self.now.channels) }
        ensures cursor { IfOk result (λ copy. copy.0.cursor ≡ self.now.cursor) }
        ensures waits { IfOk result (λ copy. queue_of copy.1 ≡ self.now.outbox) }
        ensures marks { IfOk result (λ copy. marks copy.1 ≡ self.now.committed) }
    {
        let channels = self.channels.try_clone(self.alloc)?;
        let outgoing = self.outgoing.try_clone(self.alloc)?;
        Ok((channels, outgoing))
    }

    // What it was made from.
    fn copied_origin(&self) -> Result<(AMQPUri, Options), NoMemory>
        ensures { IfOk result (λ copy. config_of copy.0 copy.1 ≡ self.now.config) }
    {
        let uri = self.uri.try_clone(self.alloc)?;
        let options = self.options.try_clone(self.alloc)?;
        Ok((uri, options))
    }

    // How the server closed, where it did, and the link.
    fn copied_ends(&self) -> Result<(Option<ServerClose>, Link<End>), NoMemory>
        ensures close { IfOk result (λ copy. copy.0 ≡ self.now.server_close) }
        ensures link { IfOk result (λ copy. link_seen copy.0 copy.1 ≡ self.now.link) }
    {
        let close = self.copied_close()?;
        let link = self.link.try_clone(self.alloc)?;
        Ok((close, link))
    }

    // How the server closed, where it did.
    fn copied_close(&self) -> Result<Option<ServerClose>, NoMemory>
        ensures { IfOk result (λ close. close ≡ self.now.server_close) }
    {
        match &self.server_close {
            Some(close) => Ok(Some(close.try_clone(self.alloc)?)),
            None => Ok(None),
        }
    }
}
