//! An engine over a port in memory, and what its server says.

use crate::feed::Feed;
use amqp_engine::IoLoop;
use amqp_frame::{FixedRoom, Frame, Method, encoded_len, write_frame};
use amqp_session::{Answer, ChanRef, Cmd, ConnectionProperties, DefaultAuthProvider, Result};
use amqp_types::{FieldTable, LongString, NoMemory, ShortString};
use amqp_uri::AMQPUri;
use std::alloc::Global;

/// The greatest frame that is agreed, in octets.
pub const LIMIT: u32 = 131_072;

/// An engine, who answers what its server asks, and the port between them.
#[derive(Drop)]
pub struct Client {
    pub engine: IoLoop,
    pub port: Feed,
    provider: DefaultAuthProvider,
    alloc: Global,
}

impl Client {
    /// An engine that wants a link to the server of an address.
    pub fn new(alloc: Global, uri: &AMQPUri, options: ConnectionProperties) -> Result<Client> {
        match DefaultAuthProvider::new(alloc, uri) {
            Ok(provider) => Client::with(alloc, uri, options, provider),
            Err(refused) => {
                drop(options);
                Err(refused.into())
            }
        }
    }

    fn with(
        alloc: Global,
        uri: &AMQPUri,
        options: ConnectionProperties,
        provider: DefaultAuthProvider,
    ) -> Result<Client> {
        match IoLoop::new(alloc, uri, options) {
            Ok(engine) => Ok(Client {
                engine,
                port: Feed::new(alloc),
                provider,
                alloc,
            }),
            Err(error) => {
                drop(provider);
                Err(error)
            }
        }
    }

    /// Takes so many turns.
    pub fn turns(&mut self, turns: u64) {
        // What has ended is asked for in the end.
        drop(self.engine.run(&mut self.port, &mut self.provider, turns));
    }

    /// The server says these octets, and turns are taken until all are read.
    pub fn hear(&mut self, octets: &[u8]) -> Result<()> {
        self.port.give(octets)?;
        let turns = self.port.turns();
        self.turns(turns);
        Ok(())
    }

    /// The server says what it said last.
    pub fn hear_again(&mut self) {
        self.port.give_again();
        let turns = self.port.turns();
        self.turns(turns);
    }

    /// The server says a frame.
    pub fn hear_frame(&mut self, frame: Frame) -> Result<()> {
        let octets = spelled(self.alloc, frame)?;
        let heard = self.hear(&octets);
        drop(octets);
        heard
    }

    /// The server says a method.
    pub fn hear_method(&mut self, channel: u16, method: Method) -> Result<()> {
        self.hear_frame(Frame::Method(channel, method))
    }

    /// Takes a link and opens it, by this start.
    pub fn connect(&mut self, start: &[u8]) -> Result<()> {
        self.turns(1);
        self.hear(start)?;
        self.agree()
    }

    /// The server tunes, and opens the connection.
    pub fn agree(&mut self) -> Result<()> {
        self.hear_method(0, Method::Tune(2047, LIMIT, 0))?;
        self.hear_method(0, Method::OpenOk)
    }

    /// Opens a channel; there is none where it was refused.
    pub fn open_channel(&mut self) -> Result<Option<ChanRef>> {
        let Some(promise) = self.engine.command(Cmd::OpenChannel)? else {
            return Ok(None);
        };
        self.turns(1);
        let Some(id) = self.engine.session().opening(promise) else {
            return Ok(None);
        };
        self.hear_method(id, Method::ChannelOpenOk)?;
        self.forget(Some(promise));
        Ok(Some(ChanRef {
            id,
            opened: Some(promise),
        }))
    }

    /// Takes the answer of a promise, where it is there, and lets it go.
    pub fn forget(&mut self, promise: Option<u64>) {
        if let Some(number) = promise {
            drop(self.engine.answer(number));
        }
    }

    /// Takes the answer of a promise: whether it is that all was sent.
    pub fn is_sent(&mut self, promise: Option<u64>) -> bool {
        let Some(number) = promise else {
            return false;
        };
        let answer = self.engine.answer(number);
        let sent = matches!(answer, Some(Ok(Answer::Sent)));
        drop(answer);
        sent
    }
}

/// The octets of a frame, which it takes; none where they are more than a frame may have.
pub fn spelled(alloc: Global, frame: Frame) -> std::result::Result<Vec<u8>, NoMemory> {
    let octets = spelling(alloc, &frame);
    drop(frame);
    octets
}

fn spelling(alloc: Global, frame: &Frame) -> std::result::Result<Vec<u8>, NoMemory> {
    let length = encoded_len(frame);
    if length > LIMIT as u64 {
        return Ok(Vec::new(alloc));
    }
    let mut room = FixedRoom::new(alloc, length as usize)?;
    // The room has the space.
    let _ = write_frame(frame, &mut room);
    Ok(room.into_vec())
}

/// The octets of a start of a server with these properties.
pub fn start_of(alloc: Global, properties: FieldTable) -> std::result::Result<Vec<u8>, NoMemory> {
    let mechanisms = LongString::from_vec(Vec::new(alloc));
    let locales = LongString::from_vec(Vec::new(alloc));
    let start = Method::Start(0, 9, properties, mechanisms, locales);
    spelled(alloc, Frame::Method(0, start))
}

/// So many times the letter x.
pub fn letters(alloc: Global, count: u8) -> std::result::Result<ShortString, NoMemory> {
    let octets = vec![in alloc; b'x'; count as usize]?;
    Ok(ShortString::from_vec(octets))
}
