//! Callers of a connection, and what each says of what it sees.

use crate::gate::Gate;
use amqp_session::{Error, Result};
use lapin_connection::{Channel, Connection, Gives, Pass, Pending, Receipt};
use std::alloc::{AllocError, Global};
use std::sync::Wait;

/// What an act comes to: only memory is refused.
pub type Done = std::result::Result<(), AllocError>;

/// What the hands of a story share: the connection, unless one of them has it, and the gate.
#[derive(Clone, Copy)]
pub struct Stage<'a> {
    pub connection: Option<&'a Connection>,
    pub gate: &'a Gate,
}

/// The numbers of a receipt: of its pass, of its place, of its entry.
pub type Numbers = (u32, u64, u64);

/// A caller: its pass, its channels, and the receipts of their openings; the acts that it is to do, what it
/// saw, and whether memory was refused meanwhile; and the connection, where it runs that.
#[derive(Drop)]
pub struct Hand {
    pub alloc: Global,
    pub passes: Vec<Pass>,
    pub channels: Vec<Channel>,
    pub receipts: Vec<Numbers>,
    pub acts: String,
    pub said: String,
    pub starved: bool,
    pub runs: Option<Connection>,
}

/// The numbers of a receipt.
pub fn numbers_of(receipt: Option<&Receipt>) -> Numbers {
    match receipt {
        Some(receipt) => (receipt.pass(), receipt.nth(), receipt.entry()),
        None => (0, 0, 0),
    }
}

/// The channel of this number.
pub fn numbered(channels: &[Channel], id: u16) -> Option<&Channel> {
    for channel in channels {
        if channel.id() == id {
            return Some(channel);
        }
    }
    None
}

/// Waits for the answer to a command, which has its number now.
pub fn answered<T: Gives, R: Wait>(rt: &R, gate: &Gate, asked: Result<Pending<T>>) -> Result<T> {
    gate.count();
    match asked {
        Ok(pending) => pending.wait(rt),
        Err(error) => Err(error),
    }
}

impl Hand {
    /// A caller with this pass.
    pub fn new(alloc: Global, passes: Vec<Pass>) -> Hand {
        Hand {
            alloc,
            passes,
            channels: Vec::new(alloc),
            receipts: Vec::new(alloc),
            acts: String::new(alloc),
            said: String::new(alloc),
            starved: false,
            runs: None,
        }
    }

    /// Says what it sees, behind a comma where it said something.
    pub fn say(&mut self, text: &str) -> Done {
        if !self.said.is_empty() {
            self.said.push_str(", ")?;
        }
        self.said.push_str(text)
    }

    /// Says how something failed.
    pub fn say_error(&mut self, error: Error) -> Done {
        let text = format!(in self.alloc; "{error}");
        drop(error);
        self.say(text?.as_str())
    }

    /// Says that something is there, or how it failed.
    pub fn say_answer<T: Drop>(&mut self, answer: Result<T>) -> Done {
        match answer {
            Ok(value) => {
                drop(value);
                self.say("ok")
            }
            Err(error) => self.say_error(error),
        }
    }

    /// The same of what may not be there yet.
    pub fn say_found<T: Drop>(&mut self, found: Option<Result<T>>) -> Done {
        match found {
            Some(answer) => self.say_answer(answer),
            None => self.say("nothing yet"),
        }
    }

    /// Says a word and whether it holds.
    pub fn say_whether(&mut self, word: &str, holds: bool) -> Done {
        if holds {
            return self.say(word);
        }
        let text = format!(in self.alloc; "NOT {word}")?;
        self.say(text.as_str())
    }

    /// Keeps a channel that was opened, and its receipt.
    pub fn keep(&mut self, numbers: Numbers, opened: Result<Channel>) -> Done {
        match opened {
            Ok(channel) => {
                self.channels.push(channel)?;
                self.receipts.push(numbers)?;
                self.say("open")
            }
            Err(error) => self.say_error(error),
        }
    }

    /// Drops the channel of this number.
    pub fn leave(&mut self, id: u16) {
        for at in 0..self.channels.len() {
            if at < self.channels.len() && self.channels[at].id() == id {
                drop(self.channels.remove(at));
            }
        }
    }
}
