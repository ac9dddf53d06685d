//! Channels that are created without a session (channels.rs of lapin).

ghost use Rattle.std.specs.Prelude.{◌≡◌, ◌≤◌, ◌↔◌, ◌⊎◌, [], Some, Err, IfOk, IfErr};
ghost use Rattle.amqp_channels.specs.Channels.{all_flow, AllListed, next_free, pass_over, create_as};

use amqp_channels::Channel;
use amqp_promise::ErrorKind;
use amqp_types::{ChannelId, NoMemory};
use std::alloc::Global;
use std::marker::Model;

/// The listed channels, by their numbers, and the cursor from which the next number is drawn.
#[derive(Debug, Drop)]
pub struct Channels {
    listed: amqp_channels::Channels,
}

impl Model for Channels {
    ghost use Rattle.amqp_channels.specs.Channels.{Listing};

    ghost Value = { Listing };

    ghost view = { λ c. c.listed };
}

impl Channels {
    /// No channel is listed, and the first number is the next.
    pub fn new(alloc: Global) -> Channels
        ensures { result ≡ record { listed = []; cursor = 0 } }
    {
        Channels {
            listed: amqp_channels::Channels::new(alloc),
        }
    }

    /// The same channels, and the same cursor.
    pub fn try_clone(&self, alloc: Global) -> Result<Channels, NoMemory>
        ensures { IfOk result (λ c. c ≡ self.now) }
    {
        Ok(Channels {
            listed: self.listed.try_clone(alloc)?,
        })
    }

    /// Lists a new channel and gives its number: in the cycle from 1 to `max`, the first from the cursor
    /// on that is not listed. The cursor is then the number after it. Where all of them are listed, the
    /// answer is `ChannelsLimitReached`, and the cursor goes on by one; where memory is refused, all is as
    /// before.
    pub fn create(&mut self, max: ChannelId) -> amqp_promise::Result<ChannelId>
        requires { 1 ≤ max }
        ensures number { IfOk result (λ id. next_free max self.old ≡ Some id) }
        ensures created { IfOk result (λ id. self.new ≡ create_as max id self.old) }
        ensures limit { result ≡ Err ErrorKind.ChannelsLimitReached ↔ AllListed max self.old.listed }
        ensures passed { result ≡ Err ErrorKind.ChannelsLimitReached → self.new ≡ pass_over max self.old }
        ensures only { IfErr result (λ e. (e ≡ ErrorKind.ChannelsLimitReached) ⊎ (e ≡ ErrorKind.NoMemory)) }
        ensures starved { result ≡ Err ErrorKind.NoMemory → self.new ≡ self.old }
    {
        match self.listed.next_free(max) {
            Some(id) => {
                let opened = self.listed.next_opening()?;
                self.listed.list_next(max, id, Channel::opening(opened))?;
                Ok(id)
            }
            None => {
                self.listed.pass_over(max);
                Err(ErrorKind::ChannelsLimitReached.into())
            }
        }
    }

    /// Whether the server lets content be published on every listed channel.
    pub fn flows(&self) -> bool
        ensures { result ≡ all_flow self.now.listed }
    {
        self.listed.flows()
    }

    /// The number from which the next is drawn, where 0 is the first.
    pub fn cursor(&self) -> ChannelId
        ensures { result ≡ self.now.cursor }
    {
        self.listed.cursor()
    }
}
