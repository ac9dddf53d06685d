//! A frame that waits.

ghost use Rattle.std.specs.Prelude.{◌≡◌, ◌+◌, ◌≤◌, ◌^◌, IfOk, OnErr};
ghost use Rattle.amqp_frame.specs.Lengths.{capped};
ghost use Rattle.amqp_outbox.specs.Items.{plain_item, promised_item, size_of, outlives, dropped_with};

use crate::lane::Keyed;
use amqp_frame::{Frame, Method, encoded_len};
use amqp_types::{ChannelId, NoMemory};
use std::alloc::Global;
use std::marker::Model;

/// A frame that waits, on a channel, and the promise that it answers once it was sent whole.
#[derive(Debug, Drop)]
pub struct Item {
    channel: ChannelId,
    frame: Frame,
    promise: Option<u64>,
    /// How many octets spell the frame, at most 2^64 - 1: told once, as it takes a walk over the frame.
    octets: u64,
}

impl Model for Item {
    ghost use Rattle.std.specs.Prelude.{◌≡◌, length};
    ghost use Rattle.std.specs.Coded.{codes};
    ghost use Rattle.amqp_types.specs.ValueCode.{value_code};
    ghost use Rattle.amqp_frame.specs.Frames.{encoding};
    ghost use Rattle.amqp_frame.specs.Lengths.{capped};
    ghost use Rattle.amqp_outbox.specs.QueuedFrame.{QueuedFrame};

    ghost Value = { QueuedFrame };

    ghost coded = { Prim.hlevel (codes, value_code) };

    ghost view = { λ i. record { channel = i.channel; frame = i.frame; promise = i.promise } };

    ghost invariant = { λ i. i.octets ≡ capped (length (encoding i.frame)) };
}

impl Item {
    /// A frame that answers no promise.
    pub fn plain(channel: ChannelId, frame: Frame) -> Item
        ensures { result ≡ plain_item channel frame }
    {
        let octets = encoded_len(&frame);
        Item {
            channel,
            frame,
            promise: None,
            octets,
        }
    }

    /// A frame that answers a promise.
    pub fn promised(channel: ChannelId, frame: Frame, number: u64) -> Item
        ensures { result ≡ promised_item channel frame number }
    {
        let octets = encoded_len(&frame);
        Item {
            channel,
            frame,
            promise: Some(number),
            octets,
        }
    }

    /// The channel on which it goes.
    pub fn channel(&self) -> ChannelId
        ensures { result ≡ self.now.channel }
    {
        self.channel
    }

    /// The frame.
    pub fn frame(&self) -> &Frame
        ensures { result.now ≡ self.now.frame }
    {
        &self.frame
    }

    /// The frame alone.
    pub fn into_frame(self) -> Frame
        ensures { result ≡ self.frame }
    {
        self.frame
    }

    /// The promise that it answers.
    pub fn promise(&self) -> Option<u64>
        ensures { result ≡ self.now.promise }
    {
        self.promise
    }

    /// How many octets spell its frame, at most 2^64 - 1.
    pub fn encoded_len(&self) -> u64
        ensures { result ≡ capped (size_of self.now) }
    {
        self.octets
    }

    /// How many octets spell its frame. Memory is refused where they are 2^64 - 1 or more.
    pub fn octets(&self) -> Result<u64, NoMemory>
        ensures ok { IfOk result (λ n. n ≡ size_of self.now) }
        ensures err { OnErr result (2 ^ 64 ≤ size_of self.now + 1) }
    {
        if self.octets == u64::MAX {
            return Err(NoMemory);
        }
        Ok(self.octets)
    }

    /// The channel with which it goes from the control lane: none for channel.open and
    /// channel.close, which stay.
    pub fn dropped_with(&self) -> Option<ChannelId>
        ensures { result ≡ dropped_with self.now }
    {
        if outlives_its_channel(&self.frame) {
            return None;
        }
        Some(self.channel)
    }

    /// An equal frame on the same channel, for the same promise.
    pub fn try_clone(&self, alloc: Global) -> Result<Item, NoMemory>
        ensures { IfOk result (λ i. i ≡ self.now) }
    {
        Ok(Item {
            channel: self.channel,
            frame: self.frame.try_clone(alloc)?,
            promise: self.promise,
            octets: self.octets,
        })
    }
}

fn outlives_its_channel(frame: &Frame) -> bool
    ensures { result ≡ outlives frame.now }
{
    matches!(
        frame,
        Frame::Method(_, Method::ChannelOpen | Method::ChannelClose(..))
    )
}

impl Keyed for Item {
    ghost key_of = { dropped_with };

    fn key(&self) -> Option<u16> {
        self.dropped_with()
    }

    fn copied(&self, alloc: Global) -> Result<Item, NoMemory> {
        self.try_clone(alloc)
    }
}
