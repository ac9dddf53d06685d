//! The numbers of a connection, and how both peers agree on them.

ghost use Rattle.std.specs.Prelude.{◌≡◌, ◌≤◌, max};
ghost use Rattle.amqp_settings.specs.Config.{own_numbers};
ghost use Rattle.amqp_settings.specs.Negotiation.{lesser_wish, tune};

use amqp_types::{ChannelId, FrameSize, Heartbeat};
use amqp_uri::AMQPQuery;

/// The least `frame_max` that a peer may have (frame-min-size).
pub(crate) const FRAME_MIN_SIZE: FrameSize = 4096;

/// The numbers of a connection, where 0 is no limit and no heartbeat.
#[derive(Clone, Copy, Debug, PartialEq, Eq)]
pub struct Configuration {
    pub channel_max: ChannelId,
    pub frame_max: FrameSize,
    pub heartbeat: Heartbeat,
}

impl Configuration {
    /// The greatest number of a channel.
    pub fn channel_max(&self) -> ChannelId
        ensures { result ≡ self.now.channel_max }
    {
        self.channel_max
    }

    /// The greatest size of a frame, in octets.
    pub fn frame_max(&self) -> FrameSize
        ensures { result ≡ self.now.frame_max }
    {
        self.frame_max
    }

    /// The interval of heartbeats, in seconds.
    pub fn heartbeat(&self) -> Heartbeat
        ensures { result ≡ self.now.heartbeat }
    {
        self.heartbeat
    }
}

/// The numbers that hold after the server's tune.
pub fn tune(own: Configuration, server: Configuration) -> Configuration
    ensures { result ≡ tune own server }
{
    let channel_max = lesser_wish(own.channel_max as u32, server.channel_max as u32) as ChannelId;
    let frame_max = lesser_wish(own.frame_max, server.frame_max);
    Configuration {
        channel_max: if channel_max == 0 {
            ChannelId::MAX
        } else {
            channel_max
        },
        frame_max: if frame_max == 0 {
            FrameSize::MAX
        } else {
            frame_max.max(FRAME_MIN_SIZE)
        },
        heartbeat: lesser_wish(own.heartbeat as u32, server.heartbeat as u32) as Heartbeat,
    }
}

// The lesser of two wishes, where 0 is none.
fn lesser_wish(own: u32, server: u32) -> u32
    ensures lesser { result ≡ lesser_wish own server }
    ensures small { result ≤ max own server }
{
    if own == 0 {
        return server;
    }
    if server == 0 {
        return own;
    }
    own.min(server)
}

/// The numbers that an address wishes, 0 where it has none.
pub fn own_numbers(query: &AMQPQuery) -> Configuration
    ensures { result ≡ own_numbers query.now }
{
    Configuration {
        channel_max: query.channel_max.unwrap_or(0),
        frame_max: query.wished_frame_max(),
        heartbeat: query.heartbeat.unwrap_or(0),
    }
}
