//! The protocol's numbers by their names.

/// The number of a channel, 0 for the connection itself (AMQP 0-9-1, 4.2.3).
pub type ChannelId = u16;

/// The greatest size of a frame in octets, with its header and its end octet; 0 for no limit
/// (`frame-max` of connection.tune, AMQP 0-9-1, 4.2.3).
pub type FrameSize = u32;

/// The seconds between two heartbeats, 0 for none (AMQP 0-9-1, 4.2.7).
pub type Heartbeat = u16;

/// Why a channel or a connection is closed (AMQP 0-9-1, 4.8.2).
pub type ReplyCode = u16;
