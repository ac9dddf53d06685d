//! What was read and is no frame.

use amqp_types::ChannelId;

/// What stood where a frame was to be read.
#[derive(Clone, Copy, Debug, PartialEq, Eq)]
pub enum Misread {
    /// A frame above the limit, of so many octets of payload.
    TooLarge(u32),
    /// A heartbeat on another channel than 0.
    BadHeartbeat(ChannelId),
    /// No frame, at this place of the link's received bytes.
    Bad(u64),
}
