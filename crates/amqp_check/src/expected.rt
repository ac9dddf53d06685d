//! What a client may say next.

ghost use Rattle.std.specs.Prelude.{◌≡◌};
ghost use Rattle.amqp_check.specs.Expected.{expected_at, expected_behind};

use amqp_legal::{Content, Stage};
use amqp_types::ChannelId;

/// What a client may say next. Where the protocol header was said, and our close-ok of the connection
/// was not, that close-ok may be said too, whatever else is expected.
#[derive(Clone, Copy, Debug, PartialEq, Eq)]
pub enum Expected {
    /// The protocol header of AMQP 0-9-1.
    Header,
    /// start-ok.
    StartOk,
    /// secure-ok or tune-ok.
    SecureOkOrTuneOk,
    /// open.
    Open,
    /// A heartbeat, update-secret or close of the connection; a method on a channel, by the channel's
    /// usage.
    Method,
    /// The content header of the method on this channel, whose class is the number; or what may be
    /// said in its place, as for `Method`.
    ContentHeader(ChannelId, u16),
    /// A frame of the body on this channel, not empty and of at most so many octets.
    Body(ChannelId, u64),
    /// Our close-ok of the connection alone.
    CloseOk,
    /// Nothing.
    Nothing,
}

// What may be said once the connection is opened.
fn behind_content(content: Content) -> Expected
    ensures { result ≡ expected_behind content }
{
    match content {
        Content::NoContent | Content::BodyMissing(_, 0) => Expected::Method,
        Content::MethodSaid(channel, class) => Expected::ContentHeader(channel, class),
        Content::BodyMissing(channel, missing) => Expected::Body(channel, missing),
    }
}

/// What may be said next, by how far a conversation is since its protocol header.
pub fn behind_header(stage: Stage, content: Content) -> Expected
    ensures { result ≡ expected_at stage content }
{
    match stage {
        Stage::HeaderSaid => Expected::StartOk,
        Stage::StartOkSaid => Expected::SecureOkOrTuneOk,
        Stage::TuneOkSaid => Expected::Open,
        Stage::OpenSaid => behind_content(content),
        Stage::CloseSaid => Expected::CloseOk,
        Stage::CloseOkSaid => Expected::Nothing,
    }
}
