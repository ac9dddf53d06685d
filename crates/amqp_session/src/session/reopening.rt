//! The channels that are opened again on another link.

ghost use Rattle.std.specs.Prelude.{◌≡◌, [], None, IfOk, IsOk, OnOk, length};
ghost use Rattle.amqp_outbox.specs.Listed.{Ascends};
ghost use Rattle.amqp_outgoing.specs.Outgoings.{queue_of, marks};
ghost use Rattle.amqp_channels.specs.InOrder.{numbers_after};
ghost use Rattle.amqp_session.specs.Reopening.{reopened_each, HasOpenPlaces, HasOpenedPlaces};

use amqp_channels::Channels;
use amqp_outbox::{Awaited, Item, Reply};
use amqp_outgoing::Outgoing;
use amqp_settings::handshake::channel_open;
use amqp_types::{ChannelId, NoMemory};

// How many octets spell a channel.open.
const OPEN_OCTETS: u64 = 13;

/// Makes places for the channels of agreed numbers to be opened again: for their frames, until they are
/// sent, and for the replies. Where there are none, no memory is taken.
pub fn reserve_reopening(
    outgoing: &mut Outgoing,
    channels: &Channels,
    channel_max: ChannelId,
) -> Result<(), NoMemory>
    ensures same { queue_of outgoing.new ≡ queue_of outgoing.old }
    ensures marks { marks outgoing.new ≡ marks outgoing.old }
    ensures frames { OnOk result (HasOpenPlaces (numbers_after None channel_max channels.now.listed) outgoing.new) }
    ensures replies { OnOk result (HasOpenedPlaces (numbers_after None channel_max channels.now.listed) outgoing.new) }
    ensures idle { numbers_after None channel_max channels.now.listed ≡ [] → IsOk result }
    ensures ordered { Ascends channels.now.listed }
{
    let frames = reserve_replies(outgoing, channels, channel_max)?;
    if frames == 0 {
        return Ok(());
    }
    let octets = (frames as u64).checked_mul(OPEN_OCTETS).ok_or(NoMemory)?;
    outgoing.reserve_frames(None, frames, octets)
}

// Makes a place for the reply to each channel.open, and counts them.
fn reserve_replies(
    outgoing: &mut Outgoing,
    channels: &Channels,
    channel_max: ChannelId,
) -> Result<usize, NoMemory>
    ensures same { queue_of outgoing.new ≡ queue_of outgoing.old }
    ensures marks { marks outgoing.new ≡ marks outgoing.old }
    ensures count { IfOk result (λ frames. frames ≡ length (numbers_after None channel_max channels.now.listed)) }
    ensures replies { OnOk result (HasOpenedPlaces (numbers_after None channel_max channels.now.listed) outgoing.new) }
    ensures idle { numbers_after None channel_max channels.now.listed ≡ [] → IsOk result }
    ensures ordered { Ascends channels.now.listed }
{
    // Its clause bounds their count.
    let _ = channels.len();
    let mut frames = 0;
    let mut last = None;
    'channels: while let Some(id) = channels.next_up_to(last, channel_max) {
        outgoing.reserve_reply(id, Reply::ChannelOpened)?;
        frames += 1;
        last = Some(id);
    }
    Ok(frames)
}

/// The channels of agreed numbers are opened again, by number, where there are places for that.
pub fn reopen(outgoing: &mut Outgoing, channels: &Channels, channel_max: ChannelId)
    requires frames { HasOpenPlaces (numbers_after None channel_max channels.now.listed) outgoing.old }
    requires replies { HasOpenedPlaces (numbers_after None channel_max channels.now.listed) outgoing.old }
    ensures said { queue_of outgoing.new
        ≡ reopened_each (numbers_after None channel_max channels.now.listed) (queue_of outgoing.old) }
    ensures marks { marks outgoing.new ≡ marks outgoing.old }
{
    let mut last = None;
    'channels: while let Some(id) = channels.next_up_to(last, channel_max) {
        let awaited = Awaited {
            reply: Reply::ChannelOpened,
            promise: None,
        };
        outgoing.say_reserved(Item::plain(id, channel_open(id)));
        outgoing.expect_reserved(id, awaited);
        last = Some(id);
    }
}
