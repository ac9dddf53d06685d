//! What a double replies.

ghost use Rattle.std.specs.Prelude.{◌≡◌, ◌<◌, ◌≤◌, length, IfOk, option_to_list};
ghost use Rattle.amqp_frame.specs.declared.frame.Frame.TheVariants as frames;
ghost use Rattle.amqp_frame.specs.Frames.{encoding};
ghost use Rattle.amqp_double.specs.Replies.{abilities, properties, start_frame, replies, reply_octets};

use amqp_frame::{FixedRoom, Frame, Method, encoded_len, write_frame};
use amqp_settings::Configuration;
use amqp_types::{AMQPValue, ChannelId, FieldTable, LongString, NoMemory, ShortString};
use std::alloc::Global;

// A short string.
fn short(alloc: Global, content: &[u8]) -> Result<ShortString, NoMemory>
    requires { length content.now < 256 }
    ensures { IfOk result (λ s. s ≡ content.now) }
{
    Ok(ShortString::from_vec(Vec::from_slice(alloc, content)?))
}

// A long string.
fn long(alloc: Global, content: &[u8]) -> Result<LongString, NoMemory>
    requires { length content.now < 256 }
    ensures { IfOk result (λ s. s ≡ content.now) }
{
    Ok(LongString::from_vec(Vec::from_slice(alloc, content)?))
}

// What the server can do.
fn abilities(alloc: Global) -> Result<FieldTable, NoMemory>
    ensures { IfOk result (λ t. t ≡ abilities) }
{
    let mut table = FieldTable::new(alloc);
    table.insert(
        short(alloc, b"publisher_confirms")?,
        AMQPValue::Boolean(true),
    )?;
    Ok(table)
}

// What the server says of itself.
fn properties(alloc: Global) -> Result<FieldTable, NoMemory>
    ensures { IfOk result (λ t. t ≡ properties) }
{
    let mut table = FieldTable::new(alloc);
    let can = AMQPValue::FieldTable(abilities(alloc)?);
    table.insert(short(alloc, b"capabilities")?, can)?;
    let product = AMQPValue::LongString(long(alloc, b"RabbitMQ")?);
    table.insert(short(alloc, b"product")?, product)?;
    Ok(table)
}

// Its start.
fn start(alloc: Global) -> Result<Frame, NoMemory>
    ensures { IfOk result (λ f. f ≡ start_frame) }
{
    let mechanisms = long(alloc, b"PLAIN AMQPLAIN")?;
    let locales = long(alloc, b"en_US")?;
    let properties = properties(alloc)?;
    Ok(Frame::Method(0, Method::Start(0, 9, properties, mechanisms, locales)))
}

// The reply to a method on channel 0, where there is one.
fn reply_on_connection(numbers: Configuration, method: &Method) -> Option<Frame>
    ensures { option_to_list result ≡ replies numbers (frames.Method 0 method.now) }
{
    let said = match method {
        Method::StartOk(..) => {
            Method::Tune(numbers.channel_max, numbers.frame_max, numbers.heartbeat)
        }
        Method::Open(_) => Method::OpenOk,
        Method::Close(..) => Method::CloseOk,
        Method::UpdateSecret(..) => Method::UpdateSecretOk,
        _ => return None,
    };
    Some(Frame::Method(0, said))
}

// The reply to a method on another channel, where there is one.
fn reply_on_channel(numbers: Configuration, channel: ChannelId, method: &Method) -> Option<Frame>
    requires { 1 ≤ channel }
    ensures { option_to_list result ≡ replies numbers (frames.Method channel method.now) }
{
    let said = match method {
        Method::ChannelOpen => Method::ChannelOpenOk,
        Method::ChannelFlow(active) => Method::ChannelFlowOk(*active),
        Method::ChannelClose(..) => Method::ChannelCloseOk,
        _ => return None,
    };
    Some(Frame::Method(channel, said))
}

// The reply to a frame, where there is one.
fn reply(alloc: Global, numbers: Configuration, frame: &Frame) -> Result<Option<Frame>, NoMemory>
    ensures { IfOk result (λ r. option_to_list r ≡ replies numbers frame.now) }
{
    match frame {
        Frame::ProtocolHeader(_) => Ok(Some(start(alloc)?)),
        Frame::Method(0, method) => Ok(reply_on_connection(numbers, method)),
        Frame::Method(channel, method) => Ok(reply_on_channel(numbers, *channel, method)),
        Frame::Raw(..) | Frame::Heartbeat => Ok(None),
    }
}

// The octets of a frame.
fn spelled(alloc: Global, frame: &Frame) -> Result<Vec<u8>, NoMemory>
    requires { length (encoding frame.now) ≤ 4294967295 }
    ensures { IfOk result (λ octets. octets.items ≡ encoding frame.now) }
{
    let mut room = FixedRoom::new(alloc, encoded_len(frame) as usize)?;
    // The room has the size of the frame, so this cannot be refused.
    let _ = write_frame(frame, &mut room);
    Ok(room.into_vec())
}

/// The octets of the reply to a frame; none where nothing is replied.
pub fn reply_to(alloc: Global, numbers: Configuration, frame: &Frame) -> Result<Vec<u8>, NoMemory>
    ensures { IfOk result (λ octets. octets.items ≡ reply_octets numbers frame.now) }
{
    match reply(alloc, numbers, frame)? {
        Some(said) => {
            let octets = spelled(alloc, &said);
            drop(said);
            octets
        }
        None => Ok(Vec::new(alloc)),
    }
}
