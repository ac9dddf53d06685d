//! The frames that open and close a connection and its channels.

ghost use Rattle.std.specs.Prelude.{◌≡◌, ◌<◌, length, IfOk, OnOk, codes};
ghost use Rattle.amqp_types.specs.Table.{put};
ghost use Rattle.amqp_settings.specs.Config.{text_value};
ghost use Rattle.amqp_settings.specs.Handshake.{refresh_reason, protocol_header, yes, capabilities, with_product, client_properties, start_ok, secure_ok, tune_ok, open_vhost, our_close, close_ok, new_secret, channel_open, channel_flow, flow_ok, channel_close_ok, our_channel_close};

use crate::configuration::Configuration;
use crate::options::Options;
use amqp_frame::{Frame, Method};
use amqp_types::{
    AMQPValue, ChannelId, FieldTable, LongString, NoMemory, ProtocolVersion, ReplyCode, ShortString,
};
use std::alloc::Global;

/// The header of AMQP 0-9-1, the first that is said.
pub fn protocol_header() -> Frame
    ensures { result ≡ protocol_header }
{
    Frame::ProtocolHeader(ProtocolVersion::amqp_0_9_1())
}

fn short(alloc: Global, content: &[u8]) -> Result<ShortString, NoMemory>
    requires { length content.now < 256 }
    ensures { IfOk result (λ s. s ≡ content.now) }
{
    Ok(ShortString::from_vec(Vec::from_slice(alloc, content)?))
}

fn long(alloc: Global, content: &[u8]) -> Result<LongString, NoMemory>
    requires { length content.now < 256 }
    ensures { IfOk result (λ s. s ≡ content.now) }
{
    Ok(LongString::from_vec(Vec::from_slice(alloc, content)?))
}

// Sets a name to true.
fn set_flag(alloc: Global, table: &mut FieldTable, name: &[u8]) -> Result<(), NoMemory>
    requires { length name.now < 256 }
    ensures { OnOk result (table.new ≡ put table.old name.now yes) }
{
    table.insert(short(alloc, name)?, AMQPValue::Boolean(true))?;
    Ok(())
}

// Sets a name to a text.
fn set_text(alloc: Global, table: &mut FieldTable, name: &[u8], text: &[u8]) -> Result<(), NoMemory>
    requires name { length name.now < 256 }
    requires text { length text.now < 256 }
    ensures { OnOk result (table.new ≡ put table.old name.now (text_value text.now)) }
{
    let value = AMQPValue::LongString(long(alloc, text)?);
    table.insert(short(alloc, name)?, value)?;
    Ok(())
}

fn capabilities(alloc: Global) -> Result<FieldTable, NoMemory>
    ensures { IfOk result (λ t. t ≡ capabilities) }
{
    let mut table = FieldTable::new(alloc);
    set_flag(alloc, &mut table, b"authentication_failure_close")?;
    set_flag(alloc, &mut table, b"basic.nack")?;
    set_flag(alloc, &mut table, b"connection.blocked")?;
    set_flag(alloc, &mut table, b"consumer_cancel_notify")?;
    set_flag(alloc, &mut table, b"consumer_priorities")?;
    set_flag(alloc, &mut table, b"direct_reply_to")?;
    set_flag(alloc, &mut table, b"exchange_exchange_bindings")?;
    set_flag(alloc, &mut table, b"per_consumer_qos")?;
    set_flag(alloc, &mut table, b"publisher_confirms")?;
    Ok(table)
}

// The user's properties with this client and its version, where they do not say both.
fn set_product(alloc: Global, table: &mut FieldTable) -> Result<(), NoMemory>
    ensures { OnOk result (table.new ≡ with_product table.old) }
{
    if table.contains_key(b"product") && table.contains_key(b"version") {
        return Ok(());
    }
    set_text(alloc, table, b"product", b"lapin")?;
    set_text(alloc, table, b"version", b"4.4.0")?;
    Ok(())
}

fn client_properties(alloc: Global, own: &FieldTable) -> Result<FieldTable, NoMemory>
    ensures { IfOk result (λ t. t ≡ client_properties own.now) }
{
    let mut table = own.try_clone(alloc)?;
    set_product(alloc, &mut table)?;
    set_text(alloc, &mut table, b"platform", b"rust")?;
    let abilities = AMQPValue::FieldTable(capabilities(alloc)?);
    table.insert(short(alloc, b"capabilities")?, abilities)?;
    Ok(table)
}

// What the client says of itself: its properties, and its locale.
fn introduction(alloc: Global, options: &Options) -> Result<(FieldTable, ShortString), NoMemory>
    ensures properties { IfOk result (λ said. said.0 ≡ client_properties options.now.properties) }
    ensures locale { IfOk result (λ said. said.1 ≡ options.now.locale) }
{
    let properties = client_properties(alloc, options.client_properties())?;
    let locale = options.locale().try_clone(alloc)?;
    Ok((properties, locale))
}

/// The client's answer to start: by a mechanism, with what it says first by it.
pub fn start_ok(
    alloc: Global,
    options: &Options,
    mechanism: ShortString,
    response: LongString,
) -> Result<Frame, NoMemory>
    ensures { IfOk result (λ f. f ≡ start_ok options.now mechanism response) }
{
    match introduction(alloc, options) {
        Ok((properties, locale)) => {
            let start_ok = Method::StartOk(properties, mechanism, response, locale);
            Ok(Frame::Method(0, start_ok))
        }
        Err(refused) => {
            drop(mechanism);
            drop(response);
            Err(refused)
        }
    }
}

/// The client's answer to a challenge.
pub fn secure_ok(response: LongString) -> Frame
    ensures { result ≡ secure_ok response }
{
    Frame::Method(0, Method::SecureOk(response))
}

/// The client's answer to tune.
pub fn tune_ok(agreed: Configuration) -> Frame
    ensures { result ≡ tune_ok agreed }
{
    Frame::Method(
        0,
        Method::TuneOk(agreed.channel_max, agreed.frame_max, agreed.heartbeat),
    )
}

/// Opens a virtual host.
pub fn open_vhost(alloc: Global, vhost: &ShortString) -> Result<Frame, NoMemory>
    ensures { IfOk result (λ f. f ≡ open_vhost vhost.now) }
{
    Ok(Frame::Method(0, Method::Open(vhost.try_clone(alloc)?)))
}

/// The text of a close without error.
pub fn ok_text(alloc: Global) -> Result<ShortString, NoMemory>
    ensures { IfOk result (λ s. s ≡ codes "OK") }
{
    short(alloc, b"OK")
}

/// Our close of the connection.
pub fn our_close(code: ReplyCode, text: ShortString) -> Frame
    ensures { result ≡ our_close code text }
{
    Frame::Method(0, Method::Close(code, text, 0, 0))
}

/// Our answer to the server's close.
pub fn close_ok() -> Frame
    ensures { result ≡ close_ok }
{
    Frame::Method(0, Method::CloseOk)
}

/// Tells a new secret, for a reason.
pub fn new_secret(secret: LongString, reason: ShortString) -> Frame
    ensures { result ≡ new_secret secret reason }
{
    Frame::Method(0, Method::UpdateSecret(secret, reason))
}

/// Why a secret is refreshed.
pub fn refresh_reason(alloc: Global) -> Result<ShortString, NoMemory>
    ensures { IfOk result (λ s. s ≡ refresh_reason) }
{
    short(alloc, b"Automatic periodical refresh")
}

/// Opens a channel.
pub fn channel_open(id: ChannelId) -> Frame
    ensures { result ≡ channel_open id }
{
    Frame::Method(id, Method::ChannelOpen)
}

/// What the server sends on a channel is to start or to stop.
pub fn channel_flow(id: ChannelId, active: bool) -> Frame
    ensures { result ≡ channel_flow id active }
{
    Frame::Method(id, Method::ChannelFlow(active))
}

/// The answer to the server's flow.
pub fn flow_ok(id: ChannelId, active: bool) -> Frame
    ensures { result ≡ flow_ok id active }
{
    Frame::Method(id, Method::ChannelFlowOk(active))
}

/// Our answer to the server's close of a channel.
pub fn channel_close_ok(id: ChannelId) -> Frame
    ensures { result ≡ channel_close_ok id }
{
    Frame::Method(id, Method::ChannelCloseOk)
}

/// Our close of a channel.
pub fn our_channel_close(id: ChannelId, code: ReplyCode, text: ShortString) -> Frame
    ensures { result ≡ our_channel_close id code text }
{
    Frame::Method(id, Method::ChannelClose(code, text, 0, 0))
}
