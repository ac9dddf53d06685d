//! Methods by which a server delivers and confirms.

ghost use Rattle.std.specs.Prelude.{◌≡◌, IfOk, option_map};
ghost use Rattle.amqp_methods.specs.Heard.{basic_in, deliver_arguments_at, return_arguments_at, tag_and_flags_at, deliver_in, ack_in, nack_in};

use crate::rest::Rest;
use amqp_types::{NoMemory, ShortString};
use std::alloc::Global;

/// basic.deliver: a message comes to a consumer. Its content header and its body follow.
#[derive(Debug, PartialEq, Eq, Drop)]
pub struct Deliver {
    pub consumer_tag: ShortString,
    /// The number by which it is acknowledged on its channel.
    pub delivery_tag: u64,
    /// Whether it may have been delivered before.
    pub redelivered: bool,
    pub exchange: ShortString,
    pub routing_key: ShortString,
}

/// basic.ack of a server in confirm mode: it took what was published.
#[derive(Clone, Copy, Debug, PartialEq, Eq)]
pub struct Ack {
    /// The number of the publish on its channel, counted from 1.
    pub delivery_tag: u64,
    /// Whether all up to this one are meant.
    pub multiple: bool,
}

/// basic.nack of a server in confirm mode: it could not take what was published.
#[derive(Clone, Copy, Debug, PartialEq, Eq)]
pub struct Nack {
    /// The number of the publish on its channel, counted from 1.
    pub delivery_tag: u64,
    /// Whether all up to this one are meant.
    pub multiple: bool,
    /// Means nothing of a server.
    pub requeue: bool,
}

/// basic.return: no queue takes what was published. Its content header and its body follow.
#[derive(Clone, Copy)]
pub struct Returned<'a> {
    /// Why, as 312 where no queue is bound.
    pub reply_code: u16,
    /// The same in words.
    pub reply_text: &'a [u8],
    pub exchange: &'a [u8],
    pub routing_key: &'a [u8],
}

// The parts of basic.deliver, where they lie.
#[derive(Clone, Copy)]
struct Parts<'a> {
    consumer_tag: &'a [u8],
    delivery_tag: u64,
    flags: u8,
    exchange: &'a [u8],
    routing_key: &'a [u8],
}

/// The basic.deliver that a payload is of a method's frame, as `Handed` has it; none where it is another
/// method, or its arguments are not those of the reference.
pub fn read_deliver(alloc: Global, payload: &[u8]) -> Result<Option<Deliver>, NoMemory>
    ensures { IfOk result (λ found. found ≡ deliver_in payload.now) }
{
    let Some(parts) = parts_of(payload) else {
        return Ok(None);
    };
    let consumer_tag = short(alloc, parts.consumer_tag)?;
    let exchange = short(alloc, parts.exchange)?;
    let routing_key = short(alloc, parts.routing_key)?;
    Ok(Some(Deliver {
        consumer_tag,
        delivery_tag: parts.delivery_tag,
        redelivered: parts.flags % 2 == 1,
        exchange,
        routing_key,
    }))
}

// The parts of the basic.deliver that a payload is.
fn parts_of(payload: &[u8]) -> Option<Parts<'_>>
    ensures { option_map
        (λ p. (p.consumer_tag.now, (p.delivery_tag, (p.flags, (p.exchange.now, p.routing_key.now))))) result
        ≡ basic_in deliver_arguments_at 60 payload.now }
{
    let mut rest = Rest { bytes: payload };
    let class = rest.number16()?;
    let number = rest.number16()?;
    let consumer_tag = rest.short()?;
    let delivery_tag = rest.number64()?;
    let flags = rest.octet()?;
    let exchange = rest.short()?;
    let routing_key = rest.short()?;
    if !rest.bytes.is_empty() || class != 60 || number != 60 {
        return None;
    }
    Some(Parts {
        consumer_tag,
        delivery_tag,
        flags,
        exchange,
        routing_key,
    })
}

/// The basic.return that a payload is of a method's frame; none where it is another method, or its arguments
/// are not those of the reference.
pub fn read_return(payload: &[u8]) -> Option<Returned<'_>>
    ensures { option_map
        (λ r. (r.reply_code, (r.reply_text.now, (r.exchange.now, r.routing_key.now)))) result
        ≡ basic_in return_arguments_at 50 payload.now }
{
    let mut rest = Rest { bytes: payload };
    let class = rest.number16()?;
    let number = rest.number16()?;
    let reply_code = rest.number16()?;
    let reply_text = rest.short()?;
    let exchange = rest.short()?;
    let routing_key = rest.short()?;
    if !rest.bytes.is_empty() || class != 60 || number != 50 {
        return None;
    }
    Some(Returned {
        reply_code,
        reply_text,
        exchange,
        routing_key,
    })
}

// The number and the flags of the method of class basic with this number, which a payload is.
fn tag_and_flags(payload: &[u8], wanted: u16) -> Option<(u64, u8)>
    ensures { option_map (λ p. (p.0, p.1)) result ≡ basic_in tag_and_flags_at wanted payload.now }
{
    let mut rest = Rest { bytes: payload };
    let class = rest.number16()?;
    let number = rest.number16()?;
    let delivery_tag = rest.number64()?;
    let flags = rest.octet()?;
    if !rest.bytes.is_empty() || class != 60 || number != wanted {
        return None;
    }
    Some((delivery_tag, flags))
}

// A short string of octets that were read as one.
fn short(alloc: Global, content: &[u8]) -> Result<ShortString, NoMemory>
    ensures { IfOk result (λ s. s ≡ content.now) }
{
    match ShortString::new(alloc, content) {
        Ok(string) => Ok(string),
        // They are at most 255.
        Err(_) => Err(NoMemory),
    }
}

/// The basic.ack that a payload is of a method's frame; none where it is another method, or its arguments
/// are not those of the reference.
pub fn read_ack(payload: &[u8]) -> Option<Ack>
    ensures { result ≡ ack_in payload.now }
{
    let (delivery_tag, flags) = tag_and_flags(payload, 80)?;
    Some(Ack {
        delivery_tag,
        multiple: flags % 2 == 1,
    })
}

/// The same of basic.nack.
pub fn read_nack(payload: &[u8]) -> Option<Nack>
    ensures { result ≡ nack_in payload.now }
{
    let (delivery_tag, flags) = tag_and_flags(payload, 120)?;
    Some(Nack {
        delivery_tag,
        multiple: flags % 2 == 1,
        requeue: flags / 2 % 2 == 1,
    })
}
