//! What a broker tells by a method, to one who publishes or consumes.

ghost use Rattle.std.specs.Prelude.{◌≡◌};
ghost use Rattle.amqp_tools.specs.Heard.{begins, heard_in, other};

use amqp_methods::{read_ack, read_nack};

/// What a method tells.
#[derive(Clone, Copy, Debug, PartialEq, Eq)]
pub enum Heard {
    /// basic.ack: the broker took what was published, with this tag, and whether all up to it.
    Taken(u64, bool),
    /// basic.nack: it did not take it.
    Refused(u64, bool),
    /// basic.return: no queue takes what was published. It is also told as taken.
    Returned,
    /// confirm.select-ok: the channel is in confirm mode.
    Selected,
    /// basic.cancel: the broker delivers nothing more to a consumer, as its queue is gone.
    Cancelled,
    /// Any other method.
    Other,
}

// Whether octets begin with these, the numbers of a class and of a method.
fn begins(payload: &[u8], numbers: &[u8]) -> bool
    ensures { result ≡ begins numbers.now payload.now }
{
    payload.len() >= 4 && &payload[..4] == numbers
}

/// What the method tells that is the payload of a frame.
pub fn told_by(payload: &[u8]) -> Heard
    ensures { result ≡ heard_in payload.now }
{
    if let Some(ack) = read_ack(payload) {
        return Heard::Taken(ack.delivery_tag, ack.multiple);
    }
    if let Some(nack) = read_nack(payload) {
        return Heard::Refused(nack.delivery_tag, nack.multiple);
    }
    other(payload)
}

// The same of a method that is no answer.
fn other(payload: &[u8]) -> Heard
    ensures { result ≡ other payload.now }
{
    if begins(payload, b"\x00\x3c\x00\x32") {
        Heard::Returned
    } else if begins(payload, b"\x00\x55\x00\x0b") {
        Heard::Selected
    } else if begins(payload, b"\x00\x3c\x00\x1e") {
        Heard::Cancelled
    } else {
        Heard::Other
    }
}
