//! Writing of frames.

mod lengths;
mod methods;
mod values;

ghost use Rattle.std.specs.Prelude.{◌≡◌, ◌+◌, ◌^◌, ◌<◌, ◌≤◌, ◌++◌, ◌∷◌, [], ◌↔◌, length, IsErr, OnOk, OnErr};
ghost use Rattle.std.specs.Int.{w16, w32, to_be_bytes};
ghost use Rattle.amqp_frame.specs.Lengths.{capped};
ghost use Rattle.amqp_frame.specs.Methods.{spell_arguments, class_of, number_of, spell_method, spell_close, spell_tune};
ghost use Rattle.amqp_frame.specs.Frames.{encoding, spell_header, spell_framed, type_of};

use crate::frame::{FRAME_END, Frame, RawKind};
use crate::method::Method;
use crate::room::Room;
use crate::write::methods::{arguments_len, put_arguments};
use crate::write::values::{put_number16, put_octet};
use amqp_types::ChannelId;
pub use lengths::table_len;
use thiserror::Error;
pub use values::{put_long, put_short, put_table};

/// There was too little space.
#[derive(Clone, Copy, Debug, PartialEq, Eq, Error)]
#[error("the room has too little space for the frame")]
pub struct Full;

/// The length of a frame's written spelling, or the greatest number where that is less.
#[tactic(auto, using(crate::proofs::Texts::method_lengths))]
pub fn encoded_len(frame: &Frame) -> u64
    ensures { result ≡ capped (length (encoding frame.now)) }
{
    match frame {
        Frame::ProtocolHeader(_) => 8,
        Frame::Method(_, method) => arguments_len(method).saturating_add(12),
        Frame::Raw(_, _, payload) => (payload.as_bytes().len() as u64).saturating_add(8),
        Frame::Heartbeat => 8,
    }
}

// The octet by which a frame that is passed through names its type.
fn type_octet(kind: RawKind) -> u8
    ensures { result ≡ type_of kind }
{
    match kind {
        RawKind::RawMethod => 1,
        RawKind::Header => 2,
        RawKind::Body => 3,
    }
}

// The type, the channel and the size of a frame.
fn put_header<R: Room>(frame_type: u8, channel: ChannelId, size: u32, room: &mut R)
    requires { 7 ≤ R.free room.old }
    ensures bytes { R.put_so_far room.new ≡ R.put_so_far room.old ++ spell_header frame_type channel size }
    ensures space { R.free room.new + 7 ≡ R.free room.old }
{
    let [channel_high, channel_low] = channel.to_be_bytes();
    let [first, second, third, fourth] = size.to_be_bytes();
    room.put(&[
        frame_type,
        channel_high,
        channel_low,
        first,
        second,
        third,
        fourth,
    ]);
}

// A method frame.
fn put_method<R: Room>(channel: ChannelId, method: &Method, room: &mut R)
    requires small { length (spell_arguments method.now) + 12 < 2 ^ 32 }
    requires fits { length (spell_arguments method.now) + 12 ≤ R.free room.old }
    ensures bytes { R.put_so_far room.new ≡ R.put_so_far room.old ++ spell_framed 1 channel (spell_method method.now) }
    ensures space { R.free room.new + (length (spell_arguments method.now) + 12) ≡ R.free room.old }
{
    put_header(1, channel, arguments_len(method) as u32 + 4, room);
    put_number16(method.class_id(), room);
    put_number16(method.method_id(), room);
    put_arguments(method, room);
    put_octet(FRAME_END, room);
}

// A frame whose payload is given whole.
fn put_raw<R: Room>(channel: ChannelId, kind: RawKind, payload: &[u8], room: &mut R)
    requires small { length payload.now + 8 < 2 ^ 32 }
    requires fits { length payload.now + 8 ≤ R.free room.old }
    ensures bytes { R.put_so_far room.new ≡ R.put_so_far room.old ++ spell_framed (type_of kind) channel payload.now }
    ensures space { R.free room.new + (length payload.now + 8) ≡ R.free room.old }
{
    put_header(type_octet(kind), channel, payload.len() as u32, room);
    room.put(payload);
    put_octet(FRAME_END, room);
}

// A frame for which there is space.
#[tactic(auto, using(crate::proofs::Texts::frame_lengths))]
fn put_frame<R: Room>(frame: &Frame, room: &mut R)
    requires small { length (encoding frame.now) < 2 ^ 32 }
    requires fits { length (encoding frame.now) ≤ R.free room.old }
    ensures bytes { R.put_so_far room.new ≡ R.put_so_far room.old ++ encoding frame.now }
    ensures space { R.free room.new + length (encoding frame.now) ≡ R.free room.old }
{
    match frame {
        Frame::ProtocolHeader(version) => room.put(&[
            b'A',
            b'M',
            b'Q',
            b'P',
            0,
            version.major,
            version.minor,
            version.revision,
        ]),
        Frame::Method(channel, method) => put_method(*channel, method, room),
        Frame::Raw(channel, kind, payload) => put_raw(*channel, *kind, payload.as_bytes(), room),
        Frame::Heartbeat => room.put(&[8, 0, 0, 0, 0, 0, 0, FRAME_END]),
    }
}

/// Puts the one written spelling of a frame, or nothing where the space is less.
pub fn write_frame<R: Room>(frame: &Frame, room: &mut R) -> Result<(), Full>
    requires { length (encoding frame.now) ≤ 4294967295 }
    ensures full { IsErr result ↔ (R.free room.old < length (encoding frame.now)) }
    ensures bytes { OnOk result (R.put_so_far room.new ≡ R.put_so_far room.old ++ encoding frame.now) }
    ensures space { OnOk result (R.free room.new + length (encoding frame.now) ≡ R.free room.old) }
    ensures unchanged { OnErr result
        ((R.put_so_far room.new ≡ R.put_so_far room.old) × (R.free room.new ≡ R.free room.old)) }
{
    if (room.space() as u64) < encoded_len(frame) {
        return Err(Full);
    }
    put_frame(frame, room);
    Ok(())
}
