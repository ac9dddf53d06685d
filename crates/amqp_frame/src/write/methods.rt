//! Writing of methods.

ghost use Rattle.std.specs.Prelude.{◌≡◌, ◌+◌, ◌^◌, ◌<◌, ◌≤◌, ◌++◌, ◌∷◌, [], length};
ghost use Rattle.amqp_frame.specs.Lengths.{capped};
ghost use Rattle.amqp_frame.specs.Methods.{spell_arguments, spell_close, spell_tune};
ghost use Rattle.amqp_frame.specs.declared.method.Method.TheVariants as m;

use crate::method::Method;
use crate::room::Room;
use crate::write::lengths::pairs_len;
use crate::write::values::{put_long, put_number16, put_number32, put_octet, put_short, put_table};
use amqp_types::{FieldTable, LongString, ShortString};

/// The length of the written arguments of a method.
#[tactic(auto, using(crate::proofs::Texts::method_lengths))]
pub fn arguments_len(method: &Method) -> u64
    ensures { result ≡ capped (length (spell_arguments method.now)) }
{
    match method {
        Method::Start(_, _, properties, mechanisms, locales) => pairs_len(
            properties,
        ).saturating_add(14 + mechanisms.len() as u64 + locales.len() as u64),
        Method::StartOk(properties, mechanism, response, locale) => pairs_len(
            properties,
        ).saturating_add(10 + mechanism.len() as u64 + response.len() as u64 + locale.len() as u64),
        Method::Secure(challenge) => 4 + challenge.len() as u64,
        Method::SecureOk(response) => 4 + response.len() as u64,
        Method::Tune(_, _, _) => 8,
        Method::TuneOk(_, _, _) => 8,
        Method::Open(vhost) => 3 + vhost.len() as u64,
        Method::OpenOk => 1,
        Method::Close(_, text, _, _) => 7 + text.len() as u64,
        Method::CloseOk => 0,
        Method::Blocked(reason) => 1 + reason.len() as u64,
        Method::Unblocked => 0,
        Method::UpdateSecret(secret, reason) => 5 + secret.len() as u64 + reason.len() as u64,
        Method::UpdateSecretOk => 0,
        Method::ChannelOpen => 1,
        Method::ChannelOpenOk => 4,
        Method::ChannelFlow(_) => 1,
        Method::ChannelFlowOk(_) => 1,
        Method::ChannelClose(_, text, _, _) => 7 + text.len() as u64,
        Method::ChannelCloseOk => 0,
    }
}

// A code, a text, and the class and the method that it is about.
fn put_close<R: Room>(code: u16, text: &ShortString, class: u16, method: u16, room: &mut R)
    requires { length text.now + 7 ≤ R.free room.old }
    ensures bytes { R.put_so_far room.new ≡ R.put_so_far room.old ++ spell_close code text.now class method }
    ensures space { R.free room.new + (length text.now + 7) ≡ R.free room.old }
{
    put_number16(code, room);
    put_short(text.as_bytes(), room);
    put_number16(class, room);
    put_number16(method, room);
}

// The three numbers that are tuned.
fn put_tune<R: Room>(channel_max: u16, frame_max: u32, heartbeat: u16, room: &mut R)
    requires { 8 ≤ R.free room.old }
    ensures bytes { R.put_so_far room.new ≡ R.put_so_far room.old ++ spell_tune channel_max frame_max heartbeat }
    ensures space { R.free room.new + 8 ≡ R.free room.old }
{
    put_number16(channel_max, room);
    put_number32(frame_max, room);
    put_number16(heartbeat, room);
}

// The arguments of connection.start.
#[tactic(auto, using(crate::proofs::Texts::method_lengths))]
fn put_start<R: Room>(
    major: u8,
    minor: u8,
    properties: &FieldTable,
    mechanisms: &LongString,
    locales: &LongString,
    room: &mut R,
)
    requires small { length (spell_arguments (m.Start major minor properties.now mechanisms.now locales.now)) < 2 ^ 32 }
    requires fits { length (spell_arguments (m.Start major minor properties.now mechanisms.now locales.now))
        ≤ R.free room.old }
    ensures bytes { R.put_so_far room.new ≡ R.put_so_far room.old
        ++ spell_arguments (m.Start major minor properties.now mechanisms.now locales.now) }
    ensures space { R.free room.new
        + length (spell_arguments (m.Start major minor properties.now mechanisms.now locales.now)) ≡ R.free room.old }
{
    room.put(&[major, minor]);
    put_table(properties, room);
    put_long(mechanisms.as_bytes(), room);
    put_long(locales.as_bytes(), room);
}

// The arguments of connection.start-ok.
#[tactic(auto, using(crate::proofs::Texts::method_lengths))]
fn put_start_ok<R: Room>(
    properties: &FieldTable,
    mechanism: &ShortString,
    response: &LongString,
    locale: &ShortString,
    room: &mut R,
)
    requires small { length (spell_arguments (m.StartOk properties.now mechanism.now response.now locale.now))
        < 2 ^ 32 }
    requires fits { length (spell_arguments (m.StartOk properties.now mechanism.now response.now locale.now))
        ≤ R.free room.old }
    ensures bytes { R.put_so_far room.new ≡ R.put_so_far room.old
        ++ spell_arguments (m.StartOk properties.now mechanism.now response.now locale.now) }
    ensures space { R.free room.new
        + length (spell_arguments (m.StartOk properties.now mechanism.now response.now locale.now)) ≡ R.free room.old }
{
    put_table(properties, room);
    put_short(mechanism.as_bytes(), room);
    put_long(response.as_bytes(), room);
    put_short(locale.as_bytes(), room);
}

// The arguments of connection.open: what is reserved is empty and 0.
fn put_open<R: Room>(vhost: &ShortString, room: &mut R)
    requires { length vhost.now + 3 ≤ R.free room.old }
    ensures bytes { R.put_so_far room.new ≡ R.put_so_far room.old ++ spell_arguments (m.Open vhost.now) }
    ensures space { R.free room.new + (length vhost.now + 3) ≡ R.free room.old }
{
    put_short(vhost.as_bytes(), room);
    room.put(&[0, 0]);
}

// The arguments of connection.update-secret.
#[tactic(auto, using(crate::proofs::Texts::method_lengths))]
fn put_update_secret<R: Room>(secret: &LongString, reason: &ShortString, room: &mut R)
    requires small { length secret.now < 2 ^ 32 }
    requires fits { length secret.now + length reason.now + 5 ≤ R.free room.old }
    ensures bytes { R.put_so_far room.new ≡ R.put_so_far room.old
        ++ spell_arguments (m.UpdateSecret secret.now reason.now) }
    ensures space { R.free room.new + (length secret.now + length reason.now + 5) ≡ R.free room.old }
{
    put_long(secret.as_bytes(), room);
    put_short(reason.as_bytes(), room);
}

/// The arguments of a method.
#[tactic(auto, using(crate::proofs::Texts::method_lengths))]
pub fn put_arguments<R: Room>(method: &Method, room: &mut R)
    requires small { length (spell_arguments method.now) < 2 ^ 32 }
    requires fits { length (spell_arguments method.now) ≤ R.free room.old }
    ensures bytes { R.put_so_far room.new ≡ R.put_so_far room.old ++ spell_arguments method.now }
    ensures space { R.free room.new + length (spell_arguments method.now) ≡ R.free room.old }
{
    match method {
        Method::Start(major, minor, properties, mechanisms, locales) => {
            put_start(*major, *minor, properties, mechanisms, locales, room)
        }
        Method::StartOk(properties, mechanism, response, locale) => {
            put_start_ok(properties, mechanism, response, locale, room)
        }
        Method::Secure(challenge) => put_long(challenge.as_bytes(), room),
        Method::SecureOk(response) => put_long(response.as_bytes(), room),
        Method::Tune(channel_max, frame_max, heartbeat) => {
            put_tune(*channel_max, *frame_max, *heartbeat, room)
        }
        Method::TuneOk(channel_max, frame_max, heartbeat) => {
            put_tune(*channel_max, *frame_max, *heartbeat, room)
        }
        Method::Open(vhost) => put_open(vhost, room),
        Method::Close(code, text, class, method) => put_close(*code, text, *class, *method, room),
        Method::Blocked(reason) => put_short(reason.as_bytes(), room),
        Method::UpdateSecret(secret, reason) => put_update_secret(secret, reason, room),
        Method::OpenOk | Method::ChannelOpen => put_octet(0, room),
        Method::ChannelOpenOk => room.put(&[0, 0, 0, 0]),
        Method::ChannelFlow(active) => put_octet(u8::from(*active), room),
        Method::ChannelFlowOk(active) => put_octet(u8::from(*active), room),
        Method::ChannelClose(code, text, class, method) => {
            put_close(*code, text, *class, *method, room)
        }
        Method::CloseOk | Method::Unblocked | Method::UpdateSecretOk | Method::ChannelCloseOk => {}
    }
}
