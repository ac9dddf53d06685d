//! Reading of methods.

ghost use Rattle.std.specs.Prelude.{◌≡◌, ◌%◌, ◌==◌};
ghost use Rattle.std.specs.Int.{w16};
ghost use Rattle.amqp_types.specs.Reading.{octet_at, number_at, short_string_at, long_string_at, ◌⊗◌, read_map};
ghost use Rattle.amqp_frame.specs.Reads.{Reads};
ghost use Rattle.amqp_frame.specs.FrameReading.{connection_arguments_at, channel_arguments_at, start_at, start_ok_at};
ghost use Rattle.amqp_frame.specs.FrameReading.{numbers_at, tune_at, tune_ok_at, open_at, reasons_at, close_at};
ghost use Rattle.amqp_frame.specs.FrameReading.{channel_close_at, update_secret_at};

use crate::method::Method;
use crate::read::cursor::{Cursor, Fault};
use crate::read::values::table;
use crate::view::View;
use amqp_types::{FieldTable, LongString, ShortString};
use std::alloc::Global;

// How deep tables and arrays may stand in one another, the outermost table included: `max_depth` of
// amqp_types.
const MAX_DEPTH: u8 = 128;

// Two long strings, one after the other.
fn two_long<V: View>(
    alloc: Global,
    cursor: &mut Cursor<'_, V>,
) -> Result<(LongString, LongString), Fault>
    ensures { Reads (λ t. (t.0, t.1)) result cursor.new ((long_string_at ⊗ long_string_at) cursor.old) }
{
    let first = cursor.long_string(alloc)?;
    match cursor.long_string(alloc) {
        Ok(second) => Ok((first, second)),
        Err(fault) => {
            drop(first);
            Err(fault)
        }
    }
}

// A long string, and a short string behind it.
fn long_and_short<V: View>(
    alloc: Global,
    cursor: &mut Cursor<'_, V>,
) -> Result<(LongString, ShortString), Fault>
    ensures { Reads (λ t. (t.0, t.1)) result cursor.new ((long_string_at ⊗ short_string_at) cursor.old) }
{
    let first = cursor.long_string(alloc)?;
    match cursor.short_string(alloc) {
        Ok(second) => Ok((first, second)),
        Err(fault) => {
            drop(first);
            Err(fault)
        }
    }
}

// connection.start.
#[tactic(auto, unfolding(crate::specs::FrameReading::start_at))]
fn start<V: View>(alloc: Global, cursor: &mut Cursor<'_, V>) -> Result<Method, Fault>
    ensures { Reads (λ m. m) result cursor.new (start_at cursor.old) }
{
    let major = cursor.octet()?;
    let minor = cursor.octet()?;
    let properties = table(alloc, MAX_DEPTH, cursor)?;
    match two_long(alloc, cursor) {
        Ok((mechanisms, locales)) => {
            Ok(Method::Start(major, minor, properties, mechanisms, locales))
        }
        Err(fault) => {
            drop(properties);
            Err(fault)
        }
    }
}

// connection.start-ok.
#[tactic(auto, unfolding(crate::specs::FrameReading::start_ok_at))]
fn start_ok<V: View>(alloc: Global, cursor: &mut Cursor<'_, V>) -> Result<Method, Fault>
    ensures { Reads (λ m. m) result cursor.new (start_ok_at cursor.old) }
{
    let properties = table(alloc, MAX_DEPTH, cursor)?;
    match login(alloc, cursor) {
        Ok((mechanism, response, locale)) => {
            Ok(Method::StartOk(properties, mechanism, response, locale))
        }
        Err(fault) => {
            drop(properties);
            Err(fault)
        }
    }
}

// A mechanism, a response and a locale.
fn login<V: View>(
    alloc: Global,
    cursor: &mut Cursor<'_, V>,
) -> Result<(ShortString, LongString, ShortString), Fault>
    ensures { Reads (λ t. (t.0, (t.1, t.2))) result cursor.new
        ((short_string_at ⊗ long_string_at ⊗ short_string_at) cursor.old) }
{
    let mechanism = cursor.short_string(alloc)?;
    match long_and_short(alloc, cursor) {
        Ok((response, locale)) => Ok((mechanism, response, locale)),
        Err(fault) => {
            drop(mechanism);
            Err(fault)
        }
    }
}

// The three numbers that are tuned.
fn numbers<V: View>(cursor: &mut Cursor<'_, V>) -> Result<(u16, u32, u16), Fault>
    ensures { Reads (λ t. (t.0, (t.1, t.2))) result cursor.new (numbers_at cursor.old) }
{
    let channel_max = cursor.number16()?;
    let frame_max = cursor.number32()?;
    let heartbeat = cursor.number16()?;
    Ok((channel_max, frame_max, heartbeat))
}

// connection.tune.
#[tactic(auto, unfolding(crate::specs::FrameReading::tune_at))]
fn tune<V: View>(cursor: &mut Cursor<'_, V>) -> Result<Method, Fault>
    ensures { Reads (λ m. m) result cursor.new (tune_at cursor.old) }
{
    let (channel_max, frame_max, heartbeat) = numbers(cursor)?;
    Ok(Method::Tune(channel_max, frame_max, heartbeat))
}

// connection.tune-ok.
#[tactic(auto, unfolding(crate::specs::FrameReading::tune_ok_at))]
fn tune_ok<V: View>(cursor: &mut Cursor<'_, V>) -> Result<Method, Fault>
    ensures { Reads (λ m. m) result cursor.new (tune_ok_at cursor.old) }
{
    let (channel_max, frame_max, heartbeat) = numbers(cursor)?;
    Ok(Method::TuneOk(channel_max, frame_max, heartbeat))
}

// A short string and an octet, which are reserved.
fn reserved<V: View>(cursor: &mut Cursor<'_, V>) -> Result<(), Fault>
    ensures { Reads (λ u. u) result cursor.new (read_map (λ a. tt) (short_string_at ⊗ octet_at) cursor.old) }
{
    cursor.short_split()?;
    cursor.octet()?;
    Ok(())
}

// connection.open.
#[tactic(auto, unfolding(crate::specs::FrameReading::open_at))]
fn open<V: View>(alloc: Global, cursor: &mut Cursor<'_, V>) -> Result<Method, Fault>
    ensures { Reads (λ m. m) result cursor.new (open_at cursor.old) }
{
    let vhost = cursor.short_string(alloc)?;
    match reserved(cursor) {
        Ok(()) => Ok(Method::Open(vhost)),
        Err(fault) => {
            drop(vhost);
            Err(fault)
        }
    }
}

// The numbers of a class and of a method in it.
fn about<V: View>(cursor: &mut Cursor<'_, V>) -> Result<(u16, u16), Fault>
    ensures { Reads (λ t. (t.0, t.1)) result cursor.new ((number_at w16 ⊗ number_at w16) cursor.old) }
{
    let class = cursor.number16()?;
    let method = cursor.number16()?;
    Ok((class, method))
}

// Why something is closed: a code, a text, and the class and the method that it is about.
fn reasons<V: View>(
    alloc: Global,
    cursor: &mut Cursor<'_, V>,
) -> Result<(u16, ShortString, u16, u16), Fault>
    ensures { Reads (λ t. (t.0, (t.1, (t.2, t.3)))) result cursor.new (reasons_at cursor.old) }
{
    let code = cursor.number16()?;
    let text = cursor.short_string(alloc)?;
    match about(cursor) {
        Ok((class, method)) => Ok((code, text, class, method)),
        Err(fault) => {
            drop(text);
            Err(fault)
        }
    }
}

// connection.close.
#[tactic(auto, unfolding(crate::specs::FrameReading::close_at))]
fn close<V: View>(alloc: Global, cursor: &mut Cursor<'_, V>) -> Result<Method, Fault>
    ensures { Reads (λ m. m) result cursor.new (close_at cursor.old) }
{
    let (code, text, class, method) = reasons(alloc, cursor)?;
    Ok(Method::Close(code, text, class, method))
}

// channel.close.
#[tactic(auto, unfolding(crate::specs::FrameReading::channel_close_at))]
fn channel_close<V: View>(alloc: Global, cursor: &mut Cursor<'_, V>) -> Result<Method, Fault>
    ensures { Reads (λ m. m) result cursor.new (channel_close_at cursor.old) }
{
    let (code, text, class, method) = reasons(alloc, cursor)?;
    Ok(Method::ChannelClose(code, text, class, method))
}

// connection.update-secret.
#[tactic(auto, unfolding(crate::specs::FrameReading::update_secret_at))]
fn update_secret<V: View>(alloc: Global, cursor: &mut Cursor<'_, V>) -> Result<Method, Fault>
    ensures { Reads (λ m. m) result cursor.new (update_secret_at cursor.old) }
{
    let (secret, reason) = long_and_short(alloc, cursor)?;
    Ok(Method::UpdateSecret(secret, reason))
}

/// The arguments of a method of the connection class.
#[tactic(auto, unfolding(crate::specs::FrameReading::connection_arguments_at))]
pub fn connection_method<V: View>(
    alloc: Global,
    number: u16,
    cursor: &mut Cursor<'_, V>,
) -> Result<Method, Fault>
    ensures { Reads (λ m. m) result cursor.new (connection_arguments_at number cursor.old) }
{
    match number {
        10 => start(alloc, cursor),
        11 => start_ok(alloc, cursor),
        20 => cursor.long_string(alloc).map(Method::Secure),
        21 => cursor.long_string(alloc).map(Method::SecureOk),
        30 => tune(cursor),
        31 => tune_ok(cursor),
        40 => open(alloc, cursor),
        41 => cursor.short_split().map(|_| Method::OpenOk),
        50 => close(alloc, cursor),
        51 => Ok(Method::CloseOk),
        60 => cursor.short_string(alloc).map(Method::Blocked),
        61 => Ok(Method::Unblocked),
        70 => update_secret(alloc, cursor),
        71 => Ok(Method::UpdateSecretOk),
        _ => Err(Fault::Bad),
    }
}

// An octet of which the lowest bit counts.
fn bit<V: View>(cursor: &mut Cursor<'_, V>) -> Result<bool, Fault>
    ensures { Reads (λ b. b) result cursor.new (read_map (λ n. n % 2 == 1) octet_at cursor.old) }
{
    Ok(cursor.octet()? % 2 == 1)
}

/// The arguments of a method of the channel class.
#[tactic(auto, unfolding(crate::specs::FrameReading::channel_arguments_at))]
pub fn channel_method<V: View>(
    alloc: Global,
    number: u16,
    cursor: &mut Cursor<'_, V>,
) -> Result<Method, Fault>
    ensures { Reads (λ m. m) result cursor.new (channel_arguments_at number cursor.old) }
{
    match number {
        10 => cursor.short_split().map(|_| Method::ChannelOpen),
        11 => cursor.long_split().map(|_| Method::ChannelOpenOk),
        20 => bit(cursor).map(Method::ChannelFlow),
        21 => bit(cursor).map(Method::ChannelFlowOk),
        40 => channel_close(alloc, cursor),
        41 => Ok(Method::ChannelCloseOk),
        _ => Err(Fault::Bad),
    }
}
