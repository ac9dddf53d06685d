//! A connection from end to end.

ghost use Rattle.std.specs.Prelude.{◌≡◌, ◌≢◌, ◌↔◌, ◌≤◌, None, Some, IfSome, IfOk, IfErr, OnOk, OnErr, Err};
ghost use Rattle.std.specs.Option.{option_copied};
ghost use Rattle.std.specs.String.{string_bytes};
ghost use Rattle.amqp_types.specs.Counts.{Rose};
ghost use Rattle.amqp_uri.specs.Address.{address_of_text};
ghost use Rattle.amqp_replay.specs.Ends.{FailedOnce};
ghost use Rattle.amqp_replay.specs.Top.{TookAll, TookFront};
ghost use Rattle.lapin_connection.specs.Connecting.{ConnectsToText};
ghost use Rattle.amqp_live.specs.Said.{live_address, IsChannelLine, SaysAll};
ghost use Rattle.amqp_live.specs.Ends.{IsReached, AsksFor, Visits, Goes, SaysWhy, SaysAsFar, FailsToSay, TellsError, IsStatus};

use crate::said::{channel_line, error_line};
use amqp_replay::Sink;
use amqp_replay::status::{CLOSED, FAILED, NO_MEMORY, SINK_FAILED, USAGE};
use amqp_replay::transfer::{SinkFailed, write_all};
use amqp_replay::words::is;
use amqp_session::{ConnectionProperties, ConnectionState, Error, ErrorKind, Result};
use amqp_types::{ShortString, Text};
use lapin_connection::{Channel, Connection, Pass, Spawner};
use std::alloc::Global;
use std::sync::Wait;
use std::thread::Threads;
use std::time::Clock;

/// The reply code of a close without an error.
const SUCCESS: u16 = 200;

/// Why it went no further.
#[derive(Drop)]
pub enum Stop {
    /// The sink failed.
    Unsaid,
    /// Connecting was answered by this error.
    Unconnected(Error),
    /// A call on the connection answered this error.
    Failed(Error),
}

// What a call on the connection answered.
impl From<Error> for Stop {
    ghost use Rattle.std.specs.Prelude.{◌≡◌};
    ghost use Rattle.amqp_live.specs.declared.live.Stop.TheVariants.{Failed};

    ghost from_gives = { λ error stop. stop ≡ Failed error };

    fn from(error: Error) -> Stop {
        Stop::Failed(error)
    }
}

/// Connects to an address by a runtime, opens a channel, closes it and then the connection, and says each
/// on a sink, a line as it comes: `connected`, `channel N`, `closed`; or last `error` and why. The words
/// are `live` and the address. It gives the exit status: 0 once all three lines are said, 2 for other words,
/// 4 for a sink that failed, 5 for an error, and 7 where memory was refused. It waits for the server as long as
/// its port does.
pub fn top_live<K: Sink, S: Spawner, R: Threads + Wait + Clock + Copy + Send + 'static>(
    rt: R,
    alloc: Global,
    words: &[Text],
    sink: &mut K,
    runtime: &mut S,
) -> u8
    ensures usage { (result ≡ USAGE) ↔ (live_address words.now ≡ None) }
    ensures silent { result ≡ USAGE → K.held sink.new ≡ K.held sink.old }
    ensures closed { result ≡ CLOSED → IfSome (live_address words.now)
        (λ uri. IsReached (address_of_text uri) (S.loops runtime.old) (S.loops runtime.new)
        × SaysAll (K.held sink.old) (K.held sink.new)) }
    ensures failed { result ≡ FAILED → IfSome (live_address words.now) (λ uri. SaysWhy (address_of_text uri)
        (S.refusals runtime.old) (S.refusals runtime.new) (S.loops runtime.old) (S.loops runtime.new)
        (K.held sink.old) (K.held sink.new)) }
    ensures no_memory { result ≡ NO_MEMORY → IfSome (live_address words.now)
        (λ uri. SaysAsFar (address_of_text uri) (S.loops runtime.old) (S.loops runtime.new)
        (K.held sink.old) (K.held sink.new)) }
    ensures sink_failed { result ≡ SINK_FAILED → IfSome (live_address words.now) (λ uri. FailsToSay
        (address_of_text uri) (S.refusals runtime.old) (S.refusals runtime.new)
        (S.loops runtime.old) (S.loops runtime.new) (K.held sink.old) (K.held sink.new)) }
    ensures sink_cause { result ≡ SINK_FAILED → FailedOnce (K.faults sink.old) (K.faults sink.new) }
    ensures sink_kept { result ≢ SINK_FAILED → K.faults sink.new ≡ K.faults sink.old }
    ensures statuses { IsStatus result }
    ensures refusals { S.refusals runtime.old ≤ S.refusals runtime.new }
    ensures asked { result ≡ CLOSED → IfSome (live_address words.now)
        (λ uri. AsksFor (address_of_text uri) (S.asked runtime.new)) }
{
    let Some(uri) = live_address(words) else {
        return USAGE;
    };
    match converse(rt, alloc, uri, sink, runtime) {
        Ok(()) => CLOSED,
        Err(Stop::Unsaid) => SINK_FAILED,
        Err(Stop::Unconnected(error)) => tell_error(alloc, sink, error),
        Err(Stop::Failed(error)) => tell_error(alloc, sink, error),
    }
}

// The address, where the words are `live` and one.
fn live_address(words: &[Text]) -> Option<&str>
    ensures { option_copied result ≡ live_address words.now }
{
    match words {
        [word, uri] if is(word.as_str().as_bytes(), b"live") => Some(uri.as_str()),
        _ => None,
    }
}

// Says an error, and gives the status of it.
fn tell_error<K: Sink>(alloc: Global, sink: &mut K, error: Error) -> u8
    ensures told { TellsError error (K.held sink.old) (K.held sink.new) result }
    ensures cause { result ≡ SINK_FAILED → FailedOnce (K.faults sink.old) (K.faults sink.new) }
    ensures kept { result ≢ SINK_FAILED → K.faults sink.new ≡ K.faults sink.old }
{
    if *error.kind() == ErrorKind::NoMemory {
        drop(error);
        return NO_MEMORY;
    }
    let line = error_line(alloc, &error);
    drop(error);
    let Ok(line) = line else {
        return NO_MEMORY;
    };
    match write_all(sink, line.as_bytes()) {
        Ok(()) => FAILED,
        Err(SinkFailed) => SINK_FAILED,
    }
}

// Says a line.
fn say<K: Sink>(sink: &mut K, line: &[u8]) -> std::result::Result<(), Stop>
    ensures ok { OnOk result (TookAll line.now (K.held sink.old) (K.held sink.new)) }
    ensures only { IfErr result (λ stop. stop ≡ Stop.Unsaid) }
    ensures front { OnErr result (TookFront line.now (K.held sink.old) (K.held sink.new)) }
    ensures cause { OnErr result (FailedOnce (K.faults sink.old) (K.faults sink.new)) }
    ensures kept { OnOk result (K.faults sink.new ≡ K.faults sink.old) }
{
    match write_all(sink, line) {
        Ok(()) => Ok(()),
        Err(SinkFailed) => Err(Stop::Unsaid),
    }
}

// All of it: connects, and then says what is done.
fn converse<K: Sink, S: Spawner, R: Threads + Wait + Clock + Copy + Send + 'static>(
    rt: R,
    alloc: Global,
    uri: &str,
    sink: &mut K,
    runtime: &mut S,
) -> std::result::Result<(), Stop>
    ensures goes { Goes (address_of_text uri.now) (S.refusals runtime.old) (S.refusals runtime.new)
        (S.loops runtime.old) (S.loops runtime.new) (K.held sink.old) (K.held sink.new) result }
    ensures cause { result ≡ Err Stop.Unsaid → FailedOnce (K.faults sink.old) (K.faults sink.new) }
    ensures kept { result ≢ Err Stop.Unsaid → K.faults sink.new ≡ K.faults sink.old }
    ensures refusals { S.refusals runtime.old ≤ S.refusals runtime.new }
    ensures asked { OnOk result (AsksFor (address_of_text uri.now) (S.asked runtime.new)) }
{
    match connect(rt, alloc, uri, runtime) {
        Ok(connection) => visit_all(&rt, alloc, &connection, sink),
        Err(error) => Err(Stop::Unconnected(error)),
    }
}

// Visits a connection. An error is that by which the session ended, where a call only found that it has.
fn visit_all<K: Sink, R: Wait>(
    rt: &R,
    alloc: Global,
    connection: &Connection,
    sink: &mut K,
) -> std::result::Result<(), Stop>
    ensures visits { Visits (K.held sink.old) (K.held sink.new) result }
    ensures cause { result ≡ Err Stop.Unsaid → FailedOnce (K.faults sink.old) (K.faults sink.new) }
    ensures kept { result ≢ Err Stop.Unsaid → K.faults sink.new ≡ K.faults sink.old }
{
    match visit(rt, alloc, connection, sink) {
        Ok(()) => Ok(()),
        Err(Stop::Unsaid) => Err(Stop::Unsaid),
        Err(Stop::Unconnected(error)) => Err(Stop::Unconnected(error)),
        Err(Stop::Failed(error)) => Err(Stop::Failed(ended_by(rt, connection, error))),
    }
}

// How the session ended, where a call answered that it has; else what the call answered.
fn ended_by<R: Wait>(rt: &R, connection: &Connection, error: Error) -> Error {
    if *error.kind() != ErrorKind::InvalidConnectionState(ConnectionState::Error) {
        return error;
    }
    let Ok(end) = connection.thread_handle() else {
        return error;
    };
    match end.wait(rt, "the end of the session") {
        Ok(()) => error,
        Err(cause) => {
            drop(error);
            cause
        }
    }
}

// A connection, which opens by and by.
#[tactic(auto, using(crate::proofs::Asking::asks_for))]
fn connect<S: Spawner, R: Threads + Wait + Clock + Copy + Send + 'static>(
    rt: R,
    alloc: Global,
    uri: &str,
    runtime: &mut S,
) -> Result<Connection>
    ensures count { S.refusals runtime.old ≤ S.refusals runtime.new }
    ensures refused { ConnectsToText uri.now (S.refusals runtime.old) (S.refusals runtime.new) result }
    ensures started { OnOk result (Rose (S.loops runtime.old) (S.loops runtime.new)) }
    ensures asked { OnOk result (AsksFor (address_of_text uri.now) (S.asked runtime.new)) }
{
    let options = ConnectionProperties::new(alloc)?;
    Connection::connect_with_runtime(rt, alloc, uri, options, runtime)
}

// Waits until the connection is open, opens a channel, closes it and the connection, and says each.
fn visit<K: Sink, R: Wait>(
    rt: &R,
    alloc: Global,
    connection: &Connection,
    sink: &mut K,
) -> std::result::Result<(), Stop>
    ensures visits { Visits (K.held sink.old) (K.held sink.new) result }
    ensures cause { result ≡ Err Stop.Unsaid → FailedOnce (K.faults sink.old) (K.faults sink.new) }
    ensures kept { result ≢ Err Stop.Unsaid → K.faults sink.new ≡ K.faults sink.old }
{
    is_open(rt, connection)?;
    say(sink, b"connected\n")?;
    let (channel, mut pass, line) = open(rt, alloc, connection)?;
    say(sink, line.as_bytes())?;
    close(rt, alloc, connection, channel, &mut pass)?;
    say(sink, b"closed\n")
}

// Waits until the connection is open.
fn is_open<R: Wait>(rt: &R, connection: &Connection) -> Result<()> {
    connection.opened()?.wait(rt)
}

// Opens a channel. It gives what the channel is used by, and its line.
fn open<R: Wait>(rt: &R, alloc: Global, connection: &Connection) -> Result<(Channel, Pass, String)>
    ensures { IfOk result (λ opened. IsChannelLine (string_bytes opened.2)) }
{
    let mut pass = connection.pass(rt)?;
    let channel = connection.create_channel(rt, &mut pass)?.wait(rt)?;
    let line = channel_line(alloc, channel.id())?;
    Ok((channel, pass, line))
}

// The text of a close without an error.
fn ok_text(alloc: Global) -> Result<ShortString> {
    match ShortString::new(alloc, b"OK") {
        Ok(text) => Ok(text),
        Err(_) => Err(ErrorKind::NoMemory.into()),
    }
}

// Closes a channel, and then its connection.
fn close<R: Wait>(
    rt: &R,
    alloc: Global,
    connection: &Connection,
    channel: Channel,
    pass: &mut Pass,
) -> Result<()> {
    channel.close(rt, pass, SUCCESS, ok_text(alloc)?)?.wait(rt)?;
    connection
        .close(rt, pass, SUCCESS, ok_text(alloc)?)?
        .wait(rt)
}
