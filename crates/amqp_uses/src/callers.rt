//! Connections as callers use them: from the first call to the end, on threads and in tasks.

ghost use Rattle.std.specs.Prelude.{◌≡◌, ◌≤◌, ◌+◌, OnOk};

use amqp_frame::RawMethod;
use amqp_session::{ConnectionProperties, ErrorKind, Event, Handed, Properties, Result};
use amqp_types::Payload;
use futures::executor::block_on;
use lapin_connection::{Channel, Connection, ConnectionBuilder, Pass, Pending, Spawner};
use std::alloc::{AllocGlobal, Global};
use std::io;
use std::random::RandomSource;
use std::sync::Wait;
use std::thread::Threads;
use std::time::Clock;

/// A connection to the address that a text is, once it is open.
pub fn connected<S: Spawner, R: Threads + Wait + Clock + Copy + Send + 'static>(
    rt: R,
    alloc: Global,
    uri: &str,
    runtime: &mut S,
) -> Result<Connection>
    ensures count { S.refusals runtime.old ≤ S.refusals runtime.new }
{
    let options = ConnectionProperties::new(alloc)?;
    let connection = Connection::connect_with_runtime(rt, alloc, uri, options, runtime)?;
    let opened = connection.opened()?;
    opened.wait(&rt)?;
    Ok(connection)
}

/// The same, for a connection that is to last: its journal begins anew once 64 KiB were entered.
pub fn lasting<S: Spawner + Drop, R: Threads + Wait + Clock + Copy + Send + 'static>(
    rt: R,
    alloc: Global,
    uri: String,
    runtime: S,
) -> Result<Connection> {
    let mut builder = ConnectionBuilder::new_with_runtime(runtime)
        .with_uri_str(uri)
        .settling_after(65_536);
    let connection = builder.connect(rt, alloc)?;
    drop(builder);
    let opened = connection.opened()?;
    opened.wait(&rt)?;
    Ok(connection)
}

/// Opens a channel, and waits until it is open.
pub fn channel<R: Wait>(rt: &R, connection: &Connection, pass: &mut Pass) -> Result<Channel>
    ensures made { OnOk result (pass.new.made ≡ pass.old.made + 1) }
{
    connection.create_channel(rt, pass)?.wait(rt)
}

/// Publishes a text to the queue `q` by the default exchange. What it gives waits until all of it was
/// given to the port.
pub fn publish<R: Wait>(
    rt: &R,
    alloc: Global,
    channel: &Channel,
    pass: &mut Pass,
    text: &str,
) -> Result<Pending<()>>
    ensures made { OnOk result (pass.new.made ≡ pass.old.made + 1) }
{
    // basic.publish: a reserved number, no exchange, the routing key `q`, and no bits
    let method = RawMethod::new(alloc, 60, 40, b"\x00\x00\x00\x01q\x00")?;
    let Some(properties) = Properties::new(Payload::new(alloc, &[0, 0])?) else {
        return Err(ErrorKind::NoMemory.into());
    };
    let body = Payload::new(alloc, text.as_bytes())?;
    channel.publish_raw(rt, pass, method, properties, body)
}

/// The same, once there is room for it: the octets of its frames are those of the text and some 70 more.
pub fn publish_with_room<R: Wait>(
    rt: &R,
    alloc: Global,
    channel: &Channel,
    pass: &mut Pass,
    text: &str,
) -> Result<Pending<()>>
    ensures made { OnOk result (pass.new.made ≡ pass.old.made + 1) }
{
    channel.wait_for_room(rt, (text.len() as u64).saturating_add(100))?;
    publish(rt, alloc, channel, pass, text)
}

/// Publishes one text and closes all, with whatever the connection ended. A channel that is dropped is
/// closed, and then the connection that is run.
pub fn publish_once<S: Spawner, R: Threads + Wait + Clock + Copy + Send + 'static>(
    rt: R,
    alloc: Global,
    uri: &str,
    runtime: &mut S,
) -> Result<()> {
    let connection = connected(rt, alloc, uri, runtime)?;
    let mut pass = connection.pass(&rt)?;
    let channel = channel(&rt, &connection, &mut pass)?;
    publish(&rt, alloc, &channel, &mut pass, "hello")?.wait(&rt)?;
    drop(channel);
    connection.run(&rt)
}

/// Opens a channel of its own, publishes a text and waits until it was given to the port. Each thread that
/// shares the connection calls it with a pass of its own.
pub fn publish_as<R: Wait>(
    rt: &R,
    alloc: Global,
    connection: &Connection,
    pass: &mut Pass,
    text: &str,
) -> Result<()> {
    let channel = channel(rt, connection, pass)?;
    publish(rt, alloc, &channel, pass, text)?.wait(rt)
}

/// The next frames of a channel, in a task that an executor polls; none once the channel is gone for good.
pub fn frames_in_a_task<R: Wait + RandomSource + AllocGlobal>(
    rt: &R,
    channel: &Channel,
) -> io::Result<Result<Vec<Handed>>> {
    block_on(rt, channel.next_frames(rt))
}

/// Tells of each time that the server wants nothing to be written, until the connection has ended: how
/// often that was.
pub fn count_blocking<R: Wait>(rt: &R, connection: &Connection, pass: &mut Pass) -> Result<u64>
    ensures made { OnOk result (pass.new.made ≡ pass.old.made + 1) }
{
    let listener = connection.events_listener(rt, pass)?;
    let mut times = 0u64;
    for _ in rt.forever() {
        match listener.wait(rt) {
            Some(Event::ConnectionBlocked(reason)) => {
                drop(reason);
                times = times.saturating_add(1);
            }
            Some(other) => drop(other),
            None => return Ok(times),
        }
    }
    unreachable!()
}

/// Publishes a text, and once more where the link was lost and the channel goes on over another.
pub fn publish_again<R: Wait>(
    rt: &R,
    alloc: Global,
    channel: &Channel,
    pass: &mut Pass,
    text: &str,
) -> Result<()> {
    match publish(rt, alloc, channel, pass, text)?.wait(rt) {
        Ok(()) => Ok(()),
        Err(error) => {
            channel.wait_for_recovery(error)?.wait(rt)?;
            publish(rt, alloc, channel, pass, text)?.wait(rt)
        }
    }
}
