//! Publishes over a socket of the system, to a server on this machine.

use amqp_frame::RawMethod;
use amqp_session::{ErrorKind, Properties, Result};
use amqp_types::Payload;
use lapin_connection::{Channel, Connection, ConnectionBuilder, Pass, Pending, Spawner};
use std::alloc::Global;
use std::collections::VecDeque;
use std::sync::Wait;
use std::thread::Threads;
use std::time::Clock;

/// So many octets may be under way before the caller waits.
const UNDER_WAY: u64 = 4 << 20;

/// So many messages of a size, in batches: while a batch is told, the one before it is on its way; or, where that is
/// not 0, with so many under way. After so many octets the journal begins anew; 0 where it never does.
#[derive(Clone, Copy)]
pub struct Batches {
    pub size: u32,
    pub count: u64,
    pub settles_after: u64,
    pub under_way: u64,
}

impl Batches {
    // How many messages a batch has.
    fn each(self) -> u64 {
        (UNDER_WAY / (self.size as u64 + 64)).clamp(1, 1000)
    }
}

// A channel of a connection, and who publishes on it.
#[derive(Drop)]
struct Publisher {
    channel: Channel,
    pass: Pass,
}

// Publishes one message, and gives what waits until it was written.
fn publish<R: Wait>(rt: &R, alloc: Global, to: &mut Publisher, body: &[u8]) -> Result<Pending<()>> {
    let method = RawMethod::new(alloc, 60, 40, b"\0\0\0\x01q\0")?;
    let Some(properties) = Properties::new(Payload::new(alloc, &[0, 0])?) else {
        return Err(ErrorKind::NoMemory.into());
    };
    let body = Payload::new(alloc, body)?;
    to.channel
        .publish_raw(rt, &mut to.pass, method, properties, body)
}

// Publishes so many messages, and gives what waits until the last was written.
fn publish_some<R: Wait>(
    rt: &R,
    alloc: Global,
    to: &mut Publisher,
    body: &[u8],
    count: u64,
) -> Result<Pending<()>> {
    let mut last = publish(rt, alloc, to, body)?;
    for _ in 1..count {
        last = publish(rt, alloc, to, body)?;
    }
    Ok(last)
}

// Publishes batch by batch: how many messages were written.
fn publish_all<R: Wait>(
    rt: &R,
    alloc: Global,
    to: &mut Publisher,
    body: &[u8],
    batches: Batches,
) -> Result<u64> {
    let each = batches.each();
    let mut written = 0u64;
    let mut before = publish_some(rt, alloc, to, body, each)?;
    for _ in 1..batches.count.checked_div(each).unwrap_or(0) {
        let last = publish_some(rt, alloc, to, body, each)?;
        before.wait(rt)?;
        written = written.saturating_add(each);
        before = last;
    }
    before.wait(rt)?;
    Ok(written.saturating_add(each))
}

// Publishes one by one, with so many under way: how many messages were written.
fn publish_each<R: Wait>(
    rt: &R,
    alloc: Global,
    to: &mut Publisher,
    body: &[u8],
    batches: Batches,
) -> Result<u64> {
    let mut written = 0u64;
    let mut window = VecDeque::new(alloc);
    for _ in 0..batches.count {
        if window.len() as u64 >= batches.under_way {
            written = written.saturating_add(wait_for_first(rt, &mut window)?);
        }
        let last = publish(rt, alloc, to, body)?;
        if window.push_back(last).is_err() {
            return Err(ErrorKind::NoMemory.into());
        }
    }
    for _ in 0..window.len() {
        written = written.saturating_add(wait_for_first(rt, &mut window)?);
    }
    Ok(written)
}

// Waits for the first of these.
fn wait_for_first<R: Wait>(rt: &R, window: &mut VecDeque<Pending<()>>) -> Result<u64> {
    match window.pop_front() {
        Some(first) => {
            first.wait(rt)?;
            Ok(1)
        }
        None => Ok(0),
    }
}

// Publishes as it is told.
fn publish_so<R: Wait>(
    rt: &R,
    alloc: Global,
    to: &mut Publisher,
    body: &[u8],
    batches: Batches,
) -> Result<u64> {
    if batches.under_way > 0 {
        return publish_each(rt, alloc, to, body, batches);
    }
    publish_all(rt, alloc, to, body, batches)
}

// Opens a channel on a connection.
fn open_publisher<R: Wait>(rt: &R, connection: &Connection) -> Result<Publisher> {
    connection.opened()?.wait(rt)?;
    let mut pass = connection.pass(rt)?;
    let channel = connection.create_channel(rt, &mut pass)?.wait(rt)?;
    Ok(Publisher { channel, pass })
}

// Connects by a runtime, which it uses up.
fn connected<S: Spawner + Drop, R: Threads + Wait + Clock + Copy + Send + 'static>(
    rt: R,
    alloc: Global,
    address: String,
    runtime: S,
    settles_after: u64,
) -> Result<Connection> {
    let builder = ConnectionBuilder::new_with_runtime(runtime).with_uri_str(address);
    let mut builder = match settles_after {
        0 => builder.keeping_the_journal(),
        octets => builder.settling_after(octets),
    };
    let connection = builder.connect(rt, alloc);
    drop(builder);
    connection
}

fn loopback_by<S: Spawner + Drop, R: Threads + Wait + Clock + Copy + Send + 'static>(
    rt: R,
    alloc: Global,
    batches: Batches,
    address: String,
    runtime: S,
    body: &[u8],
) -> Result<u64> {
    let connection = connected(rt, alloc, address, runtime, batches.settles_after)?;
    let mut to = open_publisher(&rt, &connection)?;
    let written = publish_so(&rt, alloc, &mut to, body, batches);
    drop(to);
    drop(connection);
    written
}

/// Publishes messages of a size to the server of an address, as many as whole batches have. How many were
/// written; nothing where memory was refused or the connection ended.
pub fn loopback<S: Spawner + Drop, R: Threads + Wait + Clock + Copy + Send + 'static>(
    rt: R,
    alloc: Global,
    batches: Batches,
    address: String,
    runtime: S,
) -> Option<u64> {
    let Ok(body) = vec![in alloc; b'x'; batches.size as usize] else {
        return None;
    };
    loopback_by(rt, alloc, batches, address, runtime, &body).ok()
}
