//! A connection with one open channel.

use crate::port::{Counts, TakingSpawner};
use amqp_session::Result;
use amqp_types::NoMemory;
use lapin_connection::{Channel, Connection, ConnectionBuilder, Pass};
use std::alloc::Global;
use std::sync::atomic::Ordering;
use std::sync::{Arc, Wait};
use std::thread::Threads;
use std::time::Clock;

/// A connection, a channel of it and the pass that opened it, and what its port counts.
#[derive(Drop)]
pub struct Live {
    pub connection: Connection,
    pub channel: Channel,
    pub pass: Pass,
    pub counts: Arc<Counts>,
}

// What a port counts, for its owner and for the port.
fn counting(alloc: Global) -> std::result::Result<(Arc<Counts>, Arc<Counts>), NoMemory> {
    let Ok(counts) = Arc::new(alloc, Counts::new()) else {
        return Err(NoMemory);
    };
    match Arc::try_clone(&counts) {
        Ok(theirs) => Ok((counts, theirs)),
        Err(_) => Err(NoMemory),
    }
}

fn address(alloc: Global) -> std::result::Result<String, NoMemory> {
    match String::from_str(alloc, "amqp://localhost") {
        Ok(text) => Ok(text),
        Err(_) => Err(NoMemory),
    }
}

/// A connection as a builder makes it, whose journal begins anew by itself, and a channel of it.
pub fn open_live<R: Threads + Wait + Clock + Copy + Send + Drop + 'static>(
    rt: R,
    alloc: Global,
    pauses: bool,
) -> Result<Live> {
    let (counts, theirs) = counting(alloc)?;
    let runtime = TakingSpawner::new(rt, theirs, pauses);
    let uri = address(alloc)?;
    let mut builder = ConnectionBuilder::new_with_runtime(runtime).with_uri_str(uri);
    let connection = builder.connect(rt, alloc)?;
    drop(builder);
    connection.opened()?.wait(&rt)?;
    let mut pass = connection.pass(&rt)?;
    let opening = connection.create_channel(&rt, &mut pass)?;
    counts.asked.store(1, Ordering::SeqCst);
    let channel = opening.wait(&rt)?;
    Ok(Live {
        connection,
        channel,
        pass,
        counts,
    })
}
