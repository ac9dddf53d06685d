//! The callers of `amqp_uses` on a connection, each over a gate: `call NAME` says what it answers, and which frames
//! were heard.

use crate::story::Runs;
use amqp_pool::Pool;
use amqp_session::{ConnectionProperties, ErrorKind, Handed, Result};
use amqp_types::{NoMemory, ShortString};
use amqp_uses::{
    channel, connected, count_blocking, frames_in_a_task, lasting, publish, publish_again,
    publish_as, publish_from_pool, publish_once,
};
use lapin_connection::{Channel, Connection, ConnectionBuilder, Pass};
use lapin_connection_acts::gate::{Gate, GateSpawner, Refuses, gates};
use std::alloc::{AllocError, Global};
use std::io;
use std::sync::{Arc, Wait};

type Told = std::result::Result<String, AllocError>;

/// The address to which they connect.
const ADDRESS: &str = "amqp://localhost";

/// For so many milliseconds the server says nothing, while a caller begins to wait.
const MEANWHILE: u64 = 1500;

// What an answer says. It takes the answer.
fn said<T: Drop>(alloc: Global, answer: Result<T>) -> Told {
    match answer {
        Ok(value) => {
            drop(value);
            "ok".to_string(alloc)
        }
        Err(error) => {
            let text = format!(in alloc; "{error}");
            drop(error);
            text
        }
    }
}

// What a number says, or an error.
fn counted(alloc: Global, what: &str, answer: Result<u64>) -> Told {
    match answer {
        Ok(count) => format!(in alloc; "{count} {what}"),
        Err(error) => said::<u64>(alloc, Err(error)),
    }
}

// How many frames came. It takes them.
fn frames(alloc: Global, came: io::Result<Result<Vec<Handed>>>) -> Told {
    match came {
        Ok(Ok(frames)) => {
            let count = frames.len();
            drop(frames);
            format!(in alloc; "{count} frames")
        }
        Ok(Err(error)) => said::<u64>(alloc, Err(error)),
        Err(error) => {
            drop(error);
            Err(AllocError)
        }
    }
}

// ---- on a channel

// The same, with the frames that were heard since the last look.
fn with_heard<R: Wait>(rt: &R, alloc: Global, gate: &Gate, told: Told) -> Told {
    let told = told?;
    let heard = gate.look(rt, alloc)?;
    format!(in alloc; "{told}, heard{heard}")
}

// What a caller on a channel answers.
fn on_channel<R: Runs>(
    rt: &R,
    alloc: Global,
    gate: &Gate,
    pass: &mut Pass,
    channel: &Channel,
    name: &str,
) -> Told {
    match name {
        "publish" => match publish(rt, alloc, channel, pass, "hello") {
            Ok(pending) => said(alloc, pending.wait(rt)),
            Err(error) => said::<u64>(alloc, Err(error)),
        },
        "publish_again" => {
            gate.tick(rt, 5);
            gate.be_silent(MEANWHILE);
            gate.let_through(1);
            said(alloc, publish_again(rt, alloc, channel, pass, "hello"))
        }
        "frames_in_a_task" => {
            gate.be_silent(MEANWHILE);
            gate.let_through(1);
            frames(alloc, frames_in_a_task(rt, channel))
        }
        _ => format!(in alloc; "channel {}", channel.id()),
    }
}

// ---- on a connection

// Publishes from a pool of one channel.
fn from_pool<R: Runs>(
    rt: &R,
    alloc: Global,
    connection: &Connection,
    pass: &mut Pass,
) -> Result<()> {
    let queue = ShortString::new(alloc, b"q").map_err(|_| NoMemory)?;
    let mut pool = Pool::new(alloc, 1);
    let sent = publish_from_pool(rt, alloc, connection, &mut pool, pass, &queue, b"hello");
    drop(pool);
    drop(queue);
    sent
}

// What a caller on a connection answers.
fn on_connection<R: Runs>(
    rt: &R,
    alloc: Global,
    gate: &Gate,
    connection: &Connection,
    pass: &mut Pass,
    name: &str,
) -> Told {
    let told = match name {
        "connected" | "lasting" => "ok".to_string(alloc),
        "publish_as" => {
            let answer = publish_as(rt, alloc, connection, pass, "hello");
            gate.hears(rt, alloc, "channel_close_1")?;
            said(alloc, answer)
        }
        "publish_from_pool" => said(alloc, from_pool(rt, alloc, connection, pass)),
        "count_blocking" => {
            gate.be_silent(MEANWHILE);
            gate.let_through(1);
            counted(alloc, "blocks", count_blocking(rt, connection, pass))
        }
        _ => match channel(rt, connection, pass) {
            Ok(channel) => {
                let told = on_channel(rt, alloc, gate, pass, &channel, name);
                let told = with_heard(rt, alloc, gate, told);
                drop(channel);
                return told;
            }
            Err(error) => said::<u64>(alloc, Err(error)),
        },
    };
    with_heard(rt, alloc, gate, told)
}

// The same with a pass of its own. It takes the connection.
fn with_pass<R: Runs>(
    rt: &R,
    alloc: Global,
    gate: &Gate,
    connection: Result<Connection>,
    name: &str,
) -> Told {
    match connection {
        Ok(connection) => {
            let told = match connection.pass(rt) {
                Ok(mut pass) => on_connection(rt, alloc, gate, &connection, &mut pass, name),
                Err(error) => said::<u64>(alloc, Err(error)),
            };
            drop(connection);
            told
        }
        Err(error) => said::<u64>(alloc, Err(error)),
    }
}

// ---- connections

// Options of a connection that asks for another link at once.
fn recovering(alloc: Global) -> std::result::Result<ConnectionProperties, NoMemory> {
    let mut delays = Vec::new(alloc);
    delays.push(0)?;
    let options = ConnectionProperties::new(alloc)?.with_backoff(delays);
    options.enable_auto_recover(alloc)
}

// A connection that recovers, once it is open.
fn recovers<R: Runs>(rt: R, alloc: Global, spawner: GateSpawner<R>) -> Result<Connection> {
    let options = match recovering(alloc) {
        Ok(options) => options,
        Err(refused) => {
            drop(spawner);
            return Err(refused.into());
        }
    };
    let text = match String::from_str(alloc, ADDRESS) {
        Ok(text) => text,
        Err(_) => {
            drop(spawner);
            drop(options);
            return Err(ErrorKind::NoMemory.into());
        }
    };
    let mut builder = ConnectionBuilder::new_with_runtime(spawner)
        .with_uri_str(text)
        .with_properties(options);
    let connection = builder.connect(rt, alloc);
    drop(builder);
    let connection = connection?;
    connection.opened()?.wait(&rt)?;
    Ok(connection)
}

// The same, which lasts.
fn lasts<R: Runs>(rt: R, alloc: Global, spawner: GateSpawner<R>) -> Result<Connection> {
    match String::from_str(alloc, ADDRESS) {
        Ok(text) => lasting(rt, alloc, text, spawner),
        Err(_) => {
            drop(spawner);
            Err(ErrorKind::NoMemory.into())
        }
    }
}

// A connection over a gate, as a caller needs it.
fn connection_for<R: Runs>(
    rt: R,
    alloc: Global,
    mut spawner: GateSpawner<R>,
    name: &str,
) -> Result<Connection> {
    match name {
        "lasting" => lasts(rt, alloc, spawner),
        "publish_again" => recovers(rt, alloc, spawner),
        _ => {
            let connection = connected(rt, alloc, ADDRESS, &mut spawner);
            drop(spawner);
            connection
        }
    }
}

// What a caller of this name answers over a gate.
fn answers<R: Runs>(rt: R, alloc: Global, gate: &Gate, theirs: Arc<Gate>, name: &str) -> Told {
    let mut spawner = GateSpawner::new(rt, theirs, Refuses::Nowhere);
    if name == "publish_once" {
        let answer = publish_once(rt, alloc, ADDRESS, &mut spawner);
        drop(spawner);
        return with_heard(&rt, alloc, gate, said(alloc, answer));
    }
    let connection = connection_for(rt, alloc, spawner, name);
    with_pass(&rt, alloc, gate, connection, name)
}

/// What a caller of this name answers, and which frames were heard.
pub fn told<R: Runs>(rt: R, alloc: Global, script: &str, name: &str) -> Told {
    let Ok((gate, theirs)) = gates(alloc, script) else {
        return Err(AllocError);
    };
    let told = answers(rt, alloc, &gate, theirs, name);
    gate.shut(&rt);
    drop(gate);
    told
}
