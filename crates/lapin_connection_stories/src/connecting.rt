//! Connecting, where it is refused.

use amqp_session::{ConnectionProperties, ErrorKind, Result};
use amqp_uri::AMQPUri;
use lapin_connection::{Connection, ConnectionBuilder};
use lapin_connection_acts::acts::parts_of;
use lapin_connection_acts::gate::{Gate, GateSpawner, Refuses};
use std::alloc::{AllocError, Global};
use std::sync::Wait;
use std::thread::Threads;
use std::time::Clock;

// A spawner that refuses there, once.
fn spawner<R: Copy>(rt: R, alloc: Global, refuses: &str) -> Result<GateSpawner<R>> {
    let gate = Gate::new(alloc, "")?;
    let refuses = match refuses {
        "port" => Refuses::Port,
        "thread" => Refuses::Thread,
        _ => Refuses::Nowhere,
    };
    Ok(GateSpawner::new(rt, gate, refuses))
}

// How connecting failed. It takes the connection.
fn failed(alloc: Global, answer: Result<Connection>) -> std::result::Result<String, AllocError> {
    match answer {
        Ok(connection) => {
            drop(connection);
            "CONNECTED".to_string(alloc)
        }
        Err(error) => {
            let text = format!(in alloc; "{error}");
            drop(error);
            text
        }
    }
}

// Connects by a call, to the address that a text is, or to the local address.
fn connects<R: Threads + Wait + Clock + Copy + Send + Drop + 'static>(
    rt: R,
    alloc: Global,
    runtime: &mut GateSpawner<R>,
    call: &str,
    text: &str,
) -> Result<Connection> {
    if call == "text" {
        let options = ConnectionProperties::new(alloc)?;
        return Connection::connect_with_runtime(rt, alloc, text, options, runtime);
    }
    let uri = AMQPUri::local(alloc)?;
    let options = ConnectionProperties::new(alloc)?;
    match call {
        "connector" => Connection::connector(rt, alloc, uri, runtime, options),
        "address" => Connection::connect_with_runtime(rt, alloc, uri, options, runtime),
        _ => Connection::connect_uri_with_runtime(rt, alloc, uri, options, runtime),
    }
}

/// How a call that connects is refused, over a spawner that refuses there; and how often that did.
pub fn refused<R: Threads + Wait + Clock + Copy + Send + Drop + 'static>(
    rt: R,
    alloc: Global,
    line: &str,
) -> std::result::Result<String, AllocError> {
    let (call, rest) = parts_of(line);
    let (refuses, text) = parts_of(rest);
    let mut runtime = match spawner(rt, alloc, refuses) {
        Ok(runtime) => runtime,
        Err(error) => {
            drop(error);
            return Err(AllocError);
        }
    };
    let told = failed(alloc, connects(rt, alloc, &mut runtime, call, text));
    let count = runtime.refused();
    drop(runtime);
    let told = told?;
    format!(in alloc; "{told}, refused {count}")
}

// ---- builders

// A builder with the local address, and then the text of what is no address.
fn with_two<R>(
    alloc: Global,
    builder: ConnectionBuilder<GateSpawner<R>>,
) -> Result<ConnectionBuilder<GateSpawner<R>>>
where
    R: Drop,
{
    match (AMQPUri::local(alloc), String::from_str(alloc, "http://h")) {
        (Ok(uri), Ok(text)) => Ok(builder.with_uri(uri).with_uri_str(text)),
        (uri, text) => {
            drop(uri);
            drop(text);
            drop(builder);
            Err(ErrorKind::NoMemory.into())
        }
    }
}

// A builder with properties and the local address.
fn with_all<R>(
    alloc: Global,
    builder: ConnectionBuilder<GateSpawner<R>>,
) -> Result<ConnectionBuilder<GateSpawner<R>>>
where
    R: Drop,
{
    match (AMQPUri::local(alloc), ConnectionProperties::new(alloc)) {
        (Ok(uri), Ok(options)) => Ok(builder.with_properties(options).with_uri(uri)),
        (uri, options) => {
            drop(uri);
            drop(options);
            drop(builder);
            Err(ErrorKind::NoMemory.into())
        }
    }
}

// What a builder answers when it is asked twice.
fn answers<R: Threads + Wait + Clock + Copy + Send + Drop + 'static>(
    rt: R,
    alloc: Global,
    built: Result<ConnectionBuilder<GateSpawner<R>>>,
) -> std::result::Result<String, AllocError> {
    match built {
        Ok(mut builder) => {
            let once = failed(alloc, builder.connect(rt, alloc));
            let again = failed(alloc, builder.connect(rt, alloc));
            drop(builder);
            let once = once?;
            let again = again?;
            format!(in alloc; "{once}, {again}")
        }
        Err(error) => {
            drop(error);
            Err(AllocError)
        }
    }
}

/// What a builder answers when it is asked twice, over a spawner that refuses to start a loop: one that was
/// given nothing, two addresses, or all.
pub fn built<R: Threads + Wait + Clock + Copy + Send + Drop + 'static>(
    rt: R,
    alloc: Global,
    given: &str,
) -> std::result::Result<String, AllocError> {
    match spawner(rt, alloc, "thread") {
        Ok(runtime) => {
            let builder = ConnectionBuilder::new_with_runtime(runtime);
            match given {
                "two" => answers(rt, alloc, with_two(alloc, builder)),
                "all" => answers(rt, alloc, with_all(alloc, builder)),
                _ => answers(rt, alloc, Ok(builder)),
            }
        }
        Err(error) => {
            drop(error);
            Err(AllocError)
        }
    }
}
