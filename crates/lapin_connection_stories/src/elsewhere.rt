//! Connections to other addresses, and with a provider that is handed over.

use amqp_session::{ConnectionProperties, DefaultAuthProvider, HandedProvider, Result};
use amqp_types::NoMemory;
use amqp_uri::AMQPUri;
use lapin_connection::{Connection, error_of_address};
use lapin_connection_acts::gate::GateSpawner;
use std::alloc::Global;
use std::sync::Wait;
use std::thread::Threads;
use std::time::Clock;

/// A host with a port, a user by a mechanism of its own, and a virtual host.
const BY_MECHANISM: &str = "amqp://bob:hunter@h:5673/v?auth_mechanism=rabbit-cr-demo";

/// The same by PLAIN.
const PLAIN: &str = "amqp://bob:hunter@h:5673/v";

/// The address of another user.
const ALICE: &str = "amqp://alice:wonder@g";

/// A connection to a host with a port, for a user by a mechanism of its own, at a virtual host.
pub fn by_mechanism<R: Threads + Wait + Clock + Copy + Send + Drop + 'static>(
    rt: R,
    alloc: Global,
    mut spawner: GateSpawner<R>,
) -> Result<Connection> {
    let connection = match ConnectionProperties::new(alloc) {
        Ok(options) => {
            Connection::connect_with_runtime(rt, alloc, BY_MECHANISM, options, &mut spawner)
        }
        Err(refused) => Err(refused.into()),
    };
    drop(spawner);
    connection
}

// Properties with the provider of another address.
fn handed(
    alloc: Global,
    uri: &AMQPUri,
) -> std::result::Result<ConnectionProperties<HandedProvider<DefaultAuthProvider>>, NoMemory> {
    let options = ConnectionProperties::new(alloc)?;
    match DefaultAuthProvider::new(alloc, uri) {
        Ok(provider) => Ok(options.with_auth_provider(provider)),
        Err(refused) => {
            drop(options);
            Err(refused)
        }
    }
}

// The address of a text.
fn address(alloc: Global, text: &str) -> Result<AMQPUri> {
    match AMQPUri::parse(alloc, text) {
        Ok(uri) => Ok(uri),
        Err(fault) => Err(error_of_address(fault).into()),
    }
}

// Properties with the provider of another user, and the address of the first.
fn parts(
    alloc: Global,
) -> Result<
    (
        AMQPUri,
        ConnectionProperties<HandedProvider<DefaultAuthProvider>>,
    ),
> {
    let other = address(alloc, ALICE)?;
    let uri = address(alloc, PLAIN)?;
    let options = handed(alloc, &other);
    drop(other);
    match options {
        Ok(options) => Ok((uri, options)),
        Err(refused) => {
            drop(uri);
            Err(refused.into())
        }
    }
}

/// A connection for that user by a `connector`, where the provider of another one is handed over.
pub fn by_another<R: Threads + Wait + Clock + Copy + Send + Drop + 'static>(
    rt: R,
    alloc: Global,
    mut spawner: GateSpawner<R>,
) -> Result<Connection> {
    let connection = match parts(alloc) {
        Ok((uri, options)) => Connection::connector(rt, alloc, uri, &mut spawner, options),
        Err(error) => Err(error),
    };
    drop(spawner);
    connection
}
