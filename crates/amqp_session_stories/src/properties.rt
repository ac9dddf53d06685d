//! What the user of a session says of the client, and of how it recovers.

use crate::words::number_of;
use amqp_session::ConnectionProperties;
use amqp_types::{LongString, NoMemory, ShortString};
use std::alloc::Global;

/// What the user of a session at this place says. One that recovers does so by a delay of 50 milliseconds, and then
/// one of 100.
pub fn properties_of(
    alloc: Global,
    place: &str,
    last: &str,
) -> Result<ConnectionProperties, NoMemory> {
    match place {
        "recovering" | "recovering_with_channel" => {
            with_delays(alloc, &[50, 100])?.enable_auto_recover(alloc)
        }
        "recovering_by_default" => ConnectionProperties::new(alloc)?.enable_auto_recover(alloc),
        "patient" => patient(alloc),
        "limited_with_channel" => {
            let options = ConnectionProperties::new(alloc)?;
            Ok(options.with_outbox_limit(number_of(last).unwrap_or(0)))
        }
        "named" => named(alloc),
        "half_named" => with_property(alloc, ConnectionProperties::new(alloc)?, "product", b"mine"),
        "noted" => noted(alloc, last),
        _ => ConnectionProperties::new(alloc),
    }
}

// Properties with these delays.
fn with_delays(alloc: Global, delays: &[u64]) -> Result<ConnectionProperties, NoMemory> {
    let delays = Vec::from_slice(alloc, delays)?;
    match ConnectionProperties::new(alloc) {
        Ok(options) => Ok(options.with_backoff(delays)),
        Err(e) => {
            drop(delays);
            Err(e)
        }
    }
}

// Properties with a delay of 50 milliseconds, and then one of 100.
fn patient(alloc: Global) -> Result<ConnectionProperties, NoMemory> {
    let options = with_delays(alloc, &[50])?;
    Ok(options.configure_backoff(|given| {
        let mut delays = given;
        // Where memory is refused, there is one delay, and the story fails.
        let _ = delays.push(100);
        delays
    }))
}

// ---- what the client says of itself

// A name and a value.
fn pair(alloc: Global, name: &str, value: &[u8]) -> Result<(ShortString, LongString), NoMemory> {
    let Ok(name) = ShortString::new(alloc, name.as_bytes()) else {
        return Err(NoMemory);
    };
    match LongString::new(alloc, value) {
        Ok(value) => Ok((name, value)),
        Err(_) => {
            drop(name);
            Err(NoMemory)
        }
    }
}

// One property more.
fn with_property(
    alloc: Global,
    options: ConnectionProperties,
    name: &str,
    value: &[u8],
) -> Result<ConnectionProperties, NoMemory> {
    match pair(alloc, name, value) {
        Ok((name, value)) => options.with_client_property(name, value),
        Err(e) => {
            drop(options);
            Err(e)
        }
    }
}

// Another locale.
fn with_locale(
    alloc: Global,
    options: ConnectionProperties,
) -> Result<ConnectionProperties, NoMemory> {
    match ShortString::new(alloc, b"de_DE") {
        Ok(locale) => Ok(options.with_locale(locale)),
        Err(_) => {
            drop(options);
            Err(NoMemory)
        }
    }
}

// A name of the connection.
fn with_name(
    alloc: Global,
    options: ConnectionProperties,
) -> Result<ConnectionProperties, NoMemory> {
    match LongString::new(alloc, b"orders") {
        Ok(name) => options.with_connection_name(alloc, name),
        Err(_) => {
            drop(options);
            Err(NoMemory)
        }
    }
}

// All that a user may say, with a provider that is handed out again.
fn named(alloc: Global) -> Result<ConnectionProperties, NoMemory> {
    let options = with_locale(alloc, ConnectionProperties::new(alloc)?)?;
    let options = with_property(alloc, options, "product", b"mine")?;
    let options = with_property(alloc, options, "version", b"1")?;
    let options = with_property(alloc, options, "platform", b"c")?;
    let options = with_property(alloc, options, "capabilities", b"none")?;
    let (options, handed) = with_name(alloc, options)?
        .with_auth_provider(7u64)
        .into_parts();
    drop(handed);
    Ok(options)
}

// A property of so many octets.
fn noted(alloc: Global, len: &str) -> Result<ConnectionProperties, NoMemory> {
    let Ok(len) = len.parse::<usize>() else {
        return Err(NoMemory);
    };
    let value = vec![in alloc; b'x'; len]?;
    with_property(alloc, ConnectionProperties::new(alloc)?, "notes", &value)
}
