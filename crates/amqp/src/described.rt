//! The properties of the messages that are published.

use crate::given::number;
use amqp_client::Stop;
use amqp_methods::{BasicProperties, headers_of, read_properties};
use amqp_session::{ErrorKind, Properties};
use amqp_tools::{Given, Opt, has, value_of};
use amqp_types::{AMQPValue, FieldTable, LongString, Payload, ShortString, Text, TypeFault};
use std::alloc::Global;

/// How many octets may stand before the number of a message in its id: a number has 20 digits at most, and an id 255.
const MOST_BEFORE: usize = 235;

/// The properties of messages: the same of all, or beside them an id of each.
#[derive(Drop)]
pub struct Described {
    // those that all have, as they stand in a content header
    common: Payload,
    // what stands before the number of a message in its id, where each has one
    prefix: Option<Text>,
}

impl Described {
    /// Those of the message with this number.
    pub fn of(&self, alloc: Global, message: u64) -> Result<Properties, Stop> {
        let octets = match &self.prefix {
            None => self.common.try_clone(alloc)?,
            Some(prefix) => self.with_id(alloc, prefix, message)?,
        };
        match Properties::new(octets) {
            Some(properties) => Ok(properties),
            None => Err(Stop::Failed(ErrorKind::NoMemory.into())),
        }
    }

    // The common ones, and an id.
    fn with_id(&self, alloc: Global, prefix: &Text, message: u64) -> Result<Payload, Stop> {
        let before = prefix.as_str();
        let Ok(id) = format!(in alloc; "{before}{message}") else {
            return Err(Stop::Failed(ErrorKind::NoMemory.into()));
        };
        let Some(common) = read_properties(self.common.as_bytes()) else {
            return Err(Stop::Unknown);
        };
        let properties = BasicProperties {
            message_id: Some(id.as_bytes()),
            ..common
        };
        match properties.spelled(alloc)? {
            Some(octets) => Ok(Payload::from_vec(octets)),
            None => Err(Stop::Unknown),
        }
    }
}

// What a fault of a value on the command line is.
fn fault(why: TypeFault) -> Stop {
    match why {
        TypeFault::NoMemory => Stop::Failed(ErrorKind::NoMemory.into()),
        TypeFault::TooLong(_) => Stop::Unknown,
    }
}

// Puts a header, which is a name and a value with a sign of equality between them, into a table.
fn put_header(alloc: Global, word: &str, table: &mut FieldTable) -> Result<(), Stop> {
    let octets = word.as_bytes();
    let Some(place) = octets.iter().position(|o| *o == b'=') else {
        return Err(Stop::Unknown);
    };
    let (name, sign_and_value) = octets.split_at(place);
    let value = match sign_and_value {
        [_sign, value @ ..] => value,
        [] => sign_and_value,
    };
    let value = match LongString::new(alloc, value) {
        Ok(value) => AMQPValue::LongString(value),
        Err(why) => return Err(fault(why)),
    };
    match ShortString::new(alloc, name) {
        Ok(name) => match table.insert(name, value) {
            Ok(before) => {
                drop(before);
                Ok(())
            }
            Err(_) => Err(Stop::Failed(ErrorKind::NoMemory.into())),
        },
        Err(why) => {
            drop(value);
            Err(fault(why))
        }
    }
}

// The octets of the headers that are given, where there is one.
fn headers(alloc: Global, given: &[Given<'_>]) -> Result<Option<Vec<u8>>, Stop> {
    if !has(given, Opt::Header) {
        return Ok(None);
    }
    let mut table = FieldTable::new(alloc);
    for one in given {
        if one.option == Opt::Header {
            put_header(alloc, one.value, &mut table)?;
        }
    }
    match headers_of(alloc, &table) {
        Ok(octets) => Ok(Some(octets)),
        Err(why) => Err(fault(why)),
    }
}

// The octets of the text that an option says.
fn text<'a>(given: &[Given<'a>], option: Opt) -> Option<&'a [u8]> {
    match value_of(given, option) {
        Some(word) => Some(word.as_bytes()),
        None => None,
    }
}

// The priority that is given, where one is.
fn priority(given: &[Given<'_>]) -> Result<Option<u8>, Stop> {
    match number(given, Opt::Priority)? {
        None => Ok(None),
        Some(count) if count < 256 => Ok(Some(count as u8)),
        Some(_) => Err(Stop::Unknown),
    }
}

// The properties that all messages have, as they stand in a content header.
fn properties(alloc: Global, given: &[Given<'_>]) -> Result<Payload, Stop> {
    let _is_number = number(given, Opt::Expiration)?;
    let priority = priority(given)?;
    let table = headers(alloc, given)?;
    let headers = match &table {
        Some(octets) => Some(octets.as_slice()),
        None => None,
    };
    let properties = BasicProperties {
        content_type: text(given, Opt::ContentType),
        headers,
        delivery_mode: Some(if has(given, Opt::Transient) { 1 } else { 2 }),
        priority,
        correlation_id: text(given, Opt::CorrelationId),
        reply_to: text(given, Opt::ReplyTo),
        expiration: text(given, Opt::Expiration),
        message_id: text(given, Opt::MessageId),
        ..BasicProperties::new()
    };
    match properties.spelled(alloc)? {
        Some(octets) => Ok(Payload::from_vec(octets)),
        None => Err(Stop::Unknown),
    }
}

// What stands before the number of a message in its id, where each has one.
fn prefix(alloc: Global, given: &[Given<'_>]) -> Result<Option<Text>, Stop> {
    match value_of(given, Opt::MessageIds) {
        None => Ok(None),
        Some(_) if has(given, Opt::MessageId) => Err(Stop::Unknown),
        Some(word) if word.len() > MOST_BEFORE => Err(Stop::Unknown),
        Some(word) => Ok(Some(Text::new(alloc, word)?)),
    }
}

/// The properties that options say.
pub fn described_by(alloc: Global, given: &[Given<'_>]) -> Result<Described, Stop> {
    let prefix = prefix(alloc, given)?;
    Ok(Described {
        common: properties(alloc, given)?,
        prefix,
    })
}
