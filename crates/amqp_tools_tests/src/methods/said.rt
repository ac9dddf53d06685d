//! Methods that a client says.

use amqp_frame::RawMethod;
use amqp_methods::{
    BasicAckOptions, BasicConsumeOptions, BasicPublishOptions, BasicQosOptions,
    ConfirmSelectOptions, QueueDeclareOptions, basic_ack, basic_consume, basic_publish, basic_qos,
    confirm_select, queue_declare,
};
use amqp_types::{AMQPValue, FieldTable, LongString, ShortString};
use std::alloc::Global;
use std::test::Fail;

fn short(alloc: Global, text: &str) -> Result<ShortString, Fail> {
    Ok(ShortString::new(alloc, text.as_bytes())?)
}

// Whether a method has this class, this number and these arguments. It takes it.
fn is(method: RawMethod, class: u16, number: u16, arguments: &[u8]) -> bool {
    let same = method.class_id() == class
        && method.method_id() == number
        && method.args() == arguments;
    drop(method);
    same
}

// The arguments `x-max-length` = 1000 and `x-queue-type` = `quorum`.
fn some_arguments(alloc: Global) -> Result<FieldTable, Fail> {
    let mut table = FieldTable::new(alloc);
    drop(table.insert(short(alloc, "x-max-length")?, AMQPValue::LongInt(1000))?);
    let kind = AMQPValue::LongString(LongString::new(alloc, b"quorum")?);
    drop(table.insert(short(alloc, "x-queue-type")?, kind)?);
    Ok(table)
}

/// How rabbitmq-c spells these arguments.
const SOME_ARGUMENTS: &[u8] =
    b"\0\0\0\x2a\x0cx-max-lengthI\0\0\x03\xe8\x0cx-queue-typeS\0\0\0\x06quorum";

const NO_ARGUMENTS: &[u8] = b"\0\0\0\0";

// Octets in two parts.
fn joined(alloc: Global, first: &[u8], second: &[u8]) -> Result<Vec<u8>, Fail> {
    let mut octets = Vec::from_slice(alloc, first)?;
    octets.extend_from_slice(second)?;
    Ok(octets)
}

fn publishes(alloc: Global, mandatory: bool, immediate: bool, octets: &[u8]) -> Result<bool, Fail> {
    let options = BasicPublishOptions {
        mandatory,
        immediate,
    };
    let method = basic_publish(
        alloc,
        &short(alloc, "logs")?,
        &short(alloc, "a.b")?,
        options,
    )?;
    Ok(is(method, 60, 40, octets))
}

/// Whether a publish is mandatory and immediate, and its octets.
const PUBLISHED: &[(bool, bool, &[u8])] = &[
    (false, false, b"\0\0\x04logs\x03a.b\0"),
    (true, false, b"\0\0\x04logs\x03a.b\x01"),
    (false, true, b"\0\0\x04logs\x03a.b\x02"),
    (true, true, b"\0\0\x04logs\x03a.b\x03"),
];

// The place of the first row that is spelled otherwise.
fn first_published(alloc: Global) -> Result<Option<usize>, Fail> {
    for (place, (mandatory, immediate, octets)) in PUBLISHED.iter().enumerate() {
        if !publishes(alloc, *mandatory, *immediate, octets)? {
            return Ok(Some(place));
        }
    }
    Ok(None)
}

#[test]
fn publish_has_two_flags(rt: HostRuntime) -> Result<(), Fail> {
    assert!(rt; first_published(rt.alloc())? == None);
    Ok(())
}

// Whether basic.consume of the queue `jobs` to the consumer `c1` is spelled so, up to its arguments.
fn consumes(alloc: Global, flags: [bool; 4], octet: u8, some: bool) -> Result<bool, Fail> {
    let [no_local, no_ack, exclusive, nowait] = flags;
    let options = BasicConsumeOptions {
        no_local,
        no_ack,
        exclusive,
        nowait,
    };
    let (queue, tag) = (short(alloc, "jobs")?, short(alloc, "c1")?);
    let table = if some {
        some_arguments(alloc)?
    } else {
        FieldTable::new(alloc)
    };
    let method = basic_consume(alloc, &queue, &tag, options, &table)?;
    let arguments = if some { SOME_ARGUMENTS } else { NO_ARGUMENTS };
    let mut octets = Vec::from_slice(alloc, b"\0\0\x04jobs\x02c1")?;
    octets.push(octet)?;
    Ok(is(method, 60, 20, &joined(alloc, &octets, arguments)?))
}

/// The flags of a consume, the octet that they are, and whether there are arguments.
const CONSUMED: &[([bool; 4], u8, bool)] = &[
    ([true, true, true, true], 15, true),
    ([true, false, false, false], 1, false),
    ([false, true, false, false], 2, false),
    ([false, false, true, false], 4, false),
    ([false, false, false, true], 8, false),
];

// The place of the first row that is spelled otherwise.
fn first_consumed(alloc: Global) -> Result<Option<usize>, Fail> {
    for (place, (flags, octet, some)) in CONSUMED.iter().enumerate() {
        if !consumes(alloc, *flags, *octet, *some)? {
            return Ok(Some(place));
        }
    }
    Ok(None)
}

#[test]
fn consume_has_four_flags(rt: HostRuntime) -> Result<(), Fail> {
    assert!(rt; first_consumed(rt.alloc())? == None);
    Ok(())
}

// Whether queue.declare of the queue `jobs` is spelled so, up to its arguments.
fn declares(alloc: Global, flags: [bool; 5], octet: u8, some: bool) -> Result<bool, Fail> {
    let [passive, durable, exclusive, auto_delete, nowait] = flags;
    let options = QueueDeclareOptions {
        passive,
        durable,
        exclusive,
        auto_delete,
        nowait,
    };
    let queue = short(alloc, "jobs")?;
    let table = if some {
        some_arguments(alloc)?
    } else {
        FieldTable::new(alloc)
    };
    let method = queue_declare(alloc, &queue, options, &table)?;
    let arguments = if some { SOME_ARGUMENTS } else { NO_ARGUMENTS };
    let mut octets = Vec::from_slice(alloc, b"\0\0\x04jobs")?;
    octets.push(octet)?;
    Ok(is(method, 50, 10, &joined(alloc, &octets, arguments)?))
}

/// The flags of a declare, the octet that they are, and whether there are arguments.
const DECLARED: &[([bool; 5], u8, bool)] = &[
    ([true, true, true, true, true], 31, true),
    ([true, false, false, false, false], 1, false),
    ([false, true, false, false, false], 2, false),
    ([false, false, true, false, false], 4, false),
    ([false, false, false, true, false], 8, false),
    ([false, false, false, false, true], 16, false),
];

// The place of the first row that is spelled otherwise.
fn first_declared(alloc: Global) -> Result<Option<usize>, Fail> {
    for (place, (flags, octet, some)) in DECLARED.iter().enumerate() {
        if !declares(alloc, *flags, *octet, *some)? {
            return Ok(Some(place));
        }
    }
    Ok(None)
}

#[test]
fn declare_has_five_flags(rt: HostRuntime) -> Result<(), Fail> {
    assert!(rt; first_declared(rt.alloc())? == None);
    Ok(())
}

fn acks(alloc: Global, multiple: bool, octets: &[u8]) -> Result<bool, Fail> {
    let method = basic_ack(alloc, 0x0102_0304_0506_0708, BasicAckOptions { multiple })?;
    Ok(is(method, 60, 80, octets))
}

fn limits(alloc: Global, global: bool, octets: &[u8]) -> Result<bool, Fail> {
    let method = basic_qos(alloc, 300, BasicQosOptions { global })?;
    Ok(is(method, 60, 10, octets))
}

fn selects(alloc: Global, nowait: bool, octets: &[u8]) -> Result<bool, Fail> {
    let method = confirm_select(alloc, ConfirmSelectOptions { nowait })?;
    Ok(is(method, 85, 10, octets))
}

// Whether the three others are spelled so with this flag.
fn others_have(
    alloc: Global,
    flag: bool,
    ack: &[u8],
    qos: &[u8],
    select: &[u8],
) -> Result<bool, Fail> {
    Ok(acks(alloc, flag, ack)? && limits(alloc, flag, qos)? && selects(alloc, flag, select)?)
}

/// A flag, and the octets of the three that have one.
const OTHERS: &[(bool, &[u8], &[u8], &[u8])] = &[
    (
        false,
        b"\x01\x02\x03\x04\x05\x06\x07\x08\0",
        b"\0\0\0\0\x01\x2c\0",
        b"\0",
    ),
    (
        true,
        b"\x01\x02\x03\x04\x05\x06\x07\x08\x01",
        b"\0\0\0\0\x01\x2c\x01",
        b"\x01",
    ),
];

// The place of the first row that is spelled otherwise.
fn first_of_the_others(alloc: Global) -> Result<Option<usize>, Fail> {
    for (place, (flag, ack, qos, select)) in OTHERS.iter().enumerate() {
        if !others_have(alloc, *flag, ack, qos, select)? {
            return Ok(Some(place));
        }
    }
    Ok(None)
}

#[test]
fn others_have_one_flag(rt: HostRuntime) -> Result<(), Fail> {
    assert!(rt; first_of_the_others(rt.alloc())? == None);
    Ok(())
}
