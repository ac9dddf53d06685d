//! What is wished behind the `?`.

use crate::uri::support::query;
use amqp_types::Word;
use amqp_uri::{AMQPQuery, SASLMechanism, UriFault};
use std::alloc::Global;

/// Addresses, and what they wish: the greatest frame, the greatest channel, the seconds of a
/// heartbeat, and the mechanism.
type Wishes = (Option<u32>, Option<u16>, Option<u16>, Option<SASLMechanism>);

const NOTHING: Wishes = (None, None, None, None);

fn is_wished(alloc: Global, text: &str, wishes: Wishes) -> bool {
    let (frame_max, channel_max, heartbeat, auth_mechanism) = wishes;
    query(alloc, text)
        == Ok(AMQPQuery {
            frame_max,
            channel_max,
            heartbeat,
            auth_mechanism,
        })
}

// The first text that wishes something else.
fn first_other_wish(alloc: Global, rows: &[(&'static str, Wishes)]) -> Option<&'static str> {
    for (text, wishes) in rows {
        if !is_wished(alloc, text, *wishes) {
            return Some(*text);
        }
    }
    None
}

/// Pairs stand between `&`, and are parted at their first `=`; other names say nothing, and of equal
/// names the last counts.
const PAIRS: &[(&str, Wishes)] = &[
    ("amqp://h", NOTHING),
    ("amqp://h?", NOTHING),
    ("amqp://h?&&=&=1&frame%20max=x&Heartbeat=x", NOTHING),
    ("amqp://h?heartbeat=60", (None, None, Some(60), None)),
    ("amqp://h/vh?heartbeat=60#x", (None, None, Some(60), None)),
    ("amqp:vh?heartbeat=60", (None, None, Some(60), None)),
    ("amqp://h?heart%62eat=%36%30", (None, None, Some(60), None)),
    ("amqp://h?heartbeat=00060", (None, None, Some(60), None)),
    ("amqp://h?heartbeat=65535", (None, None, Some(65535), None)),
    (
        "amqp://h?heartbeat=1&heartbeat=2",
        (None, None, Some(2), None),
    ),
    (
        "amqp://h?heartbeat=0&x=y&channel_max=65535",
        (None, Some(65535), Some(0), None),
    ),
    (
        "amqp://h?auth_mechanism=external&frame_max=131072&channel_max=7&heartbeat=5",
        (
            Some(131_072),
            Some(7),
            Some(5),
            Some(SASLMechanism::External),
        ),
    ),
];

/// Small frames are not wished.
const FRAMES: &[(&str, Wishes)] = &[
    ("amqp://h?frame_max=0", (Some(0), None, None, None)),
    ("amqp://h?frame_max=1", (Some(4096), None, None, None)),
    ("amqp://h?frame_max=8", (Some(4096), None, None, None)),
    ("amqp://h?frame_max=4095", (Some(4096), None, None, None)),
    ("amqp://h?frame_max=4096", (Some(4096), None, None, None)),
    ("amqp://h?frame_max=4097", (Some(4097), None, None, None)),
    (
        "amqp://h?frame_max=4294967295",
        (Some(4_294_967_295), None, None, None),
    ),
];

const MECHANISMS: &[(&str, SASLMechanism)] = &[
    ("amqp://h?auth_mechanism=plain", SASLMechanism::Plain),
    ("amqp://h?auth_mechanism=PLAIN", SASLMechanism::Plain),
    ("amqp://h?auth_mechanism=%50lain", SASLMechanism::Plain),
    ("amqp://h?auth_mechanism=AMQPlain", SASLMechanism::AMQPlain),
    ("amqp://h?auth_mechanism=External", SASLMechanism::External),
    (
        "amqp://h?auth_mechanism=anonymous",
        SASLMechanism::Anonymous,
    ),
    (
        "amqp://h?auth_mechanism=rabbit-cr-demo",
        SASLMechanism::RabbitCrDemo,
    ),
    (
        "amqp://h?auth_mechanism=plain&auth_mechanism=Rabbit-CR-Demo",
        SASLMechanism::RabbitCrDemo,
    ),
];

// The first text that names another mechanism.
fn first_other_mechanism(alloc: Global) -> Option<&'static str> {
    for (text, mechanism) in MECHANISMS {
        if !is_wished(alloc, text, (None, None, None, Some(*mechanism))) {
            return Some(*text);
        }
    }
    None
}

#[test]
fn pairs_are_wishes(rt: HostRuntime) {
    assert_eq!(rt; first_other_wish(rt.alloc(), PAIRS), None);
    assert_eq!(rt; first_other_wish(rt.alloc(), FRAMES), None);
    assert_eq!(rt; first_other_mechanism(rt.alloc()), None);
}

/// A value that is refused, and why; the first such pair decides.
const REFUSED: &[(&str, UriFault)] = &[
    (
        "amqp://h?heartbeat=65536",
        UriFault::BadNumber(Word::Heartbeat),
    ),
    (
        "amqp://h?channel_max=65536",
        UriFault::BadNumber(Word::ChannelMax),
    ),
    (
        "amqp://h?frame_max=4294967296",
        UriFault::BadNumber(Word::FrameMax),
    ),
    (
        "amqp://h?frame_max=99999999999999999999",
        UriFault::BadNumber(Word::FrameMax),
    ),
    (
        "amqp://h?heartbeat=60%00",
        UriFault::BadNumber(Word::Heartbeat),
    ),
    ("amqp://h?auth_mechanism=plain%00", UriFault::BadMechanism),
    ("amqp://h?heartbeat", UriFault::BadNumber(Word::Heartbeat)),
    ("amqp://h?heartbeat=", UriFault::BadNumber(Word::Heartbeat)),
    (
        "amqp://h?heartbeat=+5",
        UriFault::BadNumber(Word::Heartbeat),
    ),
    (
        "amqp://h?heartbeat=%2B5",
        UriFault::BadNumber(Word::Heartbeat),
    ),
    (
        "amqp://h?heartbeat=-5",
        UriFault::BadNumber(Word::Heartbeat),
    ),
    (
        "amqp://h?heartbeat=5%20",
        UriFault::BadNumber(Word::Heartbeat),
    ),
    (
        "amqp://h?heartbeat=%D9%A1",
        UriFault::BadNumber(Word::Heartbeat),
    ),
    (
        "amqp://h?heartbeat=5=5",
        UriFault::BadNumber(Word::Heartbeat),
    ),
    (
        "amqp://h?heartbeat=0x5",
        UriFault::BadNumber(Word::Heartbeat),
    ),
    (
        "amqp://h?heartbeat=x&heartbeat=5",
        UriFault::BadNumber(Word::Heartbeat),
    ),
    (
        "amqp://h?heartbeat=x&frame_max=x",
        UriFault::BadNumber(Word::Heartbeat),
    ),
    (
        "amqp://h?frame_max=x&heartbeat=x",
        UriFault::BadNumber(Word::FrameMax),
    ),
    ("amqp://h?auth_mechanism=x", UriFault::BadMechanism),
    ("amqp://h?auth_mechanism", UriFault::BadMechanism),
    ("amqp://h?auth_mechanism=plain+", UriFault::BadMechanism),
    ("amqp://h?auth_mechanism=pla%C4%B1n", UriFault::BadMechanism),
    (
        "amqp://h?auth_mechanism=x&heartbeat=x",
        UriFault::BadMechanism,
    ),
];

// The first text that has another fault.
fn first_other_fault(alloc: Global) -> Option<&'static str> {
    for (text, fault) in REFUSED {
        if query(alloc, text) != Err(*fault) {
            return Some(*text);
        }
    }
    None
}

#[test]
fn values_are_refused(rt: HostRuntime) {
    assert_eq!(rt; first_other_fault(rt.alloc()), None);
}
