//! The properties of a message, as rabbitmq-c spells them (`amqp_encode_properties`), and the methods of `amqp publish`
//! and `amqp consume` that were spelled by it last.

use amqp_methods::{
    BasicProperties, basic_cancel, header_named, headers_of, read_properties, read_return,
};
use amqp_types::{AMQPValue, FieldTable, LongString, NoMemory, ShortString};
use std::alloc::Global;
use std::test::Fail;

/// The headers `a` = `xyz` and `n` = 7, without the octets of their length.
const HEADERS: &[u8] = b"\x01aS\0\0\0\x03xyz\x01nI\0\0\0\x07";

/// One of the fourteen, or none, or all.
type Spelled = (&'static str, &'static [u8]);

/// What rabbitmq-c makes of these values.
const ROWS: [Spelled; 16] = [
    ("none", b"\x00\x00"),
    (
        "all",
        b"\xff\xfc\x0a\x74\x65\x78\x74\x2f\x70\x6c\x61\x69\x6e\x04\x67\x7a\x69\x70\x00\x00\x00\x11\x01\x61\
                \x53\x00\x00\x00\x03\x78\x79\x7a\x01\x6e\x49\x00\x00\x00\x07\x02\x09\x02\x63\x31\x07\x72\x65\x70\
                \x6c\x69\x65\x73\x05\x36\x30\x30\x30\x30\x02\x6d\x31\x01\x02\x03\x04\x05\x06\x07\x08\x04\x6b\x69\
                \x6e\x64\x05\x67\x75\x65\x73\x74\x03\x61\x70\x70\x02\x63\x6c",
    ),
    (
        "content_type",
        b"\x80\x00\x0a\x74\x65\x78\x74\x2f\x70\x6c\x61\x69\x6e",
    ),
    ("content_encoding", b"\x40\x00\x04\x67\x7a\x69\x70"),
    (
        "headers",
        b"\x20\x00\x00\x00\x00\x11\x01\x61\x53\x00\x00\x00\x03\x78\x79\x7a\x01\x6e\x49\x00\x00\x00\x07",
    ),
    ("delivery_mode", b"\x10\x00\x02"),
    ("priority", b"\x08\x00\x09"),
    ("correlation_id", b"\x04\x00\x02\x63\x31"),
    ("reply_to", b"\x02\x00\x07\x72\x65\x70\x6c\x69\x65\x73"),
    ("expiration", b"\x01\x00\x05\x36\x30\x30\x30\x30"),
    ("message_id", b"\x00\x80\x02\x6d\x31"),
    ("timestamp", b"\x00\x40\x01\x02\x03\x04\x05\x06\x07\x08"),
    ("kind", b"\x00\x20\x04\x6b\x69\x6e\x64"),
    ("user_id", b"\x00\x10\x05\x67\x75\x65\x73\x74"),
    ("app_id", b"\x00\x08\x03\x61\x70\x70"),
    ("cluster_id", b"\x00\x04\x02\x63\x6c"),
];

// A value, where this field or all are wanted.
fn if_wanted<T: Copy>(wanted: &str, name: &str, value: T) -> Option<T> {
    if wanted == name || wanted == "all" {
        Some(value)
    } else {
        None
    }
}

// The same of a text.
fn text(wanted: &str, name: &str, value: &'static [u8]) -> Option<&'static [u8]> {
    if_wanted(wanted, name, value)
}

// The properties of a row.
fn properties_of(wanted: &str) -> BasicProperties<'static> {
    BasicProperties {
        content_type: text(wanted, "content_type", b"text/plain"),
        content_encoding: text(wanted, "content_encoding", b"gzip"),
        headers: text(wanted, "headers", HEADERS),
        delivery_mode: if_wanted(wanted, "delivery_mode", 2),
        priority: if_wanted(wanted, "priority", 9),
        correlation_id: text(wanted, "correlation_id", b"c1"),
        reply_to: text(wanted, "reply_to", b"replies"),
        expiration: text(wanted, "expiration", b"60000"),
        message_id: text(wanted, "message_id", b"m1"),
        timestamp: if_wanted(wanted, "timestamp", 0x0102_0304_0506_0708),
        kind: text(wanted, "kind", b"kind"),
        user_id: text(wanted, "user_id", b"guest"),
        app_id: text(wanted, "app_id", b"app"),
        cluster_id: text(wanted, "cluster_id", b"cl"),
    }
}

// Whether a row is spelled so, and read back as what spells so.
fn is_spelled(alloc: Global, row: Spelled) -> Result<bool, NoMemory> {
    let spelled = properties_of(row.0).spelled(alloc)?;
    let again = match read_properties(row.1) {
        Some(read) => read.spelled(alloc)?,
        None => None,
    };
    Ok(spelled.as_deref() == Some(row.1) && again.as_deref() == Some(row.1))
}

fn each_is_spelled(alloc: Global) -> Result<bool, NoMemory> {
    for row in ROWS {
        if !is_spelled(alloc, row)? {
            return Ok(false);
        }
    }
    Ok(true)
}

#[test]
fn properties_are_those_of_rabbitmq_c(rt: HostRuntime) -> Result<(), Fail> {
    assert!(rt; each_is_spelled(rt.alloc())?);
    Ok(())
}

#[test]
fn what_is_no_properties_is_none(rt: HostRuntime) -> Result<(), Fail> {
    // Cut off; an octet too many; flags that go on, and one that means nothing.
    assert!(rt; read_properties(b"\x10").is_none());
    assert!(rt; read_properties(b"\x10\0").is_none());
    assert!(rt; read_properties(b"\x10\0\x02\0").is_none());
    assert!(rt; read_properties(b"\0\x01").is_none());
    assert!(rt; read_properties(b"\0\x02").is_none());
    Ok(())
}

// Whether a text of so many octets can be spelled.
fn fits(alloc: Global, count: usize) -> Result<bool, Fail> {
    let text = vec![in alloc; b'x'; count]?;
    let properties = BasicProperties {
        message_id: Some(&text),
        ..BasicProperties::new()
    };
    Ok(properties.spelled(alloc)?.is_some())
}

#[test]
fn a_text_has_at_most_255_octets(rt: HostRuntime) -> Result<(), Fail> {
    assert!(rt; fits(rt.alloc(), 255)?);
    assert!(rt; !fits(rt.alloc(), 256)?);
    Ok(())
}

// The octets of the headers `a` = `xyz` and `n` = 7.
fn headers(alloc: Global) -> Result<Vec<u8>, Fail> {
    let mut table = FieldTable::new(alloc);
    let text = AMQPValue::LongString(LongString::new(alloc, b"xyz")?);
    drop(table.insert(ShortString::new(alloc, b"a")?, text)?);
    drop(table.insert(ShortString::new(alloc, b"n")?, AMQPValue::LongInt(7))?);
    Ok(headers_of(alloc, &table)?)
}

#[test]
fn headers_are_named(rt: HostRuntime) -> Result<(), Fail> {
    let alloc = rt.alloc();
    assert!(rt; headers(alloc)?.as_slice() == HEADERS);
    let text: &[u8] = b"xyz";
    assert!(rt; header_named(HEADERS, b"a") == Some((b'S', text)));
    let seven: &[u8] = b"\0\0\0\x07";
    assert!(rt; header_named(HEADERS, b"n") == Some((b'I', seven)));
    assert!(rt; header_named(HEADERS, b"b").is_none());
    assert!(rt; header_named(&HEADERS[..9], b"n").is_none());
    Ok(())
}

const RETURNED: &[u8] =
    b"\x00\x3c\x00\x32\x01\x38\x08\x4e\x4f\x5f\x52\x4f\x55\x54\x45\x04\x6c\x6f\x67\x73\x03\x61\x2e\x62";

#[test]
fn a_return_is_read(rt: HostRuntime) -> Result<(), Fail> {
    let Some(returned) = read_return(RETURNED) else {
        assert!(rt; false);
        return Ok(());
    };
    assert!(rt; returned.reply_code == 312);
    assert!(rt; returned.reply_text == b"NO_ROUTE".as_slice());
    assert!(rt;
        returned.exchange == b"logs".as_slice() && returned.routing_key == b"a.b".as_slice()
    );
    assert!(rt; read_return(&RETURNED[..9]).is_none());
    Ok(())
}

// Whether basic.cancel of the consumer `amqp` is spelled so.
fn cancels(alloc: Global, nowait: bool, octets: &[u8]) -> Result<bool, Fail> {
    let method = basic_cancel(alloc, &ShortString::new(alloc, b"amqp")?, nowait)?;
    let same = method.class_id() == 60 && method.method_id() == 30 && method.args() == octets;
    drop(method);
    Ok(same)
}

#[test]
fn cancel_has_one_flag(rt: HostRuntime) -> Result<(), Fail> {
    assert!(rt; cancels(rt.alloc(), false, b"\x04\x61\x6d\x71\x70\x00")?);
    assert!(rt; cancels(rt.alloc(), true, b"\x04\x61\x6d\x71\x70\x01")?);
    Ok(())
}
