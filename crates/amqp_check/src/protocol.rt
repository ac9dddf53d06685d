//! What else than AMQP 0-9-1 octets look like, by the first of them.

/// What octets look like, at the front of what one side of a link said, that are no AMQP 0-9-1.
pub fn other_protocol(octets: &[u8]) -> Option<&'static str> {
    match octets {
        [b'A', b'M', b'Q', b'P', version @ ..] => other_version(version),
        [0x14..=0x17, 3, ..] => Some("this looks like TLS"),
        [b'G', b'E', b'T', b' ', ..]
        | [b'P', b'O', b'S', b'T', b' ', ..]
        | [b'H', b'T', b'T', b'P', ..] => Some("this looks like HTTP"),
        _ => None,
    }
}

// Of which protocol the four octets behind `AMQP` are.
fn other_version(version: &[u8]) -> Option<&'static str> {
    match version {
        [0, 1, 0, 0, ..] => Some("AMQP 0-1-0-0 is the protocol header of AMQP 1.0"),
        [2, 1, 0, 0, ..] => Some("AMQP 2-1-0-0 is the protocol header of TLS in AMQP 1.0"),
        [3, 1, 0, 0, ..] => Some("AMQP 3-1-0-0 is the protocol header of SASL in AMQP 1.0"),
        [1, 1, 0, 10, ..] => Some("AMQP 1-1-0-10 is the protocol header of AMQP 0-10"),
        [1, 1, 0, 9, ..] => Some("AMQP 1-1-0-9 is the protocol header of AMQP 0-9"),
        [1, 1, 8, 0, ..] => Some("AMQP 1-1-8-0 is the protocol header of AMQP 0-8"),
        _ => None,
    }
}
