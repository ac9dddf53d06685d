//! The numbers that both peers agree on.

use amqp_session::{Configuration, tune};
use std::process::Abort;

/// The numbers that each peer wishes, 0 where it wishes none, and those that hold.
#[derive(Clone, Copy)]
struct Row {
    name: &'static str,
    own: Configuration,
    server: Configuration,
    agreed: Configuration,
}

/// What a server wishes that is RabbitMQ.
const USUAL: Configuration = Configuration {
    channel_max: 2047,
    frame_max: 131_072,
    heartbeat: 60,
};

const LESSER: Configuration = Configuration {
    channel_max: 10,
    frame_max: 8192,
    heartbeat: 30,
};

const NONE: Configuration = Configuration {
    channel_max: 0,
    frame_max: 0,
    heartbeat: 0,
};

const ROWS: &[Row] = &[
    Row {
        name: "we wish nothing",
        own: NONE,
        server: USUAL,
        agreed: USUAL,
    },
    Row {
        name: "no limits at all",
        own: Configuration {
            channel_max: 0,
            frame_max: 0,
            heartbeat: 60,
        },
        server: NONE,
        agreed: Configuration {
            channel_max: 65_535,
            frame_max: 4_294_967_295,
            heartbeat: 60,
        },
    },
    Row {
        name: "frames below the least",
        own: NONE,
        server: Configuration {
            channel_max: 0,
            frame_max: 1000,
            heartbeat: 0,
        },
        agreed: Configuration {
            channel_max: 65_535,
            frame_max: 4096,
            heartbeat: 0,
        },
    },
    Row {
        name: "ours are the lesser",
        own: LESSER,
        server: USUAL,
        agreed: LESSER,
    },
    Row {
        name: "the server's are the lesser",
        own: USUAL,
        server: LESSER,
        agreed: LESSER,
    },
];

fn are_agreed<A: Abort>(rt: &A, rows: &[Row]) {
    for row in rows {
        assert!(rt; tune(row.own, row.server) == row.agreed, "{}", row.name);
    }
}

#[test]
fn numbers_are_agreed(rt: HostRuntime) {
    are_agreed(&rt, ROWS);
}
