//! Scripts at their limits of bytes, of lines and of zeros, and one past each. The other limits are
//! lines of `amqp_script_rows`.

use super::replays::prints;
use amqp_replay::limits::{SCRIPT_BYTES, SCRIPT_LINES};
use amqp_replay::status::{REFUSED, RUNNING};
use std::alloc::Global;
use std::test::Fail;

/// A script of one byte so many times, and then others, with its status and what it prints.
struct Row {
    name: &'static str,
    byte: u8,
    count: usize,
    more: &'static [u8],
    status: u8,
    printed: &'static [u8],
}

const NOTHING_DONE: &[u8] = b"answer 0 pending\nend running\n";

const ONE_REFUSED: &[u8] = b"script line 1 refused\n";

const LIMITS: [Row; 8] = [
    Row {
        name: "as many bytes as may be",
        byte: b'#',
        count: SCRIPT_BYTES,
        more: b"",
        status: RUNNING,
        printed: NOTHING_DONE,
    },
    Row {
        name: "the byte that is too much is a line feed",
        byte: b'#',
        count: SCRIPT_BYTES,
        more: b"\n",
        status: REFUSED,
        printed: ONE_REFUSED,
    },
    Row {
        name: "another byte after that",
        byte: b'#',
        count: SCRIPT_BYTES,
        more: b"\n#",
        status: REFUSED,
        printed: ONE_REFUSED,
    },
    Row {
        name: "as many lines as may be",
        byte: b'\n',
        count: SCRIPT_LINES as usize,
        more: b"",
        status: RUNNING,
        printed: NOTHING_DONE,
    },
    Row {
        name: "one line more",
        byte: b'\n',
        count: SCRIPT_LINES as usize,
        more: b"#",
        status: REFUSED,
        printed: b"script line 100001 refused\n",
    },
    Row {
        name: "as many zeros as may be",
        byte: b'\n',
        count: 0,
        more: b"send 1 60 40 z67108863+z01\n",
        status: RUNNING,
        printed: b"answer 0 pending\nanswer 1 err invalid connection state: Initial\nend running\n",
    },
    Row {
        name: "one zero more",
        byte: b'\n',
        count: 0,
        more: b"send 1 60 40 z67108863+z2\n",
        status: REFUSED,
        printed: ONE_REFUSED,
    },
    Row {
        name: "one zero more in three lines",
        byte: b'\n',
        count: 0,
        more: b"bytes z64\nsend 1 60 40 z67108800\nbytes z1\n",
        status: REFUSED,
        printed: b"script line 3 refused\n",
    },
];

fn row_holds(alloc: Global, row: &Row) -> Result<bool, Fail> {
    let mut text = vec![in alloc; row.byte; row.count]?;
    text.extend_from_slice(row.more)?;
    prints(alloc, &text, row.status, row.printed)
}

// The first row that does not hold.
fn first_broken(alloc: Global) -> Result<Option<&'static str>, Fail> {
    for row in &LIMITS {
        if !row_holds(alloc, row)? {
            return Ok(Some(row.name));
        }
    }
    Ok(None)
}

#[test]
fn scripts_have_limits(rt: HostRuntime) -> Result<(), Fail> {
    assert_eq!(rt; first_broken(rt.alloc())?, None);
    Ok(())
}
