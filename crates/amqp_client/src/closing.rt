//! What is waited for before a connection is closed, and until it is.

use crate::client::LIMIT;
use crate::stop::Stop;
use lapin_connection::{Channel, Pending};
use std::sync::Wait;
use std::time::{Clock, Duration};

/// For how many milliseconds frames that come may lie here before they are let go.
const PART: u64 = 50;

// Lets the frames go that came on a channel.
fn let_go<R: Wait>(rt: &R, channel: &Channel) {
    match channel.take_frames(rt) {
        Ok(frames) => drop(frames),
        Err(refused) => drop(refused),
    }
}

/// Waits until what was sent on a channel has gone out, two seconds passed, or the channel is gone. Frames that come
/// meanwhile are let go.
pub fn let_out<R: Wait + Clock>(rt: &R, channel: &Channel) {
    for _ in 0..2_000 / PART {
        let sent = channel.wait_until_sent_for(rt, Duration::from_millis(PART));
        if sent.is_some() {
            drop(sent);
            return;
        }
        drop(sent);
        let_go(rt, channel);
    }
}

/// Waits for ten seconds until a connection is closed. Frames that come on its channel meanwhile are let go.
pub fn closed<R: Wait + Clock>(
    rt: &R,
    closing: &Pending<()>,
    channel: &Channel,
) -> Result<(), Stop> {
    for _ in 0..LIMIT * 1_000 / PART {
        if let Some(answer) = closing.wait_for(rt, Duration::from_millis(PART)) {
            return Ok(answer?);
        }
        let_go(rt, channel);
    }
    Err(Stop::Silent("close the connection", LIMIT))
}
