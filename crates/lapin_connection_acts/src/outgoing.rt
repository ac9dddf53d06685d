//! What one caller does that waits for what goes out, or looks in the hub.
//!
//! `wait_sent N` and `await_sent N` wait until nothing of the channel of that number waits to go out, and poll for it;
//! `wait_all` waits until nothing of the connection does. `room N` waits for a moment for room for a send on that
//! channel, `wait_room N` until there is, and `await_room N` polls for it. `look N` lends the hub until a send that is
//! entered there, on the channel of that number, has its answer.

ghost use Rattle.amqp_hub.specs.Lending.{GoesOn};

use crate::hand::{Done, Hand, Stage, numbered};
use crate::many::{enters_send, is_told};
use amqp_types::NoMemory;
use futures::executor::block_on;
use lapin_connection::{Connection, Hub, Pass};
use std::alloc::{AllocError, AllocGlobal, Global};
use std::random::RandomSource;
use std::sync::Wait;
use std::time::{Clock, Duration};

/// How many octets a send of a story has.
const SEND: u64 = 12;

fn waits<R: Wait>(rt: &R, hand: &mut Hand, id: u16) -> Done {
    let sent = match numbered(&hand.channels, id) {
        Some(channel) => channel.wait_until_sent(rt),
        None => return hand.say("NO CHANNEL"),
    };
    hand.say_answer(sent)
}

fn polls<R: Wait + RandomSource + AllocGlobal>(rt: &R, hand: &mut Hand, id: u16) -> Done {
    let sent = match numbered(&hand.channels, id) {
        Some(channel) => block_on(rt, channel.until_sent(rt)),
        None => return hand.say("NO CHANNEL"),
    };
    match sent {
        Ok(Ok(sent)) => hand.say_answer(sent),
        Ok(Err(NoMemory)) => Err(AllocError),
        Err(error) => {
            drop(error);
            Err(AllocError)
        }
    }
}

fn waits_for_all<R: Wait>(rt: &R, stage: &Stage<'_>, hand: &mut Hand) -> Done {
    let Some(connection) = stage.connection else {
        return hand.say("NO CONNECTION");
    };
    connection.wait_until_sent(rt);
    hand.say("all is sent")
}

fn waits_for_room<R: Wait>(rt: &R, hand: &mut Hand, id: u16) -> Done {
    let room = match numbered(&hand.channels, id) {
        Some(channel) => channel.wait_for_room(rt, SEND),
        None => return hand.say("NO CHANNEL"),
    };
    hand.say_answer(room)
}

fn waits_a_moment<R: Wait + Clock>(rt: &R, hand: &mut Hand, id: u16) -> Done {
    let room = match numbered(&hand.channels, id) {
        Some(channel) => channel.wait_for_room_for(rt, SEND, Duration::from_millis(10)),
        None => return hand.say("NO CHANNEL"),
    };
    hand.say_found(room)
}

fn polls_for_room<R: Wait + RandomSource + AllocGlobal>(rt: &R, hand: &mut Hand, id: u16) -> Done {
    let room = match numbered(&hand.channels, id) {
        Some(channel) => block_on(rt, channel.until_room(rt, SEND)),
        None => return hand.say("NO CHANNEL"),
    };
    match room {
        Ok(Ok(room)) => hand.say_answer(room),
        Ok(Err(NoMemory)) => Err(AllocError),
        Err(error) => {
            drop(error);
            Err(AllocError)
        }
    }
}

// Within one hold: enters a send, where none was, and else whether it has an answer that it was sent.
#[tactic(auto, using(amqp_hub::proofs::Lending::goes_taken))]
fn has_sent(
    hub: &mut Hub,
    alloc: Global,
    pass: &mut Pass,
    promise: &mut Option<u64>,
    id: u16,
) -> Option<bool>
    ensures { GoesOn hub.old hub.new }
{
    match *promise {
        Some(number) => is_told(hub.poll(number)),
        None => {
            *promise = enters_send(hub, alloc, pass, id);
            if promise.is_some() { None } else { Some(false) }
        }
    }
}

// Whether a send that is entered in the hub is answered as sent.
fn sends<R: Wait>(
    rt: &R,
    connection: &Connection,
    alloc: Global,
    pass: &mut Pass,
    id: u16,
) -> bool {
    let mut promise = None;
    connection.wait_with_hub(rt, |hub| has_sent(hub, alloc, pass, &mut promise, id))
}

fn looks<R: Wait>(rt: &R, stage: &Stage<'_>, hand: &mut Hand, id: u16) -> Done {
    let alloc = hand.alloc;
    let sent = match (stage.connection, hand.passes.first_mut()) {
        (Some(connection), Some(pass)) => sends(rt, connection, alloc, pass, id),
        _ => false,
    };
    hand.say_whether("found", sent)
}

/// Does an act of one who waits for what goes out, or looks in the hub. Whether it is one.
pub fn act<R: Wait + Clock + RandomSource + AllocGlobal>(
    rt: &R,
    stage: &Stage<'_>,
    hand: &mut Hand,
    word: &str,
    id: u16,
) -> Result<bool, AllocError> {
    match word {
        "wait_sent" => waits(rt, hand, id)?,
        "await_sent" => polls(rt, hand, id)?,
        "wait_all" => waits_for_all(rt, stage, hand)?,
        "room" => waits_a_moment(rt, hand, id)?,
        "wait_room" => waits_for_room(rt, hand, id)?,
        "await_room" => polls_for_room(rt, hand, id)?,
        "look" => looks(rt, stage, hand, id)?,
        _ => return Ok(false),
    }
    Ok(true)
}
