//! Passes of another connection: `foreign` says what the connection answers to a command with one that it does not
//! have, and with one whose commands it did not count, and what a tally of both is.

use crate::story::Runs;
use amqp_session::{ConnectionProperties, Result};
use amqp_uri::AMQPUri;
use lapin_connection::{Connection, Pass};
use lapin_connection_acts::gate::{GateSpawner, Refuses, gates};
use lapin_connection_acts::hand::{Done, Hand};
use std::alloc::{AllocError, Global};
use std::sync::Wait;

// A connection over a gate of its own.
fn other<R: Runs>(rt: R, alloc: Global, spawner: &mut GateSpawner<R>) -> Result<Connection> {
    let options = ConnectionProperties::new(alloc)?;
    match AMQPUri::local(alloc) {
        Ok(uri) => Connection::connect_uri_with_runtime(rt, alloc, uri, options, spawner),
        Err(refused) => {
            drop(options);
            Err(refused.into())
        }
    }
}

// What a command with each of these passes, and a tally of all of them, is answered.
fn say_answers<R: Wait>(
    rt: &R,
    connection: &Connection,
    hand: &mut Hand,
    passes: &mut [Pass],
) -> Done {
    if let Some(first) = passes.first_mut() {
        hand.say_answer(connection.create_channel(rt, first))?;
    }
    if let Some(last) = passes.last_mut() {
        hand.say_answer(connection.create_channel(rt, last))?;
    }
    hand.say_answer(connection.tally(rt, passes))
}

/// What a connection answers to the passes of another one, of which there are nine.
pub fn passes<R: Runs>(rt: R, connection: &Connection, hand: &mut Hand) -> Done {
    let alloc = hand.alloc;
    let Ok((gate, theirs)) = gates(alloc, "link start tune open_ok") else {
        return Err(AllocError);
    };
    let mut spawner = GateSpawner::new(rt, theirs, Refuses::Nowhere);
    let answered = match other(rt, alloc, &mut spawner) {
        Ok(other) => {
            let passes = other.passes(&rt, 9);
            drop(other);
            match passes {
                Ok(mut passes) => say_answers(&rt, connection, hand, &mut passes),
                Err(error) => hand.say_error(error),
            }
        }
        Err(error) => hand.say_error(error),
    };
    gate.shut(&rt);
    drop(gate);
    drop(spawner);
    answered
}
