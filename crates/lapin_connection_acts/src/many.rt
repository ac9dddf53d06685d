//! A caller that makes a thousand commands.

ghost use Rattle.amqp_hub.specs.Lending.{GoesOn};

use crate::acts::{publishes, sends};
use crate::hand::{Done, Hand, Stage, answered};
use amqp_frame::RawMethod;
use amqp_session::{Answer, ChanRef, Cmd, ErrorKind, Result};
use lapin_connection::{Connection, Hub, Pass};
use std::alloc::Global;
use std::sync::Wait;

/// How many commands it makes.
const COMMANDS: u64 = 1_000;

/// Enters a send on the channel of this number, and gives its promise.
#[tactic(auto, using(amqp_hub::proofs::Lending::goes_still, amqp_hub::proofs::Lending::goes_called))]
pub(crate) fn enters_send(hub: &mut Hub, alloc: Global, pass: &mut Pass, id: u16) -> Option<u64>
    ensures { GoesOn hub.old hub.new }
{
    let Ok(method) = RawMethod::new(alloc, 60, 40, &[]) else {
        return None;
    };
    let channel = ChanRef { id, opened: None };
    match hub.command(pass, Cmd::Send(channel, method)) {
        Ok((number, receipt)) => {
            drop(receipt);
            number
        }
        Err(error) => {
            drop(error);
            None
        }
    }
}

/// Whether an answer is Ok, where there is one. It takes it.
pub(crate) fn is_told(answer: Option<Result<Answer>>) -> Option<bool> {
    match answer {
        Some(Ok(answer)) => {
            drop(answer);
            Some(true)
        }
        Some(Err(error)) => {
            drop(error);
            Some(false)
        }
        None => None,
    }
}

// Whether the answer is that there is no channel of this number. It takes the answer.
fn is_no_channel(answer: Option<Result<Answer>>, id: u16) -> bool {
    match answer {
        Some(Err(error)) => {
            let same = *error.kind() == ErrorKind::InvalidChannel(id);
            drop(error);
            same
        }
        _ => false,
    }
}

// The answer to a promise, where there is one.
#[tactic(auto, using(amqp_hub::proofs::Lending::goes_taken))]
fn polled(hub: &mut Hub, number: u64) -> Option<Result<Answer>>
    ensures { GoesOn hub.old hub.new }
{
    hub.poll(number)
}

// Whether a send on a channel that is not open is refused for its number.
fn is_refused<R: Wait>(
    rt: &R,
    connection: &Connection,
    alloc: Global,
    pass: &mut Pass,
    id: u16,
) -> bool {
    match connection.with_hub(rt, |hub| enters_send(hub, alloc, pass, id)) {
        Some(number) => is_no_channel(connection.with_hub(rt, |hub| polled(hub, number)), id),
        None => false,
    }
}

fn refused<R: Wait>(rt: &R, stage: &Stage<'_>, hand: &mut Hand, id: u16) -> bool {
    let alloc = hand.alloc;
    match (stage.connection, hand.passes.first_mut()) {
        (Some(connection), Some(pass)) => is_refused(rt, connection, alloc, pass, id),
        _ => false,
    }
}

// Whether this is Ok. It takes it.
fn succeeds(answer: Result<()>) -> bool {
    match answer {
        Ok(()) => true,
        Err(error) => {
            drop(error);
            false
        }
    }
}

/// Opens a channel, and then by turns sends and publishes on it, each answered as sent; each tenth is a send on
/// a number that is not open, answered so. Says how many commands were answered as they should be.
pub fn many<R: Wait>(rt: &R, stage: &Stage<'_>, hand: &mut Hand) -> Done {
    let Some(id) = opened(rt, stage, hand) else {
        return hand.say("NO CHANNEL");
    };
    let mut right = 1u64;
    for k in 1..COMMANDS {
        let answered = if k % 10 == 9 {
            refused(rt, stage, hand, 1000 + (k % 1000) as u16)
        } else if k % 2 == 0 {
            succeeds(sends(rt, stage.gate, hand, id))
        } else {
            succeeds(publishes(rt, stage.gate, hand, id))
        };
        if answered {
            right = right.saturating_add(1);
        }
    }
    let text = format!(in hand.alloc; "{right} answered")?;
    hand.say(text.as_str())
}

// The number of a channel that is opened.
fn opened<R: Wait>(rt: &R, stage: &Stage<'_>, hand: &mut Hand) -> Option<u16> {
    let opened = match (stage.connection, hand.passes.first_mut()) {
        (Some(connection), Some(pass)) => {
            let asked = connection.create_channel(rt, pass);
            answered(rt, stage.gate, asked)
        }
        _ => return None,
    };
    match opened {
        Ok(channel) => {
            let id = channel.id();
            match hand.channels.push(channel) {
                Ok(()) => Some(id),
                Err(_) => None,
            }
        }
        Err(error) => {
            drop(error);
            None
        }
    }
}
