//! Sends over a hub, whose journal begins anew now and then.

ghost use Rattle.std.specs.Prelude.{◌≡◌, ◌≤◌, None, false, length};
ghost use Rattle.amqp_engine.specs.Log.{IsPiece};
ghost use Rattle.amqp_engine.specs.Counts.{is_fault};

use crate::driven::is_sent;
use amqp_engine::{IoLoop, Port, Step, Told, Wrote};
use amqp_frame::RawMethod;
use amqp_hub::{Hub, Pass};
use amqp_session::{ChanRef, Cmd, ConnectionProperties, DefaultAuthProvider, Result};
use amqp_uri::AMQPUri;
use std::alloc::Global;

/// After so many sends comes a turn.
const TURN: u64 = 100;

/// After so many the journal begins anew.
const SETTLE: u64 = 10_000;

/// The arguments of each method.
const ARGUMENTS: &[u8; 16] = b"sixteen octets..";

// What the server says: start, tune and open-ok of the connection, then open-ok of channel 1.
const START: &[u8] = b"\x01\x00\x00\x00\x00\x00\x25\x00\x0a\x00\x0a\x00\x09\x00\x00\x00\x00\
    \x00\x00\x00\x0ePLAIN AMQPLAIN\x00\x00\x00\x05en_US\xce";

const TUNE: &[u8] =
    b"\x01\x00\x00\x00\x00\x00\x0c\x00\x0a\x00\x1e\x07\xff\x00\x02\x00\x00\x00\x3c\xce";

const OPEN_OK: &[u8] = b"\x01\x00\x00\x00\x00\x00\x05\x00\x0a\x00\x29\x00\xce";

const CHANNEL_OPEN_OK: &[u8] = b"\x01\x00\x01\x00\x00\x00\x08\x00\x14\x00\x0b\x00\x00\x00\x00\xce";

// A port that opens a connection and a channel, takes all octets, and then gives ticks. It tells
// nothing of itself, and never fails.
#[derive(Drop)]
struct Taking {
    given: u64,
}

// What the server says next; nothing once it said all.
fn said(given: u64) -> &'static [u8]
    ensures { length result.now ≤ 64 }
{
    match given {
        1 => START,
        2 => TUNE,
        3 => OPEN_OK,
        4 => CHANNEL_OPEN_OK,
        _ => b"",
    }
}

// A piece, or a tick where nothing is said.
fn give(given: u64, space: &mut [u8]) -> Step
    requires { 4096 ≤ length space.old }
    ensures piece { IsPiece result }
    ensures faultless { is_fault result ≡ false }
{
    let octets = said(given);
    if octets.is_empty() {
        return Step::Tick;
    }
    space[..octets.len()].copy_from_slice(octets);
    Step::Piece(octets.len())
}

impl Port for Taking {
    ghost log = { λ p. None };

    ghost faults = { λ p. 0 };

    ghost kept = { λ _. tt };

    fn connect(&mut self) {}

    fn next(&mut self, space: &mut [u8]) -> Told {
        let step = if self.given == 0 {
            Step::Linked
        } else {
            give(self.given, space)
        };
        self.given = self.given.saturating_add(1);
        Told { at: 0, step }
    }

    fn write(&mut self, first: &[u8], second: &[u8]) -> Wrote {
        Wrote::Took(first.len() + second.len())
    }
}

// A hub with its port, who logs in, and a pass.
#[derive(Drop)]
struct Settled {
    hub: Hub,
    port: Taking,
    provider: DefaultAuthProvider,
    space: [u8; 4096],
}

fn hub_over(alloc: Global, uri: &AMQPUri, port: &mut Taking) -> Result<Hub> {
    let options = ConnectionProperties::new(alloc)?;
    let engine = IoLoop::new(alloc, uri, options)?;
    Hub::new(alloc, engine, port)
}

fn prepared(alloc: Global) -> Result<Settled> {
    let uri = AMQPUri::local(alloc)?;
    let provider = DefaultAuthProvider::new(alloc, &uri)?;
    let mut port = Taking { given: 0 };
    match hub_over(alloc, &uri, &mut port) {
        Ok(hub) => Ok(Settled {
            hub,
            port,
            provider,
            space: [0; 4096],
        }),
        Err(error) => {
            drop(provider);
            Err(error)
        }
    }
}

// The length of a piece.
fn piece_len(step: &Step) -> usize {
    match step {
        Step::Piece(n) => *n,
        _ => 0,
    }
}

// One turn.
fn turn(settled: &mut Settled) -> Result<()> {
    let told = settled.port.next(&mut settled.space);
    let n = piece_len(&told.step).min(4096);
    settled.hub.apply(
        told,
        &settled.space[..n],
        &mut settled.port,
        &mut settled.provider,
    )
}

fn turns(settled: &mut Settled, count: u64) -> Result<()> {
    for _ in 0..count {
        turn(settled)?;
    }
    Ok(())
}

// Sends one method; its promise.
fn send(alloc: Global, hub: &mut Hub, pass: &mut Pass, channel: ChanRef) -> Result<Option<u64>> {
    let method = RawMethod::new(alloc, 60, 40, ARGUMENTS)?;
    let (promise, receipt) = hub.command(pass, Cmd::Send(channel, method))?;
    drop(receipt);
    Ok(promise)
}

// Sends so many methods; the first promise.
fn send_each(
    alloc: Global,
    hub: &mut Hub,
    pass: &mut Pass,
    channel: ChanRef,
    count: u64,
) -> Result<Option<u64>> {
    let mut first = None;
    for _ in 0..count {
        let promise = send(alloc, hub, pass, channel)?;
        first = first.or(promise);
    }
    Ok(first)
}

// How many of so many promises from the first on are answered Sent. It takes the answers.
fn taken(hub: &mut Hub, first: u64, count: u64) -> u64 {
    let mut sent = 0u64;
    for i in 0..count {
        if is_sent(hub.poll(first.saturating_add(i))) {
            sent = sent.saturating_add(1);
        }
    }
    sent
}

// Some sends, then a turn, then their answers.
fn round(alloc: Global, settled: &mut Settled, pass: &mut Pass, channel: ChanRef) -> Result<u64> {
    let first = send_each(alloc, &mut settled.hub, pass, channel, TURN)?;
    turn(settled)?;
    match first {
        Some(number) => Ok(taken(&mut settled.hub, number, TURN)),
        None => Ok(0),
    }
}

fn rounds(
    alloc: Global,
    settled: &mut Settled,
    pass: &mut Pass,
    channel: ChanRef,
    count: u64,
) -> Result<u64> {
    let mut sent = 0u64;
    for i in 0..count {
        sent = sent.saturating_add(round(alloc, settled, pass, channel)?);
        if i % (SETTLE / TURN) == 0 {
            settled.hub.settle()?;
        }
    }
    Ok(sent)
}

// Opens the connection and channel 1.
fn open(settled: &mut Settled, pass: &mut Pass) -> Result<ChanRef> {
    turns(settled, 4)?;
    let (opened, receipt) = settled.hub.command(pass, Cmd::OpenChannel)?;
    drop(receipt);
    turn(settled)?;
    Ok(ChanRef { id: 1, opened })
}

fn sent_by(alloc: Global, settled: &mut Settled, count: u64) -> Result<u64> {
    let mut passes = settled.hub.passes(1)?;
    match passes.get_mut(0) {
        Some(pass) => {
            let channel = open(settled, pass)?;
            rounds(alloc, settled, pass, channel, count / TURN)
        }
        None => Ok(0),
    }
}

/// Sends so many methods over a hub, a turn each hundred of them, and lets its journal begin anew each ten
/// thousand. How many answers were taken; nothing where memory was refused.
pub fn settles(alloc: Global, count: u64) -> Option<u64> {
    let Ok(mut settled) = prepared(alloc) else {
        return None;
    };
    let sent = sent_by(alloc, &mut settled, count);
    drop(settled);
    sent.ok()
}
