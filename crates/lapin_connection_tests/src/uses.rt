//! Each use of `amqp_uses` once, over frames of a broker.

ghost use Rattle.amqp_engine.specs.Plan.{IsGivenPiece, ArePieces};

mod pooling;

use amqp_engine::{Given, GivenStep, MemoryPort};
use amqp_frame::{FixedRoom, Frame, RawKind, RawMethod, Room, encoded_len};
use amqp_hub::Hub;
use amqp_session::{
    Answer, ConnectionProperties, DefaultAuthProvider, Handed, HandedProvider, Session,
};
use amqp_types::{NoMemory, Payload, ShortString};
use amqp_uri::AMQPUri;
use amqp_uses::{
    Came, Client, Connection, Held, bodies_received, converse, frame_in, hear_next, new_client,
    new_hub, next_delivery, octets_of, open_and_send, open_and_settle, open_over, publish_text,
    say_next, table_with, text_in,
};
use amqp_vectors::octets;
use std::alloc::Global;
use std::ops::Range;
use std::process::Abort;
use std::test::Fail;

type Outcome = std::result::Result<(), Fail>;

/// What a server says when a connection is opened, and a channel on it.
const START: &[u8] = b"\x01\x00\x00\x00\x00\x00\x25\x00\x0a\x00\x0a\x00\x09\x00\x00\x00\x00\
    \x00\x00\x00\x0ePLAIN AMQPLAIN\x00\x00\x00\x05en_US\xce";

const TUNE: &[u8] =
    b"\x01\x00\x00\x00\x00\x00\x0c\x00\x0a\x00\x1e\x07\xff\x00\x02\x00\x00\x00\x3c\xce";

const OPEN_OK: &[u8] = b"\x01\x00\x00\x00\x00\x00\x05\x00\x0a\x00\x29\x00\xce";

const CHANNEL_OPEN_OK_1: &[u8] =
    b"\x01\x00\x01\x00\x00\x00\x08\x00\x14\x00\x0b\x00\x00\x00\x00\xce";

const BODY_1: &[u8] = b"\x03\x00\x01\x00\x00\x00\x03abc\xce";

/// The beginning.
const AT_ONCE: Came = Came { place: 0, at: 0 };

// Opens the connection of a session, whose frames go into a room.
fn connect<R: Room>(alloc: Global, client: &mut Client, room: &mut R) -> Outcome {
    client.session.asked();
    client.session.linked(0)?;
    for frame in [START, TUNE, OPEN_OK] {
        say_next(&mut client.session, room);
        hear_next(alloc, client, frame, AT_ONCE)?;
    }
    say_next(&mut client.session, room);
    say_next(&mut client.session, room);
    let unsent = client.session.unsent();
    client.session.taken(unsent, 0);
    Ok(())
}

// Whether a promise is answered by Sent. It takes the answer.
fn is_sent(session: &mut Session, promise: u64) -> bool {
    let answer = session.answer(promise);
    let sent = matches!(answer, Some(Ok(Answer::Sent)));
    drop(answer);
    sent
}

fn opens_and_sends_in<A: Abort>(
    rt: &A,
    alloc: Global,
    client: &mut Client,
    room: &mut FixedRoom,
) -> Outcome {
    connect(alloc, client, room)?;
    room.clear();
    let method = RawMethod::new(alloc, 60, 40, b"abc")?;
    let sending = open_and_send(alloc, client, room, CHANNEL_OPEN_OK_1, AT_ONCE, method)?;
    assert!(rt; sending == Some(2));
    assert!(rt; room.as_slice().len() == 13 + 15);
    let unsent = client.session.unsent();
    client.session.taken(unsent, 0);
    assert!(rt; is_sent(&mut client.session, 2));
    hear_next(alloc, client, BODY_1, AT_ONCE)?;
    assert!(rt; bodies_received(&mut client.session, 1)? == 1);
    Ok(())
}

// A new client of the broker of this machine.
fn local_client(alloc: Global) -> std::result::Result<Client, Fail> {
    let options = ConnectionProperties::new(alloc)?;
    let uri = AMQPUri::local(alloc)?;
    let client = new_client(alloc, &uri, options);
    drop(uri);
    Ok(client?)
}

#[test]
fn opens_and_sends(rt: HostRuntime) -> Outcome {
    let alloc = rt.alloc();
    let mut room = FixedRoom::new(alloc, 4096)?;
    let mut client = local_client(alloc)?;
    let told = opens_and_sends_in(&rt, alloc, &mut client, &mut room);
    drop(client);
    told
}

fn joined(alloc: Global) -> std::result::Result<Vec<u8>, Fail> {
    let mut bytes = Vec::new(alloc);
    for frame in [START, TUNE, OPEN_OK] {
        bytes.extend_from_slice(frame)?;
    }
    Ok(bytes)
}

// Properties with the provider of an address, handed over.
fn properties_of(
    alloc: Global,
    uri: &AMQPUri,
) -> std::result::Result<ConnectionProperties<HandedProvider<DefaultAuthProvider>>, NoMemory> {
    let options = ConnectionProperties::new(alloc)?;
    match DefaultAuthProvider::new(alloc, uri) {
        Ok(provider) => Ok(options.with_auth_provider(provider)),
        Err(e) => {
            drop(options);
            Err(e)
        }
    }
}

// How a run over such a port ends, as a text, where the provider of the address was handed over.
fn end_of(alloc: Global, port: &mut Held) -> std::result::Result<String, Fail> {
    let uri = AMQPUri::local(alloc)?;
    let end = match properties_of(alloc, &uri) {
        Ok(options) => converse(alloc, &uri, options, port, 9),
        Err(e) => Err(e.into()),
    };
    drop(uri);
    text_of(alloc, end)
}

// The same, where none was.
fn plain_end_of(alloc: Global, port: &mut Held) -> std::result::Result<String, Fail> {
    let uri = AMQPUri::local(alloc)?;
    let end = match ConnectionProperties::new(alloc) {
        Ok(options) => converse(alloc, &uri, options, port, 9),
        Err(e) => Err(e.into()),
    };
    drop(uri);
    text_of(alloc, end)
}

// How a run ended, as a text.
fn text_of(alloc: Global, end: amqp_session::Result<()>) -> std::result::Result<String, Fail> {
    match end {
        Ok(()) => Ok(String::from_str(alloc, "closed")?),
        Err(error) => {
            let text = error.to_string(alloc);
            drop(error);
            Ok(text?)
        }
    }
}

#[test]
fn converses(rt: HostRuntime) -> Outcome {
    let alloc = rt.alloc();
    let said = joined(alloc)?;
    let mut port = Held::new(alloc, said);
    let end = end_of(alloc, &mut port)?;
    assert!(rt; end.as_str() == "the given turns were all taken");
    assert!(rt; port.taken().len() == 8 + 315 + 36);
    Ok(())
}

#[test]
fn converses_by_the_address(rt: HostRuntime) -> Outcome {
    let alloc = rt.alloc();
    let said = joined(alloc)?;
    let mut port = Held::new(alloc, said);
    let end = plain_end_of(alloc, &mut port)?;
    assert!(rt; end.as_str() == "the given turns were all taken");
    assert!(rt; port.taken().len() == 8 + 315 + 36);
    Ok(())
}

// Whether a frame is written as these octets.
fn is_written(alloc: Global, frame: &Frame, octets: &[u8]) -> std::result::Result<bool, Fail> {
    if encoded_len(frame) > 4_294_967_295 {
        return Ok(false);
    }
    let written = octets_of(alloc, frame)?;
    Ok(written.as_slice() == octets)
}

// Whether octets are those of the frame that they spell.
fn comes_back(alloc: Global, octets: &[u8]) -> std::result::Result<bool, Fail> {
    match frame_in(alloc, octets) {
        Some(frame) => {
            let same = is_written(alloc, &frame, octets);
            drop(frame);
            same
        }
        None => Ok(false),
    }
}

#[test]
fn frames_come_back(rt: HostRuntime) -> Outcome {
    assert!(rt; comes_back(rt.alloc(), octets::TUNE_OK)?);
    assert!(rt; comes_back(rt.alloc(), octets::START_OK)?);
    Ok(())
}

#[test]
fn a_table_has_its_text(rt: HostRuntime) -> Outcome {
    let table = table_with(rt.alloc(), b"product", b"lapin")?;
    assert!(rt; text_in(&table, b"product") == Some(b"lapin".as_slice()));
    assert!(rt; text_in(&table, b"version").is_none());
    Ok(())
}

// A step goes last.
fn push(steps: &mut Vec<Given>, what: GivenStep) -> Outcome
    requires piece { IsGivenPiece what }
    requires before { ArePieces steps.old.items }
    ensures { ArePieces steps.new.items }
{
    steps.push(Given { at: 0, what })?;
    Ok(())
}

// A piece goes last.
fn push_piece(alloc: Global, steps: &mut Vec<Given>, bytes: &[u8]) -> Outcome
    requires { ArePieces steps.old.items }
    ensures { ArePieces steps.new.items }
{
    if bytes.is_empty() || bytes.len() > 4096 {
        return Err("no piece")?;
    }
    let payload = Payload::new(alloc, bytes)?;
    push(steps, GivenStep::Bytes(payload))
}

// A port that gives a link, and what a server says when a connection is opened, and a channel on it.
fn server_of_one_channel(alloc: Global) -> std::result::Result<MemoryPort, Fail> {
    let mut steps = Vec::new(alloc);
    push(&mut steps, GivenStep::Link(None))?;
    push_piece(alloc, &mut steps, START)?;
    push_piece(alloc, &mut steps, TUNE)?;
    push_piece(alloc, &mut steps, OPEN_OK)?;
    push_piece(alloc, &mut steps, CHANNEL_OPEN_OK_1)?;
    Ok(MemoryPort::new(alloc, steps)?)
}

// Whether a publish over an open channel is answered by Sent after one more turn.
fn publishes_in(
    alloc: Global,
    connection: &mut Connection,
    port: &mut MemoryPort,
) -> std::result::Result<bool, Fail> {
    let Some(channel) = connection.channel else {
        return Ok(false);
    };
    let queue = ShortString::new(alloc, b"hello")?;
    let sending = publish_text(alloc, &mut connection.engine, channel, &queue, b"world")?;
    drop(connection.engine.run(port, &mut connection.provider, 1));
    let answer = connection.engine.answer(sending.unwrap_or(0));
    let sent = matches!(answer, Some(Ok(Answer::Sent)));
    drop(answer);
    Ok(sent)
}

#[test]
fn opens_and_publishes(rt: HostRuntime) -> Outcome {
    let alloc = rt.alloc();
    let uri = AMQPUri::local(alloc)?;
    let mut port = server_of_one_channel(alloc)?;
    let mut connection = open_over(alloc, &uri, &mut port, 4)?;
    let sent = publishes_in(alloc, &mut connection, &mut port);
    drop(connection);
    drop(port);
    drop(uri);
    assert!(rt; sent?);
    Ok(())
}

// The indices of the entries of two commands of a hub.
fn two_entries(hub: &mut Hub) -> amqp_session::Result<(u64, u64)> {
    let mut passes = hub.passes(1)?;
    match passes.get_mut(0) {
        Some(pass) => {
            let first = open_and_settle(hub, pass)?;
            let second = open_and_settle(hub, pass)?;
            Ok((first, second))
        }
        None => Ok((0, 0)),
    }
}

#[test]
fn entries_that_were_let_go_are_counted(rt: HostRuntime) -> Outcome {
    let alloc = rt.alloc();
    let uri = AMQPUri::local(alloc)?;
    let mut port = server_of_one_channel(alloc)?;
    let mut hub = new_hub(alloc, &uri, &mut port)?;
    let entries = two_entries(&mut hub);
    drop(hub);
    drop(port);
    drop(uri);
    assert!(rt; entries? == (0, 1));
    Ok(())
}

// The frames of a message of five octets, as a broker delivers it to the consumer `tag1`.
fn delivered(alloc: Global) -> std::result::Result<Vec<Handed>, NoMemory> {
    let mut frames = Vec::new(alloc);
    for (kind, octets) in [
        (
            RawKind::RawMethod,
            b"\0\x3c\0\x3c\x04tag1\0\0\0\0\0\0\0\x01\0\0\x05hello".as_slice(),
        ),
        (
            RawKind::Header,
            b"\0\x3c\0\0\0\0\0\0\0\0\0\x05\0\0".as_slice(),
        ),
        (RawKind::Body, b"wor".as_slice()),
        (RawKind::Body, b"ld".as_slice()),
    ] {
        let bytes = Payload::new(alloc, octets)?;
        frames.push(Handed {
            channel: 1,
            kind,
            bytes,
        })?;
    }
    Ok(frames)
}

// How many frames the first message of a part of these has, where its body is this.
fn frames_of(
    alloc: Global,
    frames: &[Handed],
    part: Range<usize>,
    body: &[u8],
) -> std::result::Result<Option<usize>, NoMemory> {
    let Some(frames) = frames.get(part) else {
        return Ok(None);
    };
    let Some(delivery) = next_delivery(alloc, frames)? else {
        return Ok(None);
    };
    let count = (delivery.body.as_slice() == body).then_some(delivery.frames);
    drop(delivery);
    Ok(count)
}

#[test]
fn finds_a_delivery(rt: HostRuntime) -> Outcome {
    let alloc = rt.alloc();
    let frames = delivered(alloc)?;
    assert!(rt; frames_of(alloc, &frames, 0..4, b"world")? == Some(4));
    assert!(rt; frames_of(alloc, &frames, 0..3, b"wor")?.is_none());
    assert!(rt; frames_of(alloc, &frames, 1..4, b"world")?.is_none());
    Ok(())
}
