//! An engine whose link ends at a double.

ghost use Rattle.std.specs.Prelude.{◌≡◌, ◌≤◌, None, false, length};
ghost use Rattle.amqp_engine.specs.Log.{IsPiece};
ghost use Rattle.amqp_engine.specs.Counts.{is_fault};

use super::said::frames_of;
use amqp_double::{Double, DoubleFault};
use amqp_engine::{IoLoop, Port, Step, Told, Wrote};
use amqp_frame::{Frame, Method};
use amqp_session::{Cmd, Configuration, ConnectionProperties, DefaultAuthProvider};
use amqp_types::{AMQPValue, FieldTable, LongString, NoMemory, ProtocolVersion, ShortString};
use amqp_uri::AMQPUri;
use std::alloc::Global;
use std::test::Fail;

type Outcome<T> = Result<T, Fail>;

const NUMBERS: Configuration = Configuration {
    channel_max: 2047,
    frame_max: 131_072,
    heartbeat: 60,
};

/// A port that feeds a double, and tells what that answers in pieces of seven octets. Once all is quiet
/// it tells to close the connection.
#[derive(Drop)]
struct Linked {
    double: Double,
    taken: Vec<u8>,
    asked: bool,
    close: Option<Cmd>,
}

const PIECE: usize = 7;

impl Linked {
    // The next piece of what the double answered, then the close, and then ticks.
    fn give(&mut self, space: &mut [u8]) -> Step
        requires { 4096 ≤ length space.old }
        ensures piece { IsPiece result }
        ensures faultless { is_fault result ≡ false }
    {
        let output = self.double.output();
        let count = output.len().min(PIECE);
        if count == 0 {
            return match self.close.take() {
                Some(close) => Step::Command(close),
                None => Step::Tick,
            };
        }
        space[..count].copy_from_slice(&output[..count]);
        self.double.sent(count);
        Step::Piece(count)
    }

    // All octets of both slices are taken and fed.
    fn take(&mut self, first: &[u8], second: &[u8]) -> Result<(), NoMemory> {
        self.taken
            .reserve(first.len().saturating_add(second.len()))?;
        for part in [first, second] {
            if self.double.feed(part) == Err(DoubleFault::NoMemory) {
                return Err(NoMemory);
            }
            self.taken.extend_from_slice(part)?;
        }
        Ok(())
    }
}

impl Port for Linked {
    ghost log = { λ p. None };

    ghost faults = { λ p. 0 };

    ghost kept = { λ p. tt };

    fn connect(&mut self) {
        self.asked = true;
    }

    fn next(&mut self, space: &mut [u8]) -> Told {
        let step = if self.asked {
            self.asked = false;
            Step::Linked
        } else {
            self.give(space)
        };
        Told { at: 0, step }
    }

    fn write(&mut self, first: &[u8], second: &[u8]) -> Wrote {
        match self.take(first, second) {
            Ok(()) => Wrote::Took(first.len() + second.len()),
            Err(NoMemory) => Wrote::NoMemory,
        }
    }
}

/// A user and a password, a virtual host, and wishes for each number: fewer channels, shorter frames and
/// more heartbeats than the double's.
const ADDRESS: &str = "amqp://bob:hunter@h/orders?channel_max=100&frame_max=8192&heartbeat=10";

const NAME: &[u8] = b"a link to a double";

// What the client says of itself, how it logs in, which virtual host it opens, and why it closes.
const PRODUCT: &[u8] = b"lapin";

const MECHANISM: &[u8] = b"PLAIN";

const RESPONSE: &[u8] = b"\0bob\0hunter";

const LOCALE: &[u8] = b"en_US";

const VHOST: &[u8] = b"orders";

const OK_TEXT: &[u8] = b"OK";

// The address.
fn address(alloc: Global) -> Outcome<AMQPUri> {
    let parsed = AMQPUri::parse(alloc, ADDRESS);
    match parsed {
        Ok(uri) => Ok(uri),
        Err(_) => Err("no address")?,
    }
}

// Our close of the connection.
fn our_close(alloc: Global) -> Outcome<Cmd> {
    let text = ShortString::new(alloc, b"OK")?;
    Ok(Cmd::CloseConnection(200, text))
}

// A port to a new double.
fn new_port(alloc: Global) -> Outcome<Linked> {
    let double = Double::new(alloc, NUMBERS)?;
    match our_close(alloc) {
        Ok(close) => Ok(Linked {
            double,
            taken: Vec::new(alloc),
            asked: false,
            close: Some(close),
        }),
        Err(e) => {
            drop(double);
            Err(e)
        }
    }
}

// What the user says: a name of the connection.
fn options(alloc: Global) -> Outcome<ConnectionProperties> {
    let options = ConnectionProperties::new(alloc)?;
    match LongString::new(alloc, NAME) {
        Ok(name) => Ok(options.with_connection_name(alloc, name)?),
        Err(refused) => {
            drop(options);
            Err(refused)?
        }
    }
}

// Runs a new engine with a server at the address over the port, and says whether it ended closed.
fn ends_by(
    alloc: Global,
    uri: &AMQPUri,
    provider: &mut DefaultAuthProvider,
    port: &mut Linked,
) -> Outcome<bool> {
    let options = options(alloc)?;
    let mut engine = IoLoop::new(alloc, uri, options)?;
    let end = engine.run(port, provider, 100);
    drop(engine);
    let closed = end.is_ok();
    drop(end);
    Ok(closed)
}

// The same, as the user of the address.
fn ends_closed(alloc: Global, uri: &AMQPUri, port: &mut Linked) -> Outcome<bool> {
    let mut provider = DefaultAuthProvider::new(alloc, uri)?;
    let closed = ends_by(alloc, uri, &mut provider, port);
    drop(provider);
    closed
}

// What was said to a double, where both ends are closed.
fn frames_where(
    alloc: Global,
    port: &Linked,
    closed: Outcome<bool>,
) -> Outcome<Option<Vec<Frame>>> {
    if closed? && port.double.closed() {
        Ok(frames_of(alloc, &port.taken)?)
    } else {
        Ok(None)
    }
}

// What a new engine with a server at the address says to a double, where both ends are closed then.
fn said(alloc: Global, uri: &AMQPUri) -> Outcome<Option<Vec<Frame>>> {
    let mut port = new_port(alloc)?;
    let closed = ends_closed(alloc, uri, &mut port);
    let frames = frames_where(alloc, &port, closed);
    drop(port);
    frames
}

// Whether these are the properties of the client, with the name of the connection.
fn are_properties(properties: &FieldTable) -> bool {
    let named = match properties.get(b"connection_name") {
        Some(AMQPValue::LongString(name)) => name.as_bytes() == NAME,
        _ => false,
    };
    let product = match properties.get(b"product") {
        Some(AMQPValue::LongString(name)) => name.as_bytes() == PRODUCT,
        _ => false,
    };
    named && product && properties.contains_key(b"capabilities")
}

// Whether a frame is the start-ok of the user of the address.
fn is_start_ok(frame: &Frame) -> bool {
    match frame {
        Frame::Method(0, Method::StartOk(properties, mechanism, response, locale)) => {
            are_properties(properties)
                && mechanism.as_bytes() == MECHANISM
                && response.as_bytes() == RESPONSE
                && locale.as_bytes() == LOCALE
        }
        _ => false,
    }
}

// Whether a frame opens the virtual host of the address.
fn is_open(frame: &Frame) -> bool {
    match frame {
        Frame::Method(0, Method::Open(vhost)) => vhost.as_bytes() == VHOST,
        _ => false,
    }
}

// Whether a frame is our close.
fn is_close(frame: &Frame) -> bool {
    match frame {
        Frame::Method(0, Method::Close(200, text, 0, 0)) => text.as_bytes() == OK_TEXT,
        _ => false,
    }
}

// Whether the frames are those by which the client of the address opens a connection and closes it.
fn are_of_the_address(frames: &[Frame]) -> bool {
    frames.len() == 5
        && frames[0] == Frame::ProtocolHeader(ProtocolVersion::amqp_0_9_1())
        && is_start_ok(&frames[1])
        && frames[2] == Frame::Method(0, Method::TuneOk(100, 8192, 10))
        && is_open(&frames[3])
        && is_close(&frames[4])
}

#[test]
fn an_engine_says_what_its_address_and_its_user_say(rt: HostRuntime) -> Outcome<()> {
    let uri = address(rt.alloc())?;
    let said = said(rt.alloc(), &uri);
    drop(uri);
    let frames = said?;
    let as_told = match &frames {
        Some(frames) => are_of_the_address(frames),
        None => false,
    };
    drop(frames);
    assert!(rt; as_told);
    Ok(())
}
