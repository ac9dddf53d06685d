//! Both ends joined: so many channels are opened and a message is published on each. How many octets the
//! client says is a sum of the sizes of its frames.

ghost use Rattle.std.specs.Prelude.{◌≢◌, ◌≤◌, ℕ, IfOk, []};
ghost use Rattle.std.specs.List.{AllByRecursion};
ghost use Rattle.amqp_joining.specs.Plans.{IsPlan, join_plan_of};

use amqp_double::Double;
use amqp_engine::IoLoop;
use amqp_frame::RawMethod;
use amqp_joined::{JoinedPort, Plan};
use amqp_session::{
    ChanRef, Cmd, Configuration, ConnectionProperties, DefaultAuthProvider, Properties,
};
use amqp_types::{Payload, Payload64};
use amqp_uri::AMQPUri;
use std::alloc::Global;
use std::test::Fail;

type Outcome<T> = Result<T, Fail>;

/// What is seen of both ends once they ran: how many octets the client said, how many promises were
/// answered Ok, and whether the session and the double are closed.
#[derive(Clone, Copy, Debug, PartialEq, Eq)]
struct Seen {
    sent: u64,
    answers: u64,
    closed: bool,
    double_closed: bool,
}

const NUMBERS: Configuration = Configuration {
    channel_max: 2047,
    frame_max: 131_072,
    heartbeat: 60,
};

// basic.publish to the exchange without a name, with the routing key `hello`.
const PUBLISH: &[u8] = b"\x00\x00\x00\x05hello\x00";

// Properties of which none is there.
fn no_properties(alloc: Global) -> Outcome<Properties> {
    match Properties::new(Payload::new(alloc, b"\x00\x00")?) {
        Some(properties) => Ok(properties),
        None => Err("no properties")?,
    }
}

// Publishes on a channel, whose number tells the size of the body.
fn publish(alloc: Global, id: u16) -> Outcome<Cmd> {
    let size = id as usize * 7919 % 9000;
    let body = vec![in alloc; 0; size]?;
    let method = RawMethod::new(alloc, 60, 40, PUBLISH)?;
    let channel = ChanRef { id, opened: None };
    let properties = no_properties(alloc)?;
    Ok(Cmd::Publish(channel, method, properties, Payload::from_vec(body)))
}

// So many channels are opened, and a message is published on each.
fn commands(alloc: Global, count: u16) -> Outcome<Vec<Cmd>> {
    let mut commands = Vec::new(alloc);
    for _ in 0..count {
        commands.push(Cmd::OpenChannel)?;
    }
    for id in 1..=count {
        commands.push(publish(alloc, id)?)?;
    }
    Ok(commands)
}

// A plan of so many channels, with these cuts and rooms.
fn plan(alloc: Global, count: u16, cuts: &[u64], rooms: &[u64]) -> Outcome<Plan>
    requires some_cuts { cuts.now ≢ [] }
    requires cuts { AllByRecursion (λ (n : ℕ). (1 ≤ n) × (n ≤ 4096)) cuts.now }
    requires some_rooms { rooms.now ≢ [] }
    requires rooms { AllByRecursion (λ (n : ℕ). 1 ≤ n) rooms.now }
    ensures { IfOk result (λ plan. IsPlan (join_plan_of plan)) }
{
    let cuts = Payload64::new(alloc, cuts)?;
    let rooms = Payload64::new(alloc, rooms)?;
    match commands(alloc, count) {
        Ok(commands) => Ok(Plan {
            cuts,
            rooms,
            commands,
        }),
        Err(e) => Err(e),
    }
}

// How many promises of an engine are answered Ok. It takes the answers.
fn count_ok(engine: &mut IoLoop) -> u64 {
    let mut count: u64 = 0;
    for number in 0..engine.session().promises() {
        let answer = engine.answer(number);
        if matches!(answer, Some(Ok(_))) {
            count = count.saturating_add(1);
        }
        drop(answer);
    }
    count
}

// A new double, joined to an engine by this plan.
fn joined(alloc: Global, plan: Plan) -> Outcome<JoinedPort>
    requires { IsPlan (join_plan_of plan) }
{
    match Double::new(alloc, NUMBERS) {
        Ok(double) => Ok(JoinedPort::new(alloc, double, plan)?),
        Err(refused) => {
            drop(plan);
            Err(refused)?
        }
    }
}

// Runs a new engine over the port, for so many turns.
fn seen_by(
    alloc: Global,
    uri: &AMQPUri,
    provider: &mut DefaultAuthProvider,
    port: &mut JoinedPort,
    turns: u64,
) -> Outcome<Seen> {
    let options = ConnectionProperties::new(alloc)?;
    let mut engine = IoLoop::new(alloc, uri, options)?;
    let end = port.run(&mut engine, provider, turns);
    let closed = end.is_ok();
    drop(end);
    let answers = count_ok(&mut engine);
    drop(engine);
    Ok(Seen {
        sent: port.taken(),
        answers,
        closed,
        double_closed: port.double().closed(),
    })
}

// The same, with a server at this address.
fn seen_at(alloc: Global, uri: &AMQPUri, port: &mut JoinedPort, turns: u64) -> Outcome<Seen> {
    let mut provider = DefaultAuthProvider::new(alloc, uri)?;
    let seen = seen_by(alloc, uri, &mut provider, port, turns);
    drop(provider);
    seen
}

// The same, with a local server.
fn seen_on(alloc: Global, port: &mut JoinedPort, turns: u64) -> Outcome<Seen> {
    let uri = AMQPUri::local(alloc)?;
    let seen = seen_at(alloc, &uri, port, turns);
    drop(uri);
    seen
}

// Runs a new engine over a port by this plan, for as many turns as that takes.
fn seen_of(alloc: Global, plan: Plan) -> Outcome<Seen>
    requires { IsPlan (join_plan_of plan) }
{
    let turns = plan.turns();
    let mut port = joined(alloc, plan)?;
    let seen = seen_on(alloc, &mut port, turns);
    drop(port);
    seen
}

// Both ends are closed, and so much was said and answered.
fn both_closed(sent: u64, answers: u64) -> Seen {
    Seen {
        sent,
        answers,
        closed: true,
        double_closed: true,
    }
}

#[test]
fn both_ends_close(rt: HostRuntime) -> Outcome<()> {
    const ROWS: [(u16, u64, u64); 3] = [(0, 380, 2), (1, 8364, 4), (2, 15_267, 6)];
    for (count, sent, answers) in ROWS {
        let plan = plan(rt.alloc(), count, &[1, 7, 4096], &[1, 100, 5000])?;
        assert!(rt; seen_of(rt.alloc(), plan)? == both_closed(sent, answers));
    }
    Ok(())
}

#[test]
fn cuts_and_rooms_do_not_matter(rt: HostRuntime) -> Outcome<()> {
    let alloc = rt.alloc();
    let wanted = both_closed(15_267, 6);
    assert!(rt; seen_of(alloc, plan(alloc, 2, &[1], &[1])?)? == wanted);
    assert!(rt; seen_of(alloc, plan(alloc, 2, &[4096], &[1_000_000])?)? == wanted);
    assert!(rt; seen_of(alloc, plan(alloc, 2, &[1], &[u64::MAX])?)? == wanted);
    assert!(rt; seen_of(alloc, plan(alloc, 2, &[4096], &[1])?)? == wanted);
    Ok(())
}
