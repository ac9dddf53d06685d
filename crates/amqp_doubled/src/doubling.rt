//! Both ends joined by the plan of a number, and what is printed of that.

ghost use Rattle.std.specs.Prelude.{◌≡◌, ◌≢◌, ◌≤◌, ◌⊎◌, ◌↔◌, ℕ, Some, None, Ok, Err, IfOk, IsTrue};
ghost use Rattle.amqp_promise.specs.declared.error.ErrorKind.{ErrorKind};
ghost use Rattle.amqp_uri.specs.Address.{local};
ghost use Rattle.amqp_rules.specs.Talk.{Talk, end_of};
ghost use Rattle.amqp_replay.specs.Ends.{FailedOnce};
ghost use Rattle.amqp_replay.specs.Top.{end_status, IsSilent};
ghost use Rattle.amqp_settings.specs.Config.{no_options};
ghost use Rattle.amqp_both_ends.specs.Logins.{SaysLogins};
ghost use Rattle.amqp_doubled.specs.Doubling.{doubled_printout, doubled_port, doubled_engine, Doubles, IsDoubled};

use crate::commands::plan_of;
use crate::summary::closed_summary;
use amqp_double::Double;
use amqp_engine::IoLoop;
use amqp_joined::JoinedPort;
use amqp_replay::status::{CLOSED, FAILED, NO_MEMORY, RUNNING, SINK_FAILED, SOURCE_FAILED, USAGE};
use amqp_replay::transfer::put_printout;
use amqp_replay::{Printout, Sink};
use amqp_session::{
    AuthProvider, Configuration, ConnectionProperties, DefaultAuthProvider, ErrorKind,
};
use amqp_types::NoMemory;
use amqp_uri::AMQPUri;
use std::alloc::Global;

/// What the double wishes for in its tune.
const NUMBERS: Configuration = Configuration {
    channel_max: 2047,
    frame_max: 131_072,
    heartbeat: 60,
};

/// Joins both ends by the plan of a number, and writes to a sink how much was sent and answered, where
/// the session ended Closed. Gives the exit status.
pub fn double<K: Sink>(alloc: Global, count: u16, sink: &mut K) -> u8
    requires { count ≤ 2000 }
    ensures known { (result ≢ USAGE) × (result ≢ SOURCE_FAILED) }
    ensures closed { (result ≡ CLOSED) ⊎ (result ≡ SINK_FAILED) ⊎ (result ≡ NO_MEMORY) }
    ensures sink_failed { result ≡ SINK_FAILED → FailedOnce (K.faults sink.old) (K.faults sink.new) }
    ensures sink_kept { result ≢ SINK_FAILED → K.faults sink.new ≡ K.faults sink.old }
    ensures silent { IsSilent result → K.held sink.new ≡ K.held sink.old }
    ensures doubled { (result ≡ NO_MEMORY) ⊎ Doubles count (K.held sink.old) (K.held sink.new) result }
{
    match print(alloc, count) {
        Ok(printout) => put_printout(sink, printout),
        Err(NoMemory) => NO_MEMORY,
    }
}

// What is printed of a number.
fn print(alloc: Global, count: u16) -> Result<Printout, NoMemory>
    requires { count ≤ 2000 }
    ensures { IfOk result (IsDoubled count) }
{
    let mut port = port_of(alloc, count)?;
    let printout = print_over(alloc, &mut port);
    drop(port);
    printout
}

// The port to a new double.
fn port_of(alloc: Global, count: u16) -> Result<JoinedPort, NoMemory>
    requires { count ≤ 2000 }
    ensures { IfOk result (λ port. port ≡ doubled_port count) }
{
    let plan = plan_of(alloc, count)?;
    match Double::new(alloc, NUMBERS) {
        Ok(double) => JoinedPort::new(alloc, double, plan),
        Err(e) => {
            drop(plan);
            Err(e)
        }
    }
}

// What is printed of a run of a new engine over the port.
fn print_over(alloc: Global, port: &mut JoinedPort) -> Result<Printout, NoMemory>
    ensures { IfOk result (λ p. (count : ℕ) → count ≤ 2000 → port.old ≡ doubled_port count → IsDoubled count p) }
{
    let uri = AMQPUri::local(alloc)?;
    match DefaultAuthProvider::new(alloc, &uri) {
        Ok(mut provider) => {
            let printout = print_by(alloc, &uri, &mut provider, port);
            drop(provider);
            drop(uri);
            printout
        }
        Err(e) => {
            drop(uri);
            Err(e)
        }
    }
}

// The same, where this provider is asked.
fn print_by<A: AuthProvider>(
    alloc: Global,
    uri: &AMQPUri,
    provider: &mut A,
    port: &mut JoinedPort,
) -> Result<Printout, NoMemory>
    requires can { A.can provider.old }
    requires local { uri.now ≡ local }
    ensures { IfOk result (λ p. (count : ℕ) → count ≤ 2000 → port.old ≡ doubled_port count
        → SaysLogins no_options (A.allows provider.old) → IsDoubled count p) }
{
    let mut engine = new_engine(alloc, uri)?;
    let printout = print_run(alloc, &mut engine, provider, port);
    drop(engine);
    printout
}

// A new engine.
fn new_engine(alloc: Global, uri: &AMQPUri) -> Result<IoLoop, NoMemory>
    requires { uri.now ≡ local }
    ensures { IfOk result (λ e. e ≡ doubled_engine) }
{
    let options = ConnectionProperties::new(alloc)?;
    match IoLoop::new(alloc, uri, options) {
        Ok(engine) => Ok(engine),
        Err(_) => Err(NoMemory),
    }
}

// What is printed of a run of this engine, unless memory was refused in it.
fn print_run<A: AuthProvider>(
    alloc: Global,
    engine: &mut IoLoop,
    provider: &mut A,
    port: &mut JoinedPort,
) -> Result<Printout, NoMemory>
    requires { A.can provider.old }
    ensures { IfOk result (λ p. (count : ℕ) → count ≤ 2000 → port.old ≡ doubled_port count
        → engine.old ≡ doubled_engine → SaysLogins no_options (A.allows provider.old) → IsDoubled count p) }
{
    let turns = port.plan().turns();
    // What is printed tells how the session ended.
    drop(port.run(engine, provider, turns));
    if engine.starved().is_some() {
        return Err(NoMemory);
    }
    print_end(alloc, port.taken(), engine)
}

// What is printed of an engine that ran.
fn print_end(alloc: Global, sent: u64, engine: &mut IoLoop) -> Result<Printout, NoMemory>
    ensures { IfOk result (λ p. p ≡ doubled_printout sent engine.old.talk) }
{
    let status = status_of(engine)?;
    if status == CLOSED {
        Ok(Printout::new(CLOSED, closed_summary(alloc, sent, engine)?))
    } else {
        Ok(Printout::new(status, String::new(alloc)))
    }
}

// The status that goes with the end of a session, unless memory was refused for a copy of its error.
fn status_of(engine: &IoLoop) -> Result<u8, NoMemory>
    ensures status { IfOk result (λ status. status ≡ end_status (end_of engine.now.talk)) }
{
    let end = engine.session().end();
    let refused = is_refused(&end);
    let status = end_status(&end);
    drop(end);
    if refused { Err(NoMemory) } else { Ok(status) }
}

// Whether memory was refused.
fn is_refused(end: &Option<amqp_session::Result<()>>) -> bool
    ensures { IsTrue result ↔ (end.now ≡ Some (Err ErrorKind.NoMemory)) }
{
    match end {
        Some(Err(error)) => *error.kind() == ErrorKind::NoMemory,
        _ => false,
    }
}

// The status that goes with an end.
fn end_status(end: &Option<amqp_session::Result<()>>) -> u8
    ensures { result ≡ end_status end.now }
{
    match end {
        None => RUNNING,
        Some(Ok(())) => CLOSED,
        Some(Err(_)) => FAILED,
    }
}
