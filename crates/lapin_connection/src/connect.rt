//! Connecting.

ghost use Rattle.std.specs.Prelude.{◌≡◌, ◌≤◌, ◌⊎◌, IfErr, IfOk, OnOk, None, Ok, Err, Result as Outcome};
ghost use Rattle.amqp_types.specs.Counts.{Rose};
ghost use Rattle.amqp_uri.specs.Address.{address_of_text};
ghost use Rattle.amqp_uri.specs.declared.fault.UriFault.{UriFault as Fault};
ghost use Rattle.amqp_uri.specs.declared.fault.UriFault.TheVariants as fault;
ghost use Rattle.amqp_uri.specs.declared.uri.AMQPUri.{AMQPUri as Uri};
ghost use Rattle.lapin_connection.specs.Connecting.{Connects, ConnectsBy, asking, HasBegun, HasBegunBy};
ghost use Rattle.lapin_connection.specs.Handles.{settling_of, engine_begun};

use crate::connection::Connection;
use crate::errors::{error_of_address, error_of_start};
use crate::live::{LoopJob, start_thread};
use crate::nudge::Nudge;
use crate::spawner::Spawner;
use crate::upkeep::Upkeep;
use amqp_engine::{IoLoop, Port};
use amqp_hub::Hub;
use amqp_session::{AuthProvider, ConnectionProperties, ErrorKind, ProviderChoice, Result};
use amqp_uri::{AMQPUri, UriFault};
use std::alloc::Global;
use std::sync::Wait;
use std::thread::Threads;
use std::time::Clock;

// The hub of a new engine, which has asked this port for its first link.
fn hub_over<P: Port>(
    alloc: Global,
    uri: &AMQPUri,
    options: ConnectionProperties,
    port: &mut P,
) -> Result<Hub>
    ensures engine { IfOk result (λ h. h.engine ≡ asking uri.now options.plain) }
    ensures only { IfErr result (λ e. e ≡ ErrorKind.NoMemory) }
    ensures faults { P.faults port.old ≤ P.faults port.new }
{
    let engine = IoLoop::new(alloc, uri, options)?;
    Hub::new(alloc, engine, port)
}

// A connection over this port, whose loop is to be started.
fn over<P: Port>(
    alloc: Global,
    uri: &AMQPUri,
    options: ConnectionProperties,
    port: &mut P,
    nudge: Nudge,
    upkeep: Upkeep,
) -> Result<Connection>
    ensures settles { IfOk result (λ c. settling_of c ≡ upkeep.settles_after) }
    ensures begun { IfOk result (λ c. engine_begun c ≡ asking uri.now options.plain) }
    ensures only { IfErr result (λ e. e ≡ ErrorKind.NoMemory) }
    ensures faults { P.faults port.old ≤ P.faults port.new }
{
    let hub = hub_over(alloc, uri, options, port)?;
    Connection::over(alloc, hub, nudge, upkeep)
}

// What runs a connection over a port, where the provider that was chosen for its address answers the server.
fn job_of<C: ProviderChoice, P: Port + Drop>(
    alloc: Global,
    uri: &AMQPUri,
    choice: C,
    port: P,
    connection: &Connection,
) -> Result<LoopJob<P, C::Provider>>
    requires { C.can choice }
    ensures chosen { IfOk result (λ job. C.chosen choice uri.now job.provider) }
    ensures can { IfOk result (λ job. C.Provider.can job.provider) }
    ensures only { IfErr result (λ e. e ≡ ErrorKind.NoMemory) }
{
    let shared = connection.share()?;
    let provider = choice.provider(alloc, uri)?;
    Ok(LoopJob::new(alloc, port, provider, shared)?)
}

// Starts what runs a connection.
fn start<S: Spawner, A: AuthProvider + 'static, R: Threads + Wait + Clock + Copy + Send + 'static>(
    rt: R,
    job: LoopJob<S::P, A>,
    spawner: &mut S,
) -> Result<()>
    requires { A.can job.provider }
    ensures count { S.refusals spawner.old ≤ S.refusals spawner.new }
    ensures refused { Connects (S.refusals spawner.old) (S.refusals spawner.new) result }
    ensures started { OnOk result (Rose (S.loops spawner.old) (S.loops spawner.new)) }
    ensures asked { S.asked spawner.new ≡ S.asked spawner.old }
{
    match spawner.spawn(
        move ||
            requires { A.can job.provider }
        { start_thread(rt, job) },
    ) {
        Ok(started) => {
            drop(started);
            Ok(())
        }
        Err(fault) => Err(error_of_start(fault).into()),
    }
}

// Connects over a port to an address.
fn connect_over<C, S: Spawner, R: Threads + Wait + Clock + Copy + Send + 'static>(
    rt: R,
    alloc: Global,
    uri: &AMQPUri,
    options: ConnectionProperties<C>,
    upkeep: Upkeep,
    port: (S::P, Nudge),
    runtime: &mut S,
) -> Result<Connection>
where
    C: ProviderChoice,
    C::Provider: 'static,
    requires { C.can options.choice }
    ensures settles { IfOk result (λ c. settling_of c ≡ upkeep.settles_after) }
    ensures begun { IfOk result (λ c. engine_begun c ≡ asking uri.now options.plain) }
    ensures count { S.refusals runtime.old ≤ S.refusals runtime.new }
    ensures refused { Connects (S.refusals runtime.old) (S.refusals runtime.new) result }
    ensures started { OnOk result (Rose (S.loops runtime.old) (S.loops runtime.new)) }
    ensures asked { S.asked runtime.new ≡ S.asked runtime.old }
{
    let (mut port, nudge) = port;
    let (options, choice) = options.into_parts();
    let connection = over(alloc, uri, options, &mut port, nudge, upkeep)?;
    let job = job_of(alloc, uri, choice, port, &connection)?;
    start(rt, job, runtime)?;
    Ok(connection)
}

// Connects to an address, and does by itself what is said.
#[tactic(auto, using(crate::proofs::Begun::connects_since, crate::proofs::Begun::has_begun_in))]
pub(crate) fn connect_to<C, S: Spawner, R: Threads + Wait + Clock + Copy + Send + 'static>(
    rt: R,
    alloc: Global,
    uri: &AMQPUri,
    options: ConnectionProperties<C>,
    upkeep: Upkeep,
    runtime: &mut S,
) -> Result<Connection>
where
    C: ProviderChoice,
    C::Provider: 'static,
    requires { C.can options.choice }
    ensures settles { IfOk result (λ c. settling_of c ≡ upkeep.settles_after) }
    ensures begun { IfOk result (HasBegun (S.asked runtime.new) uri.now options.plain) }
    ensures count { S.refusals runtime.old ≤ S.refusals runtime.new }
    ensures refused { Connects (S.refusals runtime.old) (S.refusals runtime.new) result }
    ensures started { OnOk result (Rose (S.loops runtime.old) (S.loops runtime.new)) }
{
    match runtime.port(uri) {
        Ok(port) => connect_over(rt, alloc, uri, options, upkeep, port, runtime),
        Err(fault) => {
            drop(options);
            Err(error_of_start(fault).into())
        }
    }
}

impl Connection {
    /// Connects to a server by this runtime: to the address that a text is, or to an address. The connection
    /// opens by and by: wait for `opened` before the first command.
    #[tactic(auto, using(crate::proofs::Begun::has_begun_by))]
    pub fn connect_with_runtime<
        U: Connect,
        C,
        S: Spawner,
        R: Threads + Wait + Clock + Copy + Send + 'static,
    >(
        rt: R,
        alloc: Global,
        uri: U,
        options: ConnectionProperties<C>,
        runtime: &mut S,
    ) -> Result<Connection>
    where
        C: ProviderChoice,
        C::Provider: 'static,
        requires { C.can options.choice }
        ensures settles { IfOk result (λ c. settling_of c ≡ None) }
        ensures count { S.refusals runtime.old ≤ S.refusals runtime.new }
        ensures refused { ConnectsBy (U.known uri) (S.refusals runtime.old) (S.refusals runtime.new) result }
        ensures started { OnOk result (Rose (S.loops runtime.old) (S.loops runtime.new)) }
        ensures begun { IfOk result (HasBegunBy (S.asked runtime.new) (U.known uri) options.plain) }
        ensures untouched { (f : Fault) → U.known uri ≡ Err f → runtime.new ≡ runtime.old }
    {
        match uri.address(alloc) {
            Ok(uri) => connect_to(rt, alloc, &uri, options, Upkeep::keeping(), runtime),
            Err(fault) => {
                drop(options);
                Err(error_of_address(fault).into())
            }
        }
    }

    /// Connects to an address, by this runtime.
    pub fn connect_uri_with_runtime<
        C,
        S: Spawner,
        R: Threads + Wait + Clock + Copy + Send + 'static,
    >(
        rt: R,
        alloc: Global,
        uri: AMQPUri,
        options: ConnectionProperties<C>,
        runtime: &mut S,
    ) -> Result<Connection>
    where
        C: ProviderChoice,
        C::Provider: 'static,
        requires { C.can options.choice }
        ensures settles { IfOk result (λ c. settling_of c ≡ None) }
        ensures count { S.refusals runtime.old ≤ S.refusals runtime.new }
        ensures refused { Connects (S.refusals runtime.old) (S.refusals runtime.new) result }
        ensures started { OnOk result (Rose (S.loops runtime.old) (S.loops runtime.new)) }
        ensures begun { IfOk result (HasBegun (S.asked runtime.new) uri options.plain) }
    {
        connect_to(rt, alloc, &uri, options, Upkeep::keeping(), runtime)
    }

    /// The same, with its arguments in another order.
    pub fn connector<C, S: Spawner, R: Threads + Wait + Clock + Copy + Send + 'static>(
        rt: R,
        alloc: Global,
        uri: AMQPUri,
        runtime: &mut S,
        options: ConnectionProperties<C>,
    ) -> Result<Connection>
    where
        C: ProviderChoice,
        C::Provider: 'static,
        requires { C.can options.choice }
        ensures settles { IfOk result (λ c. settling_of c ≡ None) }
        ensures count { S.refusals runtime.old ≤ S.refusals runtime.new }
        ensures refused { Connects (S.refusals runtime.old) (S.refusals runtime.new) result }
        ensures started { OnOk result (Rose (S.loops runtime.old) (S.loops runtime.new)) }
        ensures begun { IfOk result (HasBegun (S.asked runtime.new) uri options.plain) }
    {
        connect_to(rt, alloc, &uri, options, Upkeep::keeping(), runtime)
    }
}

/// What names a server to connect to: an address, or the text of one.
pub trait Connect {
    /// The address that it is, or why it is none.
    ghost known: { Self → Outcome Uri Fault };

    /// The address, or why there is none.
    fn address(self, alloc: Global) -> std::result::Result<AMQPUri, UriFault>
        ensures ok { IfOk result (λ uri. known self ≡ Ok uri) }
        ensures fault { IfErr result (λ e. (e ≡ fault.NoMemory) ⊎ (known self ≡ Err e)) };
}

impl Connect for AMQPUri {
    ghost known = { λ uri. Ok uri };

    fn address(self, _alloc: Global) -> std::result::Result<AMQPUri, UriFault> {
        Ok(self)
    }
}

impl Connect for &str {
    ghost known = { λ text. address_of_text text.now };

    fn address(self, alloc: Global) -> std::result::Result<AMQPUri, UriFault> {
        AMQPUri::parse(alloc, self)
    }
}
