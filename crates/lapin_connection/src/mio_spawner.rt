//! Sockets and threads of the system.

ghost use Rattle.std.specs.Prelude.{◌≡◌, ◌≤◌, Some, OnOk, option_map};
ghost use Rattle.amqp_types.specs.Counts.{Rose};
ghost use Rattle.lapin_connection.specs.declared.spawner.SpawnFault.TheVariants as fault;
ghost use Rattle.lapin_connection.specs.Refusals.{RoseIfRefused};

use crate::nudge::Nudge;
use crate::spawner::{SpawnFault, Spawner, Started};
use amqp_socket::{Cause, MioPort, Watch, address_of};
use amqp_types::NoMemory;
use amqp_uri::AMQPUri;
use std::alloc::Global;
use std::io;
use std::net::Net;
use std::snapshot::Snapshot;
use std::sync::Arc;
use std::time::Clock;

/// Gives sockets and threads of the system.
#[derive(Drop)]
pub struct MioSpawner<R> {
    rt: R,
    alloc: Global,
    // for how long a server may be silent, in milliseconds, if that is bounded
    silence: Option<u64>,
    // what the last port that was given shares with its session
    watch: Option<Arc<Watch>>,
    // the address for which a port was asked for last, as contracts see it
    asked: Option<Snapshot<AMQPUri>>,
    refusals: u64,
    loops: u64,
}

impl<R: Net + Clock + Copy + Drop> MioSpawner<R> {
    /// A spawner that has refused nothing and started nothing.
    pub fn new(rt: R, alloc: Global) -> MioSpawner<R>
        ensures { (result.refusals ≡ 0) × (result.loops ≡ 0) }
    {
        MioSpawner {
            rt,
            alloc,
            silence: None,
            watch: None,
            asked: None,
            refusals: 0,
            loops: 0,
        }
    }

    /// The same, but a link on which the server is silent for so many milliseconds fails, whatever the session
    /// waits for. Where heartbeats are agreed, let it be more than twice their interval.
    pub fn with_silence(self, silence: u64) -> MioSpawner<R>
        ensures counts { (result.refusals ≡ self.refusals) × (result.loops ≡ self.loops) }
        ensures silence { result.silence ≡ Some silence }
    {
        MioSpawner {
            silence: Some(silence),
            ..self
        }
    }

    /// Why the last link failed of the last port that was given, as the port says.
    pub fn cause(&self) -> Cause {
        match &self.watch {
            Some(watch) => watch.cause(),
            None => Cause::Nothing,
        }
    }

    // Why there is no port, where the system answered this.
    fn refuse(&mut self, why: io::ErrorKind) -> SpawnFault
        ensures counted { result ≡ SpawnFault.Refused → Rose self.old.refusals self.new.refusals }
        ensures count { self.old.refusals ≤ self.new.refusals }
        ensures loops { self.new.loops ≡ self.old.loops }
        ensures asked { self.new.asked ≡ self.old.asked }
    {
        if why == io::ErrorKind::OutOfMemory {
            return SpawnFault::NoMemory;
        }
        self.refusals = self.refusals.saturating_add(1);
        SpawnFault::Refused
    }

    // A port to this address, what ends its wait, and what it shares with its session.
    fn made(&self, uri: &AMQPUri) -> io::Result<(MioPort<R>, Nudge, Arc<Watch>)> {
        let watch = Arc::new(self.alloc, Watch::new())?;
        let theirs = Arc::try_clone(&watch)?;
        let ours = Arc::try_clone(&watch)?;
        let address = address_of(uri.authority.host.as_str(), uri.authority.port);
        let (port, waker) = MioPort::new(self.rt, self.alloc, address)?;
        let waker = Arc::new(self.alloc, waker)?;
        Ok((
            self.bounded(port.with_watch(theirs)),
            Nudge::Watched(waker, watch),
            ours,
        ))
    }

    // The same port, with the silence that is bounded.
    fn bounded(&self, port: MioPort<R>) -> MioPort<R> {
        match self.silence {
            Some(silence) => port.with_silence(silence),
            None => port,
        }
    }
}

impl<R: Net + Clock + Copy + Drop + Send + 'static> Spawner for MioSpawner<R> {
    type P = MioPort<R>;

    ghost refusals = { λ s. s.refusals };

    ghost loops = { λ s. s.loops };

    ghost asked = { λ s. option_map (λ uri. uri.value) s.asked };

    fn port(&mut self, uri: &AMQPUri) -> Result<(MioPort<R>, Nudge), SpawnFault>
        ensures count { self.old.refusals ≤ self.new.refusals }
        ensures rose { RoseIfRefused result self.old.refusals self.new.refusals }
        ensures loops { self.new.loops ≡ self.old.loops }
        ensures asked { option_map (λ uri. uri.value) self.new.asked ≡ Some uri.now }
    {
        self.watch = None;
        self.asked = Some(Snapshot::of(uri));
        match self.made(uri) {
            Ok((port, nudge, watch)) => {
                self.watch = Some(watch);
                Ok((port, nudge))
            }
            Err(why) => Err(self.refuse(why.kind())),
        }
    }

    fn spawn<F: FnOnce() -> Result<Started, NoMemory> + Drop>(
        &mut self,
        start: F,
    ) -> Result<Started, SpawnFault>
        requires { F.pre start }
        ensures count { self.old.refusals ≤ self.new.refusals }
        ensures rose { RoseIfRefused result self.old.refusals self.new.refusals }
        ensures started { OnOk result (Rose self.old.loops self.new.loops) }
        ensures asked { self.new.asked ≡ self.old.asked }
    {
        match start() {
            Ok(started) => {
                self.loops = self.loops.saturating_add(1);
                Ok(started)
            }
            Err(NoMemory) => Err(SpawnFault::NoMemory),
        }
    }

    fn cause(&self) -> Cause {
        match &self.watch {
            Some(watch) => watch.cause(),
            None => Cause::Nothing,
        }
    }
}
