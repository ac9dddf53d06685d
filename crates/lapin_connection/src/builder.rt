//! Connections that are put together first.

ghost use Rattle.std.specs.Prelude.{◌≡◌, ◌≤◌, Some, None, IfSome, IfOk, OnOk, option_map, unwrap_or};
ghost use Rattle.amqp_types.specs.Counts.{Rose};
ghost use Rattle.amqp_settings.specs.Config.{no_options};
ghost use Rattle.lapin_connection.specs.Connecting.{Connects, HasBegun};
ghost use Rattle.lapin_connection.specs.Building.{Builds, ReadsAs, HasBegunAs};
ghost use Rattle.lapin_connection.specs.Handles.{settling_of};

use crate::connect::connect_to;
use crate::connection::Connection;
use crate::errors::error_of_address;
use crate::spawner::Spawner;
use crate::upkeep::Upkeep;
use amqp_session::{ConnectionProperties, ErrorKind, IoFault, ProviderChoice, Result};
use amqp_types::Word;
use amqp_uri::AMQPUri;
use std::alloc::Global;
use std::mem;
use std::sync::Wait;
use std::thread::Threads;
use std::time::Clock;

/// A connection that is put together: the runtime that it keeps, an address, the last that was given, and
/// properties.
#[derive(Drop)]
pub struct ConnectionBuilder<S, C = ()> {
    runtime: S,
    uri: Address,
    properties: Option<ConnectionProperties<C>>,
    upkeep: Upkeep,
}

// What was given as an address.
#[derive(Drop)]
enum Address {
    Unset,
    Uri(AMQPUri),
    Text(String),
}

impl<S> ConnectionBuilder<S> {
    /// Nothing but a runtime. The connection settles by itself, each time that 1 MiB was entered at least.
    pub fn new_with_runtime(runtime: S) -> ConnectionBuilder<S>
        ensures { result ≡ record {
          runtime = runtime;
          uri = Address.Unset;
          properties = None;
          upkeep = record { settles_after = Some 1048576; drop_limit = 60000; backlog_limit = None };
        } }
    {
        ConnectionBuilder {
            runtime,
            uri: Address::Unset,
            properties: None,
            upkeep: Upkeep::settling(),
        }
    }
}

impl<S: Drop, C: Drop> ConnectionBuilder<S, C> {
    /// The same with this address.
    pub fn with_uri(self, uri: AMQPUri) -> ConnectionBuilder<S, C>
        ensures { result ≡ record self { uri = Address.Uri uri } }
    {
        ConnectionBuilder {
            uri: Address::Uri(uri),
            ..self
        }
    }

    /// The same with this text as the address.
    pub fn with_uri_str(self, uri: String) -> ConnectionBuilder<S, C>
        ensures { result ≡ record self { uri = Address.Text uri } }
    {
        ConnectionBuilder {
            uri: Address::Text(uri),
            ..self
        }
    }

    /// The same with these properties, which may choose another provider.
    pub fn with_properties<D>(self, properties: ConnectionProperties<D>) -> ConnectionBuilder<S, D>
        ensures properties { result.properties ≡ Some properties }
        ensures rest { (result.runtime ≡ self.runtime) × (result.uri ≡ self.uri)
            × (result.upkeep ≡ self.upkeep) }
    {
        drop(self.properties);
        ConnectionBuilder {
            runtime: self.runtime,
            uri: self.uri,
            properties: Some(properties),
            upkeep: self.upkeep,
        }
    }

    /// The same, and the connection settles by itself: once the entries of its journal have so many octets, and
    /// about as many as the state of its engine holds, it begins anew.
    pub fn settling_after(self, octets: u64) -> ConnectionBuilder<S, C>
        ensures { result ≡ record self { upkeep = record self.upkeep { settles_after = Some octets } } }
    {
        self.with_upkeep_settling(Some(octets))
    }

    /// The same, and the connection keeps all that happens to it.
    pub fn keeping_the_journal(self) -> ConnectionBuilder<S, C>
        ensures { result ≡ record self { upkeep = record self.upkeep { settles_after = None } } }
    {
        self.with_upkeep_settling(None)
    }

    // The same, which settles after so many octets, if it does by itself.
    fn with_upkeep_settling(self, settles_after: Option<u64>) -> ConnectionBuilder<S, C>
        ensures { result ≡ record self { upkeep = record self.upkeep { settles_after = settles_after } } }
    {
        let upkeep = Upkeep {
            settles_after,
            ..self.upkeep
        };
        ConnectionBuilder { upkeep, ..self }
    }

    /// The same, and a channel that was dropped is closed after so many milliseconds at the latest, whatever was
    /// sent on it and still waits to go out; without that, after a minute.
    pub fn with_drop_limit(self, milliseconds: u64) -> ConnectionBuilder<S, C>
        ensures { result ≡ record self { upkeep = record self.upkeep { drop_limit = milliseconds } } }
    {
        let upkeep = Upkeep {
            drop_limit: milliseconds,
            ..self.upkeep
        };
        ConnectionBuilder { upkeep, ..self }
    }

    /// The same, where at most so many events wait to be taken, and so many frames of each channel: of more the
    /// oldest go. Without that all wait. Of a channel that was opened by the hub all wait too.
    pub fn with_backlog_limit(self, limit: u64) -> ConnectionBuilder<S, C>
        ensures { result ≡ record self { upkeep = record self.upkeep { backlog_limit = Some limit } } }
    {
        let upkeep = Upkeep {
            backlog_limit: Some(limit),
            ..self.upkeep
        };
        ConnectionBuilder { upkeep, ..self }
    }
}

// The error of a builder that was given no address.
fn no_uri() -> ErrorKind
    ensures { result ≡ ErrorKind.IOError (IoFault.Other Word.NoUriGiven) }
{
    ErrorKind::IOError(IoFault::Other(Word::NoUriGiven))
}

impl Address {
    // The address, where one was given that can be used.
    fn read(self, alloc: Global) -> std::result::Result<AMQPUri, ErrorKind>
        ensures { ReadsAs self result }
    {
        match self {
            Address::Unset => Err(no_uri()),
            Address::Uri(uri) => Ok(uri),
            Address::Text(text) => match AMQPUri::parse(alloc, &text) {
                Ok(uri) => Ok(uri),
                Err(fault) => Err(error_of_address(fault)),
            },
        }
    }
}

impl<S: Spawner + Drop, C: ProviderChoice> ConnectionBuilder<S, C>
where
    C::Provider: 'static,
{
    /// Connects, by the runtime that is kept. Without properties it takes those of
    /// `ConnectionProperties::new`. Address and properties are then used up, whatever the answer.
    #[tactic(auto, using(crate::proofs::Begun::has_begun_as))]
    pub fn connect<R: Threads + Wait + Clock + Copy + Send + 'static>(
        &mut self,
        rt: R,
        alloc: Global,
    ) -> Result<Connection>
        requires { IfSome self.old.properties (λ p. C.can p.choice) }
        ensures settles { IfOk result (λ c. settling_of c ≡ self.old.upkeep.settles_after) }
        ensures count { S.refusals self.old.runtime ≤ S.refusals self.new.runtime }
        ensures refused { Builds self.old.uri (S.refusals self.old.runtime) (S.refusals self.new.runtime) result }
        ensures started { OnOk result (Rose (S.loops self.old.runtime) (S.loops self.new.runtime)) }
        ensures begun { IfOk result (HasBegunAs (S.asked self.new.runtime) self.old.uri
            (unwrap_or (option_map (λ p. p.plain) self.old.properties) no_options)) }
        ensures untouched { (self.old.uri ≡ Address.Unset) → self.new.runtime ≡ self.old.runtime }
        ensures used { (self.new.uri ≡ Address.Unset) × (self.new.properties ≡ None) }
        ensures upkeep { self.new.upkeep ≡ self.old.upkeep }
    {
        let address = mem::replace(&mut self.uri, Address::Unset);
        let properties = self.properties.take();
        let uri = match address.read(alloc) {
            Ok(uri) => uri,
            Err(refused) => {
                drop(properties);
                return Err(refused.into());
            }
        };
        self.connect_with(rt, alloc, &uri, properties)
    }

    // Connects with these properties, or with those of nothing said.
    fn connect_with<R: Threads + Wait + Clock + Copy + Send + 'static>(
        &mut self,
        rt: R,
        alloc: Global,
        uri: &AMQPUri,
        properties: Option<ConnectionProperties<C>>,
    ) -> Result<Connection>
        requires { IfSome properties (λ p. C.can p.choice) }
        ensures settles { IfOk result (λ c. settling_of c ≡ self.old.upkeep.settles_after) }
        ensures count { S.refusals self.old.runtime ≤ S.refusals self.new.runtime }
        ensures refused { Connects (S.refusals self.old.runtime) (S.refusals self.new.runtime) result }
        ensures started { OnOk result (Rose (S.loops self.old.runtime) (S.loops self.new.runtime)) }
        ensures begun { IfOk result (HasBegun (S.asked self.new.runtime) uri.now
            (unwrap_or (option_map (λ p. p.plain) properties) no_options)) }
        ensures rest { self.new ≡ record self.old { runtime = self.new.runtime } }
    {
        let upkeep = self.upkeep;
        match properties {
            Some(options) => connect_to(rt, alloc, uri, options, upkeep, &mut self.runtime),
            None => {
                let options = ConnectionProperties::new(alloc)?;
                connect_to(rt, alloc, uri, options, upkeep, &mut self.runtime)
            }
        }
    }
}
