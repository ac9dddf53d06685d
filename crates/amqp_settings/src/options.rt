//! What the user of a session says of the client.

ghost use Rattle.std.specs.Prelude.{◌≡◌, ◌<◌, ◌^◌, ℕ, List, IfOk, IfSome, codes, slice_get};
ghost use Rattle.amqp_settings.specs.Config.{no_options, with_locale, with_property, with_name, with_backoff, with_recovery, with_outbox_limit};

use amqp_auth::HandedProvider;
use amqp_types::{AMQPValue, FieldTable, LongString, NoMemory, ShortString};
use std::alloc::Global;
use std::marker::Model;

/// What the client says of itself to the server, beside what every client of this library says: its
/// name, what it can do, and where it runs; and who answers what the server asks of its client, where
/// that is not who the address names: a `ProviderChoice`, which is `()` for the address, or a
/// `HandedProvider`. A session is made of the former alone, and the provider is lent to its calls. A
/// setting that finds no memory gives the rest up.
#[derive(Debug, Drop)]
pub struct ConnectionProperties<C = ()> {
    plain: Options,
    choice: C,
}

impl ConnectionProperties {
    /// The locale `en_US`, no properties, and no provider.
    pub fn new(alloc: Global) -> Result<ConnectionProperties, NoMemory>
        ensures { IfOk result (λ options. options.plain ≡ no_options) }
    {
        let plain = Options::new(alloc)?;
        Ok(ConnectionProperties { plain, choice: () })
    }

    /// What is said of the client.
    pub fn into_plain(self) -> Options
        ensures { result ≡ self.plain }
    {
        self.plain
    }
}

impl<C: Drop> ConnectionProperties<C> {
    /// The same with another locale: the language in which texts of the server are wanted.
    pub fn with_locale(self, locale: ShortString) -> ConnectionProperties<C>
        ensures { result ≡ record self { plain = with_locale locale self.plain } }
    {
        ConnectionProperties {
            plain: self.plain.with_locale(locale),
            choice: self.choice,
        }
    }

    /// The same with a property of the client, which takes the place of one with its key. The
    /// properties `platform` and `capabilities` are this library's own all the same, and so are
    /// `product` and `version` where one of the two is missing.
    pub fn with_client_property(
        self,
        key: ShortString,
        value: LongString,
    ) -> Result<ConnectionProperties<C>, NoMemory>
        ensures { IfOk result (λ options. options ≡ record self { plain = with_property key value self.plain }) }
    {
        match self.plain.with_property(key, value) {
            Ok(plain) => Ok(ConnectionProperties {
                plain,
                choice: self.choice,
            }),
            Err(e) => {
                drop(self.choice);
                Err(e)
            }
        }
    }

    /// The same with a name of the connection, the property `connection_name`, by which RabbitMQ shows
    /// it.
    pub fn with_connection_name(
        self,
        alloc: Global,
        connection_name: LongString,
    ) -> Result<ConnectionProperties<C>, NoMemory>
        ensures { IfOk result (λ options. options ≡ record self { plain = with_name connection_name self.plain }) }
    {
        match self.plain.with_name(alloc, connection_name) {
            Ok(plain) => Ok(ConnectionProperties {
                plain,
                choice: self.choice,
            }),
            Err(e) => {
                drop(self.choice);
                Err(e)
            }
        }
    }

    /// The same with delays, in milliseconds, which take the place of those before. Where a link that was
    /// asked for is refused, the next one is taken, and a link is wanted again when it is over; where none
    /// is left, the session ends. So it is where a link is lost, if `enable_auto_recover` was called. Once
    /// the connection is open, all are left again.
    pub fn with_backoff(self, delays: Vec<u64>) -> ConnectionProperties<C>
        ensures { result ≡ record self { plain = with_backoff delays.items self.plain } }
    {
        ConnectionProperties {
            plain: self.plain.with_backoff(delays),
            choice: self.choice,
        }
    }

    /// The same with delays that are made of those before, of which there are none at first.
    pub fn configure_backoff<F: Fn(Vec<u64>) -> Vec<u64> + Drop>(
        self,
        conf: F,
    ) -> ConnectionProperties<C>
        requires { F.IsAlwaysCallable conf }
        ensures { (before : _) × (after : _) × (before.items ≡ self.plain.delays) × F.post conf before after
            × (result ≡ record self { plain = with_backoff after.items self.plain }) }
    {
        let (delays, plain) = self.plain.take_delays();
        let delays = conf(delays);
        drop(conf);
        ConnectionProperties {
            plain: plain.with_backoff(delays),
            choice: self.choice,
        }
    }

    /// The same, and where its link is lost by an error that another link may not have, the session goes on:
    /// it takes the next delay as where a link is refused, and opens the channels that were open again, with
    /// flow and without confirm mode. Where no delays were given it has 16: 1, 2, 4, 8, 16 and 32 seconds, and
    /// ten times a minute.
    pub fn enable_auto_recover(self, alloc: Global) -> Result<ConnectionProperties<C>, NoMemory>
        ensures { IfOk result (λ options. options ≡ record self { plain = with_recovery self.plain }) }
    {
        match self.plain.with_recovery(alloc) {
            Ok(plain) => Ok(ConnectionProperties {
                plain,
                choice: self.choice,
            }),
            Err(e) => {
                drop(self.choice);
                Err(e)
            }
        }
    }

    /// The same with a limit, in octets, on what may wait to be written. A send or a publish by which more
    /// would wait is refused with `OutboxFull`; nothing else is. What was committed to a link does not
    /// wait any more. Without a limit, only memory limits what waits.
    pub fn with_outbox_limit(self, limit: u64) -> ConnectionProperties<C>
        ensures { result ≡ record self { plain = with_outbox_limit limit self.plain } }
    {
        ConnectionProperties {
            plain: self.plain.with_outbox_limit(limit),
            choice: self.choice,
        }
    }

    /// The same with a provider of authentication, which takes the place of one that was given before.
    pub fn with_auth_provider<A>(self, provider: A) -> ConnectionProperties<HandedProvider<A>>
        ensures plain { result.plain ≡ self.plain }
        ensures provider { result.choice.provider ≡ provider }
    {
        drop(self.choice);
        ConnectionProperties {
            plain: self.plain,
            choice: HandedProvider::new(provider),
        }
    }

    /// What a session is made of, and the choice of who answers: by an address it gives the provider that
    /// is lent to the session's calls.
    pub fn into_parts(self) -> (ConnectionProperties, C)
        ensures plain { result.0.plain ≡ self.plain }
        ensures choice { result.1 ≡ self.choice }
    {
        (
            ConnectionProperties {
                plain: self.plain,
                choice: (),
            },
            self.choice,
        )
    }
}

/// What the user says of the client.
#[derive(Debug, Drop)]
pub struct Options {
    locale: ShortString,
    client_properties: FieldTable,
    delays: Vec<u64>,
    has_delays: bool,
    recover: bool,
    outbox_limit: Option<u64>,
}

// The delays of a session that recovers and to which none were given, in milliseconds.
const DEFAULT_DELAYS: [u64; 16] = [
    1000, 2000, 4000, 8000, 16000, 32000, 60000, 60000, 60000, 60000, 60000, 60000, 60000, 60000,
    60000, 60000,
];

impl Model for Options {
    ghost use Rattle.amqp_settings.specs.Config.{Options};

    ghost Value = { Options };

    ghost use Rattle.std.specs.Coded.{codes};
    ghost use Rattle.amqp_types.specs.ValueCode.{value_code};

    ghost coded = { Prim.hlevel (codes, value_code) };

    ghost view = { λ o. record {
      locale = o.locale;
      properties = o.client_properties;
      delays = o.delays.items;
      has_delays = o.has_delays;
      recover = o.recover;
      outbox_limit = o.outbox_limit;
    } };
}

impl Options {
    fn new(alloc: Global) -> Result<Options, NoMemory>
        ensures { IfOk result (λ options. options ≡ no_options) }
    {
        let locale = ShortString::from_vec(Vec::from_slice(alloc, b"en_US")?);
        Ok(Options {
            locale,
            client_properties: FieldTable::new(alloc),
            delays: Vec::new(alloc),
            has_delays: false,
            recover: false,
            outbox_limit: None,
        })
    }

    /// Equal options.
    pub fn try_clone(&self, alloc: Global) -> Result<Options, NoMemory>
        ensures { IfOk result (λ options. options ≡ self.now) }
    {
        let locale = self.locale.try_clone(alloc)?;
        let client_properties = self.client_properties.try_clone(alloc)?;
        Ok(Options {
            locale,
            client_properties,
            delays: Vec::from_slice(alloc, &self.delays)?,
            has_delays: self.has_delays,
            recover: self.recover,
            outbox_limit: self.outbox_limit,
        })
    }

    fn with_locale(self, locale: ShortString) -> Options
        ensures { result ≡ with_locale locale self }
    {
        Options { locale, ..self }
    }

    fn with_property(self, key: ShortString, value: LongString) -> Result<Options, NoMemory>
        ensures { IfOk result (λ options. options ≡ with_property key value self) }
    {
        let mut client_properties = self.client_properties;
        client_properties.insert(key, AMQPValue::LongString(value))?;
        Ok(Options {
            locale: self.locale,
            client_properties,
            delays: self.delays,
            has_delays: self.has_delays,
            recover: self.recover,
            outbox_limit: self.outbox_limit,
        })
    }

    fn with_name(self, alloc: Global, connection_name: LongString) -> Result<Options, NoMemory>
        ensures { IfOk result (λ options. options ≡ with_name connection_name self) }
    {
        let key = ShortString::from_vec(Vec::from_slice(alloc, b"connection_name")?);
        self.with_property(key, connection_name)
    }

    fn with_backoff(self, delays: Vec<u64>) -> Options
        ensures { result ≡ with_backoff delays.items self }
    {
        Options {
            delays,
            has_delays: true,
            ..self
        }
    }

    // The delays, and the rest.
    fn take_delays(self) -> (Vec<u64>, Options)
        ensures delays { result.0.items ≡ self.delays }
        ensures rest { (delays : List ℕ) → with_backoff delays result.1 ≡ with_backoff delays self }
    {
        let alloc = *self.delays.allocator();
        let rest = Options {
            locale: self.locale,
            client_properties: self.client_properties,
            delays: Vec::new(alloc),
            has_delays: self.has_delays,
            recover: self.recover,
            outbox_limit: self.outbox_limit,
        };
        (self.delays, rest)
    }

    fn with_recovery(self, alloc: Global) -> Result<Options, NoMemory>
        ensures { IfOk result (λ options. options ≡ with_recovery self) }
    {
        if self.has_delays {
            return Ok(Options {
                recover: true,
                ..self
            });
        }
        let delays = Vec::from_slice(alloc, &DEFAULT_DELAYS)?;
        Ok(Options {
            delays,
            recover: true,
            ..self
        })
    }

    fn with_outbox_limit(self, limit: u64) -> Options
        ensures { result ≡ with_outbox_limit limit self }
    {
        Options {
            outbox_limit: Some(limit),
            ..self
        }
    }

    /// Whether the session goes on where its link is lost.
    pub fn recovers(&self) -> bool
        ensures { result ≡ self.now.recover }
    {
        self.recover
    }

    /// How many octets may wait once a send or a publish is told, where that is limited.
    pub fn outbox_limit(&self) -> Option<u64>
        ensures { result ≡ self.now.outbox_limit }
    {
        self.outbox_limit
    }

    /// The delay of this place, in milliseconds, where there are so many.
    pub fn delay(&self, place: usize) -> Option<u64>
        ensures delay { result ≡ slice_get self.now.delays place }
        ensures small { IfSome result (λ delay. place < 2 ^ 63) }
    {
        self.delays.get(place).copied()
    }

    // The language in which texts are wanted.
    pub(crate) fn locale(&self) -> &ShortString
        ensures { result.now ≡ self.now.locale }
    {
        &self.locale
    }

    // What the user says of the client.
    pub(crate) fn client_properties(&self) -> &FieldTable
        ensures { result.now ≡ self.now.properties }
    {
        &self.client_properties
    }
}
