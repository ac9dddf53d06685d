//! The options of a connection.

use crate::stop::Stop;
use amqp_session::ConnectionProperties;
use lapin_connection::ConnectionBuilder;
use std::alloc::Global;

/// How a connection is to be: `recover`, with delays where `delays=MS,MS` says them, a limit on what waits
/// (`outbox=OCTETS`), for how long what was sent on a channel that was dropped may wait (`drop_limit=MS`), and when
/// its journal begins anew (`settles=OCTETS`, 0 for never).
#[derive(Drop)]
pub struct Options {
    recovers: bool,
    delays: Option<Vec<u64>>,
    outbox: Option<u64>,
    drop_limit: Option<u64>,
    settles: Option<u64>,
}

// Delays with commas between.
fn delays_in(alloc: Global, text: &str) -> Result<Vec<u64>, Stop> {
    let mut delays = Vec::new(alloc);
    for word in text.split(',') {
        match word.parse::<u64>() {
            Ok(delay) if delays.push(delay).is_ok() => {}
            Ok(_) => return Err(Stop::NoMemory),
            Err(_) => return Err(Stop::Unknown),
        }
    }
    Ok(delays)
}

// A number.
fn number_in(text: &str) -> Result<Option<u64>, Stop> {
    match text.parse::<u64>() {
        Ok(number) => Ok(Some(number)),
        Err(_) => Err(Stop::Unknown),
    }
}

impl Options {
    /// The options that words are.
    pub fn read(alloc: Global, text: &str) -> Result<Options, Stop> {
        let mut options = Options {
            recovers: false,
            delays: None,
            outbox: None,
            drop_limit: None,
            settles: None,
        };
        for word in text.split_whitespace() {
            options.take(alloc, word)?;
        }
        Ok(options)
    }

    // One word more.
    fn take(&mut self, alloc: Global, word: &str) -> Result<(), Stop> {
        match word.split_once('=') {
            None if word == "recover" => self.recovers = true,
            Some(("delays", text)) => self.delays = Some(delays_in(alloc, text)?),
            Some(("outbox", text)) => self.outbox = number_in(text)?,
            Some(("drop_limit", text)) => self.drop_limit = number_in(text)?,
            Some(("settles", text)) => self.settles = number_in(text)?,
            _ => return Err(Stop::Unknown),
        }
        Ok(())
    }

    // What the session is told of them.
    fn properties(&mut self, alloc: Global) -> Result<ConnectionProperties, Stop> {
        let mut properties = ConnectionProperties::new(alloc)?;
        if let Some(delays) = self.delays.take() {
            properties = properties.with_backoff(delays);
        }
        if let Some(outbox) = self.outbox {
            properties = properties.with_outbox_limit(outbox);
        }
        if self.recovers {
            properties = properties.enable_auto_recover(alloc)?;
        }
        Ok(properties)
    }

    /// A builder with these options.
    pub fn apply<S: Drop>(
        mut self,
        alloc: Global,
        builder: ConnectionBuilder<S>,
    ) -> Result<ConnectionBuilder<S>, Stop> {
        let properties = self.properties(alloc)?;
        let builder = builder
            .with_properties(properties)
            .with_drop_limit(self.drop_limit.unwrap_or(60_000));
        Ok(match self.settles {
            None => builder.settling_after(1 << 20),
            Some(0) => builder.keeping_the_journal(),
            Some(octets) => builder.settling_after(octets),
        })
    }
}
