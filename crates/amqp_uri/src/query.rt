//! What an address asks for behind its `?`.

ghost use Rattle.std.specs.Prelude.{◌≡◌, ◌↔◌, [], ◌⊎◌, IsTrue, slice_index, IfOk, IfErr, Ok, Err, unwrap_or, option_copied};
ghost use Rattle.amqp_uri.specs.Decoding.{decoded};
ghost use Rattle.amqp_uri.specs.Query.{number, kept_frame_max, query_of};
ghost use Rattle.amqp_uri.specs.Parts.{with_pair};
ghost use Rattle.amqp_uri.specs.declared.fault.UriFault.TheVariants as fault;

use crate::decoding::decoded;
use crate::fault::UriFault;
use crate::mechanism::SASLMechanism;
use amqp_types::Word;
use form_urlencoded::raw_pairs;
use std::alloc::Global;

/// The wishes of an address; none where it does not say.
#[derive(Clone, Copy, Debug, Default, PartialEq, Eq)]
pub struct AMQPQuery {
    /// The greatest frame in octets; 0 is no wish. It is never read as 1 to 4,095, which is less than
    /// every peer takes.
    pub frame_max: Option<u32>,
    /// The greatest number of a channel; 0 is no wish.
    pub channel_max: Option<u16>,
    /// The seconds between two heartbeats; 0 is no wish.
    pub heartbeat: Option<u16>,
    /// The mechanism by which to log in.
    pub auth_mechanism: Option<SASLMechanism>,
}

// How many octets every peer takes as a frame (AMQP 0-9-1, frame-min-size).
const FRAME_MIN_SIZE: u32 = 4096;

impl AMQPQuery {
    /// The greatest frame that is wished, in octets, 0 where none is: 1 to 4,095 octets are fewer than
    /// every peer takes, and count as 4,096.
    pub fn wished_frame_max(&self) -> u32
        ensures { result ≡ kept_frame_max (unwrap_or self.now.frame_max 0) }
    {
        frame_max(self.frame_max.unwrap_or(0))
    }

    // The query of a URL, still encoded.
    pub(crate) fn read(alloc: Global, query: Option<&str>) -> Result<AMQPQuery, UriFault>
        ensures ok { IfOk result (λ read. query_of (option_copied query.entry) ≡ Ok read) }
        ensures fault { IfErr result
            (λ e. (e ≡ fault.NoMemory) ⊎ (query_of (option_copied query.entry) ≡ Err e)) }
    {
        let mut read = AMQPQuery::default();
        for (name, value) in raw_pairs(query.unwrap_or("").as_bytes()) {
            read = read.with_encoded(alloc, name, value)?;
        }
        Ok(read)
    }

    // The query after one more pair, still encoded.
    fn with_encoded(self, alloc: Global, name: &[u8], value: &[u8]) -> Result<AMQPQuery, UriFault>
        ensures ok { IfOk result (λ read. with_pair self (decoded name.now, decoded value.now) ≡ Ok read) }
        ensures fault { IfErr result (λ e. (e ≡ fault.NoMemory)
            ⊎ (with_pair self (decoded name.now, decoded value.now) ≡ Err e)) }
    {
        let name = decoded(alloc, name)?;
        let value = decoded(alloc, value)?;
        self.with_pair(name.as_str(), value.as_str())
    }

    // The query after one more pair. A name that is not known changes nothing.
    fn with_pair(self, name: &str, value: &str) -> Result<AMQPQuery, UriFault>
        ensures { result ≡ with_pair self (name.now, value.now) }
    {
        let mut query = self;
        match name {
            "frame_max" => match wide_number(value) {
                Some(n) => query.frame_max = Some(frame_max(n)),
                None => return Err(UriFault::BadNumber(Word::FrameMax)),
            },
            "channel_max" => match narrow_number(value) {
                Some(n) => query.channel_max = Some(n),
                None => return Err(UriFault::BadNumber(Word::ChannelMax)),
            },
            "heartbeat" => match narrow_number(value) {
                Some(n) => query.heartbeat = Some(n),
                None => return Err(UriFault::BadNumber(Word::Heartbeat)),
            },
            "auth_mechanism" => match SASLMechanism::named(value) {
                Some(mechanism) => query.auth_mechanism = Some(mechanism),
                None => return Err(UriFault::BadMechanism),
            },
            _ => {}
        }
        Ok(query)
    }
}

fn frame_max(n: u32) -> u32
    ensures { result ≡ kept_frame_max n }
{
    if 0 < n && n < FRAME_MIN_SIZE {
        FRAME_MIN_SIZE
    } else {
        n
    }
}

fn begins_with_plus(value: &str) -> bool
    ensures { IsTrue result ↔ (slice_index value.now 0 ≡ 43) }
{
    matches!(value.as_bytes(), [b'+', ..])
}

// The number of 32 bits that decimal digits write; the text has no sign.
fn wide_number(value: &str) -> Option<u32>
    ensures { result ≡ number 32 value.now }
{
    if begins_with_plus(value) {
        return None;
    }
    value.parse::<u32>().ok()
}

// The same of 16 bits.
fn narrow_number(value: &str) -> Option<u16>
    ensures { result ≡ number 16 value.now }
{
    if begins_with_plus(value) {
        return None;
    }
    value.parse::<u16>().ok()
}
