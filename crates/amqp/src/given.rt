//! What options say to both, as values.

use amqp_client::Stop;
use amqp_tools::{Framing, Given, Opt, count_of, has, value_of};

/// The greatest number of octets of a body, where none is said: 128 MiB.
const MOST: u64 = 134_217_728;

/// The number that an option says; none where it was not given.
pub fn number(given: &[Given<'_>], option: Opt) -> Result<Option<u64>, Stop> {
    match value_of(given, option) {
        None => Ok(None),
        Some(word) => match count_of(word) {
            Some(count) => Ok(Some(count)),
            None => Err(Stop::Unknown),
        },
    }
}

/// How many octets a body may have.
pub fn most(given: &[Given<'_>]) -> Result<usize, Stop> {
    Ok(
        number(given, Opt::Most)?
            .unwrap_or(MOST)
            .min(u32::MAX as u64) as usize,
    )
}

/// How bodies stand one after another.
pub fn framing(given: &[Given<'_>]) -> Framing {
    if has(given, Opt::Length) {
        Framing::Lengths
    } else if has(given, Opt::Zero) {
        Framing::Zeros
    } else {
        Framing::Lines
    }
}
