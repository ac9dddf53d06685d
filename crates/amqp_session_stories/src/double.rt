//! A double, and what it answers to a client.

use crate::frames::{octets_of, push_octets};
use crate::looks::{push_word, yes_or_no};
use crate::steps::{judged, parts_of, push_end};
use crate::stories::Done;
use crate::words::{first_of, number_of};
use amqp_double::{Double, DoubleFault};
use amqp_session::Configuration;
use amqp_types::NoMemory;
use std::alloc::Global;

/// The numbers of the double: those of `tune`.
const NUMBERS: Configuration = Configuration {
    channel_max: 2047,
    frame_max: 131_072,
    heartbeat: 60,
};

/// Tells the steps of a double, which is fed at once, or octet by octet.
pub fn told(
    alloc: Global,
    each: bool,
    steps: &[String],
    told: &mut String,
) -> Result<Done, NoMemory> {
    let mut double = Double::new(alloc, NUMBERS)?;
    let done = all(alloc, &mut double, each, steps, told);
    drop(double);
    done
}

fn all(
    alloc: Global,
    double: &mut Double,
    each: bool,
    steps: &[String],
    told: &mut String,
) -> Result<Done, NoMemory> {
    let mut seen = String::new(alloc);
    for step in steps {
        seen.clear();
        let (act, wanted) = parts_of(step.as_str());
        let done = done(alloc, double, each, act, &mut seen)?;
        let done = judged(done, seen.as_str(), wanted);
        if done != Done::Told {
            return push_end(told, step.as_str(), seen.as_str(), done);
        }
    }
    Ok(Done::Told)
}

// Does a step, and puts what is seen into the text.
fn done(
    alloc: Global,
    double: &mut Double,
    each: bool,
    act: &str,
    seen: &mut String,
) -> Result<Done, NoMemory> {
    match first_of(act) {
        ("feeds", names) => feeds(alloc, double, each, names, seen),
        ("says", names) => says(alloc, double, each, names, seen),
        ("output", "") => push_output(double, seen),
        ("closed", "") => push_word(seen, yes_or_no(double.closed())),
        ("sent", count) => sent(double, count),
        _ => Ok(Done::Unknown),
    }
}

// Feeds octets one by one, up to the first that is refused.
fn feed_each(double: &mut Double, bytes: &[u8]) -> Result<(), DoubleFault> {
    for byte in bytes {
        double.feed(&[*byte])?;
    }
    Ok(())
}

// The client says these frames; whether they are heard, or why they are refused, is seen.
fn feeds(
    alloc: Global,
    double: &mut Double,
    each: bool,
    names: &str,
    seen: &mut String,
) -> Result<Done, NoMemory> {
    let Some(bytes) = octets_of(alloc, names)? else {
        return Ok(Done::Unknown);
    };
    let heard = if each {
        feed_each(double, &bytes)
    } else {
        double.feed(&bytes)
    };
    push_heard(seen, heard)?;
    Ok(Done::Seen)
}

fn push_heard(seen: &mut String, heard: Result<(), DoubleFault>) -> Result<(), NoMemory> {
    match heard {
        Ok(()) => seen.push_str("heard")?,
        Err(DoubleFault::Unexpected(number)) => write!(seen, "unexpected {number}")?,
        Err(DoubleFault::BadBytes(place)) => write!(seen, "bad_bytes {place}")?,
        Err(DoubleFault::NoMemory) => return Err(NoMemory),
    }
    Ok(())
}

// The client says these frames; the answer is seen and sent, and whether the connection is closed.
fn says(
    alloc: Global,
    double: &mut Double,
    each: bool,
    names: &str,
    seen: &mut String,
) -> Result<Done, NoMemory> {
    let done = feeds(alloc, double, each, names, seen)?;
    if done != Done::Seen || seen.as_str() != "heard" {
        return Ok(done);
    }
    seen.clear();
    push_output(double, seen)?;
    let count = double.output().len();
    double.sent(count);
    if !double.output().is_empty() {
        seen.push_str(", unsent")?;
    }
    if double.closed() {
        seen.push_str(", closed")?;
    }
    Ok(Done::Seen)
}

// What is to be sent to the client.
fn push_output(double: &Double, seen: &mut String) -> Result<Done, NoMemory> {
    let output = double.output();
    if output.is_empty() {
        return push_word(seen, "nothing");
    }
    push_octets(seen, output)?;
    Ok(Done::Seen)
}

// So many octets were sent.
fn sent(double: &mut Double, count: &str) -> Result<Done, NoMemory> {
    let Some(count) = number_of(count) else {
        return Ok(Done::Unknown);
    };
    let len = double.output().len();
    if count > len as u64 {
        return Ok(Done::Unknown);
    }
    double.sent(count as usize);
    Ok(Done::Told)
}
