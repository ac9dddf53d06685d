//! Who answers the server for a session, and its steps.

use crate::sessions::{session_at, uri_of};
use crate::stories::Done;
use crate::words::number_of;
use crate::{double, steps};
use amqp_session::{
    AuthList, AuthProvider, DefaultAuthProvider, DefaultTokenProvider, Refusal, TokenAuthProvider,
};
use amqp_types::{LongString, NoMemory, Text};
use std::alloc::Global;
use std::sync::atomic::{AtomicU64, Ordering};

// A new token.
fn new_token(alloc: Global) -> Result<LongString, Refusal> {
    match LongString::new(alloc, b"my new valid token") {
        Ok(token) => Ok(token),
        Err(_) => Err(Refusal::NoMemory),
    }
}

// There is no token.
fn no_token(alloc: Global) -> Result<LongString, Refusal> {
    Err(Refusal::Said(Text::new(alloc, "no token today")?))
}

/// Tells the steps of a session that stands there at first: a place, and behind `by` who answers the server; or of
/// a double.
pub fn told(
    alloc: Global,
    place: &str,
    steps: &[String],
    told: &mut String,
) -> Result<Done, NoMemory> {
    match place.split_once(" by ") {
        None if place == "double" => double::told(alloc, false, steps, told),
        None if place == "double_by_octets" => double::told(alloc, true, steps, told),
        None => by_address(alloc, place, "", steps, told),
        Some((place, "no_token")) => by_no_token(alloc, place, steps, told),
        Some((place, "one_token")) => by_one_token(alloc, place, steps, told),
        Some((place, "tokens none")) => by_tokens(alloc, place, None, steps, told),
        Some((place, provider)) => by_name(alloc, place, provider, steps, told),
    }
}

// By tokens that are valid for so many milliseconds, or by an address.
fn by_name(
    alloc: Global,
    place: &str,
    provider: &str,
    steps: &[String],
    told: &mut String,
) -> Result<Done, NoMemory> {
    match provider.strip_prefix("tokens ") {
        Some(time) => match number_of(time) {
            Some(time) => by_tokens(alloc, place, Some(time), steps, told),
            None => Ok(Done::Unknown),
        },
        None => by_address(alloc, place, provider, steps, told),
    }
}

// By an address; where there is none, by that of the broker of this machine.
fn by_address(
    alloc: Global,
    place: &str,
    address: &str,
    steps: &[String],
    told: &mut String,
) -> Result<Done, NoMemory> {
    let Some(uri) = uri_of(alloc, address) else {
        told.push_str(address)?;
        return Ok(Done::Unknown);
    };
    let made = DefaultAuthProvider::new(alloc, &uri);
    drop(uri);
    told_by(alloc, made?, place, steps, told)
}

// By tokens that are valid for so many milliseconds, or for nobody knows how long.
fn by_tokens(
    alloc: Global,
    place: &str,
    time: Option<u64>,
    steps: &[String],
    told: &mut String,
) -> Result<Done, NoMemory> {
    let tokens = DefaultTokenProvider::new(
        alloc,
        move |_token: &LongString| time,
        move || new_token(alloc),
    );
    let provider = TokenAuthProvider::new(alloc, tokens);
    told_by(alloc, provider, place, steps, told)
}

// By tokens, of which there is none.
fn by_no_token(
    alloc: Global,
    place: &str,
    steps: &[String],
    told: &mut String,
) -> Result<Done, NoMemory> {
    let tokens = DefaultTokenProvider::new(
        alloc,
        |_token: &LongString| Some(60_000),
        move || no_token(alloc),
    );
    let provider = TokenAuthProvider::new(alloc, tokens);
    told_by(alloc, provider, place, steps, told)
}

// By a first token that is valid for a minute, and no other.
fn by_one_token(
    alloc: Global,
    place: &str,
    steps: &[String],
    told: &mut String,
) -> Result<Done, NoMemory> {
    let made = AtomicU64::new(0);
    let tokens = DefaultTokenProvider::new(
        alloc,
        |_token: &LongString| Some(60_000),
        move || {
            if made.fetch_add(1, Ordering::SeqCst) == 0 {
                new_token(alloc)
            } else {
                no_token(alloc)
            }
        },
    );
    let provider = TokenAuthProvider::new(alloc, tokens);
    told_by(alloc, provider, place, steps, told)
}

// Tells the steps of a session that this provider answers for.
fn told_by<A: AuthProvider>(
    alloc: Global,
    provider: A,
    place: &str,
    steps: &[String],
    told: &mut String,
) -> Result<Done, NoMemory>
    requires { A.can provider }
{
    let mut provider = provider;
    let done = told_at(alloc, &mut provider, place, steps, told);
    drop(provider);
    done
}

fn told_at<A: AuthProvider>(
    alloc: Global,
    provider: &mut A,
    place: &str,
    steps: &[String],
    told: &mut String,
) -> Result<Done, NoMemory>
    requires { A.can provider.old }
{
    let Some(session) = session_at(alloc, place)? else {
        told.push_str(place)?;
        return Ok(Done::Unknown);
    };
    let mut session = session;
    let mut auths = AuthList::new(alloc);
    let done = steps::told(alloc, &mut session, provider, &mut auths, steps, told);
    drop(auths);
    drop(session);
    done
}
