//! One link after another.

use crate::client::Client;
use crate::own::Own;
use crate::stop::Stop;
use crate::words::address;
use amqp_session::Error;
use std::alloc::{AllocGlobal, Global};
use std::io::Eprint;
use std::net::{Net, TcpListener, TcpStream};
use std::random::RandomSource;
use std::sync::Wait;
use std::thread::Threads;
use std::time::{Clock, Instant};

/// For how many seconds nothing is tried after each link that was lost or refused.
const DELAYS: [u64; 16] = [1, 2, 4, 8, 16, 32, 60, 60, 60, 60, 60, 60, 60, 60, 60, 60];

/// Who links to a broker, and says so on standard error under this name.
#[derive(Clone, Copy)]
pub struct Links<'a> {
    pub name: &'a str,
    pub uri: &'a str,
}

// Whether it may serve to try again, where that was not done.
fn may_serve(stop: &Stop) -> bool {
    match stop {
        Stop::Failed(error) => error.can_be_recovered(),
        Stop::Silent(..) => true,
        _ => false,
    }
}

// How many seconds have passed since then; more than any limit where the clock can't be read.
fn seconds_since<R: Clock>(rt: &R, then: Option<Instant>) -> u64 {
    match then.map(|then| then.elapsed(rt)) {
        Some(Ok(past)) => past.as_secs(),
        Some(Err(_)) | None => u64::MAX,
    }
}

impl Links<'_> {
    // Says that there is no link, and when the next is tried.
    fn say<R: Eprint>(&self, rt: &R, what: &str, why: &Stop, delay: u64) {
        let name = self.name;
        // Who hears nothing of it sees what comes of it.
        let _said = match why {
            Stop::Failed(error) => eprintln!(rt; "{name}: {what}: {error}; again in {delay} s"),
            Stop::Silent(undone, seconds) => {
                eprintln!(rt;
                    "{name}: {what}: the broker did not {undone} for {seconds} s; again in {delay} s"
                )
            }
            _ => eprintln!(rt; "{name}: {what}; again in {delay} s"),
        };
    }

    // One link.
    fn one<R>(&self, rt: R, alloc: Global, own: &mut Own) -> Result<Client, Stop>
    where
        R: Threads
            + Wait
            + Net<Listener = TcpListener, Stream = TcpStream>
            + Clock
            + RandomSource
            + AllocGlobal
            + Copy
            + Drop
            + Send
            + 'static,
    {
        let uri = address(alloc, self.uri)?;
        Client::open(rt, alloc, uri, own)
    }

    /// The first link. Where there is none, it is tried again until so many seconds have passed.
    pub fn first<R>(
        &self,
        rt: R,
        alloc: Global,
        own: &mut Own,
        seconds: u64,
    ) -> Result<Client, Stop>
    where
        R: Threads
            + Wait
            + Net<Listener = TcpListener, Stream = TcpStream>
            + Clock
            + Eprint
            + RandomSource
            + AllocGlobal
            + Copy
            + Drop
            + Send
            + 'static,
    {
        let begun = Instant::now(&rt).ok();
        let mut delay = 1;
        for _ in rt.forever() {
            let stop = match self.one(rt, alloc, own) {
                Ok(client) => return Ok(client),
                Err(stop) => stop,
            };
            let left = seconds.saturating_sub(seconds_since(&rt, begun));
            if left == 0 || !may_serve(&stop) {
                return Err(stop);
            }
            delay = left.min(delay);
            self.say(&rt, "no link", &stop, delay);
            drop(stop);
            own.pass(&rt, delay)?;
            delay = delay.saturating_mul(2).min(60);
        }
        unreachable!()
    }

    /// Another link, where one is lost by this error. Each delay is waited for, and each try is said.
    pub fn again<R>(
        &self,
        rt: R,
        alloc: Global,
        own: &mut Own,
        error: Error,
    ) -> Result<Client, Stop>
    where
        R: Threads
            + Wait
            + Net<Listener = TcpListener, Stream = TcpStream>
            + Clock
            + Eprint
            + RandomSource
            + AllocGlobal
            + Copy
            + Drop
            + Send
            + 'static,
    {
        let mut why = Stop::Failed(error);
        let mut what = "link lost";
        for delay in DELAYS {
            if !may_serve(&why) {
                return Err(why);
            }
            self.say(&rt, what, &why, delay);
            what = "no link";
            own.pass(&rt, delay)?;
            match self.one(rt, alloc, own) {
                Ok(client) => {
                    drop(why);
                    return Ok(client);
                }
                Err(stop) => why = stop,
            }
        }
        Err(why)
    }
}
