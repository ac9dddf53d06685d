//! Connecting to the first of several addresses that is reached.

ghost use Rattle.std.specs.Prelude.{◌≡◌, ◌≤◌, ◌<◌, [], None, IfErr, IfOk, IfSome, length};
ghost use Rattle.lapin_connection.specs.Connecting.{HasBegunTo, HasReached};

use crate::connection::Connection;
use crate::patience::Patience;
use crate::spawner::Spawner;
use amqp_session::{ConnectionProperties, Error, ErrorKind, IoFault, Result};
use amqp_socket::Cause;
use amqp_uri::AMQPUri;
use std::alloc::Global;
use std::sync::Wait;
use std::thread::Threads;
use std::time::{Clock, Duration};

/// For how long addresses are tried, all together, in milliseconds.
const PATIENCE: u64 = 10_000;

/// Why none of several addresses was reached.
#[derive(Drop)]
pub struct Unreached {
    /// Which of them was tried last, counted from 0; none, where there are none.
    pub last: Option<usize>,
    /// Why its link failed, as its port says, where the runtime tells it.
    pub cause: Cause,
    /// How it was answered.
    pub error: Error,
}

impl Connection {
    /// Connects to each of these addresses, one after the other, until a connection is open, which it gives: for 10
    /// seconds, all together, of which each has an equal share of what is left. Else the error tells of the one that
    /// was tried last. The options are made anew for each; with delays among them, an address that refuses is asked
    /// again, as long as its share lasts. The connection keeps its journal, as of each `connect_` call.
    #[tactic(auto, using(crate::proofs::Begun::has_reached))]
    pub fn connect_any<S: Spawner, R: Clock + Threads + Wait + Copy + Send + 'static, O>(
        rt: R,
        alloc: Global,
        uris: &[AMQPUri],
        options: O,
        runtime: &mut S,
    ) -> std::result::Result<Connection, Unreached>
    where
        O: Fn() -> Result<ConnectionProperties> + Drop,
        requires { O.IsAlwaysCallable options }
        ensures reached { IfOk result (HasReached (S.asked runtime.new) uris.now) }
        ensures last { IfErr result (λ u. IfSome u.last (λ n. n < length uris.now)) }
        ensures none { IfErr result (λ u. u.last ≡ None → uris.now ≡ []) }
        ensures count { S.refusals runtime.old ≤ S.refusals runtime.new }
    {
        let mut cause = Cause::Nothing;
        let mut error: Error = ErrorKind::IOError(IoFault::Refused).into();
        if uris.is_empty() {
            return Err(Unreached {
                last: None,
                cause,
                error,
            });
        }
        let patience = Patience::of(&rt, Duration::from_millis(PATIENCE));
        let mut last = 0;
        'tried: for n in 0..uris.len() {
            let left = patience.left(&rt).unwrap_or(Duration::ZERO);
            if left.is_zero() && n > 0 {
                break 'tried;
            }
            last = n;
            let share = share(left, uris.len() - n);
            match reach(rt, alloc, &uris[n], options(), share, runtime) {
                Ok(connection) => {
                    drop(error);
                    return Ok(connection);
                }
                Err(why) => error = why,
            }
            cause = cause_of(runtime);
        }
        Err(Unreached {
            last: Some(last),
            cause,
            error,
        })
    }
}

// What each of so many has of this time.
fn share(left: Duration, count: usize) -> Duration {
    let count = u32::try_from(count).unwrap_or(u32::MAX);
    left.checked_div(count).unwrap_or(left)
}

// Why the last link failed. One that was given up was not there, or not open, in time.
fn cause_of<S: Spawner>(runtime: &S) -> Cause {
    match runtime.cause() {
        Cause::Abandoned => Cause::TimedOut,
        cause => cause,
    }
}

// Connects to an address, and gives the connection once it is open, before so long has passed.
fn reach<S: Spawner, R: Clock + Threads + Wait + Copy + Send + 'static>(
    rt: R,
    alloc: Global,
    uri: &AMQPUri,
    options: Result<ConnectionProperties>,
    limit: Duration,
    runtime: &mut S,
) -> Result<Connection>
    ensures begun { IfOk result (HasBegunTo (S.asked runtime.new) uri.now) }
    ensures count { S.refusals runtime.old ≤ S.refusals runtime.new }
{
    let connection = connect(rt, alloc, uri, options?, runtime)?;
    match opened_within(&rt, &connection, limit) {
        Some(Ok(())) => Ok(connection),
        Some(Err(error)) => {
            let _told = connection.abandon();
            drop(connection);
            Err(error)
        }
        None => Err(given_up(&rt, connection)),
    }
}

// Waits for so long at most until a connection is open.
fn opened_within<R: Wait + Clock>(
    rt: &R,
    connection: &Connection,
    limit: Duration,
) -> Option<Result<()>> {
    match connection.opened() {
        Ok(opened) => opened.wait_for(rt, limit),
        Err(refused) => Some(Err(refused.into())),
    }
}

// Gives a connection up that was not open in time, and says how it ended, where its port can be told that nobody waits
// for it: it ends at once then.
fn given_up<R: Wait>(rt: &R, connection: Connection) -> Error {
    if !connection.abandon() {
        return ErrorKind::IOError(IoFault::Refused).into();
    }
    match connection.run(rt) {
        Ok(()) => ErrorKind::IOError(IoFault::Refused).into(),
        Err(error) => error,
    }
}

// Connects to an address.
#[tactic(auto, using(crate::proofs::Begun::has_begun_to))]
fn connect<S: Spawner, R: Threads + Wait + Clock + Copy + Send + 'static>(
    rt: R,
    alloc: Global,
    uri: &AMQPUri,
    options: ConnectionProperties,
    runtime: &mut S,
) -> Result<Connection>
    ensures begun { IfOk result (HasBegunTo (S.asked runtime.new) uri.now) }
    ensures count { S.refusals runtime.old ≤ S.refusals runtime.new }
{
    match uri.try_clone(alloc) {
        Ok(uri) => Connection::connect_uri_with_runtime(rt, alloc, uri, options, runtime),
        Err(refused) => {
            drop(options);
            Err(refused.into())
        }
    }
}
