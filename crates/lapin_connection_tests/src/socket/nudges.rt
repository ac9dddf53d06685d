//! The first command after a turn, and each connection or channel that is dropped, ends the wait of the port.

ghost use Rattle.amqp_hub.specs.Lending.{GoesOn};

use crate::socket::quiet::{ENDS, GOES_ON, QuietSpawner, STANDS, STOPS};
use amqp_hub::Hub;
use amqp_session::{Cmd, ConnectionProperties};
use amqp_types::ShortString;
use lapin_connection::{Channel, Connection, Pass, Pending};
use mio::{Events, Poll, Token, Waker};
use std::alloc::Global;
use std::net::Net;
use std::sync::atomic::{AtomicU64, Ordering};
use std::sync::{Arc, Wait};
use std::test::Fail;
use std::thread;
use std::thread::Threads;
use std::time::{Clock, Duration};

type Outcome<T> = Result<T, Fail>;

// ---- who watches a quiet port

// What hears nudges, and what orders the port. What nudges is held too, since a nudge is lost with the last
// one who holds it.
#[derive(Drop)]
struct Watch {
    waker: Arc<Waker>,
    orders: Arc<AtomicU64>,
    poll: Poll,
    events: Events,
}

impl Watch {
    // Whether there was a nudge since this was asked last.
    fn hears(&mut self) -> Outcome<bool> {
        self.poll
            .poll(&mut self.events, Some(Duration::from_millis(0)))?;
        let mut heard = false;
        for _ in self.events.iter() {
            heard = true;
        }
        Ok(heard)
    }
}

// What nudges what is polled.
fn waker_of(alloc: Global, poll: &Poll) -> Outcome<Arc<Waker>> {
    let waker = Waker::new(poll.registry(), Token(0))?;
    Ok(Arc::new(alloc, waker)?)
}

// The same, and what orders a port to go on.
fn waker_and_orders(alloc: Global, poll: &Poll) -> Outcome<(Arc<Waker>, Arc<AtomicU64>)> {
    let waker = waker_of(alloc, poll)?;
    match Arc::new(alloc, AtomicU64::new(GOES_ON)) {
        Ok(orders) => Ok((waker, orders)),
        Err(refused) => {
            drop(waker);
            Err(refused.into())
        }
    }
}

// Who watches by these. It takes them.
fn watch_by(alloc: Global, poll: Poll, events: Events) -> Outcome<Watch> {
    match waker_and_orders(alloc, &poll) {
        Ok((waker, orders)) => Ok(Watch {
            waker,
            orders,
            poll,
            events,
        }),
        Err(fail) => {
            drop(poll);
            drop(events);
            Err(fail)
        }
    }
}

// Who watches a port that goes on.
fn new_watch<R: Net>(rt: &R, alloc: Global) -> Outcome<Watch> {
    let poll = Poll::new(rt)?;
    match Events::with_capacity(alloc, 4) {
        Ok(events) => watch_by(alloc, poll, events),
        Err(refused) => {
            drop(poll);
            Err(refused.into())
        }
    }
}

// ---- connections over a quiet port

// A connection over a quiet port, a pass of it, and who watches the port.
#[derive(Drop)]
struct Live {
    connection: Connection,
    pass: Pass,
    watch: Watch,
}

// Who gives a quiet port that is watched so.
fn spawner<R: Copy>(rt: R, watch: &Watch) -> Outcome<QuietSpawner<R>> {
    let nudging = Arc::try_clone(&watch.waker)?;
    match Arc::try_clone(&watch.orders) {
        Ok(theirs) => Ok(QuietSpawner::new(rt, nudging, theirs)),
        Err(refused) => {
            drop(nudging);
            Err(refused.into())
        }
    }
}

// A connection by this runtime.
fn connected_by<R: Threads + Wait + Clock + Copy + Send + Drop + 'static>(
    rt: R,
    alloc: Global,
    runtime: &mut QuietSpawner<R>,
) -> Outcome<Connection> {
    let options = ConnectionProperties::new(alloc)?;
    let connection = Connection::connect_with_runtime(
        rt,
        alloc,
        "amqp://localhost",
        options,
        runtime,
    )?;
    Ok(connection)
}

// A connection over a quiet port that is watched so.
fn connected<R: Threads + Wait + Clock + Copy + Send + Drop + 'static>(
    rt: R,
    alloc: Global,
    watch: &Watch,
) -> Outcome<Connection> {
    let mut runtime = spawner(rt, watch)?;
    let connection = connected_by(rt, alloc, &mut runtime);
    drop(runtime);
    connection
}

// The same with a pass. It takes the connection, and who watches.
fn with_pass<R: Wait>(rt: &R, connection: Connection, watch: Watch) -> Outcome<Live> {
    match connection.pass(rt) {
        Ok(pass) => Ok(Live {
            connection,
            pass,
            watch,
        }),
        Err(error) => {
            drop(connection);
            drop(watch);
            Err(error.into())
        }
    }
}

// A connection over a quiet port that goes on, with a pass, and who watches the port.
fn begun<R: Net + Threads + Wait + Clock + Copy + Send + Drop + 'static>(
    rt: R,
    alloc: Global,
) -> Outcome<Live> {
    let watch = new_watch(&rt, alloc)?;
    match connected(rt, alloc, &watch) {
        Ok(connection) => with_pass(&rt, connection, watch),
        Err(fail) => {
            drop(watch);
            Err(fail)
        }
    }
}

// ---- turns

// How many entries the journal has.
fn journal_len<R: Wait>(rt: &R, live: &Live) -> Outcome<usize> {
    let journal = live.connection.journal(rt)?;
    let len = journal.len();
    drop(journal);
    Ok(len)
}

// The loop has taken a turn since this was called. Each turn is an entry.
fn turned<R: Wait + Clock>(rt: &R, live: &Live) -> Outcome<bool> {
    let before = journal_len(rt, live)?;
    for _ in 0..10_000u32 {
        if journal_len(rt, live)? > before {
            return Ok(true);
        }
        thread::sleep(rt, Duration::from_millis(1));
    }
    Ok(false)
}

// The port stands still, so that no turn is taken.
fn stopped<R: Clock>(rt: &R, live: &Live) -> bool {
    live.watch.orders.store(STOPS, Ordering::SeqCst);
    for _ in 0..10_000u32 {
        if live.watch.orders.load(Ordering::SeqCst) == STANDS {
            return true;
        }
        thread::sleep(rt, Duration::from_millis(1));
    }
    false
}

// ---- calls, each after a turn

// Whether the opening of a channel nudges, and so does the drop of what waits for it.
fn opening_nudges<R: Wait>(rt: &R, live: &mut Live) -> Outcome<bool> {
    let opening = live.connection.create_channel(rt, &mut live.pass)?;
    let opens = live.watch.hears();
    drop(opening);
    let opens = opens?;
    let drops = live.watch.hears()?;
    Ok(opens && drops)
}

// A listener comes and goes.
fn listen<R: Wait>(rt: &R, live: &mut Live) -> Outcome<()> {
    let listener = live.connection.events_listener(rt, &mut live.pass)?;
    drop(listener);
    Ok(())
}

// Whether a listener that comes and goes nudges.
fn listening_nudges<R: Wait>(rt: &R, live: &mut Live) -> Outcome<bool> {
    listen(rt, live)?;
    live.watch.hears()
}

// Whether the close of the connection nudges.
fn closing_nudges<R: Wait>(rt: &R, alloc: Global, live: &mut Live) -> Outcome<bool> {
    let text = ShortString::new(alloc, b"")?;
    let closing = live.connection.close(rt, &mut live.pass, 200, text)?;
    drop(closing);
    live.watch.hears()
}

// How many entries a hub has.
#[tactic(auto, using(amqp_hub::proofs::Lending::goes_still))]
fn entries_of(hub: &mut Hub) -> usize
    ensures { GoesOn hub.old hub.new }
{
    hub.entries()
}

// Whether a channel is asked for by the hub.
#[tactic(auto, using(amqp_hub::proofs::Lending::goes_still, amqp_hub::proofs::Lending::goes_called))]
fn opens_by(hub: &mut Hub, pass: &mut Pass) -> bool
    ensures { GoesOn hub.old hub.new }
{
    let told = hub.command(pass, Cmd::OpenChannel);
    let opens = told.is_ok();
    drop(told);
    opens
}

// Whether a look at the hub, which enters nothing, does not nudge, and a command that is given to it does.
fn lending_nudges<R: Wait>(rt: &R, live: &mut Live) -> Outcome<bool> {
    let entries = live.connection.with_hub(rt, |hub| entries_of(hub));
    let looks = entries >= 2 && !live.watch.hears()?;
    let pass = &mut live.pass;
    let opens = live.connection.with_hub(rt, |hub| opens_by(hub, pass));
    Ok(looks && opens && live.watch.hears()?)
}

// Whether each of these calls nudges, where a turn was taken since the one before.
fn calls<R: Wait + Clock>(rt: &R, alloc: Global, live: &mut Live) -> Outcome<bool> {
    let quiet = !live.watch.hears()?;
    let opens = opening_nudges(rt, live)? && turned(rt, live)?;
    let listens = listening_nudges(rt, live)? && turned(rt, live)?;
    let lends = lending_nudges(rt, live)? && turned(rt, live)?;
    let closes = closing_nudges(rt, alloc, live)?;
    Ok(quiet && opens && listens && lends && closes && !live.watch.hears()?)
}

// Whether the drop of a connection nudges. Then the port's input ends.
fn dropping_nudges(live: Live) -> Outcome<bool> {
    let Live {
        connection,
        pass,
        mut watch,
    } = live;
    drop(pass);
    drop(connection);
    let drops = watch.hears();
    watch.orders.store(ENDS, Ordering::SeqCst);
    drop(watch);
    drops
}

// Whether each of the calls nudges, and so does the drop of the connection.
fn each_nudges<R: Net + Threads + Wait + Clock + Copy + Send + Drop + 'static>(
    rt: R,
    alloc: Global,
) -> Outcome<bool> {
    let mut live = begun(rt, alloc)?;
    match calls(&rt, alloc, &mut live) {
        Ok(calls) => {
            let drops = dropping_nudges(live)?;
            Ok(calls && drops)
        }
        Err(fail) => {
            drop(live);
            Err(fail)
        }
    }
}

// ---- calls between two turns

// Whether the call before nudged. Then a listener comes and goes.
fn nudged_and_listens<R: Wait>(rt: &R, live: &mut Live) -> Outcome<bool> {
    let nudged = live.watch.hears()?;
    listen(rt, live)?;
    Ok(nudged)
}

// Whether neither the calls before nor a look at the hub nudged, and the drop of what waits for a channel
// does. It takes that.
fn drop_alone_nudges<R: Wait>(rt: &R, live: &mut Live, opening: Pending<Channel>) -> Outcome<bool> {
    let entries = live.connection.with_hub(rt, |hub| entries_of(hub));
    let heard = live.watch.hears();
    drop(opening);
    let others = !heard? && entries >= 3;
    let drops = live.watch.hears()?;
    Ok(others && drops)
}

// The same where a second channel is opened before, and the drop of what waits for that nudges once more.
fn both_drops_nudge<R: Wait>(rt: &R, live: &mut Live, opening: Pending<Channel>) -> Outcome<bool> {
    match live.connection.create_channel(rt, &mut live.pass) {
        Ok(second) => {
            let first = drop_alone_nudges(rt, live, opening);
            drop(second);
            Ok(first? && live.watch.hears()?)
        }
        Err(error) => {
            drop(opening);
            Err(error.into())
        }
    }
}

// Whether of the calls between two turns the first alone nudges, beside each drop.
fn between_turns<R: Wait>(rt: &R, live: &mut Live) -> Outcome<bool> {
    let quiet = !live.watch.hears()?;
    let opening = live.connection.create_channel(rt, &mut live.pass)?;
    match nudged_and_listens(rt, live) {
        Ok(first) => {
            let drops = both_drops_nudge(rt, live, opening)?;
            Ok(quiet && first && drops)
        }
        Err(fail) => {
            drop(opening);
            Err(fail)
        }
    }
}

// The same twice, with a turn between. Then the port's input ends.
fn between_turns_twice<R: Wait + Clock>(rt: &R, live: &mut Live) -> Outcome<bool> {
    let once = stopped(rt, live) && between_turns(rt, live)?;
    live.watch.orders.store(GOES_ON, Ordering::SeqCst);
    let again = turned(rt, live)? && stopped(rt, live) && between_turns(rt, live)?;
    live.watch.orders.store(ENDS, Ordering::SeqCst);
    Ok(once && again)
}

// The same of a new connection.
fn nudges_by_turns<R: Net + Threads + Wait + Clock + Copy + Send + Drop + 'static>(
    rt: R,
    alloc: Global,
) -> Outcome<bool> {
    let mut live = begun(rt, alloc)?;
    let told = between_turns_twice(&rt, &mut live);
    drop(live);
    told
}

#[test]
fn calls_between_two_turns_nudge_once(rt: HostRuntime) -> Result<(), Fail> {
    assert!(rt; nudges_by_turns(rt, rt.alloc())?);
    Ok(())
}

#[test]
fn a_command_after_a_turn_and_each_drop_nudges(rt: HostRuntime) -> Result<(), Fail> {
    assert!(rt; each_nudges(rt, rt.alloc())?);
    Ok(())
}

// ---- the end

// Whether a connection that is let run nudges, where the port's input ends before.
fn run_nudges<R: Net + Threads + Wait + Clock + Copy + Send + Drop + 'static>(
    rt: R,
    alloc: Global,
) -> Outcome<bool> {
    let Live {
        connection,
        pass,
        mut watch,
    } = begun(rt, alloc)?;
    drop(pass);
    watch.orders.store(ENDS, Ordering::SeqCst);
    drop(connection.run(&rt));
    let heard = watch.hears();
    drop(watch);
    heard
}

#[test]
fn who_lets_a_connection_run_nudges(rt: HostRuntime) -> Result<(), Fail> {
    assert!(rt; run_nudges(rt, rt.alloc())?);
    Ok(())
}
