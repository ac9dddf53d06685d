//! Who does what lines ask for, with one connection at a time.

use crate::limit::Limit;
use crate::line::{Line, connection_of, event_text, talk_of};
use crate::options::Options;
use crate::order::{Awaited, Closed, Messages, Order};
use crate::stop::{Stop, text};
use crate::talk::{Talk, Until, short};
use lapin_connection::{ConnectionBuilder, Pending, Spawner};
use std::alloc::Global;
use std::sync::Wait;
use std::thread;
use std::thread::Threads;
use std::time::{Clock, Duration};

/// The reply code of a close without an error.
const SUCCESS: u16 = 200;

/// What is said of a wait that is over before what it waited for was there.
const NOTHING_YET: &str = "nothing yet";

/// Who does what lines ask for.
#[derive(Drop)]
pub struct Driver<S> {
    alloc: Global,
    builder: Option<ConnectionBuilder<S>>,
    line: Option<Line>,
    // the number of the last message that was published
    last: u64,
}

// What is said once something is done, or not in time.
fn done_or_not<R: Wait + Clock>(
    rt: &R,
    alloc: Global,
    pending: Pending<()>,
    limit: Limit,
) -> Result<String, Stop> {
    let answer = match limit.left(rt) {
        Some(left) => pending.wait_for(rt, left),
        None => pending.try_wait(rt),
    };
    match answer {
        Some(Ok(())) => text(alloc, "done"),
        Some(Err(error)) => Err(error.into()),
        None => text(alloc, NOTHING_YET),
    }
}

impl<S: Spawner + Drop> Driver<S> {
    /// Who connects by this runtime.
    pub fn new(alloc: Global, runtime: S) -> Driver<S> {
        Driver {
            alloc,
            builder: Some(ConnectionBuilder::new_with_runtime(runtime)),
            line: None,
            last: 0,
        }
    }

    // Connects to an address with options. The connection before is dropped.
    fn open<R: Threads + Wait + Clock + Copy + Send + 'static>(
        &mut self,
        rt: R,
        uri: &str,
        options: &str,
    ) -> Result<String, Stop> {
        let alloc = self.alloc;
        let options = Options::read(alloc, options)?;
        let uri = text(alloc, uri)?;
        let Some(builder) = self.builder.take() else {
            return Err(Stop::Missing("runtime"));
        };
        let mut builder = options.apply(alloc, builder)?.with_uri_str(uri);
        let connected = builder.connect(rt, alloc);
        self.builder = Some(builder);
        let connection = connected?;
        let end = connection.thread_handle()?;
        let pass = connection.pass(&rt)?;
        self.line = Some(Line {
            connection: Some(connection),
            end,
            pass,
            talks: Vec::new(alloc),
            events: None,
        });
        text(alloc, "begun")
    }

    // Waits until the connection is open.
    fn opened<R: Wait + Clock>(&mut self, rt: &R, limit: Limit) -> Result<String, Stop> {
        let (connection, _) = connection_of(&mut self.line)?;
        let pending = connection.opened()?;
        done_or_not(rt, self.alloc, pending, limit)
    }

    // Opens a channel.
    fn channel<R: Wait + Clock>(&mut self, rt: &R, limit: Limit) -> Result<String, Stop> {
        let alloc = self.alloc;
        let (connection, pass) = connection_of(&mut self.line)?;
        let pending = connection.create_channel(rt, pass)?;
        let answer = match limit.left(rt) {
            Some(left) => pending.wait_for(rt, left),
            None => pending.try_wait(rt),
        };
        drop(pending);
        let Some(answer) = answer else {
            return text(alloc, NOTHING_YET);
        };
        let channel = answer?;
        let said = format!(in alloc; "channel {}", channel.id())?;
        if let Some(line) = &mut self.line {
            line.talks.push(Talk::new(alloc, channel))?;
        }
        Ok(said)
    }

    // Publishes, and says how many messages the connection took.
    fn publish<R: Wait>(
        &mut self,
        rt: &R,
        messages: Messages<'_>,
        keeps: bool,
    ) -> Result<String, Stop> {
        let before = self.last;
        let (talk, pass) = talk_of(&mut self.line)?;
        let published = talk.publish_all(rt, pass, &mut self.last, messages, keeps);
        let told = self.last.saturating_sub(before);
        match published {
            Ok(()) => Ok(format!(in self.alloc; "told {told}")?),
            Err(Stop::Failed(error)) => {
                let said = format!(in self.alloc; "told {told}, then error {error}");
                drop(error);
                Ok(said?)
            }
            Err(stop) => Err(stop),
        }
    }

    // Waits until nothing that was sent waits to go out.
    fn sent<R: Wait + Clock>(&mut self, rt: &R, milliseconds: u64) -> Result<String, Stop> {
        let (talk, _) = talk_of(&mut self.line)?;
        match talk
            .channel
            .wait_until_sent_for(rt, Duration::from_millis(milliseconds))
        {
            Some(Ok(())) => text(self.alloc, "done"),
            Some(Err(error)) => Err(error.into()),
            None => text(self.alloc, NOTHING_YET),
        }
    }

    // The same of the connection.
    fn all_sent<R: Wait + Clock>(&mut self, rt: &R, milliseconds: u64) -> Result<String, Stop> {
        let (connection, _) = connection_of(&mut self.line)?;
        let sent = connection.wait_until_sent_for(rt, Duration::from_millis(milliseconds));
        text(self.alloc, if sent { "done" } else { NOTHING_YET })
    }

    // Hears until the broker has said something of each message, or so many came.
    fn heard<R: Wait + Clock>(
        &mut self,
        rt: &R,
        limit: Limit,
        until: Until,
    ) -> Result<String, Stop> {
        let (talk, pass) = talk_of(&mut self.line)?;
        let done = talk.hear_until(rt, pass, limit, until)?;
        match until {
            Until::Selected => text(self.alloc, if done { "done" } else { NOTHING_YET }),
            Until::Answered => talk.confirmed(),
            Until::Received(_) => talk.delivered(),
        }
    }

    // Waits for the end of the connection.
    fn end<R: Wait + Clock>(&mut self, rt: &R, milliseconds: u64) -> Result<String, Stop> {
        let Some(line) = &self.line else {
            return Err(Stop::Missing("connection"));
        };
        match line.end.wait_for(rt, Duration::from_millis(milliseconds)) {
            Some(Ok(())) => text(self.alloc, "closed"),
            Some(Err(error)) => Err(error.into()),
            None => text(self.alloc, NOTHING_YET),
        }
    }

    fn wait<R: Wait + Clock>(
        &mut self,
        rt: &R,
        awaited: Awaited,
        milliseconds: u64,
    ) -> Result<String, Stop> {
        let limit = Limit::of(rt, milliseconds);
        match awaited {
            Awaited::Opened => self.opened(rt, limit),
            Awaited::Sent => self.sent(rt, milliseconds),
            Awaited::AllSent => self.all_sent(rt, milliseconds),
            Awaited::Answers => talk_of(&mut self.line)?.0.answers(rt, limit),
            Awaited::Confirmed => self.heard(rt, limit, Until::Answered),
            Awaited::Received(count) => self.heard(rt, limit, Until::Received(count)),
            Awaited::End => self.end(rt, milliseconds),
        }
    }

    // Puts the channel into confirm mode.
    fn confirm<R: Wait + Clock>(&mut self, rt: &R, milliseconds: u64) -> Result<String, Stop> {
        let limit = Limit::of(rt, milliseconds);
        let first = self.last.saturating_add(1);
        let (talk, pass) = talk_of(&mut self.line)?;
        talk.select(rt, pass, first)?;
        self.heard(rt, limit, Until::Selected)
    }

    fn consume<R: Wait>(&mut self, rt: &R, queue: &str) -> Result<String, Stop> {
        let (talk, pass) = talk_of(&mut self.line)?;
        talk.consume(rt, pass, queue)?;
        text(self.alloc, "asked")
    }

    // What closes the channel or the connection, and waits for the answer.
    fn closing<R: Wait>(&mut self, rt: &R, closed: Closed) -> Result<Pending<()>, Stop> {
        let reason = short(self.alloc, "OK")?;
        Ok(match closed {
            Closed::Channel => {
                let (talk, pass) = talk_of(&mut self.line)?;
                talk.channel.close(rt, pass, SUCCESS, reason)?
            }
            Closed::ChannelWhenSent => {
                let (talk, pass) = talk_of(&mut self.line)?;
                talk.channel.close_when_sent(rt, pass, SUCCESS, reason)?
            }
            Closed::Connection => {
                let (connection, pass) = connection_of(&mut self.line)?;
                connection.close(rt, pass, SUCCESS, reason)?
            }
            Closed::ConnectionWhenSent => {
                let (connection, pass) = connection_of(&mut self.line)?;
                connection.close_when_sent(rt, pass, SUCCESS, reason)?
            }
        })
    }

    fn close<R: Wait + Clock>(
        &mut self,
        rt: &R,
        closed: Closed,
        milliseconds: u64,
    ) -> Result<String, Stop> {
        let pending = self.closing(rt, closed)?;
        done_or_not(rt, self.alloc, pending, Limit::of(rt, milliseconds))
    }

    fn drop_channel(&mut self) -> Result<String, Stop> {
        let Some(line) = &mut self.line else {
            return Err(Stop::Missing("connection"));
        };
        match line.talks.pop() {
            Some(talk) => drop(talk),
            None => return Err(Stop::Missing("channel")),
        }
        text(self.alloc, "dropped")
    }

    // Drops the connection. What its end is waited for by stays, and so do channels.
    fn drop_connection(&mut self) -> Result<String, Stop> {
        let Some(line) = &mut self.line else {
            return Err(Stop::Missing("connection"));
        };
        match line.connection.take() {
            Some(connection) => drop(connection),
            None => return Err(Stop::Missing("connection")),
        }
        text(self.alloc, "dropped")
    }

    fn forget(&mut self) -> Result<String, Stop> {
        match self.line.take() {
            Some(line) => drop(line),
            None => return Err(Stop::Missing("connection")),
        }
        text(self.alloc, "forgotten")
    }

    fn abandon(&mut self) -> Result<String, Stop> {
        let (connection, _) = connection_of(&mut self.line)?;
        let told = connection.abandon();
        text(self.alloc, if told { "told" } else { "NOT TOLD" })
    }

    fn listen<R: Wait>(&mut self, rt: &R) -> Result<String, Stop> {
        let (connection, pass) = connection_of(&mut self.line)?;
        let listener = connection.events_listener(rt, pass)?;
        if let Some(line) = &mut self.line {
            line.events = Some(listener);
        }
        text(self.alloc, "listens")
    }

    // Says the events that came.
    fn events<R: Wait>(&mut self, rt: &R) -> Result<String, Stop> {
        let alloc = self.alloc;
        let Some(line) = &self.line else {
            return Err(Stop::Missing("connection"));
        };
        let Some(listener) = &line.events else {
            return Err(Stop::Missing("listener"));
        };
        let mut said = String::new(alloc);
        for _ in 0..u64::MAX {
            let Some(event) = listener.next(rt) else {
                break;
            };
            if !said.is_empty() {
                said.push_str(", ")?;
            }
            said.push_str(event_text(alloc, event)?.as_str())?;
        }
        if said.is_empty() {
            said.push_str("none")?;
        }
        Ok(said)
    }

    fn status<R: Wait>(&mut self, rt: &R) -> Result<String, Stop> {
        let (connection, _) = connection_of(&mut self.line)?;
        let status = connection.status()?;
        let state = status.state(rt);
        let blocked = if status.blocked(rt) { ", blocked" } else { "" };
        Ok(format!(in self.alloc; "{state:?}{blocked}")?)
    }

    /// Does what a line asks for, and says what came of it.
    pub fn perform<R: Threads + Wait + Clock + Copy + Send + 'static>(
        &mut self,
        rt: R,
        order: Order<'_>,
    ) -> Result<String, Stop> {
        match order {
            Order::Open(uri, options) => self.open(rt, uri, options),
            Order::Channel(limit) => self.channel(&rt, Limit::of(&rt, limit)),
            Order::Publish(messages) => self.publish(&rt, messages, false),
            Order::Keep(messages) => self.publish(&rt, messages, true),
            Order::Confirm(limit) => self.confirm(&rt, limit),
            Order::Consume(queue) => self.consume(&rt, queue),
            Order::Await(awaited, limit) => self.wait(&rt, awaited, limit),
            Order::Close(closed, limit) => self.close(&rt, closed, limit),
            Order::DropChannel => self.drop_channel(),
            Order::DropConnection => self.drop_connection(),
            Order::Forget => self.forget(),
            Order::Abandon => self.abandon(),
            Order::Listen => self.listen(&rt),
            Order::Events => self.events(&rt),
            Order::Status => self.status(&rt),
            Order::Sleep(milliseconds) => {
                thread::sleep(&rt, Duration::from_millis(milliseconds));
                text(self.alloc, "slept")
            }
        }
    }
}
