//! What a line asks for.

/// For how many milliseconds an order waits, where its line does not say.
const PATIENCE: u64 = 60_000;

/// The most octets of a body.
const LONGEST: usize = 64 << 20;

/// Messages that are published one after another.
#[derive(Clone, Copy)]
pub struct Messages<'a> {
    pub count: u64,
    pub octets: usize,
    pub queue: &'a str,
}

/// What is waited for.
#[derive(Clone, Copy)]
pub enum Awaited {
    /// That the connection is open.
    Opened,
    /// That nothing waits to go out of what was sent on the channel.
    Sent,
    /// The same of the connection.
    AllSent,
    /// The answers that were kept.
    Answers,
    /// What the broker says of each message.
    Confirmed,
    /// So many messages of a queue.
    Received(u64),
    /// The end of the connection.
    End,
}

/// What is closed, and whether it is waited before until nothing waits to go out.
#[derive(Clone, Copy)]
pub enum Closed {
    Channel,
    ChannelWhenSent,
    Connection,
    ConnectionWhenSent,
}

/// What a line asks for; where it waits, for how many milliseconds at most.
#[derive(Clone, Copy)]
pub enum Order<'a> {
    /// Connects to an address, with options.
    Open(&'a str, &'a str),
    /// Opens a channel, which is the one of all that follows.
    Channel(u64),
    /// Publishes, and lets the answers go.
    Publish(Messages<'a>),
    /// Publishes, and keeps what waits for the answers.
    Keep(Messages<'a>),
    /// Puts the channel into confirm mode.
    Confirm(u64),
    /// Consumes a queue.
    Consume(&'a str),
    Await(Awaited, u64),
    Close(Closed, u64),
    DropChannel,
    DropConnection,
    /// Lets all go that is held of the connection.
    Forget,
    Abandon,
    Listen,
    /// The events that came.
    Events,
    Status,
    Sleep(u64),
}

// A number of milliseconds, where there is one.
fn limit_in(word: Option<&str>) -> Option<u64> {
    match word {
        None => Some(PATIENCE),
        Some(word) => word.parse::<u64>().ok(),
    }
}

// Messages: how many, of which size, to which queue.
fn messages_in(rest: &str) -> Option<Messages<'_>> {
    let mut words = rest.split_whitespace();
    let count = words.next()?.parse::<u64>().ok()?;
    let octets = words.next()?.parse::<usize>().ok()?;
    if octets > LONGEST {
        return None;
    }
    Some(Messages {
        count,
        octets,
        queue: words.next().unwrap_or("q"),
    })
}

// A number, and for how long it is waited.
fn received_in(rest: &str) -> Option<Order<'_>> {
    let mut words = rest.split_whitespace();
    let count = words.next()?.parse::<u64>().ok()?;
    let limit = limit_in(words.next())?;
    Some(Order::Await(Awaited::Received(count), limit))
}

// What is waited for, or closed, by a word.
fn waiting(word: &str, limit: u64) -> Option<Order<'static>> {
    Some(match word {
        "channel" => Order::Channel(limit),
        "confirm" => Order::Confirm(limit),
        "opened" => Order::Await(Awaited::Opened, limit),
        "sent" => Order::Await(Awaited::Sent, limit),
        "all_sent" => Order::Await(Awaited::AllSent, limit),
        "answers" => Order::Await(Awaited::Answers, limit),
        "confirmed" => Order::Await(Awaited::Confirmed, limit),
        "end" => Order::Await(Awaited::End, limit),
        "close_channel" => Order::Close(Closed::Channel, limit),
        "close_channel_when_sent" => Order::Close(Closed::ChannelWhenSent, limit),
        "close" => Order::Close(Closed::Connection, limit),
        "close_when_sent" => Order::Close(Closed::ConnectionWhenSent, limit),
        _ => return None,
    })
}

/// The word of a line, and what stands behind it.
pub fn parts_of(line: &str) -> (&str, &str) {
    match line.split_once(' ') {
        Some((word, rest)) => (word, rest.trim()),
        None => (line, ""),
    }
}

/// What a line asks for.
pub fn order_in(line: &str) -> Option<Order<'_>> {
    let (word, rest) = parts_of(line);
    match word {
        "open" => {
            let (uri, options) = parts_of(rest);
            Some(Order::Open(uri, options))
        }
        "publish" => Some(Order::Publish(messages_in(rest)?)),
        "keep" => Some(Order::Keep(messages_in(rest)?)),
        "consume" => Some(Order::Consume(rest)),
        "received" => received_in(rest),
        "drop_channel" => Some(Order::DropChannel),
        "drop_connection" => Some(Order::DropConnection),
        "forget" => Some(Order::Forget),
        "abandon" => Some(Order::Abandon),
        "listen" => Some(Order::Listen),
        "events" => Some(Order::Events),
        "status" => Some(Order::Status),
        "sleep" => Some(Order::Sleep(rest.parse::<u64>().ok()?)),
        _ => waiting(word, limit_in(rest.split_whitespace().next())?),
    }
}
