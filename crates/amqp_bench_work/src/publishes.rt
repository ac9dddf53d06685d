//! Publishes over a session that is driven call by call.

use crate::driven::{Driven, connect, is_sent, send_all};
use amqp_frame::{Frame, Method, RawMethod};
use amqp_session::{ChanRef, Cmd, Properties, Result, Session};
use amqp_types::{Payload, ShortString};
use std::alloc::Global;

/// So many publishes of bodies of a size, over the first channels in turn.
#[derive(Clone, Copy)]
pub struct Load {
    pub channels: u16,
    pub size: u32,
    pub count: u64,
}

/// How it goes on once all is queued.
#[derive(Clone, Copy)]
pub enum Ending {
    /// All is sent.
    Sent,
    /// We close each channel.
    Closed,
    /// The server blocks before anything is queued, as many methods are sent beside, and it closes each
    /// channel.
    ClosedByServer,
}

// A channel, whichever promise opened it.
fn numbered(id: u16) -> ChanRef {
    ChanRef { id, opened: None }
}

// Opens channels from 1 on.
fn open_channels(driven: &mut Driven, channels: u16) -> Result<()> {
    for id in 1..=channels {
        driven.session.command(Cmd::OpenChannel)?;
        send_all(&mut driven.session);
        driven.frame(Frame::Method(id, Method::ChannelOpenOk))?;
    }
    Ok(())
}

// Publishes a body without properties.
fn publish(alloc: Global, session: &mut Session, id: u16, body: &[u8]) -> Result<()> {
    let method = RawMethod::new(alloc, 60, 40, &[])?;
    let body = Payload::new(alloc, body)?;
    if let Some(properties) = Properties::new(Payload::new(alloc, &[0, 0])?) {
        session.command(Cmd::Publish(numbered(id), method, properties, body))?;
    }
    Ok(())
}

// Sends a method without arguments.
fn send(alloc: Global, session: &mut Session, id: u16) -> Result<()> {
    let method = RawMethod::new(alloc, 60, 40, &[])?;
    session.command(Cmd::Send(numbered(id), method))?;
    Ok(())
}

// Queues all publishes, and where that is wanted as many methods.
fn queue_all(
    alloc: Global,
    session: &mut Session,
    load: Load,
    body: &[u8],
    methods: bool,
) -> Result<()> {
    let mut id = 1u16;
    for _ in 0..load.count {
        if methods {
            send(alloc, session, id)?;
        }
        publish(alloc, session, id, body)?;
        id = if id < load.channels {
            id.saturating_add(1)
        } else {
            1
        };
    }
    Ok(())
}

// Closes channels from 1 on.
fn close_channels(alloc: Global, session: &mut Session, channels: u16) -> Result<()> {
    for id in 1..=channels {
        let text = ShortString::from_vec(Vec::new(alloc));
        session.command(Cmd::CloseChannel(numbered(id), 200, text))?;
    }
    Ok(())
}

// The server blocks.
fn block(alloc: Global, driven: &mut Driven) -> Result<()> {
    let reason = ShortString::from_vec(Vec::new(alloc));
    driven.frame(Frame::Method(0, Method::Blocked(reason)))
}

// The server closes channels from 1 on.
fn server_closes(alloc: Global, driven: &mut Driven, channels: u16) -> Result<()> {
    for id in 1..=channels {
        let text = ShortString::from_vec(Vec::new(alloc));
        let close = Method::ChannelClose(404, text, 0, 0);
        driven.frame(Frame::Method(id, close))?;
    }
    Ok(())
}

// How many of the promises up to the last are answered Sent. It takes the answers.
fn count_sent(session: &mut Session) -> u64 {
    let mut sent = 0u64;
    for number in 0..session.promises() {
        if is_sent(session.answer(number)) {
            sent = sent.saturating_add(1);
        }
    }
    sent
}

// All are queued, then the channels closed where that is wanted, and then what is left is sent.
fn publish_then_end(
    alloc: Global,
    driven: &mut Driven,
    load: Load,
    body: &[u8],
    ending: Ending,
) -> Result<u64> {
    let blocked = matches!(ending, Ending::ClosedByServer);
    connect(alloc, driven)?;
    open_channels(driven, load.channels)?;
    if blocked {
        block(alloc, driven)?;
    }
    queue_all(alloc, &mut driven.session, load, body, blocked)?;
    match ending {
        Ending::Sent => {}
        Ending::Closed => close_channels(alloc, &mut driven.session, load.channels)?,
        Ending::ClosedByServer => server_closes(alloc, driven, load.channels)?,
    }
    send_all(&mut driven.session);
    Ok(count_sent(&mut driven.session))
}

/// Queues so many publishes, closes their channels where that is wanted, and sends what is left. How
/// many were sent; nothing where memory was refused.
pub fn publishes(alloc: Global, load: Load, ending: Ending) -> Option<u64> {
    let Ok(body) = vec![in alloc; 0u8; load.size as usize] else {
        return None;
    };
    let Some(mut driven) = Driven::new(alloc) else {
        return None;
    };
    let sent = publish_then_end(alloc, &mut driven, load, &body, ending);
    drop(driven);
    match sent {
        Ok(sent) => Some(sent),
        Err(_) => None,
    }
}
