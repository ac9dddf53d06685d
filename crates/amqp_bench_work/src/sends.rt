//! Sends over a session that is driven call by call.

use crate::driven::{Driven, connect, is_sent, send_all};
use amqp_frame::{Frame, Method, RawMethod};
use amqp_session::{ChanRef, Cmd, Result, Session};
use std::alloc::Global;

// Opens channel 1, and gives the promise that opened it.
fn open_channel(driven: &mut Driven) -> Result<Option<u64>> {
    let opened = driven.session.command(Cmd::OpenChannel)?;
    send_all(&mut driven.session);
    driven.frame(Frame::Method(1, Method::ChannelOpenOk))?;
    Ok(opened)
}

// Sends a method without arguments, and takes the answer: whether it was sent.
fn send(alloc: Global, session: &mut Session, channel: ChanRef) -> Result<bool> {
    let method = RawMethod::new(alloc, 60, 40, &[])?;
    let promise = session.command(Cmd::Send(channel, method))?;
    send_all(session);
    match promise {
        Some(number) => Ok(is_sent(session.answer(number))),
        None => Ok(false),
    }
}

// Sends so many methods. How many answers were taken.
fn send_each(alloc: Global, driven: &mut Driven, count: u64) -> Result<u64> {
    connect(alloc, driven)?;
    let channel = ChanRef {
        id: 1,
        opened: open_channel(driven)?,
    };
    let mut sent = 0u64;
    for _ in 0..count {
        if send(alloc, &mut driven.session, channel)? {
            sent = sent.saturating_add(1);
        }
    }
    Ok(sent)
}

/// Sends so many methods. How many answers were taken; nothing where memory was refused.
pub fn sends(alloc: Global, count: u64) -> Option<u64> {
    let Some(mut driven) = Driven::new(alloc) else {
        return None;
    };
    let sent = send_each(alloc, &mut driven, count);
    drop(driven);
    match sent {
        Ok(sent) => Some(sent),
        Err(_) => None,
    }
}
