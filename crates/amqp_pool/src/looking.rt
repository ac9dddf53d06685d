//! What a session says of the channels of a pool.

ghost use Rattle.std.specs.Prelude.{◌≡◌, ◌<◌, ◌^◌, None, IfSome, IfNone, nat_lt, find, filter, length, vec_capacity};
ghost use Rattle.std.specs.List.{list_all};
ghost use Rattle.amqp_outbox.specs.Lists.{IsFirstAt};
ghost use Rattle.amqp_pool.specs.Lost.{is_lost, is_lost_state, is_ready_state};
ghost use Rattle.amqp_pool.specs.Pooled.{is_same_channel, opened_by};
ghost use Rattle.amqp_pool.specs.Looking.{Sees, is_taken, stays_idle};

use amqp_promise::ChannelState;
use amqp_session::{ChanRef, Session};

/// What is seen of idle channels.
#[derive(Clone, Copy)]
pub enum Seen {
    /// The first that is ready to be used.
    Ready(ChanRef),
    /// None is, and so many are not lost.
    Waiting(usize),
}

/// Whether a channel is lost.
pub fn is_lost(session: &Session, channel: ChanRef) -> bool
    ensures { result ≡ is_lost session.now channel }
{
    is_lost_state(session.channel_state(channel))
}

// Whether a channel in this state is lost.
fn is_lost_state(state: ChannelState) -> bool
    ensures { result ≡ is_lost_state state }
{
    !matches!(state, ChannelState::Connected | ChannelState::Reconnecting)
}

// Whether a channel in this state is ready to be used.
fn is_ready_state(state: ChannelState) -> bool
    ensures { result ≡ is_ready_state state }
{
    matches!(state, ChannelState::Connected)
}

/// Looks at idle channels, up to the first that is ready.
pub fn look(session: &Session, idle: &[ChanRef]) -> Seen
    requires few { length idle.now < 2 ^ 16 }
    ensures { Sees session.now idle.now result }
{
    let mut waiting = 0;
    'idle: for channel in idle {
        let state = session.channel_state(*channel);
        if is_ready_state(state) {
            return Seen::Ready(*channel);
        }
        if !is_lost_state(state) {
            waiting += 1;
        }
    }
    Seen::Waiting(waiting)
}

/// Lets the lost ones of idle channels go, and the one that is taken.
pub fn sweep(session: &Session, idle: &mut Vec<ChanRef>, taken: Option<ChanRef>)
    ensures items { idle.new.items ≡ filter (stays_idle session.now taken) idle.old.items }
    ensures capacity { vec_capacity idle.new ≡ vec_capacity idle.old }
{
    let mut kept = 0;
    'idle: for place in 0..idle.len() {
        let channel = idle[place];
        if stays_idle(session, channel, taken) {
            idle[kept] = channel;
            kept += 1;
        }
    }
    idle.truncate(kept);
}

// Whether a channel stays, where this one is taken.
fn stays_idle(session: &Session, channel: ChanRef, taken: Option<ChanRef>) -> bool
    ensures { result ≡ stays_idle session.now taken channel }
{
    !is_lost(session, channel) && !is_taken(taken, channel)
}

// Whether a channel is the one that is taken.
fn is_taken(taken: Option<ChanRef>, channel: ChanRef) -> bool
    ensures { result ≡ is_taken taken channel }
{
    match taken {
        Some(taken) => is_same(taken, channel),
        None => false,
    }
}

// Whether these name one channel.
fn is_same(one: ChanRef, other: ChanRef) -> bool
    ensures { result ≡ is_same_channel one other }
{
    one.id == other.id && one.opened == other.opened
}

/// The place of a channel in a list, where it is there.
pub fn place_of(channels: &[ChanRef], wanted: ChanRef) -> Option<usize>
    ensures place { IfSome result (λ i. IsFirstAt (is_same_channel wanted) i channels.now) }
    ensures none { IfNone result (find (is_same_channel wanted) channels.now ≡ None) }
{
    'channels: for i in 0..channels.len() {
        if is_same(wanted, channels[i]) {
            return Some(i);
        }
    }
    None
}

/// Whether each of these channels was opened by a promise below a bound.
pub fn are_opened_below(channels: &[ChanRef], bound: u64) -> bool
    ensures { result ≡ list_all (λ r. nat_lt (opened_by r) bound) channels.now }
{
    channels.iter().all(|channel| opened_by(*channel) < bound)
}

/// Whether each of these promises is below a bound.
pub fn are_below(promises: &[u64], bound: u64) -> bool
    ensures { result ≡ list_all (λ n. nat_lt n bound) promises.now }
{
    promises.iter().all(|promise| *promise < bound)
}

// The promise that opened a channel.
fn opened_by(channel: ChanRef) -> u64
    ensures { result ≡ opened_by channel }
{
    channel.opened.unwrap_or(0)
}
