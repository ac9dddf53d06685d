//! What is read of a hub, and what it does for what was let go.

ghost use Rattle.std.specs.Prelude.{◌≡◌, IfOk, IfErr, OnOk, All, Some, map, option_map, length, min, drop};
ghost use Rattle.amqp_rules.specs.Talk.{end_of};
ghost use Rattle.amqp_rules.specs.Answers.{HandsOut};
ghost use Rattle.amqp_rules.specs.Queries.{opening};
ghost use Rattle.amqp_hub.specs.Passes.{count_of, made_of, first_foreign, IsForeign, places, gapless};
ghost use Rattle.amqp_hub.specs.Due.{due_of, channel_due, connection_due, listed_due, unlisted_due};

use super::{Ended, Hub, Pass, Tally, entering, passes};
use crate::base::Base;
use crate::due::{Due, Owner};
use amqp_journal::Entry;
use amqp_promise::{ChannelState, ConnectionState};
use amqp_session::{ChanRef, Cmd, ErrorKind, Result, Session};
use std::snapshot::Snapshot;

impl Hub {
    /// The engine's session.
    pub fn session(&self) -> &Session
        ensures { result.now ≡ self.now.engine.talk }
    {
        self.engine.session()
    }

    /// How the session ended, where it has. Where memory for the copy of its error is refused, that is told
    /// in its place.
    pub fn ended(&self) -> Option<Ended>
        ensures { HandsOut (end_of self.now.engine.talk) (option_map (λ e. e.end) result) }
    {
        match self.engine.session().end() {
            Some(end) => Some(Ended { end }),
            None => None,
        }
    }

    /// How many entries there are since the base.
    pub fn entries(&self) -> usize
        ensures { result ≡ length self.now.journal }
    {
        self.journal.len()
    }

    /// The entries since the base, but so many of the first.
    pub fn since(&self, first: usize) -> &[Entry]
        ensures { result.now ≡ drop (min first (length self.now.journal)) self.now.journal }
    {
        let first = first.min(self.journal.len());
        &self.journal[first..]
    }

    /// A copy of the entries since the base.
    pub fn journal(&self) -> Result<Vec<Entry>>
        ensures entries { IfOk result (λ entries. entries.items ≡ self.now.journal) }
        ensures only { IfErr result (λ e. e ≡ ErrorKind.NoMemory) }
    {
        Ok(entering::copied(self.alloc, &self.journal)?)
    }

    /// A copy of the base.
    pub fn base(&self) -> Result<Base>
        ensures base { IfOk result (λ base. base ≡ self.now.base) }
        ensures only { IfErr result (λ e. e ≡ ErrorKind.NoMemory) }
    {
        Ok(self.base.try_clone(self.alloc)?)
    }

    /// How many commands were made with each of these passes, where each is of this hub. In the journal
    /// the places of each begin one above the base's count for it and end at its count, without a gap.
    pub fn tally(&self, passes: &[Pass]) -> Result<Tally>
        ensures foreign { IsForeign (first_foreign passes.now self.now.counts) result }
        ensures home { OnOk result (All (λ p. count_of p.number self.now.counts ≡ Some p.made) passes.now) }
        ensures counts { IfOk result (λ t. t.counts.items ≡ map (λ p. p.made) passes.now) }
        ensures hold { IfOk result (λ t. (t.base.value ≡ self.now.base)
            × (t.journal.value.items ≡ self.now.journal) × (t.held.value.items ≡ self.now.counts)) }
        ensures places { IfOk result (λ t. All (λ p. places p.number t.journal.value.items
            ≡ gapless (made_of p.number t.base.value.made) p.made) passes.now) }
    {
        if let Err(foreign) = passes::admits_all(&self.counts, passes) {
            return Err(foreign.into());
        }
        let counts = match passes::all_made(self.alloc, passes) {
            Ok(counts) => counts,
            Err(refused) => return Err(refused.into()),
        };
        Ok(Tally {
            counts,
            base: Snapshot::of(&self.base),
            journal: Snapshot::of(&self.journal),
            held: Snapshot::of(&self.counts),
        })
    }

    /// What is done about what this owned, once it was let go.
    pub fn due(&self, owner: Owner) -> Due
        ensures { result ≡ due_of self.now.engine.talk owner }
    {
        let session = self.engine.session();
        match owner {
            Owner::Connection => connection(session.state(), session.listed() == 0),
            Owner::Channel(opened) => channel(session, opened),
            Owner::Answer(_) => Due::Never,
        }
    }
}

// What is done about a connection.
fn connection(state: ConnectionState, none_listed: bool) -> Due
    ensures { result ≡ connection_due state none_listed }
{
    match state {
        ConnectionState::Connected if none_listed => Due::Now(Cmd::DropConnection),
        ConnectionState::Connected
        | ConnectionState::Initial
        | ConnectionState::Connecting
        | ConnectionState::Reconnecting
        | ConnectionState::Closing => Due::Later,
        ConnectionState::Closed | ConnectionState::Error => Due::Never,
    }
}

// What is done about the channel that a promise opened.
fn channel(session: &Session, opened: u64) -> Due
    ensures { result ≡ channel_due (opening opened session.now) opened session.now }
{
    match session.opening(opened) {
        Some(id) => {
            let named = ChanRef {
                id,
                opened: Some(opened),
            };
            listed(session.state(), session.channel_state(named), named)
        }
        None => unlisted(session.state()),
    }
}

// What is done about a channel that is listed.
fn listed(state: ConnectionState, channel: ChannelState, named: ChanRef) -> Due
    ensures { result ≡ listed_due state channel named }
{
    match state {
        ConnectionState::Initial | ConnectionState::Connecting | ConnectionState::Reconnecting => {
            Due::Later
        }
        ConnectionState::Closing => match channel {
            ChannelState::Connected | ChannelState::Reconnecting => Due::Later,
            _ => Due::Never,
        },
        ConnectionState::Connected => match channel {
            ChannelState::Connected => Due::Now(Cmd::DropChannel(named)),
            ChannelState::Initial | ChannelState::Reconnecting => Due::Later,
            _ => Due::Never,
        },
        ConnectionState::Closed | ConnectionState::Error => Due::Never,
    }
}

// What is done about a channel that is not listed.
fn unlisted(state: ConnectionState) -> Due
    ensures { result ≡ unlisted_due state }
{
    match state {
        ConnectionState::Initial | ConnectionState::Connecting | ConnectionState::Reconnecting => {
            Due::Later
        }
        _ => Due::Never,
    }
}
