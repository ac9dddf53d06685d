//! What a connection and its channels tell of themselves, each at one hold.

ghost use Rattle.std.specs.Prelude.{◌≡◌};
ghost use Rattle.lapin_connection.specs.Telling.{reads_as_initializing, reads_as_closing};

use crate::shared::Shared;
use amqp_session::{ChanRef, ChannelState, ConnectionState};
use amqp_types::{NoMemory, ShortString, Text};
use std::sync::{Arc, Wait};

/// A handle on the state of a connection.
#[derive(Drop)]
pub struct ConnectionStatus {
    shared: Arc<Shared>,
}

impl ConnectionStatus {
    // The status of what is shared.
    pub(crate) fn of(shared: Arc<Shared>) -> ConnectionStatus {
        ConnectionStatus { shared }
    }

    /// The state.
    pub fn state<R: Wait>(&self, rt: &R) -> ConnectionState {
        self.shared.locked.lock(rt).session().state()
    }

    /// The virtual host of the address.
    pub fn vhost<R: Wait>(&self, rt: &R) -> Result<ShortString, NoMemory> {
        self.shared.locked.lock(rt).session().vhost()
    }

    /// The user of the address.
    pub fn username<R: Wait>(&self, rt: &R) -> Result<Text, NoMemory> {
        self.shared.locked.lock(rt).session().username()
    }

    /// Whether the server wants nothing to be written.
    pub fn blocked<R: Wait>(&self, rt: &R) -> bool {
        self.shared.locked.lock(rt).session().blocked()
    }

    /// Whether it is open.
    pub fn connected<R: Wait>(&self, rt: &R) -> bool {
        self.state(rt) == ConnectionState::Connected
    }

    /// Whether it is being opened.
    pub fn connecting<R: Wait>(&self, rt: &R) -> bool {
        self.state(rt) == ConnectionState::Connecting
    }

    /// Whether it lost its link and waits for another.
    pub fn reconnecting<R: Wait>(&self, rt: &R) -> bool {
        self.state(rt) == ConnectionState::Reconnecting
    }

    /// Whether it is being closed.
    pub fn closing<R: Wait>(&self, rt: &R) -> bool {
        self.state(rt) == ConnectionState::Closing
    }

    /// Whether it is closed.
    pub fn closed<R: Wait>(&self, rt: &R) -> bool {
        self.state(rt) == ConnectionState::Closed
    }

    /// Whether it ended with an error.
    pub fn errored<R: Wait>(&self, rt: &R) -> bool {
        self.state(rt) == ConnectionState::Error
    }
}

/// A handle on the state of a channel.
#[derive(Drop)]
pub struct ChannelStatus {
    shared: Arc<Shared>,
    channel: ChanRef,
}

impl ChannelStatus {
    // The status of this channel.
    pub(crate) fn of(shared: Arc<Shared>, channel: ChanRef) -> ChannelStatus
        ensures { result.channel ≡ channel }
    {
        ChannelStatus { shared, channel }
    }

    /// The state.
    pub fn state<R: Wait>(&self, rt: &R) -> ChannelState {
        self.shared
            .locked
            .lock(rt)
            .session()
            .channel_state(self.channel)
    }

    /// Whether it is being opened, for the first time or again.
    pub fn initializing<R: Wait>(&self, rt: &R) -> bool {
        reads_as_initializing(self.state(rt))
    }

    /// Whether it is being closed, or its link was lost.
    pub fn closing<R: Wait>(&self, rt: &R) -> bool {
        reads_as_closing(self.state(rt))
    }

    /// Whether it is open.
    pub fn connected<R: Wait>(&self, rt: &R) -> bool {
        self.state(rt) == ChannelState::Connected
    }

    /// Whether its link was lost and it waits for another.
    pub fn reconnecting<R: Wait>(&self, rt: &R) -> bool {
        self.state(rt) == ChannelState::Reconnecting
    }

    /// Whether the server confirms what is published on it.
    pub fn confirm<R: Wait>(&self, rt: &R) -> bool {
        self.shared.locked.lock(rt).session().confirm(self.channel)
    }
}

// Whether a channel in this state is being opened, for the first time or again.
fn reads_as_initializing(state: ChannelState) -> bool
    ensures { result ≡ reads_as_initializing state }
{
    matches!(state, ChannelState::Initial | ChannelState::Reconnecting)
}

// Whether a channel in this state is being closed, or its link was lost.
fn reads_as_closing(state: ChannelState) -> bool
    ensures { result ≡ reads_as_closing state }
{
    matches!(state, ChannelState::Closing | ChannelState::Reconnecting)
}
