//! The states of a connection and of its channels, which errors name.

ghost use Rattle.std.specs.Prelude.{◌≡◌};
ghost use Rattle.amqp_promise.specs.Errors.{state_name, channel_state_name};

use std::fmt;

/// The state of a connection.
#[derive(Clone, Copy, Debug, Default, PartialEq, Eq)]
pub enum ConnectionState {
    #[default]
    Initial,
    Connecting,
    Connected,
    Closing,
    Closed,
    Reconnecting,
    Error,
}

impl ConnectionState {
    /// Its name.
    pub fn name(self) -> &'static str
        ensures { result.now ≡ state_name self }
    {
        match self {
            ConnectionState::Initial => "Initial",
            ConnectionState::Connecting => "Connecting",
            ConnectionState::Connected => "Connected",
            ConnectionState::Closing => "Closing",
            ConnectionState::Closed => "Closed",
            ConnectionState::Reconnecting => "Reconnecting",
            ConnectionState::Error => "Error",
        }
    }
}

impl fmt::Display for ConnectionState {
    ghost use Rattle.std.specs.Prelude.{Some};
    ghost use Rattle.amqp_promise.specs.Errors.{state_name};

    ghost output = { λ s. Some (state_name s) };

    fn fmt<W: fmt::Write>(&self, f: &mut fmt::Formatter<W>) -> fmt::Result {
        f.write_str(self.name())
    }
}

/// The state of a channel.
#[derive(Clone, Copy, Debug, Default, PartialEq, Eq)]
pub enum ChannelState {
    #[default]
    Initial,
    Reconnecting,
    Connected,
    Closing,
    Closed,
    Error,
}

impl ChannelState {
    /// Its name.
    pub fn name(self) -> &'static str
        ensures { result.now ≡ channel_state_name self }
    {
        match self {
            ChannelState::Initial => "Initial",
            ChannelState::Reconnecting => "Reconnecting",
            ChannelState::Connected => "Connected",
            ChannelState::Closing => "Closing",
            ChannelState::Closed => "Closed",
            ChannelState::Error => "Error",
        }
    }
}

impl fmt::Display for ChannelState {
    ghost use Rattle.std.specs.Prelude.{Some};
    ghost use Rattle.amqp_promise.specs.Errors.{channel_state_name};

    ghost output = { λ s. Some (channel_state_name s) };

    fn fmt<W: fmt::Write>(&self, f: &mut fmt::Formatter<W>) -> fmt::Result {
        f.write_str(self.name())
    }
}
