//! What a session tells of itself.

ghost use Rattle.std.specs.Prelude.{IfOk, ◌≡◌, ◌<◌, ◌≤◌, ◌^◌, ℕ, List, IsTrue, length};
ghost use Rattle.amqp_auth.specs.declared.asked.Asked.{Asked};
ghost use Rattle.amqp_rules.specs.Talk.{wants_link, is_asked, is_open, acts, hears_on, has_ended, end_of, drops_input};
ghost use Rattle.amqp_rules.specs.Changes.{present_at, next_promise};
ghost use Rattle.amqp_rules.specs.Frames.{on_frame};
ghost use Rattle.amqp_rules.specs.Negotiation.{frame_limit};
ghost use Rattle.amqp_settings.specs.Capacities.{frame_min_size};
ghost use Rattle.amqp_rules.specs.Writing.{frames_waiting, unsent, writes};
ghost use Rattle.amqp_rules.specs.Answers.{HandsOut};
ghost use Rattle.amqp_rules.specs.Sound.{goes_on, is_agreed};
ghost use Rattle.amqp_rules.specs.Laws.{is_end};
ghost use Rattle.amqp_rules.specs.Queries.{channel_state, confirm, opening};
ghost use Rattle.amqp_rules.specs.Parts.{is_open_ok, awaits_open_ok, capacity_after};

use super::Session;
use amqp_commands::ChanRef;
use amqp_frame::{Frame, Method};
use amqp_promise::{ChannelState, ConnectionState};
use amqp_rules::{Input, Link, Phase};
use amqp_settings::Configuration;
use amqp_types::{ChannelId, NoMemory, ShortString, Text};

impl Session {
    /// The virtual host of the address.
    pub fn vhost(&self) -> Result<ShortString, NoMemory>
        ensures { IfOk result (λ vhost. vhost ≡ self.now.config.uri.vhost) }
    {
        self.uri.vhost.try_clone(self.alloc)
    }

    /// How many octets the virtual host of the address has: at most 255.
    pub fn vhost_len(&self) -> usize
        ensures len { result ≡ length self.now.config.uri.vhost }
        ensures short { result ≤ 255 }
    {
        self.uri.vhost.len()
    }

    /// Whether the session goes on where its link is lost (`enable_auto_recover`).
    pub fn recovers(&self) -> bool
        ensures { result ≡ self.now.config.options.recover }
    {
        self.options.recovers()
    }

    /// The user of the address.
    pub fn username(&self) -> Result<Text, NoMemory>
        ensures { IfOk result (λ username. username ≡ self.now.config.uri.authority.userinfo.username) }
    {
        self.uri.authority.userinfo.username.try_clone()
    }

    /// The state of the connection.
    pub fn state(&self) -> ConnectionState
        ensures state { result ≡ self.now.state }
        ensures ended { has_ended self.now ≡ is_end result }
        ensures acting { IsTrue (goes_on result) → IsTrue (acts self.now) }
    {
        self.state
    }

    /// The numbers of the connection, 0 where nothing is wished or agreed.
    pub fn configuration(&self) -> Configuration
        ensures numbers { result ≡ self.now.configuration }
        ensures room { IsTrue (is_agreed self.now.state self.now.phase) → 1 ≤ result.channel_max }
    {
        self.configuration
    }

    /// The greatest number of octets that a frame may have that is read.
    pub fn frame_limit(&self) -> u64
        ensures octets { result ≡ frame_limit self.now }
        ensures small { result < 2 ^ 32 }
        ensures least { IsTrue (is_agreed self.now.state self.now.phase) → frame_min_size ≤ result }
    {
        match self.configuration.frame_max {
            0 => self.capacity.octets(),
            frame_max => self.capacity.octets().min(frame_max as u64),
        }
    }

    /// Whether a link is wanted. It is asked for once.
    pub fn wants_link(&self) -> bool
        ensures { result ≡ wants_link self.now }
    {
        matches!(self.link, Link::Wanted | Link::Asked)
    }

    /// Whether a link is asked for.
    pub fn is_asked(&self) -> bool
        ensures { result ≡ is_asked self.now }
    {
        matches!(self.link, Link::Asked)
    }

    /// Whether a link is open.
    pub fn is_open(&self) -> bool
        ensures { result ≡ is_open self.now }
    {
        matches!(self.link, Link::Open)
    }

    /// Whether no more of the open link's input is read.
    pub fn drops_input(&self) -> bool
        ensures { result ≡ drops_input self.now }
    {
        matches!(self.input, Input::Dropped { .. })
    }

    /// Whether the server wants nothing to be written.
    pub fn blocked(&self) -> bool
        ensures { result ≡ self.now.blocked }
    {
        self.blocked
    }

    /// Whether frames may go out: on an open link, while the server does not block.
    pub fn writes(&self) -> bool
        ensures { result ≡ writes self.now }
    {
        self.is_open() && !self.blocked
    }

    // Whether frames of the open link are read that come after the server's close.
    pub(super) fn hears_on(&self) -> bool
        ensures { result ≡ hears_on self.now }
    {
        self.is_open() && matches!(self.input, Input::Closed { .. })
    }

    // Whether the frames that come on the open link act.
    pub(super) fn acts(&self) -> bool
        ensures { result ≡ acts self.now }
    {
        self.is_open() && matches!(self.input, Input::Acting)
    }

    /// Whether the session has ended.
    pub fn has_ended(&self) -> bool
        ensures { result ≡ has_ended self.now }
    {
        matches!(self.link, Link::Ended(_))
    }

    /// The end: Ok where the session ended Closed, else the error with which it ended. Where memory
    /// for the error's copy is refused, that is told in its place.
    pub fn end(&self) -> Option<amqp_promise::Result<()>>
        ensures { HandsOut (end_of self.now) result }
    {
        match self.ended() {
            Ok(end) => end,
            Err(refused) => Some(Err(refused.into())),
        }
    }

    /// How many promises were made.
    pub fn promises(&self) -> u64
        ensures { result ≡ next_promise self.now }
    {
        self.promises.made()
    }

    /// How many frames wait to be committed.
    pub fn waiting(&self) -> u64
        ensures frames { result ≡ frames_waiting self.now }
        ensures small { result < 2 ^ 63 }
    {
        self.outgoing.len()
    }

    /// How many bytes can be unsent.
    pub fn capacity(&self) -> u64
        ensures bytes { result ≡ self.now.capacity }
        ensures small { result < 2 ^ 32 }
    {
        self.capacity.octets()
    }

    /// How many bytes can be unsent once this frame was read: more where it opens the connection and
    /// longer frames were agreed.
    pub fn capacity_after(&self, frame: &Frame) -> u64
        ensures bytes { (answers : List Asked) (at : ℕ)
            → result ≡ (on_frame frame.now answers (present_at at self.now)).capacity }
        ensures grown { self.now.capacity ≤ result }
        ensures small { result < 2 ^ 32 }
    {
        self.octets_after(frame)
    }

    // The capacity once a frame was read.
    fn octets_after(&self, frame: &Frame) -> u64
        ensures octets { result ≡ capacity_after frame.now self.now }
        ensures grown { self.now.capacity ≤ result }
        ensures small { result < 2 ^ 32 }
    {
        if self.acts() && is_open_ok(frame) && self.awaits_open_ok() {
            let grown = self.capacity.grown(self.configuration.frame_max);
            return grown.octets();
        }
        self.capacity.octets()
    }

    // Whether open-ok is awaited.
    fn awaits_open_ok(&self) -> bool
        ensures { result ≡ awaits_open_ok self.now.state self.now.phase }
    {
        self.state == ConnectionState::Connecting && self.phase == Phase::AwaitOpenOk
    }

    /// How many bytes of the committed frames are unsent.
    pub fn unsent(&self) -> u64
        ensures bytes { result ≡ unsent self.now }
        ensures within { result ≤ self.now.capacity }
    {
        self.outgoing.unsent()
    }

    /// How many channels are listed.
    pub fn listed(&self) -> u64
        ensures { result ≡ length self.now.channels }
    {
        self.channels.len()
    }

    /// The state of a channel. One that is gone reads as Closed, or as Error where the session ended
    /// with an error.
    pub fn channel_state(&self, channel: ChanRef) -> ChannelState
        ensures { result ≡ channel_state channel self.now }
    {
        match self.named(channel) {
            Some(listed) => listed.state,
            None if self.state == ConnectionState::Error => ChannelState::Error,
            None => ChannelState::Closed,
        }
    }

    /// Whether the server confirms what is published on a channel.
    pub fn confirm(&self, channel: ChanRef) -> bool
        ensures { result ≡ confirm channel self.now }
    {
        match self.named(channel) {
            Some(listed) => listed.confirm,
            None => false,
        }
    }

    /// The number of the listed channel that a promise opened.
    pub fn opening(&self, opened: u64) -> Option<ChannelId>
        ensures { result ≡ opening opened self.now }
    {
        self.channels.opened_by(opened)
    }
}

// Whether a frame is open-ok of the connection.
fn is_open_ok(frame: &Frame) -> bool
    ensures { result ≡ is_open_ok frame.now }
{
    matches!(frame, Frame::Method(0, Method::OpenOk))
}
