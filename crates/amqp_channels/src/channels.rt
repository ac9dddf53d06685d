//! The listed channels.

ghost use Rattle.std.specs.Prelude.{◌≡◌, ◌≤◌, ◌+◌, ◌↔◌, [], ◌∷◌, None, Some, Err, IfOk, IfSome, IfNone, OnOk, OnErr, length};
ghost use Rattle.amqp_outbox.specs.Listed.{Ascends};
ghost use Rattle.amqp_maps.specs.Listed.{at, put, without, map_values};
ghost use Rattle.amqp_channels.specs.Numbering.{drawn};
ghost use Rattle.amqp_channels.specs.Channels.{made_closing, made_leaving, made_answered, new_channel, opening_in, all_flow, AllListed, next_free, list_next, pass_over, opened_until};
ghost use Rattle.amqp_channels.specs.Stopped.{stops};
ghost use Rattle.amqp_channels.specs.Openings.{opener};
ghost use Rattle.amqp_channels.specs.Kept.{is_kept_in, reconnecting, kept};
ghost use Rattle.amqp_channels.specs.InOrder.{listed_after, agreed, numbers_after};

use crate::id_sequence::IdSequence;
use crate::numbers::Numbers;
use amqp_maps::{Copied, by_channel, by_number};
use amqp_promise::ChannelState;
use amqp_types::{ChannelId, NoMemory};
use std::alloc::Global;
use std::collections::BTreeMap;
use std::marker::Model;
use std::ops::Bound;

/// What we owe to a server that closed a channel.
#[derive(Clone, Copy, Debug, PartialEq, Eq)]
pub enum Debt {
    /// It did not close the channel.
    Nothing,
    /// Our close-ok, which was not yet sent.
    Owed,
    /// Nothing any more: our close-ok was sent.
    Paid,
}

/// A listed channel.
#[derive(Clone, Copy, Debug)]
pub struct Channel {
    pub state: ChannelState,
    /// Whether the server lets content be published on it.
    pub flow: bool,
    /// Whether the server confirms what is published on it.
    pub confirm: bool,
    /// The promise that opened it.
    pub opened: u64,
    /// Whether our answer to the server's close of it is owed.
    pub debt: Debt,
    /// Whether our close of it was said or waits, and is not answered.
    pub awaits_close_ok: bool,
}

impl Channel {
    /// A channel that a promise opens.
    pub fn opening(opened: u64) -> Channel
        ensures { result ≡ new_channel opened }
    {
        Channel {
            state: ChannelState::Initial,
            flow: true,
            confirm: false,
            opened,
            debt: Debt::Nothing,
            awaits_close_ok: false,
        }
    }

    /// The same channel, which is closing.
    pub fn closing(self) -> Channel
        ensures { result ≡ made_closing self }
    {
        Channel {
            state: ChannelState::Closing,
            ..self
        }
    }

    /// The same channel, which we close: close-ok is awaited.
    pub fn leaving(self) -> Channel
        ensures { result ≡ made_leaving self }
    {
        Channel {
            awaits_close_ok: true,
            ..self.closing()
        }
    }

    /// The same channel, whose close was answered: close-ok is awaited no more.
    pub fn answered(self) -> Channel
        ensures { result ≡ made_answered self }
    {
        Channel {
            awaits_close_ok: false,
            ..self
        }
    }

    // Whether it stays listed while the session waits for another link.
    fn is_kept(self) -> bool
        ensures { result ≡ is_kept_in self.state }
    {
        matches!(
            self.state,
            ChannelState::Connected | ChannelState::Reconnecting
        )
    }

    // The same channel as it waits for another link: with flow, and without confirm mode.
    fn reconnecting(self) -> Channel
        ensures { result ≡ reconnecting self }
    {
        Channel {
            state: ChannelState::Reconnecting,
            ..Channel::opening(self.opened)
        }
    }

    // How many channels without flow it is.
    fn stops(self) -> usize
        ensures { result ≡ stops self }
    {
        if self.flow { 0 } else { 1 }
    }
}

impl Copied for Channel {
    fn copied(&self, _alloc: Global) -> Result<Channel, NoMemory> {
        Ok(*self)
    }
}

/// The listed channels, by their numbers, and the cursor from which the next number is drawn.
#[derive(Debug, Drop)]
pub struct Channels {
    listed: BTreeMap<ChannelId, Channel>,
    openings: BTreeMap<u64, ChannelId>,
    numbers: Numbers,
    // all numbers from 1 up to this one are listed
    full: ChannelId,
    // how many listed channels are without flow
    stopped: usize,
    // gives their numbers, and never 0: its cursor is the channels'
    sequence: IdSequence<ChannelId>,
}

impl Model for Channels {
    ghost use Rattle.std.specs.Prelude.{◌≡◌, ℕ, false};
    ghost use Rattle.amqp_channels.specs.Channels.{Listing};

    ghost Value = { Listing };

    ghost view = { λ c. record { listed = c.listed.entries; cursor = c.sequence.cursor } };

    ghost use Rattle.amqp_maps.specs.Listed.{has};
    ghost use Rattle.amqp_channels.specs.NumberSet.{is_member, HasUpTo};
    ghost use Rattle.amqp_channels.specs.Openings.{Indexes};
    ghost use Rattle.amqp_channels.specs.Stopped.{count_stopped};

    // The set of numbers has those of the listed channels, all up to one that is known, the openings
    // have the promises that opened them, and those without flow are counted. The
    // sequence never gives 0.
    ghost invariant = { λ c. ((n : ℕ) → is_member c.numbers n ≡ has n c.listed.entries)
        × Indexes c.openings.entries c.listed.entries × HasUpTo c.full c.numbers
        × (c.stopped ≡ count_stopped c.listed.entries) × (c.sequence.allow_zero ≡ false) };
}

impl Channels {
    /// No channel is listed, and the first number is the next.
    pub fn new(alloc: Global) -> Channels
        ensures { result ≡ record { listed = []; cursor = 0 } }
    {
        Channels {
            listed: BTreeMap::new(alloc),
            openings: BTreeMap::new(alloc),
            numbers: Numbers::new(alloc),
            full: 0,
            stopped: 0,
            sequence: IdSequence::new(false),
        }
    }

    /// The same channels, and the same cursor.
    pub fn try_clone(&self, alloc: Global) -> Result<Channels, NoMemory>
        ensures { IfOk result (λ c. c ≡ self.now) }
    {
        let listed = by_channel(alloc, &self.listed)?;
        let openings = by_number(alloc, &self.openings)?;
        let numbers = self.numbers.try_clone(alloc)?;
        Ok(Channels {
            listed,
            openings,
            numbers,
            full: self.full,
            stopped: self.stopped,
            sequence: self.sequence.copied(),
        })
    }

    /// Whether the server lets content be published on every listed channel.
    pub fn flows(&self) -> bool
        ensures { result ≡ all_flow self.now.listed }
    {
        self.stopped == 0
    }

    /// The number from which the next is drawn, where 0 is the first.
    pub fn cursor(&self) -> ChannelId
        ensures { result ≡ self.now.cursor }
    {
        self.sequence.cursor()
    }

    /// How many channels are listed.
    pub fn len(&self) -> u64
        ensures { result ≡ length self.now.listed }
    {
        self.listed.len() as u64
    }

    /// The channel of a number.
    pub fn get(&self, id: ChannelId) -> Option<Channel>
        ensures { result ≡ at id self.now.listed }
    {
        self.listed.get(&id).copied()
    }

    /// The promise after those that opened the listed channels; `NoMemory` where 64 bits cannot count it.
    pub fn next_opening(&self) -> Result<u64, NoMemory>
        ensures { IfOk result (λ opened. opened ≡ opened_until self.now.listed) }
    {
        // Its clause tells that the numbers ascend.
        let _ = self.listed.len();
        match self.openings.last_key_value() {
            Some((last, _)) if *last == u64::MAX => Err(NoMemory),
            Some((last, _)) => Ok(*last + 1),
            None => Ok(0),
        }
    }

    /// The number of the next channel, if one is free.
    pub fn next_free(&mut self, channel_max: ChannelId) -> Option<ChannelId>
        ensures number { result ≡ next_free channel_max self.old }
        ensures unlisted { IfSome result (λ id. at id self.old.listed ≡ None) }
        ensures limit { 1 ≤ channel_max → result ≡ None ↔ AllListed channel_max self.old.listed }
        ensures same { self.new ≡ self.old }
    {
        // Where none is free, that is known until a channel goes, and found at once.
        let first = self.sequence.next_up_to(channel_max);
        self.draw(channel_max, first)
    }

    /// Lists a channel by a number that is not listed, which a later promise opens than the others; the cursor
    /// goes on after it. Where memory is refused, all is as before.
    pub fn list_next(
        &mut self,
        channel_max: ChannelId,
        id: ChannelId,
        channel: Channel,
    ) -> Result<(), NoMemory>
        requires unlisted { at id self.old.listed ≡ None }
        requires later { opened_until self.old.listed ≤ channel.opened }
        ensures ok { OnOk result (self.new ≡ list_next channel_max id channel self.old) }
        ensures err { OnErr result (self.new ≡ self.old) }
        ensures until { opened_until self.new.listed ≤ channel.opened + 1 }
    {
        self.list(id, channel)?;
        self.sequence.pass(channel_max, id);
        Ok(())
    }

    /// The cursor goes on by one.
    pub fn pass_over(&mut self, channel_max: ChannelId)
        ensures { self.new ≡ pass_over channel_max self.old }
    {
        let first = self.sequence.next_up_to(channel_max);
        self.sequence.pass(channel_max, first);
    }

    // Lists a channel that a later promise opens than the others.
    fn list(&mut self, id: ChannelId, channel: Channel) -> Result<(), NoMemory>
        requires unlisted { at id self.old.listed ≡ None }
        requires later { opened_until self.old.listed ≤ channel.opened }
        ensures ok { OnOk result (self.new ≡ record self.old { listed = put id channel self.old.listed }) }
        ensures err { OnErr result (self.new ≡ self.old) }
        ensures until { opened_until self.new.listed ≤ channel.opened + 1 }
    {
        // Its clause bounds their count.
        let _ = self.listed.len();
        self.numbers.reserve(id)?;
        self.openings.insert(channel.opened, id)?;
        if let Err(refused) = self.listed.insert(id, channel) {
            self.openings.remove(&channel.opened);
            return Err(refused.into());
        }
        self.numbers.insert(id);
        self.stopped += channel.stops();
        Ok(())
    }

    /// Changes a channel that is listed, but not what opened it.
    pub fn set(&mut self, id: ChannelId, channel: Channel)
        requires { opener id self.old.listed ≡ Some channel.opened }
        ensures set { self.new ≡ record self.old { listed = put id channel self.old.listed } }
        ensures until { opened_until self.new.listed ≤ opened_until self.old.listed }
    {
        // Its clause bounds their count.
        let _ = self.listed.len();
        // Its place is there, so that nothing is asked for and nothing refused.
        if let Ok(Some(former)) = self.listed.insert(id, channel) {
            self.stopped -= former.stops();
            self.stopped += channel.stops();
        }
    }

    /// A channel goes.
    pub fn remove(&mut self, id: ChannelId)
        ensures gone { self.new ≡ record self.old { listed = without id self.old.listed } }
        ensures until { opened_until self.new.listed ≤ opened_until self.old.listed }
    {
        self.full = 0;
        self.numbers.remove(id);
        if let Some(channel) = self.listed.remove(&id) {
            self.openings.remove(&channel.opened);
            self.stopped -= channel.stops();
        }
    }

    /// All channels go.
    pub fn clear(&mut self)
        ensures { self.new ≡ record self.old { listed = [] } }
    {
        self.listed.clear();
        self.openings.clear();
        self.stopped = 0;
        self.full = 0;
        self.numbers.clear();
    }

    /// All channels are closing.
    pub fn close_all(&mut self)
        ensures all { self.new ≡ record self.old { listed = map_values made_closing self.old.listed } }
        ensures until { opened_until self.new.listed ≡ opened_until self.old.listed }
    {
        self.listed.retain(|_, channel| {
            channel.state = ChannelState::Closing;
            true
        });
    }

    /// The channels that are open, or stay listed already, wait for another link. The others go.
    pub fn keep_open(&mut self)
        ensures kept { self.new ≡ record self.old { listed = kept self.old.listed } }
        ensures until { opened_until self.new.listed ≤ opened_until self.old.listed }
    {
        let mut last = None;
        'channels: while let Some((id, channel)) = self.next_after(last) {
            if channel.is_kept() {
                self.set(id, channel.reconnecting());
            } else {
                self.remove(id);
            }
            last = Some(id);
        }
    }

    // The first channel after the last, where there is one: the channels are gone over by number.
    fn next_after(&self, last: Option<ChannelId>) -> Option<(ChannelId, Channel)>
        ensures next { IfSome result (λ e.
            listed_after last self.now.listed ≡ e ∷ listed_after (Some e.0) self.now.listed) }
        ensures none { IfNone result (listed_after last self.now.listed ≡ []) }
        ensures ordered { Ascends self.now.listed }
    {
        let from = match last {
            Some(id) => Bound::Excluded(id),
            None => Bound::Unbounded,
        };
        let (id, channel) = self.listed.range((from, Bound::Unbounded)).next()?;
        Some((*id, *channel))
    }

    /// The number of the first channel after the last, where it is at most the greatest.
    pub fn next_up_to(&self, last: Option<ChannelId>, channel_max: ChannelId) -> Option<ChannelId>
        ensures next { IfSome result (λ id. numbers_after last channel_max self.now.listed
            ≡ id ∷ numbers_after (Some id) channel_max self.now.listed) }
        ensures none { IfNone result (numbers_after last channel_max self.now.listed ≡ []) }
        ensures ordered { Ascends self.now.listed }
    {
        let (id, _) = self.next_after(last)?;
        if id <= channel_max { Some(id) } else { None }
    }

    /// The channels go whose numbers are above the greatest.
    pub fn remove_above(&mut self, channel_max: ChannelId)
        ensures agreed { self.new ≡ record self.old { listed = agreed channel_max self.old.listed } }
        ensures until { opened_until self.new.listed ≤ opened_until self.old.listed }
    {
        'channels: while let Some((id, _)) = self.next_after(Some(channel_max)) {
            self.remove(id);
        }
    }

    /// The number of the channel that a promise opened.
    pub fn opened_by(&self, opened: u64) -> Option<ChannelId>
        ensures { result ≡ opening_in opened self.now.listed }
    {
        // Its clause tells that the numbers ascend.
        let _ = self.listed.len();
        self.openings.get(&opened).copied()
    }

    // The first number in the cycle from a first one that is not listed.
    fn draw(&mut self, channel_max: ChannelId, first: ChannelId) -> Option<ChannelId>
        requires { 1 ≤ first }
        ensures drawn { result ≡ drawn channel_max first self.old.listed }
        ensures unlisted { IfSome result (λ id. at id self.old.listed ≡ None) }
        ensures same { self.new ≡ self.old }
    {
        let within = first <= channel_max;
        if within && channel_max <= self.full {
            return None;
        }
        let drawn = self.first_unlisted(channel_max, first);
        if drawn.is_none() && within {
            self.full = channel_max;
        }
        drawn
    }

    fn first_unlisted(&self, channel_max: ChannelId, first: ChannelId) -> Option<ChannelId>
        requires { 1 ≤ first }
        ensures drawn { result ≡ drawn channel_max first self.now.listed }
        ensures unlisted { IfSome result (λ id. at id self.now.listed ≡ None) }
    {
        let until = channel_max as u32 + 1;
        match self.numbers.first_absent(first as u32, until) {
            Some(id) => Some(id),
            None => self.numbers.first_absent(1, first as u32),
        }
    }
}
