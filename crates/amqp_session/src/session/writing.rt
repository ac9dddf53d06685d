//! The frames that are written.

ghost use Rattle.std.specs.Prelude.{◌≡◌, ◌+◌, ◌≤◌, option_map};
ghost use Rattle.amqp_outbox.specs.declared.item.Item.{Item};
ghost use Rattle.amqp_rules.specs.Changes.{present_at};
ghost use Rattle.amqp_rules.specs.Writing.{next_within, commit, overlong, next_frame, unsent, follow, channel_close_ok_sent, taken};
ghost use Rattle.amqp_rules.specs.Parts.{first_sent, after_sent};

use super::Session;
use amqp_answers::Answer;
use amqp_channels::{Channel, Debt};
use amqp_frame::Frame;
use amqp_outgoing::{Mark, Then};
use amqp_promise::ErrorKind;
use amqp_types::ChannelId;

impl Session {
    /// Commits the next frame, where it is at most so many bytes long. Where it is longer than the
    /// whole capacity, the session ends. It takes no memory.
    pub fn next_frame(&mut self, space: u64) -> Option<Frame>
        requires { space + unsent self.old ≤ self.old.capacity }
        ensures frame { result ≡ option_map (λ (item : Item). item.frame) (next_within space self.old) }
        ensures next { self.new ≡ next_frame space self.old }
    {
        let committed = self.commit(space);
        if committed.is_none() {
            if let Some(size) = self.overlong() {
                self.lose(ErrorKind::SerialisationError(size));
            }
        }
        committed
    }

    // Commits the next frame, where it is at most so many bytes long.
    fn commit(&mut self, space: u64) -> Option<Frame>
        requires { space + unsent self.old ≤ self.old.capacity }
        ensures frame { result ≡ option_map (λ (item : Item). item.frame) (next_within space self.old) }
        ensures commit { self.new ≡ commit space self.old }
    {
        if !self.writes() {
            return None;
        }
        // What is unsent and the space are together within the capacity, which is small.
        let _ = self.capacity.octets();
        let flow = self.channels.flows();
        let item = self.outgoing.commit(flow, space)?;
        Some(item.into_frame())
    }

    // How many octets spell the next frame, where it is longer than the whole capacity.
    fn overlong(&self) -> Option<u64>
        ensures { result ≡ overlong self.now }
    {
        // What waits is counted in 64 bits.
        let _ = self.outgoing.waiting_len();
        match self.outgoing.front(self.channels.flows()) {
            Some(item) if self.writes() => self.excess(item.frame()),
            _ => None,
        }
    }

    /// So many of the unsent bytes were taken.
    pub fn taken(&mut self, n: u64, at: u64)
        requires { n ≤ unsent self.old }
        ensures { self.new ≡ taken n (present_at at self.old) }
    {
        self.advance(at);
        if n == 0 || !self.is_open() {
            return;
        }
        self.last_write = self.present;
        let mut left = n;
        while let Some(mark) = self.take_first(left) {
            left -= mark.left;
            self.follow(mark.then);
        }
    }

    // While the link is open, takes out the first committed frame, where its last byte is among the
    // next n. Else these n are taken from it.
    fn take_first(&mut self, n: u64) -> Option<Mark>
        ensures first { result ≡ first_sent n self.old }
        ensures rest { self.new ≡ after_sent n self.old }
    {
        if !self.is_open() {
            return None;
        }
        self.outgoing.take_first(n)
    }

    // What follows once a frame was sent whole.
    fn follow(&mut self, then: Then)
        ensures { self.new ≡ follow then self.old }
    {
        match then {
            Then::Nothing => {}
            Then::Answer(number) => self.give(number, Answer::Sent),
            Then::Pays(id) => self.channel_close_ok_sent(id),
            Then::Finish => self.finish(),
        }
    }

    // Our close-ok was sent on a channel.
    fn channel_close_ok_sent(&mut self, id: ChannelId)
        ensures { self.new ≡ channel_close_ok_sent id self.old }
    {
        let Some(channel) = self.channels.get(id) else {
            return;
        };
        if channel.debt != Debt::Owed {
            return;
        }
        self.events.pay(id);
        if channel.awaits_close_ok {
            let paid = Channel {
                debt: Debt::Paid,
                ..channel
            };
            self.channels.set(id, paid);
        } else {
            self.channels.remove(id);
        }
    }
}
