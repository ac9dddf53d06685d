//! Links: that one is asked for, comes or does not come, gives bytes, and ends.

ghost use Rattle.std.specs.Prelude.{◌≡◌, ◌<◌, ◌^◌, IfErr, OnOk, OnErr, IsOk, IsTrue, IsFalse};
ghost use Rattle.amqp_rules.specs.Talk.{is_asked, acts};
ghost use Rattle.amqp_rules.specs.Changes.{present_at, starve};
ghost use Rattle.amqp_rules.specs.Memory.{MakesNothing};
ghost use Rattle.amqp_violations.specs.declared.misread.Misread.{Misread};
ghost use Rattle.amqp_rules.specs.Recovery.{delayed};
ghost use Rattle.amqp_rules.specs.Links.{asked, linked, link_failed, piece, misread, lost};

use super::Session;
use amqp_outbox::Item;
use amqp_promise::{ConnectionState, ErrorKind, IoFault};
use amqp_rules::{Input, Link, Phase};
use amqp_settings::handshake::protocol_header;
use amqp_types::NoMemory;
use amqp_violations::{Misread, misread_error};

impl Session {
    /// The link that is wanted was asked for.
    pub fn asked(&mut self)
        ensures { self.new ≡ asked self.old }
    {
        if let Link::Wanted = self.link {
            self.link = Link::Asked;
        }
    }

    /// The link that was asked for is there.
    pub fn linked(&mut self, at: u64) -> amqp_promise::Result<()>
        ensures ok { OnOk result (self.new ≡ linked (present_at at self.old)) }
        ensures err { OnErr result (self.new ≡ starve (present_at at self.old)) }
        ensures only { IfErr result (λ e. e ≡ ErrorKind.NoMemory) }
        ensures idle { IsFalse (is_asked self.old) → IsOk result }
    {
        self.advance(at);
        if !self.is_asked() {
            return Ok(());
        }
        match self.open_link() {
            Ok(()) => Ok(()),
            Err(refused) => Err(self.starved(refused)),
        }
    }

    fn open_link(&mut self) -> Result<(), NoMemory>
        requires { IsTrue (is_asked self.old) }
        ensures ok { OnOk result (self.new ≡ linked self.old) }
        ensures err { OnErr result (self.new ≡ self.old) }
    {
        self.outgoing.restart(Item::plain(0, protocol_header()))?;
        self.state = ConnectionState::Connecting;
        self.phase = Phase::AwaitStart;
        self.link = Link::Open;
        self.input = Input::Acting;
        self.blocked = false;
        self.last_read = self.present;
        self.last_write = self.present;
        self.refreshing = false;
        Ok(())
    }

    /// The link that was asked for is refused. Where a delay is left, one is wanted again at the tick at
    /// which it is over; else the session ends.
    pub fn link_failed(&mut self, at: u64)
        ensures { self.new ≡ link_failed (present_at at self.old) }
    {
        self.advance(at);
        if !self.is_asked() {
            return;
        }
        match self.options.delay(self.tried) {
            Some(delay) => self.delayed(delay),
            None => self.fail(ErrorKind::IOError(IoFault::Refused)),
        }
    }

    // No link is wanted until a delay is over.
    fn delayed(&mut self, delay: u64)
        requires asked { IsTrue (is_asked self.old) }
        requires small { self.old.tried < 2 ^ 63 }
        ensures { self.new ≡ delayed delay self.old }
    {
        self.link = Link::Due(self.present.saturating_add(delay));
        self.tried += 1;
    }

    /// Bytes were read.
    pub fn piece(&mut self, at: u64)
        ensures { self.new ≡ piece (present_at at self.old) }
    {
        self.advance(at);
        if self.is_open() {
            self.last_read = self.present;
        }
    }

    /// What was read is no frame.
    pub fn misread(&mut self, why: Misread, at: u64) -> amqp_promise::Result<()>
        ensures ok { OnOk result (self.new ≡ misread why (present_at at self.old)) }
        ensures err { OnErr result (self.new ≡ starve (present_at at self.old)) }
        ensures only { IfErr result (λ e. e ≡ ErrorKind.NoMemory) }
        ensures idle { let now = present_at at self.old in MakesNothing now (misread why now) → IsOk result }
    {
        self.advance(at);
        if !self.acts() {
            self.drop_input();
            return Ok(());
        }
        match misread_error(self.alloc, why) {
            Ok(error) => {
                self.lose(error);
                Ok(())
            }
            Err(refused) => Err(self.starved(refused)),
        }
    }

    // After the server's close no more of the open link is read.
    fn drop_input(&mut self)
        requires { IsFalse (acts self.old) }
        ensures { (why : Misread) → self.new ≡ misread why self.old }
    {
        if self.is_open() {
            self.input = self.input.dropped();
        }
    }

    /// The open link is lost: its input ended, or reading or writing failed.
    pub fn lost(&mut self, fault: IoFault, at: u64)
        ensures { self.new ≡ lost fault (present_at at self.old) }
    {
        self.advance(at);
        if self.acts() {
            self.lose(ErrorKind::IOError(fault));
        } else if self.is_open() {
            self.finish();
        }
    }
}
