//! Time: heartbeats that are missed, those that are due, and secrets that have expired.

ghost use Rattle.std.specs.Prelude.{◌≡◌, ◌≤◌, Some, None, Ok, IfErr, OnOk, OnErr, IsOk, IsTrue, IsFalse};
ghost use Rattle.amqp_frame.specs.declared.frame.Frame.TheVariants as frames;
ghost use Rattle.amqp_outbox.specs.Items.{dropped_with};
ghost use Rattle.amqp_rules.specs.Talk.{has_ended};
ghost use Rattle.amqp_rules.specs.Asking.{Hears, Starves};
ghost use Rattle.amqp_rules.specs.Changes.{present_at, starve, await, queue, queue_item};
ghost use Rattle.amqp_session.specs.Provided.{validity_answers, IsAsked};
ghost use Rattle.amqp_rules.specs.Ticks.{beats, is_missed, is_heartbeat_due, missing_heartbeat, heartbeat_due, asks_validity, secret_due, secret_questions, refreshed, link_due, tick, tick_questions};

use super::Session;
use super::asking::Validity;
use amqp_auth::{AuthList, AuthProvider};
use amqp_frame::Frame;
use amqp_outbox::{Awaited, Item, Reply};
use amqp_promise::{ConnectionState, ErrorKind};
use amqp_rules::Link;
use amqp_settings::handshake::{new_secret, refresh_reason};
use amqp_types::{LongString, NoMemory, Text};

/// After how many milliseconds without reading a server is gone, for each second of the agreed
/// interval: two intervals (AMQP 0-9-1, 4.2.7).
const MISSED: u64 = 2000;

/// After how many milliseconds without writing a heartbeat is due, for each second of the agreed
/// interval: half of one.
const DUE: u64 = 500;

impl Session {
    /// Time goes by. Where nothing was read for more than two of the agreed intervals, the link is lost;
    /// where nothing was written for more than half of one, a heartbeat is to go out; and where the
    /// provider says that the secret is no longer valid, a new one is asked for and to be told; and where
    /// the delay of a link is over, one is wanted. The provider's answers are put last into the list.
    pub fn tick<A: AuthProvider>(
        &mut self,
        at: u64,
        provider: &mut A,
        auths: &mut AuthList,
    ) -> amqp_promise::Result<()>
        requires { A.can provider.old }
        ensures can { A.can provider.new }
        ensures ok { OnOk result (Hears tick tick_questions (A.allows provider.old) (A.allows provider.new)
            (present_at at self.old) self.new auths.old.list auths.new.list) }
        ensures err { OnErr result (self.new ≡ starve (present_at at self.old)) }
        ensures unanswered { OnErr result (Starves tick_questions (A.allows provider.old)
            (present_at at self.old) auths.old.list auths.new.list) }
        ensures only { IfErr result (λ e. e ≡ ErrorKind.NoMemory) }
        ensures idle { let now = missing_heartbeat (present_at at self.old) in
            IsFalse (is_heartbeat_due now) → IsFalse (asks_validity now) → IsOk result }
        ensures never_falls { A.refusals provider.old ≤ A.refusals provider.new }
    {
        self.advance(at);
        if self.is_missed() {
            self.lose(ErrorKind::MissingHeartbeatError);
            self.link_due();
            return Ok(());
        }
        match self.go_on(provider, auths) {
            Ok(()) => {
                self.link_due();
                Ok(())
            }
            Err(refused) => Err(self.starved(refused)),
        }
    }

    // Where the delay of a link is over, one is wanted.
    fn link_due(&mut self)
        ensures { self.new ≡ link_due self.old }
    {
        if let Link::Due(moment) = self.link {
            if moment <= self.present {
                self.link = Link::Wanted;
            }
        }
    }

    // What is due where the server was not silent for too long.
    fn go_on<A: AuthProvider>(
        &mut self,
        provider: &mut A,
        auths: &mut AuthList,
    ) -> Result<(), NoMemory>
        requires { A.can provider.old }
        ensures can { A.can provider.new }
        ensures ok { OnOk result (Hears (λ answers t. secret_due answers (heartbeat_due t)) secret_questions
            (A.allows provider.old) (A.allows provider.new) self.old self.new auths.old.list auths.new.list) }
        ensures err { OnErr result (self.new ≡ self.old) }
        ensures unanswered { OnErr result (Starves secret_questions (A.allows provider.old)
            self.old auths.old.list auths.new.list) }
        ensures idle { IsFalse (is_heartbeat_due self.old) → IsFalse (asks_validity self.old) → IsOk result }
        ensures running { OnErr result (IsFalse (has_ended self.old)) }
        ensures never_falls { A.refusals provider.old ≤ A.refusals provider.new }
    {
        let validity = self.ask_validity(provider, auths)?;
        self.due(validity)
    }

    // A heartbeat is due or not, and what was answered of the secret is done.
    fn due(&mut self, validity: Validity) -> Result<(), NoMemory>
        requires { IsAsked validity self.old }
        ensures ok { OnOk result (self.new ≡ secret_due (validity_answers validity) (heartbeat_due self.old)) }
        ensures err { OnErr result (self.new ≡ self.old) }
        ensures idle { validity ≡ Validity.Unasked → IsFalse (is_heartbeat_due self.old) → IsOk result }
        ensures running { OnErr result (IsFalse (has_ended self.old)) }
    {
        match validity {
            Validity::Unasked => self.heartbeat_due(),
            Validity::Valid(_) => self.heartbeat_due(),
            Validity::Expired(_, said) => self.refreshed(said),
        }
    }

    // The secret has expired, and this is what the provider had.
    fn refreshed(&mut self, said: Result<LongString, Text>) -> Result<(), NoMemory>
        requires { IsTrue (asks_validity self.old) }
        ensures ok { OnOk result (self.new ≡ refreshed said (heartbeat_due self.old)) }
        ensures err { OnErr result (self.new ≡ self.old) }
        ensures running { IsFalse (has_ended self.old) }
    {
        // While the connection is open, the session goes on.
        let _ = &self.alloc;
        match said {
            Ok(secret) => self.refresh(secret),
            Err(text) => {
                drop(text);
                self.heartbeat_due()?;
                self.secret_at = self.present;
                Ok(())
            }
        }
    }

    // A new secret is told, and a heartbeat goes out before it where one is due.
    fn refresh(&mut self, secret: LongString) -> Result<(), NoMemory>
        ensures ok { OnOk result (self.new ≡ refreshed (Ok secret) (heartbeat_due self.old)) }
        ensures err { OnErr result (self.new ≡ self.old) }
    {
        let reason = match refresh_reason(self.alloc) {
            Ok(reason) => reason,
            Err(refused) => {
                drop(secret);
                return Err(refused);
            }
        };
        let told = Item::plain(0, new_secret(secret, reason));
        if self.is_heartbeat_due() {
            self.beat_and_tell(told)?;
            self.last_write = self.present;
        } else {
            self.tell(told)?;
        }
        self.refreshing = true;
        Ok(())
    }

    // This frame is to go out, and a reply to it is awaited.
    fn tell(&mut self, told: Item) -> Result<(), NoMemory>
        requires { told.channel ≡ 0 }
        ensures ok { OnOk result (self.new ≡ await 0 Reply.SecretDone None (queue_item told self.old)) }
        ensures err { OnErr result (self.new ≡ self.old) }
    {
        self.outgoing.ask(told, awaited())
    }

    // The same after a heartbeat.
    fn beat_and_tell(&mut self, told: Item) -> Result<(), NoMemory>
        requires channel { told.channel ≡ 0 }
        requires key { dropped_with told ≡ Some 0 }
        ensures ok { OnOk result (self.new
            ≡ await 0 Reply.SecretDone None (queue_item told (queue 0 frames.Heartbeat self.old))) }
        ensures err { OnErr result (self.new ≡ self.old) }
    {
        let beat = Item::plain(0, Frame::Heartbeat);
        self.outgoing.ask_after(beat, told, awaited())
    }

    fn heartbeat_due(&mut self) -> Result<(), NoMemory>
        ensures ok { OnOk result (self.new ≡ heartbeat_due self.old) }
        ensures err { OnErr result (self.new ≡ self.old) }
        ensures idle { IsFalse (is_heartbeat_due self.old) → IsOk result }
        ensures running { OnErr result (IsFalse (has_ended self.old)) }
    {
        if !self.is_heartbeat_due() {
            return Ok(());
        }
        self.queue(0, Frame::Heartbeat)?;
        self.last_write = self.present;
        Ok(())
    }

    // Whether nothing was read for more than two intervals.
    fn is_missed(&self) -> bool
        ensures { result ≡ is_missed self.now }
    {
        let silence = self.present.saturating_sub(self.last_read);
        self.beats() && silence > self.configuration.heartbeat as u64 * MISSED
    }

    // Whether nothing was written for more than half an interval.
    fn is_heartbeat_due(&self) -> bool
        ensures due { result ≡ is_heartbeat_due self.now }
        ensures running { IsTrue result → IsFalse (has_ended self.now) }
    {
        let silence = self.present.saturating_sub(self.last_write);
        self.beats() && silence > self.configuration.heartbeat as u64 * DUE
    }

    // Whether heartbeats are exchanged.
    fn beats(&self) -> bool
        ensures exchanged { result ≡ beats self.now }
        ensures running { IsTrue result → IsFalse (has_ended self.now) }
    {
        self.state() == ConnectionState::Connected && self.configuration.heartbeat != 0
    }
}

// What awaits the reply to a refresh, for which there is no promise.
fn awaited() -> Awaited
    ensures { result ≡ record { reply = Reply.SecretDone; promise = None } }
{
    Awaited {
        reply: Reply::SecretDone,
        promise: None,
    }
}
