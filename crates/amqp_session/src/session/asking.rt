//! What a frame and a tick ask of the provider.

ghost use Rattle.std.specs.Prelude.{◌≡◌, ◌≤◌, [], Some, Ok, None, IfOk, OnErr, IsTrue, IsFalse};
ghost use Rattle.amqp_auth.specs.Asking.{Asks};
ghost use Rattle.amqp_rules.specs.Asking.{Starves};
ghost use Rattle.amqp_rules.specs.Causes.{refused_in};
ghost use Rattle.amqp_types.specs.Counts.{Rose};
ghost use Rattle.amqp_rules.specs.Frames.{questions_in};
ghost use Rattle.amqp_session.specs.Provided.{login_answers, validity_answers, IsAsked};
ghost use Rattle.amqp_rules.specs.Talk.{has_ended};
ghost use Rattle.amqp_rules.specs.Ticks.{asks_validity, has_expired, secret_questions};

use super::Session;
use amqp_auth::{
    AuthList, AuthProvider, ask_challenge, ask_mechanism, ask_refresh, ask_starter, ask_valid_for,
};
use amqp_frame::{Frame, Method};
use amqp_promise::ConnectionState::{Connected, Connecting};
use amqp_rules::Phase::{AwaitStart, AwaitTune};
use amqp_types::{LongString, NoMemory, ShortString, Text};

/// What the provider answered to a frame of the handshake.
#[derive(Drop)]
pub enum Login {
    /// To start: the mechanism, and what is said first, or the text of a refusal.
    Started(ShortString, Result<LongString, Text>),
    /// To a challenge.
    Challenged(Result<LongString, Text>),
}

/// What the provider answered of the secret.
#[derive(Drop)]
pub enum Validity {
    /// Nothing was asked.
    Unasked,
    /// For how many milliseconds it is valid, and it still is.
    Valid(Option<u64>),
    /// For how many milliseconds it was valid, and a new one, or the text of a refusal.
    Expired(Option<u64>, Result<LongString, Text>),
}

impl Session {
    // What a frame asks, where frames act.
    pub(super) fn ask<A: AuthProvider>(
        &self,
        frame: &Frame,
        provider: &mut A,
        auths: &mut AuthList,
    ) -> Result<Option<Login>, NoMemory>
        requires { A.can provider.old }
        ensures can { A.can provider.new }
        ensures ok { IfOk result (λ login. Asks (questions_in frame.now self.now) (login_answers login)
            (A.allows provider.old) (A.allows provider.new) auths.old.list auths.new.list) }
        ensures err { OnErr result (Starves (λ _. questions_in frame.now) (A.allows provider.old)
            self.now auths.old.list auths.new.list) }
        ensures idle { questions_in frame.now self.now ≡ [] → result ≡ Ok None }
        ensures counted { IfOk result (λ login. (text : Text)
            → refused_in (questions_in frame.now self.now) (login_answers login) ≡ Some text
            → Rose (A.refusals provider.old) (A.refusals provider.new)) }
        ensures never_falls { A.refusals provider.old ≤ A.refusals provider.new }
    {
        match (self.state, self.phase, frame) {
            (Connecting, AwaitStart, Frame::Method(0, Method::Start(..))) => {
                let mechanism = ask_mechanism(self.alloc, provider, auths)?;
                let said = ask_starter(self.alloc, provider, auths)?;
                Ok(Some(Login::Started(mechanism, said)))
            }
            (Connecting, AwaitTune, Frame::Method(0, Method::Secure(challenge))) => {
                let challenge = challenge.try_clone(self.alloc)?;
                let said = ask_challenge(self.alloc, provider, challenge, auths)?;
                Ok(Some(Login::Challenged(said)))
            }
            _ => Ok(None),
        }
    }

    // How long the secret is valid, and a new one where it is no longer.
    pub(super) fn ask_validity<A: AuthProvider>(
        &self,
        provider: &mut A,
        auths: &mut AuthList,
    ) -> Result<Validity, NoMemory>
        requires { A.can provider.old }
        ensures can { A.can provider.new }
        ensures ok { IfOk result (λ v. Asks (secret_questions (validity_answers v) self.now) (validity_answers v)
            (A.allows provider.old) (A.allows provider.new) auths.old.list auths.new.list) }
        ensures asked { IfOk result (λ v. IsAsked v self.now) }
        ensures err { OnErr result (Starves secret_questions (A.allows provider.old)
            self.now auths.old.list auths.new.list) }
        ensures idle { IsFalse (asks_validity self.now) → result ≡ Ok Validity.Unasked }
        ensures running { OnErr result (IsFalse (has_ended self.now)) }
        ensures never_falls { A.refusals provider.old ≤ A.refusals provider.new }
    {
        if !self.asks_validity() {
            return Ok(Validity::Unasked);
        }
        let time = ask_valid_for(provider, auths)?;
        if !self.has_expired(time) {
            return Ok(Validity::Valid(time));
        }
        let said = ask_refresh(self.alloc, provider, auths)?;
        Ok(Validity::Expired(time, said))
    }

    // Whether it is asked how long the secret is valid.
    fn asks_validity(&self) -> bool
        ensures asked { result ≡ asks_validity self.now }
        ensures running { IsTrue result → IsFalse (has_ended self.now) }
    {
        self.state() == Connected && !self.refreshing
    }

    // Whether a secret that is valid for so long has expired.
    fn has_expired(&self, time: Option<u64>) -> bool
        ensures { result ≡ has_expired time self.now }
    {
        match time {
            Some(time) => time <= self.present.saturating_sub(self.secret_at),
            None => false,
        }
    }
}
