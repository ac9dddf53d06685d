//! A provider that answers by an address.

ghost use Rattle.std.specs.Prelude.{◌≡◌, ◌+◌, ◌<◌, ◌^◌, length, IfOk, OnOk};
ghost use Rattle.amqp_uri.specs.Mechanisms.{name_of};
ghost use Rattle.amqp_auth.specs.DefaultAnswers.{login_of, default_of, stray_challenge, wrong_challenge, demo_answer, challenge_answer};

use crate::asked::{Refusal, refused};
use crate::provider::AuthProvider;
use amqp_promise::Shown;
use amqp_types::{LongString, NoMemory, ShortString, Text};
use amqp_uri::{AMQPUri, AMQPUserInfo, Credentials, SASLMechanism};
use std::alloc::Global;
use std::marker::Model;

// How long a user and a password are together at least that no text of SASL may be made of.
const LONGEST_LOGIN: usize = 2_147_483_648;

/// Answers by the mechanism, the user and the password of an address.
#[derive(Debug, Drop)]
pub struct DefaultAuthProvider {
    alloc: Global,
    mechanism: SASLMechanism,
    credentials: Credentials,
    refusals: u64,
}

impl Model for DefaultAuthProvider {
    ghost use Rattle.amqp_auth.specs.DefaultAnswers.{DefaultAuth};

    ghost Value = { DefaultAuth };

    ghost view = { λ p. record { mechanism = p.mechanism; login = p.credentials; refusals = p.refusals } };
}

impl DefaultAuthProvider {
    /// By PLAIN, where the address names no mechanism. A user and a password that no message could
    /// hold are refused as memory is.
    pub fn new(alloc: Global, uri: &AMQPUri) -> Result<DefaultAuthProvider, NoMemory>
        ensures made { IfOk result (λ provider. provider ≡ default_of uri.now) }
        ensures short { OnOk result
            (length uri.now.authority.userinfo.username + length uri.now.authority.userinfo.password < 2 ^ 31) }
    {
        Ok(DefaultAuthProvider {
            alloc,
            mechanism: uri.query.auth_mechanism.unwrap_or(SASLMechanism::Plain),
            credentials: credentials(alloc, &uri.authority.userinfo)?,
            refusals: 0,
        })
    }

    fn challenge_answer(&self, challenge: &LongString) -> Result<Result<LongString, Text>, NoMemory>
        ensures { IfOk result
            (λ answer. answer ≡ challenge_answer self.now.mechanism self.now.login challenge.now) }
    {
        match self.mechanism {
            SASLMechanism::RabbitCrDemo => demo_answer(self.alloc, &self.credentials, challenge),
            mechanism => Ok(Err(stray_challenge(self.alloc, mechanism, challenge)?)),
        }
    }
}

impl AuthProvider for DefaultAuthProvider {
    ghost use Rattle.std.specs.Prelude.{⊤};
    ghost use Rattle.amqp_auth.specs.DefaultAnswers.{default_answer, AnswersEach};

    ghost can = { λ p. ⊤ };

    ghost refusals = { λ p. p.refusals };

    ghost allows = { λ p. AnswersEach (default_answer p.mechanism p.login) };

    fn mechanism(&self) -> Result<ShortString, NoMemory> {
        name_of(self.alloc, self.mechanism)
    }

    fn auth_starter(&mut self) -> Result<LongString, Refusal> {
        let text = self
            .credentials
            .sasl_auth_string(self.alloc, self.mechanism)?;
        Ok(text)
    }

    fn continue_auth(&mut self, challenge: LongString) -> Result<LongString, Refusal> {
        match self.challenge_answer(&challenge)? {
            Ok(answer) => Ok(answer),
            Err(text) => Err(refused(&mut self.refusals, text)),
        }
    }

    fn valid_for(&self) -> Option<u64> {
        None
    }

    fn refresh(&mut self) -> Result<LongString, Refusal> {
        let text = Text::new(self.alloc, "Refresh not supported on current auth provider")?;
        Err(refused(&mut self.refusals, text))
    }
}

// A text as a long string.
fn long_of(alloc: Global, text: &Text) -> Result<LongString, NoMemory>
    ensures { IfOk result (λ s. s ≡ text.now) }
{
    match LongString::new(alloc, text.as_str().as_bytes()) {
        Ok(long) => Ok(long),
        Err(_) => Err(NoMemory),
    }
}

// As whom the client logs in.
fn credentials(alloc: Global, info: &AMQPUserInfo) -> Result<Credentials, NoMemory>
    ensures made { IfOk result (λ c. c ≡ login_of info.now) }
    ensures short { OnOk result (length info.now.username + length info.now.password < 2 ^ 31) }
{
    let username = long_of(alloc, &info.username)?;
    let password = long_of(alloc, &info.password)?;
    if username.len() + password.len() >= LONGEST_LOGIN {
        return Err(NoMemory);
    }
    Ok(Credentials::new(username, password))
}

fn name_of(alloc: Global, mechanism: SASLMechanism) -> Result<ShortString, NoMemory>
    ensures { IfOk result (λ name. name ≡ name_of mechanism) }
{
    match ShortString::new(alloc, mechanism.name().as_bytes()) {
        Ok(name) => Ok(name),
        Err(_) => Err(NoMemory),
    }
}

// By RABBIT-CR-DEMO.
fn demo_answer(
    alloc: Global,
    credentials: &Credentials,
    challenge: &LongString,
) -> Result<Result<LongString, Text>, NoMemory>
    ensures { IfOk result (λ answer. answer ≡ demo_answer credentials.now challenge.now) }
{
    if challenge.as_bytes() == credentials.rabbit_cr_demo_challenge().as_bytes() {
        return Ok(Ok(credentials.rabbit_cr_demo_answer(alloc)?));
    }
    Ok(Err(wrong_challenge(alloc, challenge)?))
}

// The refusal of a challenge that is not RABBIT-CR-DEMO's.
fn wrong_challenge(alloc: Global, challenge: &LongString) -> Result<Text, NoMemory>
    ensures { IfOk result (λ text. text ≡ wrong_challenge challenge.now) }
{
    let name = SASLMechanism::RabbitCrDemo.name();
    let shown = Shown {
        octets: challenge.as_bytes(),
    };
    let text = format!(in alloc; "{name}: received invalid challenge '{shown}'")?;
    Text::new(alloc, text.as_str())
}

// The refusal of a challenge to a mechanism that knows none.
fn stray_challenge(
    alloc: Global,
    mechanism: SASLMechanism,
    challenge: &LongString,
) -> Result<Text, NoMemory>
    ensures { IfOk result (λ text. text ≡ stray_challenge mechanism challenge.now) }
{
    let name = mechanism.name();
    let shown = Shown {
        octets: challenge.as_bytes(),
    };
    let text = format!(in alloc;
        "Received invalid Connection.Secure with challenge '{shown}' for SASL mechanism {name} with default provider."
    )?;
    Text::new(alloc, text.as_str())
}
