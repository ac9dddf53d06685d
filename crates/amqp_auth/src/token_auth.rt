//! A provider that logs in by tokens.

ghost use Rattle.std.specs.Prelude.{◌≡◌, ◌<◌, ◌^◌, length, IfOk, OnOk};
ghost use Rattle.amqp_auth.specs.Tokens.{starter_of, unknown_challenge};

use crate::asked::{Refusal, refused};
use crate::provider::AuthProvider;
use crate::tokens::TokenProvider;
use amqp_promise::Shown;
use amqp_types::{LongString, NoMemory, ShortString, Text};
use amqp_uri::{Credentials, SASLMechanism};
use std::alloc::Global;
use std::fmt;

// How long a token is at least that no text of SASL may be made of.
const LONGEST_TOKEN: usize = 2_147_483_648;

/// Logs in by PLAIN with the empty user, and a token for the password. Its `Debug` shows nothing of
/// who makes the tokens.
#[derive(Drop)]
pub struct TokenAuthProvider<TP> {
    alloc: Global,
    token_provider: TP,
    refusals: u64,
}

impl<TP> fmt::Debug for TokenAuthProvider<TP> {
    ghost use Rattle.std.specs.Prelude.{Some, codes};

    ghost debug_output = { λ _. Some (codes "TokenAuthProvider { .. }") };

    fn fmt<W: fmt::Write>(&self, f: &mut fmt::Formatter<W>) -> fmt::Result {
        f.write_str("TokenAuthProvider { .. }")
    }
}

impl<TP: TokenProvider> TokenAuthProvider<TP> {
    /// By the tokens of this provider.
    pub fn new(alloc: Global, token_provider: TP) -> TokenAuthProvider<TP>
        ensures token_provider { result.token_provider ≡ token_provider }
        ensures refusals { result.refusals ≡ 0 }
    {
        TokenAuthProvider {
            alloc,
            token_provider,
            refusals: 0,
        }
    }
}

impl<TP: TokenProvider> From<(Global, TP)> for TokenAuthProvider<TP> {
    ghost use Rattle.std.specs.Prelude.{◌≡◌};

    ghost from_gives = { λ parts made. (made.token_provider ≡ parts.1) × (made.refusals ≡ 0) };

    fn from(parts: (Global, TP)) -> TokenAuthProvider<TP> {
        let (alloc, token_provider) = parts;
        TokenAuthProvider {
            alloc,
            token_provider,
            refusals: 0,
        }
    }
}

impl<TP: TokenProvider> AuthProvider for TokenAuthProvider<TP> {
    ghost use Rattle.amqp_auth.specs.Tokens.{OverTokens};

    ghost can = { λ p. TP.can p.token_provider };

    ghost refusals = { λ p. p.refusals };

    ghost allows = { λ p. OverTokens (TP.allows p.token_provider) };

    fn mechanism(&self) -> Result<ShortString, NoMemory> {
        Ok(ShortString::from_vec(Vec::from_slice(self.alloc, b"PLAIN")?))
    }

    fn auth_starter(&mut self) -> Result<LongString, Refusal> {
        match self.token_provider.create_token() {
            Ok(token) => Ok(starter_of(self.alloc, token)?),
            Err(Refusal::Said(text)) => Err(refused(&mut self.refusals, text)),
            Err(Refusal::NoMemory) => Err(Refusal::NoMemory),
        }
    }

    fn continue_auth(&mut self, challenge: LongString) -> Result<LongString, Refusal> {
        let text = unknown_challenge(self.alloc, &challenge)?;
        Err(refused(&mut self.refusals, text))
    }

    fn valid_for(&self) -> Option<u64> {
        self.token_provider.valid_for()
    }

    fn refresh(&mut self) -> Result<LongString, Refusal> {
        match self.token_provider.create_token() {
            Ok(token) => Ok(token),
            Err(Refusal::Said(text)) => Err(refused(&mut self.refusals, text)),
            Err(Refusal::NoMemory) => Err(Refusal::NoMemory),
        }
    }
}

// What the client says first by a token. A token that no message could hold is refused as memory is.
fn starter_of(alloc: Global, token: LongString) -> Result<LongString, NoMemory>
    ensures text { IfOk result (λ text. text ≡ starter_of token) }
    ensures short { OnOk result (length token < 2 ^ 31) }
{
    if token.len() >= LONGEST_TOKEN {
        return Err(NoMemory);
    }
    let nobody = LongString::from_vec(Vec::new(alloc));
    Credentials::new(nobody, token).sasl_auth_string(alloc, SASLMechanism::Plain)
}

// The refusal of a challenge.
fn unknown_challenge(alloc: Global, challenge: &LongString) -> Result<Text, NoMemory>
    ensures { IfOk result (λ text. text ≡ unknown_challenge challenge.now) }
{
    let name = SASLMechanism::Plain.name();
    let shown = Shown {
        octets: challenge.as_bytes(),
    };
    let text = format!(in alloc;
        "Received Connection.Secure with challenge '{shown}' but we don't know how to handle it for {name}."
    )?;
    Text::new(alloc, text.as_str())
}
