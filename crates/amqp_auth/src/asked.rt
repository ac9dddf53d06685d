//! What a provider of authentication is asked, and what it answers.

ghost use Rattle.std.specs.Prelude.{◌≡◌, ◌≤◌, IfOk};
ghost use Rattle.amqp_types.specs.Counts.{Rose};
ghost use Rattle.amqp_auth.specs.declared.asked.Refusal.TheVariants.{Said};

use amqp_types::{LongString, NoMemory, ShortString, Text};
use std::alloc::Global;
use std::fmt;

/// Why a provider gives no answer.
#[derive(Debug, PartialEq, Eq, Drop)]
pub enum Refusal {
    /// What the text says.
    Said(Text),
    /// An allocation was refused.
    NoMemory,
}

impl From<NoMemory> for Refusal {
    ghost use Rattle.std.specs.Prelude.{◌≡◌};
    ghost use Rattle.amqp_auth.specs.declared.asked.Refusal.TheVariants as refusal;

    ghost from_gives = { λ _ e. e ≡ refusal.NoMemory };

    fn from(_refused: NoMemory) -> Refusal {
        Refusal::NoMemory
    }
}

/// Says a text, which counts as one more refusal. A count at the greatest number of its type stays.
pub fn refused(refusals: &mut u64, text: Text) -> Refusal
    ensures said { result ≡ Said text }
    ensures counted { Rose refusals.old refusals.new }
    ensures never_falls { refusals.old ≤ refusals.new }
{
    *refusals = refusals.saturating_add(1);
    Refusal::Said(text)
}

/// What a provider is asked.
#[derive(Debug, PartialEq, Eq, Drop)]
pub enum Question {
    /// The mechanism of SASL by which the client logs in.
    Mechanism,
    /// What the client says first.
    Starter,
    /// The answer to this challenge of the server.
    Challenge(LongString),
    /// For how many milliseconds the secret is valid.
    ValidFor,
    /// A new secret.
    Refresh,
}

/// What a provider answered; an Err is the text that it said. Its `Debug` shows nothing of it, since
/// most answers are secret.
#[derive(PartialEq, Eq, Drop)]
pub enum Asked {
    /// The name of the mechanism.
    Mechanism(ShortString),
    /// What the client says first.
    Starter(Result<LongString, Text>),
    /// The answer to a challenge.
    Challenge(Result<LongString, Text>),
    /// For how many milliseconds the secret is valid, where the provider can tell.
    ValidFor(Option<u64>),
    /// A new secret.
    Refreshed(Result<LongString, Text>),
}

impl fmt::Debug for Asked {
    ghost use Rattle.std.specs.Prelude.{Some, codes};

    ghost debug_output = { λ _. Some (codes "Asked { .. }") };

    fn fmt<W: fmt::Write>(&self, f: &mut fmt::Formatter<W>) -> fmt::Result {
        f.write_str("Asked { .. }")
    }
}

impl Asked {
    /// An equal answer.
    pub fn try_clone(&self, alloc: Global) -> Result<Asked, NoMemory>
        ensures { IfOk result (λ asked. asked ≡ self.now) }
    {
        match self {
            Asked::Mechanism(name) => Ok(Asked::Mechanism(name.try_clone(alloc)?)),
            Asked::Starter(answer) => Ok(Asked::Starter(copied(alloc, answer)?)),
            Asked::Challenge(answer) => Ok(Asked::Challenge(copied(alloc, answer)?)),
            Asked::ValidFor(time) => Ok(Asked::ValidFor(*time)),
            Asked::Refreshed(answer) => Ok(Asked::Refreshed(copied(alloc, answer)?)),
        }
    }
}

/// An equal answer, which shares the text where one was said.
pub fn copied(
    alloc: Global,
    answer: &Result<LongString, Text>,
) -> Result<Result<LongString, Text>, NoMemory>
    ensures { IfOk result (λ copy. copy ≡ answer.now) }
{
    match answer {
        Ok(octets) => Ok(Ok(octets.try_clone(alloc)?)),
        Err(text) => Ok(Err(text.try_clone()?)),
    }
}
