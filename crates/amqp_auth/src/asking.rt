//! Asking a provider: a place for the answer is made before the question, and the answer is listed
//! before anything else is done with it.

ghost use Rattle.std.specs.Prelude.{◌≤◌, ◌∷◌, [], IfOk, IfErr, OnErr};
ghost use Rattle.amqp_types.specs.Counts.{Rose};
ghost use Rattle.amqp_auth.specs.Asking.{Answered, Unanswered, IsSaid};

use crate::asked::{Asked, Question, Refusal, copied};
use crate::auth_list::AuthList;
use crate::provider::AuthProvider;
use amqp_types::{LongString, NoMemory, ShortString, Text};
use std::alloc::Global;

/// Asks for the name of the mechanism.
pub fn ask_mechanism<A: AuthProvider>(
    alloc: Global,
    provider: &A,
    auths: &mut AuthList,
) -> Result<ShortString, NoMemory>
    requires { A.can provider.now }
    ensures ok { IfOk result (λ name. Answered Question.Mechanism (Asked.Mechanism name)
        (A.allows provider.now) (A.allows provider.now) auths.old.list auths.new.list) }
    ensures err { OnErr result
        (Unanswered (λ _. Question.Mechanism ∷ []) (A.allows provider.now) auths.old.list auths.new.list) }
{
    auths.reserve()?;
    let name = provider.mechanism()?;
    let copy = name.try_clone(alloc);
    auths.push(Asked::Mechanism(name));
    copy
}

/// Asks for what the client says first.
pub fn ask_starter<A: AuthProvider>(
    alloc: Global,
    provider: &mut A,
    auths: &mut AuthList,
) -> Result<Result<LongString, Text>, NoMemory>
    requires { A.can provider.old }
    ensures can { A.can provider.new }
    ensures ok { IfOk result (λ answer. Answered Question.Starter (Asked.Starter answer)
        (A.allows provider.old) (A.allows provider.new) auths.old.list auths.new.list) }
    ensures err { OnErr result
        (Unanswered (λ _. Question.Starter ∷ []) (A.allows provider.old) auths.old.list auths.new.list) }
    ensures counted { IfOk result
        (λ answer. IfErr answer (λ _. Rose (A.refusals provider.old) (A.refusals provider.new))) }
    ensures never_falls { A.refusals provider.old ≤ A.refusals provider.new }
{
    auths.reserve()?;
    let answer = said(provider.auth_starter())?;
    let copy = copied(alloc, &answer);
    auths.push(Asked::Starter(answer));
    copy
}

/// Asks for the answer to a challenge.
pub fn ask_challenge<A: AuthProvider>(
    alloc: Global,
    provider: &mut A,
    challenge: LongString,
    auths: &mut AuthList,
) -> Result<Result<LongString, Text>, NoMemory>
    requires { A.can provider.old }
    ensures can { A.can provider.new }
    ensures ok { IfOk result (λ answer. Answered (Question.Challenge challenge) (Asked.Challenge answer)
        (A.allows provider.old) (A.allows provider.new) auths.old.list auths.new.list) }
    ensures err { OnErr result
        (Unanswered (λ _. Question.Challenge challenge ∷ []) (A.allows provider.old) auths.old.list auths.new.list) }
    ensures counted { IfOk result
        (λ answer. IfErr answer (λ _. Rose (A.refusals provider.old) (A.refusals provider.new))) }
    ensures never_falls { A.refusals provider.old ≤ A.refusals provider.new }
{
    auths.reserve()?;
    let answer = said(provider.continue_auth(challenge))?;
    let copy = copied(alloc, &answer);
    auths.push(Asked::Challenge(answer));
    copy
}

/// Asks for how long the secret is valid. It takes no memory but a place for the answer.
pub fn ask_valid_for<A: AuthProvider>(
    provider: &A,
    auths: &mut AuthList,
) -> Result<Option<u64>, NoMemory>
    requires { A.can provider.now }
    ensures ok { IfOk result (λ time. Answered Question.ValidFor (Asked.ValidFor time)
        (A.allows provider.now) (A.allows provider.now) auths.old.list auths.new.list) }
    ensures err { OnErr result
        (Unanswered (λ _. Question.ValidFor ∷ []) (A.allows provider.now) auths.old.list auths.new.list) }
{
    auths.reserve()?;
    let time = provider.valid_for();
    auths.push(Asked::ValidFor(time));
    Ok(time)
}

/// Asks for a new secret.
pub fn ask_refresh<A: AuthProvider>(
    alloc: Global,
    provider: &mut A,
    auths: &mut AuthList,
) -> Result<Result<LongString, Text>, NoMemory>
    requires { A.can provider.old }
    ensures can { A.can provider.new }
    ensures ok { IfOk result (λ answer. Answered Question.Refresh (Asked.Refreshed answer)
        (A.allows provider.old) (A.allows provider.new) auths.old.list auths.new.list) }
    ensures err { OnErr result
        (Unanswered (λ _. Question.Refresh ∷ []) (A.allows provider.old) auths.old.list auths.new.list) }
    ensures counted { IfOk result
        (λ answer. IfErr answer (λ _. Rose (A.refusals provider.old) (A.refusals provider.new))) }
    ensures never_falls { A.refusals provider.old ≤ A.refusals provider.new }
{
    auths.reserve()?;
    let answer = said(provider.refresh())?;
    let copy = copied(alloc, &answer);
    auths.push(Asked::Refreshed(answer));
    copy
}

// What was said, where memory was not refused.
fn said(answer: Result<LongString, Refusal>) -> Result<Result<LongString, Text>, NoMemory>
    ensures { IsSaid answer result }
{
    match answer {
        Ok(octets) => Ok(Ok(octets)),
        Err(Refusal::Said(text)) => Ok(Err(text)),
        Err(Refusal::NoMemory) => Err(NoMemory),
    }
}
