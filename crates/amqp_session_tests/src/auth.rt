//! Providers of authentication: what they answer, and what they refuse.

ghost use Rattle.std.specs.Bool.{OnTrue};
ghost use Rattle.amqp_types.specs.Counts.{Rose};

use crate::support::{Outcome, long, new_token, no_token, provider_of};
use amqp_frame::{Frame, Method};
use amqp_session::{
    Asked, AuthList, AuthProvider, Cmd, DefaultTokenProvider, Refusal, TokenAuthProvider,
    TokenProvider,
};
use amqp_types::{LongString, NoMemory, ShortString, Text};
use std::alloc::Global;

// Whether an answer is these octets.
fn gives(answer: Result<LongString, Refusal>, octets: &[u8]) -> bool {
    match answer {
        Ok(given) => given.as_bytes() == octets,
        Err(refusal) => {
            drop(refusal);
            false
        }
    }
}

// Whether an answer is a refusal that says this.
fn says(answer: Result<LongString, Refusal>, text: &str) -> bool {
    match answer {
        Ok(_) => false,
        Err(Refusal::Said(said)) => said.as_str() == text,
        Err(Refusal::NoMemory) => false,
    }
}

// Whether a provider names this mechanism and says this first.
fn begins<A: AuthProvider>(provider: &mut A, name: &[u8], starter: &[u8]) -> Result<bool, NoMemory>
    requires { A.can provider.old }
    ensures { A.can provider.new }
{
    let mechanism = provider.mechanism()?;
    Ok(mechanism.as_bytes() == name && gives(provider.auth_starter(), starter))
}

// Whether a provider refuses another secret in these words, and then counts that.
fn has_no_other<A: AuthProvider>(provider: &mut A, text: &str) -> bool
    requires { A.can provider.old }
    ensures can { A.can provider.new }
    ensures counted { OnTrue result (Rose (A.refusals provider.old) (A.refusals provider.new)) }
{
    match provider.refresh() {
        Ok(_) => false,
        Err(Refusal::Said(said)) => said.as_str() == text,
        Err(Refusal::NoMemory) => false,
    }
}

// ---- by an address

/// Addresses, the names of their mechanisms, and what is said first.
const STARTERS: &[(&str, &[u8], &[u8])] = &[
    ("amqp://h", b"PLAIN", b"\0guest\0guest"),
    ("amqp://bob:hunter@h", b"PLAIN", b"\0bob\0hunter"),
    (
        "amqp://bob:hunter@h?auth_mechanism=plain",
        b"PLAIN",
        b"\0bob\0hunter",
    ),
    (
        "amqp://bob:hunter@h?auth_mechanism=amqplain",
        b"AMQPLAIN",
        b"\x05LOGINS\0\0\0\x03bob\x08PASSWORDS\0\0\0\x06hunter",
    ),
    (
        "amqp://bob:hunter@h?auth_mechanism=external",
        b"EXTERNAL",
        b"",
    ),
    (
        "amqp://bob:hunter@h?auth_mechanism=anonymous",
        b"ANONYMOUS",
        b"",
    ),
    (
        "amqp://bob:hunter@h?auth_mechanism=rabbit-cr-demo",
        b"RABBIT-CR-DEMO",
        b"bob",
    ),
];

#[test]
fn an_address_says_how_to_begin(rt: HostRuntime) -> Outcome<()> {
    for (text, name, starter) in STARTERS {
        let mut provider = provider_of(rt.alloc(), text)?;
        let same = begins(&mut provider, name, starter);
        drop(provider);
        assert!(rt; same?, "{text}");
    }
    Ok(())
}

/// What an address's provider has no other of.
const NO_REFRESH: &str = "Refresh not supported on current auth provider";

#[test]
fn a_password_is_not_refreshed(rt: HostRuntime) -> Outcome<()> {
    let mut provider = provider_of(rt.alloc(), "amqp://bob:hunter@h")?;
    let same = provider.valid_for().is_none() && has_no_other(&mut provider, NO_REFRESH);
    drop(provider);
    assert!(rt; same);
    Ok(())
}

/// Mechanisms, challenges, and the refusals that they meet.
const CHALLENGES: &[(&str, &[u8], &str)] = &[
    (
        "rabbit-cr-demo",
        b"no",
        "RABBIT-CR-DEMO: received invalid challenge 'no'",
    ),
    (
        "rabbit-cr-demo",
        b"Please tell me your password\0",
        "RABBIT-CR-DEMO: received invalid challenge 'Please tell me your password\\x00'",
    ),
    (
        "plain",
        b"Please tell me your password",
        "Received invalid Connection.Secure with challenge 'Please tell me your password' \
            for SASL mechanism PLAIN with default provider.",
    ),
    (
        "amqplain",
        b"\\\xff",
        "Received invalid Connection.Secure with challenge '\\x5c\\xff' \
            for SASL mechanism AMQPLAIN with default provider.",
    ),
    (
        "external",
        b"",
        "Received invalid Connection.Secure with challenge '' for SASL mechanism EXTERNAL with default provider.",
    ),
    (
        "anonymous",
        b"no",
        "Received invalid Connection.Secure with challenge 'no' for SASL mechanism ANONYMOUS with default provider.",
    ),
];

#[test]
fn challenges_are_refused(rt: HostRuntime) -> Outcome<()> {
    let alloc = rt.alloc();
    for (mechanism, challenge, text) in CHALLENGES {
        let address = format!(in alloc; "amqp://bob:hunter@h?auth_mechanism={mechanism}")?;
        let challenge = long(alloc, challenge)?;
        let mut provider = provider_of(alloc, address.as_str())?;
        let same = says(provider.continue_auth(challenge), text);
        drop(provider);
        assert!(rt; same, "{mechanism}");
    }
    Ok(())
}

#[test]
fn the_demo_tells_the_password(rt: HostRuntime) -> Outcome<()> {
    let alloc = rt.alloc();
    let challenge = long(alloc, b"Please tell me your password")?;
    let mut provider = provider_of(alloc, "amqp://bob:hunter@h?auth_mechanism=rabbit-cr-demo")?;
    let same = gives(provider.continue_auth(challenge), b"My password is hunter");
    drop(provider);
    assert!(rt; same);
    Ok(())
}

#[test]
fn a_boxed_provider_answers_as_what_is_in_the_box(rt: HostRuntime) -> Outcome<()> {
    let alloc = rt.alloc();
    let challenge = long(alloc, b"no")?;
    let provider = provider_of(alloc, "amqp://bob:hunter@h?auth_mechanism=rabbit-cr-demo")?;
    let boxed = Box::new(alloc, provider)?;
    let mut boxed: Box<dyn AuthProvider> = boxed;
    let begun = begins(&mut boxed, b"RABBIT-CR-DEMO", b"bob");
    let refused = says(
        boxed.continue_auth(challenge),
        "RABBIT-CR-DEMO: received invalid challenge 'no'",
    );
    let kept = boxed.valid_for().is_none() && has_no_other(&mut boxed, NO_REFRESH);
    drop(boxed);
    assert!(rt; begun? && refused && kept);
    Ok(())
}

// ---- by tokens

#[test]
fn a_token_is_what_its_closure_makes(rt: HostRuntime) -> Outcome<()> {
    let alloc = rt.alloc();
    let mut tokens = DefaultTokenProvider::new(
        alloc,
        |_token: &LongString| -> Option<u64> { None },
        move || new_token(alloc),
    );
    let unknown = tokens.valid_for().is_none();
    let same = gives(tokens.create_token(), b"my new valid token");
    let none = tokens.valid_for().is_none();
    drop(tokens);
    assert!(rt; unknown && same && none);
    Ok(())
}

#[test]
fn a_closure_tells_how_long_the_last_token_is_valid(rt: HostRuntime) -> Outcome<()> {
    let alloc = rt.alloc();
    let mut tokens = DefaultTokenProvider::new(
        alloc,
        |token: &LongString| Some(token.len() as u64),
        move || new_token(alloc),
    );
    let unknown = tokens.valid_for().is_none();
    let same = gives(tokens.create_token(), b"my new valid token");
    let told = tokens.valid_for() == Some(18);
    drop(tokens);
    assert!(rt; unknown && same && told);
    Ok(())
}

#[test]
fn a_token_may_be_refused(rt: HostRuntime) -> Outcome<()> {
    let alloc = rt.alloc();
    let mut tokens = DefaultTokenProvider::new(
        alloc,
        |_token: &LongString| Some(60_000),
        move || no_token(alloc),
    );
    let refused = says(tokens.create_token(), "no token today");
    let unknown = tokens.valid_for().is_none();
    drop(tokens);
    assert!(rt; refused && unknown);
    Ok(())
}

/// What a provider that logs in by tokens says of a challenge.
const UNKNOWN_CHALLENGE: &str =
    "Received Connection.Secure with challenge 'no' but we don't know how to handle it for PLAIN.";

#[test]
fn a_token_logs_in(rt: HostRuntime) -> Outcome<()> {
    let alloc = rt.alloc();
    let challenge = long(alloc, b"no")?;
    let tokens = DefaultTokenProvider::new(
        alloc,
        |_token: &LongString| Some(60_000),
        move || new_token(alloc),
    );
    let mut provider = TokenAuthProvider::new(alloc, tokens);
    let unknown = provider.valid_for().is_none();
    let begun = begins(&mut provider, b"PLAIN", b"\0\0my new valid token");
    let known = provider.valid_for() == Some(60_000);
    let refreshed = gives(provider.refresh(), b"my new valid token");
    let refused = says(provider.continue_auth(challenge), UNKNOWN_CHALLENGE);
    drop(provider);
    assert!(rt; unknown && begun? && known && refreshed && refused);
    Ok(())
}

#[test]
fn who_gets_no_token_does_not_log_in(rt: HostRuntime) -> Outcome<()> {
    let alloc = rt.alloc();
    let tokens = DefaultTokenProvider::new(
        alloc,
        |_token: &LongString| Some(60_000),
        move || no_token(alloc),
    );
    let mut provider = TokenAuthProvider::from((alloc, tokens));
    let refused = says(provider.auth_starter(), "no token today");
    let again = has_no_other(&mut provider, "no token today");
    drop(provider);
    assert!(rt; refused && again);
    Ok(())
}

// ---- lists of answers

// One answer of each kind, and one more of which a text was said.
fn answers(alloc: Global) -> Result<AuthList, NoMemory> {
    let mut auths = AuthList::new(alloc);
    auths.reserve()?;
    auths.push(Asked::Mechanism(ShortString::from_vec(Vec::from_slice(alloc, b"PLAIN")?)));
    auths.reserve()?;
    auths.push(Asked::Starter(Ok(long(alloc, b"hunter")?)));
    auths.reserve()?;
    auths.push(Asked::Challenge(Err(Text::new(alloc, "hunter")?)));
    auths.reserve()?;
    auths.push(Asked::ValidFor(Some(7)));
    auths.reserve()?;
    auths.push(Asked::Refreshed(Ok(long(alloc, b"hunter")?)));
    Ok(auths)
}

// Whether a list has these answers in this order.
fn holds(auths: &AuthList) -> bool {
    match auths.as_slice() {
        [
            Asked::Mechanism(name),
            Asked::Starter(Ok(starter)),
            Asked::Challenge(Err(text)),
            Asked::ValidFor(Some(7)),
            Asked::Refreshed(Ok(secret)),
        ] => {
            name.as_bytes() == b"PLAIN".as_slice()
                && starter.as_bytes() == b"hunter".as_slice()
                && text.as_str() == "hunter"
                && secret.as_bytes() == b"hunter".as_slice()
        }
        _ => false,
    }
}

#[test]
fn answers_are_listed_in_order(rt: HostRuntime) -> Outcome<()> {
    let auths = answers(rt.alloc())?;
    let copy = auths.try_clone(rt.alloc())?;
    let same = auths.as_slice() == copy.as_slice() && holds(&auths) && holds(&copy);
    assert!(rt; same);
    let none = AuthList::new(rt.alloc());
    assert!(rt; none.as_slice().is_empty());
    Ok(())
}

// ---- secrets

// Whether a text shows no secret of these tests.
fn is_discreet(text: &str) -> bool {
    !text.contains("hunter") && !text.contains("104, 117") && !text.contains("token\"")
}

#[test]
fn an_answer_is_not_shown(rt: HostRuntime) -> Outcome<()> {
    let alloc = rt.alloc();
    let auths = answers(alloc)?;
    let shown = format!(in alloc; "{auths:?}")?;
    assert!(rt; is_discreet(shown.as_str()));
    assert!(rt; shown.as_str().contains("Asked { .. }"));
    Ok(())
}

#[test]
fn the_password_of_an_address_is_not_shown(rt: HostRuntime) -> Outcome<()> {
    let alloc = rt.alloc();
    let provider = provider_of(alloc, "amqp://bob:hunter@h")?;
    let shown = format!(in alloc; "{provider:?}");
    drop(provider);
    let shown = shown?;
    assert!(rt; is_discreet(shown.as_str()));
    assert!(rt; shown.as_str().contains("Credentials { .. }"));
    Ok(())
}

#[test]
fn a_token_is_not_shown(rt: HostRuntime) -> Outcome<()> {
    let alloc = rt.alloc();
    let mut tokens = DefaultTokenProvider::new(
        alloc,
        |_token: &LongString| Some(60_000),
        move || Ok(long(alloc, b"hunter")?),
    );
    let made = gives(tokens.create_token(), b"hunter");
    let shown = format!(in alloc; "{tokens:?}");
    let provider = TokenAuthProvider::new(alloc, tokens);
    let both = format!(in alloc; "{provider:?}");
    drop(provider);
    assert!(rt; made);
    assert!(rt; shown?.as_str() == "DefaultTokenProvider { .. }");
    assert!(rt; both?.as_str() == "TokenAuthProvider { .. }");
    Ok(())
}

#[test]
fn a_command_and_a_frame_show_no_secret(rt: HostRuntime) -> Outcome<()> {
    let alloc = rt.alloc();
    let secret = long(alloc, b"hunter")?;
    let reason = ShortString::from_vec(Vec::from_slice(alloc, b"rotate")?);
    let command = Cmd::UpdateSecret(secret, reason);
    let told = format!(in alloc; "{command:?}");
    drop(command);
    let frame = Frame::Method(0, Method::SecureOk(long(alloc, b"hunter")?));
    let said = format!(in alloc; "{frame:?}");
    drop(frame);
    assert!(rt; told?.as_str() == "UpdateSecret(..)");
    assert!(rt; said?.as_str().contains("SecureOk(..)"));
    Ok(())
}
