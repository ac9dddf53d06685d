//! What is said to log in.

ghost use Rattle.std.specs.Prelude.{◌≡◌, ◌<◌, length, IfOk};

use amqp_types::{LongString, NoMemory};
use amqp_uri::{Credentials, SASLMechanism};
use std::alloc::Global;
use std::test::Fail;

const NAMES: &[(SASLMechanism, &str)] = &[
    (SASLMechanism::Plain, "PLAIN"),
    (SASLMechanism::AMQPlain, "AMQPLAIN"),
    (SASLMechanism::External, "EXTERNAL"),
    (SASLMechanism::Anonymous, "ANONYMOUS"),
    (SASLMechanism::RabbitCrDemo, "RABBIT-CR-DEMO"),
];

// The first name that is not that of its mechanism.
fn first_other_name() -> Option<&'static str> {
    for (mechanism, name) in NAMES {
        if mechanism.name() != *name {
            return Some(*name);
        }
    }
    None
}

#[test]
fn mechanisms_have_names(rt: HostRuntime) {
    assert_eq!(rt; first_other_name(), None);
    assert!(rt; SASLMechanism::default() == SASLMechanism::Plain);
}

fn long(alloc: Global, text: &[u8]) -> Result<LongString, NoMemory>
    ensures { IfOk result (λ s. s ≡ text.now) }
{
    match LongString::new(alloc, text) {
        Ok(text) => Ok(text),
        Err(_) => Err(NoMemory),
    }
}

fn credentials(alloc: Global, username: &[u8], password: &[u8]) -> Result<Credentials, NoMemory>
    requires username { length username.now < 100 }
    requires password { length password.now < 100 }
{
    let username = long(alloc, username)?;
    let password = long(alloc, password)?;
    Ok(Credentials::new(username, password))
}

// Whether a text that may have been refused is this one. It takes it.
fn is(text: Result<LongString, NoMemory>, wanted: &[u8]) -> bool {
    match text {
        Ok(text) => {
            let same = text.as_bytes() == wanted;
            drop(text);
            same
        }
        Err(NoMemory) => false,
    }
}

/// What `guest` with the password `guest` says.
const SAID: &[(SASLMechanism, &[u8])] = &[
    (SASLMechanism::Plain, b"\x00guest\x00guest"),
    (
        SASLMechanism::AMQPlain,
        b"\x05LOGINS\x00\x00\x00\x05guest\x08PASSWORDS\x00\x00\x00\x05guest",
    ),
    (SASLMechanism::External, b""),
    (SASLMechanism::Anonymous, b""),
    (SASLMechanism::RabbitCrDemo, b"guest"),
];

// The first mechanism by which `guest` says something else.
fn first_other_text(alloc: Global, guest: &Credentials) -> Option<SASLMechanism> {
    for (mechanism, said) in SAID {
        if !is(guest.sasl_auth_string(alloc, *mechanism), said) {
            return Some(*mechanism);
        }
    }
    None
}

#[test]
fn a_mechanism_has_its_text(rt: HostRuntime) -> Result<(), Fail> {
    let guest = credentials(rt.alloc(), b"guest", b"guest")?;
    let other = first_other_text(rt.alloc(), &guest);
    drop(guest);
    assert!(rt; other == None);
    Ok(())
}

// Whether credentials are shown for programmers as such, and as no more.
fn is_shown(alloc: Global, credentials: &Credentials) -> bool {
    match format!(in alloc; "{credentials:?}") {
        Ok(shown) => shown.as_str() == "Credentials { .. }",
        Err(_) => false,
    }
}

// Whether `bob` is challenged, and answers with his password, which is not shown.
fn is_challenged(alloc: Global, bob: &Credentials) -> bool {
    is(
        bob.sasl_auth_string(alloc, SASLMechanism::RabbitCrDemo),
        b"bob",
    ) && bob.rabbit_cr_demo_challenge() == "Please tell me your password"
        && is(bob.rabbit_cr_demo_answer(alloc), b"My password is hunter")
        && is_shown(alloc, bob)
}

#[test]
fn a_challenge_is_answered(rt: HostRuntime) -> Result<(), Fail> {
    let bob = credentials(rt.alloc(), b"bob", b"hunter")?;
    let told = is_challenged(rt.alloc(), &bob);
    drop(bob);
    assert!(rt; told);
    Ok(())
}
