//! Scripts that say that the provider which was handed is used: a box, or none.

use super::replays::{WELL, answers, answers_by, push_bytes, push_digits};
use amqp_replay::status::{CLOSED, REFUSED, RUNNING};
use amqp_session::{AuthProvider, Refusal, TokenAuthProvider, TokenProvider};
use amqp_types::LongString;
use amqp_vectors::{
    CLOSE, CLOSE_OK, HEADER, OPEN, OPEN_OK, SECRET, SECRET_OK, START, START_OK_TOKEN, TUNE_2,
    TUNE_OK_2,
};
use std::alloc::Global;
use std::test::Fail;

/// Makes the same token each time, which is valid for a minute.
#[derive(Drop)]
struct Fixed {
    alloc: Global,
}

impl TokenProvider for Fixed {
    ghost use Rattle.std.specs.Prelude.{⊤};

    ghost can = { λ p. ⊤ };

    ghost refusals = { λ p. 0 };

    ghost allows = { λ p ts. ⊤ };

    fn valid_for(&self) -> Option<u64> {
        Some(60_000)
    }

    fn create_token(&mut self) -> Result<LongString, Refusal> {
        match LongString::new(self.alloc, b"my new valid token") {
            Ok(token) => Ok(token),
            Err(_) => Err(Refusal::NoMemory),
        }
    }
}

// Whether a script is answered by this status and prints this, where a box is handed.
fn answers_box(alloc: Global, script: &[u8], status: u8, printed: &[u8]) -> Result<bool, Fail> {
    let provider = TokenAuthProvider::new(alloc, Fixed { alloc });
    let boxed: Box<dyn AuthProvider> = Box::new(alloc, provider)?;
    answers_by(
        alloc,
        &["replay"],
        script,
        &WELL,
        Some(boxed),
        status,
        printed,
    )
}

// A token that is made anew when its time is over.
fn refreshed_script(alloc: Global) -> Result<Vec<u8>, Fail> {
    let mut text = Vec::from_slice(alloc, b"provider handed\nlink\n")?;
    for frame in [START, TUNE_2, OPEN_OK] {
        push_bytes(&mut text, frame)?;
    }
    text.extend_from_slice(b"@59999 tick\n@60000 tick\n")?;
    push_bytes(&mut text, SECRET_OK)?;
    text.extend_from_slice(b"@119999 tick\nshut 200 OK\n")?;
    push_bytes(&mut text, CLOSE_OK)?;
    Ok(text)
}

// The report of that script.
fn refreshed_report(alloc: Global) -> Result<Vec<u8>, Fail> {
    let mut text = Vec::from_slice(alloc, b"link 1 ")?;
    for frame in [HEADER, START_OK_TOKEN, TUNE_OK_2, OPEN, SECRET, CLOSE] {
        push_digits(&mut text, frame)?;
    }
    text.extend_from_slice(b"\nanswer 0 ok connected\nanswer 1 ok done\nend closed\n")?;
    Ok(text)
}

// Whether a box is asked for a token, and for another when its time is over.
fn box_is_asked(alloc: Global) -> Result<bool, Fail> {
    let script = refreshed_script(alloc)?;
    let report = refreshed_report(alloc)?;
    answers_box(alloc, &script, CLOSED, &report)
}

#[test]
fn a_handed_box_is_asked(rt: HostRuntime) -> Result<(), Fail> {
    assert!(rt; box_is_asked(rt.alloc())?);
    Ok(())
}

const IDLE: &[u8] = b"answer 0 pending\nend running\n";

#[test]
fn a_script_may_say_that_what_was_handed_is_used(rt: HostRuntime) -> Result<(), Fail> {
    assert!(rt; answers_box(rt.alloc(), b"provider handed\n", RUNNING, IDLE)?);
    assert!(rt; answers_box(rt.alloc(), b"name n\n", RUNNING, IDLE)?);
    Ok(())
}

// Whether such a script is refused where nothing was handed.
fn is_refused(alloc: Global) -> Result<bool, Fail> {
    let script = b"name n\nprovider handed\n";
    let printed = b"script line 2 refused\n";
    answers(alloc, &["replay"], script, &WELL, REFUSED, printed)
}

#[test]
fn a_script_may_not_where_nothing_was_handed(rt: HostRuntime) -> Result<(), Fail> {
    assert!(rt; is_refused(rt.alloc())?);
    Ok(())
}

/// Scripts with a line that is refused though a provider was handed, and its number.
const REFUSED_LINES: [(&str, &str); 6] = [
    (
        "provider handed\nprovider handed\n",
        "script line 2 refused\n",
    ),
    ("link\nprovider handed\n", "script line 2 refused\n"),
    ("@0 provider handed\n", "script line 1 refused\n"),
    ("provider\n", "script line 1 refused\n"),
    ("provider own\n", "script line 1 refused\n"),
    ("provider handed now\n", "script line 1 refused\n"),
];

// The first of these scripts that is not refused so.
fn first_broken(alloc: Global) -> Result<Option<&'static str>, Fail> {
    for (script, printed) in REFUSED_LINES {
        if !answers_box(alloc, script.as_bytes(), REFUSED, printed.as_bytes())? {
            return Ok(Some(script));
        }
    }
    Ok(None)
}

#[test]
fn other_lines_are_refused(rt: HostRuntime) -> Result<(), Fail> {
    assert_eq!(rt; first_broken(rt.alloc())?, None);
    Ok(())
}
