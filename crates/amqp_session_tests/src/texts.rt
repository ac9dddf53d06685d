//! The texts of errors, and copies.

use crate::support::Outcome;
use amqp_session::{ChannelState, Cmd, ConnectionState, Error, ErrorKind, IoFault};
use amqp_types::{AMQPError, ShortString, Text, Word};
use std::alloc::Global;
use std::process::Abort;

/// An error. Where it owns a text, this one borrows it.
#[derive(Clone, Copy)]
enum Plain {
    ChannelsLimitReached,
    InvalidConnectionState(ConnectionState),
    InvalidChannelState(ChannelState, Word),
    Io(IoFault),
    SerialisationError(u64),
    OutOfTurns,
    NoMemory,
    AuthProviderError(&'static str),
}

fn kind_of(alloc: Global, plain: Plain) -> Outcome<ErrorKind> {
    Ok(match plain {
        Plain::ChannelsLimitReached => ErrorKind::ChannelsLimitReached,
        Plain::InvalidConnectionState(state) => ErrorKind::InvalidConnectionState(state),
        Plain::InvalidChannelState(state, word) => ErrorKind::InvalidChannelState(state, word),
        Plain::Io(fault) => ErrorKind::IOError(fault),
        Plain::SerialisationError(size) => ErrorKind::SerialisationError(size),
        Plain::OutOfTurns => ErrorKind::OutOfTurns,
        Plain::NoMemory => ErrorKind::NoMemory,
        Plain::AuthProviderError(text) => ErrorKind::AuthProviderError(Text::new(alloc, text)?),
    })
}

/// Each error, and its text.
const TEXTS: &[(Plain, &str)] = &[
    (
        Plain::ChannelsLimitReached,
        "the maximum number of channels for this connection has been reached",
    ),
    (
        Plain::InvalidConnectionState(ConnectionState::Closed),
        "invalid connection state: Closed",
    ),
    (
        Plain::InvalidConnectionState(ConnectionState::Connecting),
        "invalid connection state: Connecting",
    ),
    (
        Plain::InvalidChannelState(ChannelState::Closing, Word::ChannelClose),
        "invalid channel state: Closing (channel.close)",
    ),
    (Plain::Io(IoFault::BrokenPipe), "IO error: broken pipe"),
    (Plain::Io(IoFault::Other(Word::NoLoop)), "IO error: no loop"),
    (
        Plain::SerialisationError(131_073),
        "failed to serialise: frame of 131073 bytes",
    ),
    (Plain::OutOfTurns, "the given turns were all taken"),
    (Plain::NoMemory, "memory was refused"),
    (
        Plain::AuthProviderError("no token"),
        "failure during authentication: no token",
    ),
];

// Whether an error has this text. It takes the error.
fn shows(alloc: Global, error: Error, text: &str) -> Outcome<bool> {
    let shown = error.to_string(alloc);
    drop(error);
    Ok(shown?.as_str() == text)
}

fn have_their_texts<A: Abort>(
    rt: &A,
    alloc: Global,
    rows: &[(Plain, &'static str)],
) -> Outcome<()> {
    for (plain, text) in rows {
        assert!(rt;
            shows(alloc, kind_of(alloc, *plain)?.into(), text)?,
            "{text}"
        );
    }
    Ok(())
}

#[test]
fn errors_have_their_texts(rt: HostRuntime) -> Outcome<()> {
    have_their_texts(&rt, rt.alloc(), TEXTS)
}

// The error that a peer's close of this code and text leads to.
fn closed_with(alloc: Global, code: u16, text: &[u8]) -> Outcome<Error> {
    let message = ShortString::new(alloc, text)?;
    match AMQPError::from_code(code, message)? {
        Some(error) => Ok(ErrorKind::ProtocolError(error).into()),
        None => Err("no such code")?,
    }
}

// Octets that are not printable are shown by their numbers, and so is the backslash.
#[test]
fn a_peers_text_is_shown_octet_by_octet(rt: HostRuntime) -> Outcome<()> {
    let error = closed_with(rt.alloc(), 404, b"a\\b\x00\xff~")?;
    let text = "protocol error: 404 a\\x5cb\\x00\\xff~";
    assert!(rt; shows(rt.alloc(), error, text)?);
    Ok(())
}

// Whether the copy of our close is equal to it.
fn close_is_copied(alloc: Global) -> Outcome<bool> {
    let text = ShortString::new(alloc, b"OK")?;
    let command = Cmd::CloseConnection(200, text);
    let copy = command.try_clone(alloc);
    let same = match &copy {
        Ok(copy) => *copy == command,
        Err(_) => false,
    };
    drop(copy);
    drop(command);
    Ok(same)
}

// Whether the copy of an error is equal to it.
fn error_is_copied(alloc: Global, error: Error) -> bool {
    let copy = error.try_clone(alloc);
    let same = match &copy {
        Ok(copy) => *copy == error,
        Err(_) => false,
    };
    drop(copy);
    drop(error);
    same
}

// Whether two errors are equal. It takes both.
fn are_equal(error: Error, other: Error) -> bool {
    let same = error == other && *error.kind() == *other.kind();
    drop(error);
    drop(other);
    same
}

// The error that a provider's refusal of this text leads to.
fn refused_with(alloc: Global, text: &str) -> Outcome<Error> {
    Ok(ErrorKind::AuthProviderError(Text::new(alloc, text)?).into())
}

// Whether the errors of two refusals, of these texts, are equal.
fn are_alike(alloc: Global, text: &str, other: &str) -> Outcome<bool> {
    let error = refused_with(alloc, text)?;
    match refused_with(alloc, other) {
        Ok(other) => Ok(are_equal(error, other)),
        Err(failure) => {
            drop(error);
            Err(failure)
        }
    }
}

#[test]
fn copies_are_equal(rt: HostRuntime) -> Outcome<()> {
    let alloc = rt.alloc();
    assert!(rt; close_is_copied(alloc)?);
    assert!(rt; error_is_copied(alloc, refused_with(alloc, "no token")?));
    assert!(rt; are_alike(alloc, "no token", "no token")?);
    assert!(rt; !are_alike(alloc, "no token", "no tokens")?);
    assert!(rt;
        !are_equal(
            refused_with(alloc, "no token")?,
            ErrorKind::OutOfTurns.into()
        )
    );
    assert!(rt; ConnectionState::default() == ConnectionState::Initial);
    Ok(())
}
