//! Errors: what is asked of them, their texts, copies and equality.

use crate::support::same;
use amqp_promise::{ChannelState, ConnectionState, Error, ErrorKind, IoFault};
use amqp_types::{
    AMQPError, ChannelId, NoMemory, ProtocolVersion, ReplyCode, ShortString, Text, Word,
};
use std::alloc::Global;
use std::test::Fail;

type Outcome<T> = Result<T, Fail>;

/// What is asked of an error.
#[derive(Clone, Copy, PartialEq)]
enum Ask {
    IsIo,
    IsAmqp,
    IsSoft,
    IsHard,
    WouldBlock,
    IsInterrupted,
    IsRecoverable,
}

const ASKS: [Ask; 7] = [
    Ask::IsIo,
    Ask::IsAmqp,
    Ask::IsSoft,
    Ask::IsHard,
    Ask::WouldBlock,
    Ask::IsInterrupted,
    Ask::IsRecoverable,
];

/// A kind of error. Where it owns a text, this one borrows it.
#[derive(Clone, Copy)]
enum Plain {
    ChannelsLimitReached,
    InvalidProtocolVersion(u8, u8, u8),
    InvalidChannel(ChannelId),
    InvalidChannelState(ChannelState, Word),
    InvalidConnectionState(ConnectionState),
    Io(IoFault),
    ParsingError(u64),
    ProtocolError(ReplyCode, &'static [u8]),
    SerialisationError(u64),
    AuthProviderError(&'static str),
    MissingHeartbeatError,
    OutOfTurns,
    ForeignPass(u32, u64, Option<u64>),
    OutboxFull(u64),
    NoMemory,
}

/// A kind of error, its text, and what is true of it.
struct Row(Plain, &'static str, &'static [Ask]);

/// Each kind; of faults of a link, and of errors of the protocol, several.
const ROWS: &[Row] = &[
    Row(
        Plain::ChannelsLimitReached,
        "the maximum number of channels for this connection has been reached",
        &[],
    ),
    Row(
        Plain::InvalidProtocolVersion(0, 8, 0),
        "the server only supports AMQP 0-8-0",
        &[],
    ),
    Row(
        Plain::InvalidChannel(3),
        "invalid channel: 3",
        &[Ask::IsRecoverable],
    ),
    Row(
        Plain::InvalidChannelState(ChannelState::Closing, Word::ChannelClose),
        "invalid channel state: Closing (channel.close)",
        &[Ask::IsRecoverable],
    ),
    Row(
        Plain::InvalidConnectionState(ConnectionState::Closed),
        "invalid connection state: Closed",
        &[Ask::IsRecoverable],
    ),
    Row(
        Plain::Io(IoFault::Aborted),
        "IO error: connection aborted",
        &[Ask::IsIo, Ask::IsRecoverable],
    ),
    Row(
        Plain::Io(IoFault::Refused),
        "IO error: connection refused",
        &[Ask::IsIo, Ask::IsRecoverable],
    ),
    Row(
        Plain::Io(IoFault::Reset),
        "IO error: connection reset",
        &[Ask::IsIo, Ask::IsRecoverable],
    ),
    Row(
        Plain::Io(IoFault::BrokenPipe),
        "IO error: broken pipe",
        &[Ask::IsIo, Ask::IsRecoverable],
    ),
    Row(
        Plain::Io(IoFault::WouldBlock),
        "IO error: operation would block",
        &[Ask::IsIo, Ask::WouldBlock, Ask::IsRecoverable],
    ),
    Row(
        Plain::Io(IoFault::Interrupted),
        "IO error: operation interrupted",
        &[Ask::IsIo, Ask::IsInterrupted, Ask::IsRecoverable],
    ),
    Row(
        Plain::Io(IoFault::Other(Word::NoLoop)),
        "IO error: no loop",
        &[Ask::IsIo, Ask::IsRecoverable],
    ),
    Row(
        Plain::ParsingError(0),
        "failed to parse: frame at byte 0",
        &[],
    ),
    Row(
        Plain::ProtocolError(404, b"NOT_FOUND"),
        "protocol error: 404 NOT_FOUND",
        &[Ask::IsAmqp, Ask::IsSoft, Ask::IsRecoverable],
    ),
    Row(
        Plain::ProtocolError(404, b"a\\b\x00\xff~"),
        "protocol error: 404 a\\x5cb\\x00\\xff~",
        &[Ask::IsAmqp, Ask::IsSoft, Ask::IsRecoverable],
    ),
    Row(
        Plain::ProtocolError(504, b"CHANNEL_ERROR"),
        "protocol error: 504 CHANNEL_ERROR",
        &[Ask::IsAmqp, Ask::IsHard, Ask::IsRecoverable],
    ),
    Row(
        Plain::SerialisationError(131_073),
        "failed to serialise: frame of 131073 bytes",
        &[],
    ),
    Row(
        Plain::AuthProviderError("no token"),
        "failure during authentication: no token",
        &[],
    ),
    Row(
        Plain::MissingHeartbeatError,
        "no heartbeat received from server for too long",
        &[Ask::IsRecoverable],
    ),
    Row(Plain::OutOfTurns, "the given turns were all taken", &[]),
    Row(Plain::ForeignPass(3, 4, Some(5)), "foreign pass: 3", &[]),
    Row(Plain::OutboxFull(4152), "outbox full: 4152 bytes", &[]),
    Row(Plain::NoMemory, "memory was refused", &[]),
];

// The error that a peer names by this code.
fn protocol_error(alloc: Global, code: ReplyCode, message: &[u8]) -> Outcome<ErrorKind> {
    let message = ShortString::new(alloc, message)?;
    match AMQPError::from_code(code, message)? {
        Some(error) => Ok(ErrorKind::ProtocolError(error)),
        None => Err("no such code")?,
    }
}

fn kind_of(alloc: Global, plain: Plain) -> Outcome<ErrorKind> {
    Ok(match plain {
        Plain::ChannelsLimitReached => ErrorKind::ChannelsLimitReached,
        Plain::InvalidProtocolVersion(major, minor, revision) => {
            ErrorKind::InvalidProtocolVersion(ProtocolVersion {
                major,
                minor,
                revision,
            })
        }
        Plain::InvalidChannel(id) => ErrorKind::InvalidChannel(id),
        Plain::InvalidChannelState(state, word) => ErrorKind::InvalidChannelState(state, word),
        Plain::InvalidConnectionState(state) => ErrorKind::InvalidConnectionState(state),
        Plain::Io(fault) => ErrorKind::IOError(fault),
        Plain::ParsingError(place) => ErrorKind::ParsingError(place),
        Plain::ProtocolError(code, message) => protocol_error(alloc, code, message)?,
        Plain::SerialisationError(size) => ErrorKind::SerialisationError(size),
        Plain::AuthProviderError(text) => ErrorKind::AuthProviderError(Text::new(alloc, text)?),
        Plain::MissingHeartbeatError => ErrorKind::MissingHeartbeatError,
        Plain::OutOfTurns => ErrorKind::OutOfTurns,
        Plain::ForeignPass(number, place, promise) => {
            ErrorKind::ForeignPass(number, place, promise)
        }
        Plain::OutboxFull(size) => ErrorKind::OutboxFull(size),
        Plain::NoMemory => ErrorKind::NoMemory,
    })
}

fn error_of(alloc: Global, plain: Plain) -> Outcome<Error> {
    Ok(Error::from(kind_of(alloc, plain)?))
}

fn is_true_of(error: &Error, ask: Ask) -> bool {
    match ask {
        Ask::IsIo => error.is_io_error(),
        Ask::IsAmqp => error.is_amqp_error(),
        Ask::IsSoft => error.is_amqp_soft_error(),
        Ask::IsHard => error.is_amqp_hard_error(),
        Ask::WouldBlock => error.wouldblock(),
        Ask::IsInterrupted => error.interrupted(),
        Ask::IsRecoverable => error.can_be_recovered(),
    }
}

// Whether these are true of an error, and no others.
fn are_true_of(error: &Error, asks: &[Ask]) -> bool {
    for ask in ASKS {
        if is_true_of(error, ask) != asks.contains(&ask) {
            return false;
        }
    }
    error.kind().can_be_recovered() == asks.contains(&Ask::IsRecoverable)
}

fn answers(alloc: Global, plain: Plain, asks: &[Ask]) -> Outcome<bool> {
    let error = error_of(alloc, plain)?;
    let told = are_true_of(&error, asks);
    drop(error);
    Ok(told)
}

fn shows(alloc: Global, plain: Plain, text: &str) -> Outcome<bool> {
    let error = error_of(alloc, plain)?;
    let shown = error.to_string(alloc);
    drop(error);
    Ok(shown?.as_str() == text)
}

// Whether the copy of an error is equal to it. It takes the error.
fn is_copied(alloc: Global, error: Error) -> bool {
    match error.try_clone(alloc) {
        Ok(copy) => same(copy, error),
        Err(_) => {
            drop(error);
            false
        }
    }
}

// Whether the errors of two kinds are equal.
fn are_equal(alloc: Global, plain: Plain, other: Plain) -> Outcome<bool> {
    let error = error_of(alloc, plain)?;
    match error_of(alloc, other) {
        Ok(other) => Ok(same(error, other)),
        Err(failure) => {
            drop(error);
            Err(failure)
        }
    }
}

// Whether the error of a row is equal to that of the row of this text alone.
fn is_equal_to_its_own(alloc: Global, plain: Plain, text: &str) -> Outcome<bool> {
    for Row(other, shown, _) in ROWS {
        if are_equal(alloc, plain, *other)? != (text == *shown) {
            return Ok(false);
        }
    }
    Ok(true)
}

// Whether of an error all is true that its row says, and no more is; it has its text, an equal copy, and
// is equal to the error of no other row.
fn holds(alloc: Global, row: &Row) -> Outcome<bool> {
    let Row(plain, text, asks) = row;
    Ok(
        answers(alloc, *plain, asks)?
            && shows(alloc, *plain, text)?
            && is_copied(alloc, error_of(alloc, *plain)?)
            && is_equal_to_its_own(alloc, *plain, text)?,
    )
}

// The text of the first row that does not hold.
fn first_broken(alloc: Global) -> Outcome<Option<&'static str>> {
    for row in ROWS {
        if !holds(alloc, row)? {
            return Ok(Some(row.1));
        }
    }
    Ok(None)
}

#[test]
fn each_row_holds(rt: HostRuntime) -> Outcome<()> {
    assert_eq!(rt; first_broken(rt.alloc())?, None);
    Ok(())
}

/// Pairs of errors that differ in one thing that they hold.
const UNLIKE: [(Plain, Plain); 5] = [
    (Plain::ParsingError(0), Plain::ParsingError(1)),
    (
        Plain::ForeignPass(3, 4, Some(5)),
        Plain::ForeignPass(3, 4, None),
    ),
    (Plain::OutboxFull(4152), Plain::OutboxFull(4153)),
    (
        Plain::AuthProviderError("no token"),
        Plain::AuthProviderError("no tokens"),
    ),
    (
        Plain::ProtocolError(404, b"NOT_FOUND"),
        Plain::ProtocolError(403, b"NOT_FOUND"),
    ),
];

fn is_one_pair_equal(alloc: Global) -> Outcome<bool> {
    for (plain, other) in UNLIKE {
        if are_equal(alloc, plain, other)? {
            return Ok(true);
        }
    }
    Ok(false)
}

#[test]
fn errors_are_equal_by_all_that_they_hold(rt: HostRuntime) -> Outcome<()> {
    assert!(rt; !is_one_pair_equal(rt.alloc())?);
    Ok(())
}

// Whether an error is of this kind. It takes both.
fn is_of(error: Error, kind: ErrorKind) -> bool {
    let is = *error.kind() == kind;
    drop(error);
    drop(kind);
    is
}

#[test]
fn faults_and_want_of_memory_are_errors(rt: HostRuntime) {
    let fault = IoFault::Interrupted;
    assert!(rt; is_of(fault.into(), ErrorKind::IOError(fault)));
    assert!(rt; is_of(NoMemory.into(), ErrorKind::NoMemory));
    assert!(rt; is_of(ErrorKind::OutOfTurns.into(), ErrorKind::OutOfTurns));
}

#[test]
fn states_begin_as_initial(rt: HostRuntime) {
    assert!(rt; ChannelState::default() == ChannelState::Initial);
    assert!(rt; ConnectionState::default() == ConnectionState::Initial);
}

const FAULTS: [(IoFault, &str); 7] = [
    (IoFault::Aborted, "connection aborted"),
    (IoFault::Refused, "connection refused"),
    (IoFault::Reset, "connection reset"),
    (IoFault::BrokenPipe, "broken pipe"),
    (IoFault::WouldBlock, "operation would block"),
    (IoFault::Interrupted, "operation interrupted"),
    (
        IoFault::Other(Word::NoUriGiven),
        "No AMQPUri given to ConnectionBuilder",
    ),
];

fn is_shown(alloc: Global, fault: IoFault, text: &str) -> Outcome<bool> {
    Ok(fault.to_string(alloc)?.as_str() == text)
}

// The text of the first fault that is shown as another.
fn first_shown_otherwise(alloc: Global) -> Outcome<Option<&'static str>> {
    for (fault, text) in FAULTS {
        if !is_shown(alloc, fault, text)? {
            return Ok(Some(text));
        }
    }
    Ok(None)
}

#[test]
fn a_fault_shows_its_text(rt: HostRuntime) -> Outcome<()> {
    assert_eq!(rt; first_shown_otherwise(rt.alloc())?, None);
    Ok(())
}
