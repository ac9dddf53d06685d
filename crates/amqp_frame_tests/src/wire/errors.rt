//! The errors of codes, the version, and the fixed texts.

use crate::wire::support::short;
use amqp_types::{AMQPError, AMQPErrorKind, NoMemory, ProtocolVersion, ReplyCode, TypeFault, Word};
use std::alloc::{AllocError, Global};

// The error of a code with this message, if it has one.
fn error_of(alloc: Global, code: ReplyCode, message: &str) -> Result<Option<AMQPError>, TypeFault> {
    let text = short(alloc, message)?;
    Ok(AMQPError::from_code(code, text)?)
}

// What the error of a code closes; none for a code without error.
fn kind_of(alloc: Global, code: ReplyCode) -> Result<Option<AMQPErrorKind>, TypeFault> {
    let error = error_of(alloc, code, "why")?;
    let kind = match &error {
        Some(error) => Some(error.kind()),
        None => None,
    };
    drop(error);
    Ok(kind)
}

/// Seven codes close a channel, eleven the connection, and any other is without error.
const CODES: [(Option<AMQPErrorKind>, &[ReplyCode]); 3] = [
    (
        Some(AMQPErrorKind::Soft),
        &[311, 312, 313, 403, 404, 405, 406],
    ),
    (
        Some(AMQPErrorKind::Hard),
        &[320, 402, 501, 502, 503, 504, 505, 506, 530, 540, 541],
    ),
    (
        None,
        &[0, 200, 310, 314, 321, 401, 407, 500, 507, 531, 542, 65535],
    ),
];

// The first code of these whose error closes another thing than this.
fn first_of(
    alloc: Global,
    codes: &[ReplyCode],
    wanted: Option<AMQPErrorKind>,
) -> Result<Option<ReplyCode>, TypeFault> {
    for code in codes {
        if kind_of(alloc, *code)? != wanted {
            return Ok(Some(*code));
        }
    }
    Ok(None)
}

// The first code of all whose error closes another thing than it is said to.
fn first_other(alloc: Global) -> Result<Option<ReplyCode>, TypeFault> {
    for (wanted, codes) in CODES {
        let other = first_of(alloc, codes, wanted)?;
        if other.is_some() {
            return Ok(other);
        }
    }
    Ok(None)
}

#[test]
fn codes_close_a_channel_or_the_connection_or_nothing(rt: HostRuntime) -> Result<(), TypeFault> {
    assert_eq!(rt; first_other(rt.alloc())?, None);
    Ok(())
}

// Whether an error has this code and message, and an equal copy.
fn is_error(
    alloc: Global,
    error: &AMQPError,
    code: ReplyCode,
    message: &str,
) -> Result<bool, TypeFault> {
    let copy = error.try_clone(alloc)?;
    let same = copy == *error;
    drop(copy);
    Ok(same && error.get_id() == code && error.get_message().as_bytes() == message.as_bytes())
}

// Whether the error of a code keeps it and its message.
fn keeps(alloc: Global, code: ReplyCode, message: &str) -> Result<bool, TypeFault> {
    let error = error_of(alloc, code, message)?;
    let told = match &error {
        Some(error) => is_error(alloc, error, code, message),
        None => Ok(false),
    };
    drop(error);
    told
}

// Whether the errors of a code with two messages are equal.
fn are_equal(alloc: Global, code: ReplyCode, this: &str, that: &str) -> Result<bool, TypeFault> {
    let this = error_of(alloc, code, this)?;
    match error_of(alloc, code, that) {
        Ok(that) => {
            let same = this == that;
            drop(this);
            drop(that);
            Ok(same)
        }
        Err(fault) => {
            drop(this);
            Err(fault)
        }
    }
}

/// A code, two messages, and whether its errors with them are equal.
const MESSAGES: [(ReplyCode, &str, &str, bool); 3] = [
    (404, "no queue", "no queue", true),
    (404, "no queue", "no exchange", false),
    (541, "", "", true),
];

// The first code of a row that does not hold.
fn first_unlike(alloc: Global) -> Result<Option<ReplyCode>, TypeFault> {
    for (code, this, that, same) in MESSAGES {
        if !keeps(alloc, code, this)? || are_equal(alloc, code, this, that)? != same {
            return Ok(Some(code));
        }
    }
    Ok(None)
}

// An error keeps its code and its message, and equal ones have the same.
#[test]
fn errors_keep_their_codes_and_messages(rt: HostRuntime) -> Result<(), TypeFault> {
    assert_eq!(rt; first_unlike(rt.alloc())?, None);
    Ok(())
}

#[test]
fn the_version_is_0_9_1(rt: HostRuntime) -> Result<(), TypeFault> {
    let version = ProtocolVersion {
        major: 0,
        minor: 9,
        revision: 1,
    };
    assert!(rt; ProtocolVersion::amqp_0_9_1() == version);
    Ok(())
}

/// The fixed texts.
const WORDS: &[(Word, &str)] = &[
    (Word::FrameMax, "frame_max"),
    (Word::ChannelMax, "channel_max"),
    (Word::Heartbeat, "heartbeat"),
    (Word::ChannelClose, "channel.close"),
    (Word::ChannelCloseOkSent, "channel.close-ok sent"),
    (Word::ChannelCloseOkReceived, "channel.close-ok received"),
    (Word::ChannelFlow, "channel.flow"),
    (Word::Send, "send"),
    (Word::Publish, "publish"),
    (Word::NotAnAmqpUri, "not an AMQP URI"),
    (Word::AmqpsIsNotSupported, "amqps is not supported"),
    (Word::VirtualHostTooLong, "virtual host too long"),
    (Word::BadNumberInUri, "bad number in URI"),
    (Word::BadMechanismInUri, "bad mechanism in URI"),
    (Word::NoLoop, "no loop"),
    (Word::NoUriGiven, "No AMQPUri given to ConnectionBuilder"),
];

// The first text that is not that of its word.
fn first_other_text() -> Option<&'static str> {
    for (word, text) in WORDS {
        if word.text() != *text {
            return Some(*text);
        }
    }
    None
}

#[test]
fn words_have_their_texts(rt: HostRuntime) {
    assert_eq!(rt; first_other_text(), None);
}

/// Why a string could not be made, and what is said of it.
const FAULTS: &[(TypeFault, &str)] = &[
    (
        TypeFault::TooLong(256),
        "256 octets are more than the string can hold",
    ),
    (TypeFault::NoMemory, "memory was refused"),
];

// Whether a text that was made, or for which memory was refused, is this one. It takes it.
fn is_text(shown: Result<String, AllocError>, text: &str) -> bool {
    match shown {
        Ok(shown) => {
            let same = shown.as_str() == text;
            drop(shown);
            same
        }
        Err(_) => false,
    }
}

// The first text that is shown of no fault as it should be.
fn first_fault_shown_otherwise(alloc: Global) -> Option<&'static str> {
    for (fault, text) in FAULTS {
        if !is_text(fault.to_string(alloc), text) {
            return Some(*text);
        }
    }
    None
}

#[test]
fn faults_have_their_texts(rt: HostRuntime) {
    assert_eq!(rt; first_fault_shown_otherwise(rt.alloc()), None);
    assert!(rt; is_text(NoMemory.to_string(rt.alloc()), "memory was refused"));
}
