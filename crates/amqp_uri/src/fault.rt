//! Why a text is no address.

ghost use Rattle.std.specs.Prelude.{◌≡◌, ◌↔◌, None};
ghost use Rattle.amqp_uri.specs.Faults.{word_of};
ghost use Rattle.amqp_uri.specs.declared.fault.UriFault.TheVariants as fault;

use amqp_types::{NoMemory, Word};
use std::alloc::AllocError;
use std::fmt;
use url::ParseError;

/// Why a text is no address that can be used. It holds nothing of the text, and so no password.
#[derive(Clone, Copy, Debug, PartialEq, Eq)]
pub enum UriFault {
    /// The text is longer than 65,535 octets, or no URL, or its scheme is none of AMQP's.
    NotAmqp,
    /// The scheme is `amqps`, which asks for TLS.
    Amqps,
    /// The virtual host is longer than 255 octets.
    VhostTooLong,
    /// The value of this key is no decimal number, or does not fit its type.
    BadNumber(Word),
    /// The value of `auth_mechanism` names no mechanism.
    BadMechanism,
    /// An allocation was refused.
    NoMemory,
}

impl UriFault {
    /// The word by which a connection that was given such a text says so in its error; it leaves out the
    /// key of a bad number. None where memory was refused, which is an error of its own.
    pub fn word(self) -> Option<Word>
        ensures word { result ≡ word_of self }
        ensures none { (result ≡ None) ↔ (self ≡ fault.NoMemory) }
    {
        match self {
            UriFault::NotAmqp => Some(Word::NotAnAmqpUri),
            UriFault::Amqps => Some(Word::AmqpsIsNotSupported),
            UriFault::VhostTooLong => Some(Word::VirtualHostTooLong),
            UriFault::BadNumber(_) => Some(Word::BadNumberInUri),
            UriFault::BadMechanism => Some(Word::BadMechanismInUri),
            UriFault::NoMemory => None,
        }
    }
}

impl fmt::Display for UriFault {
    ghost use Rattle.std.specs.Prelude.{Some};
    ghost use Rattle.amqp_uri.specs.Faults.{uri_fault_text};

    ghost output = { λ e. Some (uri_fault_text e) };

    fn fmt<W: fmt::Write>(&self, f: &mut fmt::Formatter<W>) -> fmt::Result {
        match self {
            UriFault::NotAmqp => f.write_str(Word::NotAnAmqpUri.text()),
            UriFault::Amqps => f.write_str(Word::AmqpsIsNotSupported.text()),
            UriFault::VhostTooLong => f.write_str(Word::VirtualHostTooLong.text()),
            UriFault::BadNumber(key) => {
                f.write_str(Word::BadNumberInUri.text())?;
                f.write_str(": ")?;
                f.write_str(key.text())
            }
            UriFault::BadMechanism => f.write_str(Word::BadMechanismInUri.text()),
            UriFault::NoMemory => f.write_str("memory was refused"),
        }
    }
}

impl std::error::Error for UriFault {}

impl From<NoMemory> for UriFault {
    ghost use Rattle.std.specs.Prelude.{◌≡◌};
    ghost use Rattle.amqp_uri.specs.declared.fault.UriFault.TheVariants as fault;

    ghost from_gives = { λ _ e. e ≡ fault.NoMemory };

    fn from(_refused: NoMemory) -> UriFault {
        UriFault::NoMemory
    }
}

impl From<AllocError> for UriFault {
    ghost use Rattle.std.specs.Prelude.{◌≡◌};
    ghost use Rattle.amqp_uri.specs.declared.fault.UriFault.TheVariants as fault;

    ghost from_gives = { λ _ e. e ≡ fault.NoMemory };

    fn from(_refused: AllocError) -> UriFault {
        UriFault::NoMemory
    }
}

// Of a text that does not parse as a URL, or for whose URL there is no room.
impl From<ParseError> for UriFault {
    ghost use Rattle.std.specs.Prelude.{◌≡◌};
    ghost use Rattle.amqp_uri.specs.Parts.{of_parsing};

    ghost from_gives = { λ error e. e ≡ of_parsing error };

    fn from(error: ParseError) -> UriFault {
        match error {
            ParseError::OutOfMemory | ParseError::Overflow => UriFault::NoMemory,
            _ => UriFault::NotAmqp,
        }
    }
}
