//! Where an address leads, and as whom.

ghost use Rattle.std.specs.Prelude.{◌≡◌, IfOk};
ghost use Rattle.amqp_uri.specs.Authority.{user_info_of, host_of, authority_of, guest, local_authority};

use crate::decoding::decoded_text;
use amqp_types::{NoMemory, Text};
use std::alloc::Global;
use std::fmt;
use url::Url;

/// A host and its port, and as whom to log in there.
#[derive(Debug, PartialEq, Eq, Drop)]
pub struct AMQPAuthority {
    /// As whom to log in.
    pub userinfo: AMQPUserInfo,
    /// A name or an address; an IPv6 address stands between brackets.
    pub host: Text,
    /// The port.
    pub port: u16,
}

/// A user and a password. Its `Debug` shows neither.
#[derive(PartialEq, Eq, Drop)]
pub struct AMQPUserInfo {
    /// The user.
    pub username: Text,
    /// The password.
    pub password: Text,
}

impl fmt::Debug for AMQPUserInfo {
    ghost use Rattle.std.specs.Prelude.{Some, codes};

    ghost debug_output = { λ _. Some (codes "AMQPUserInfo { .. }") };

    fn fmt<W: fmt::Write>(&self, f: &mut fmt::Formatter<W>) -> fmt::Result {
        f.write_str("AMQPUserInfo { .. }")
    }
}

impl AMQPUserInfo {
    // The user with which a new broker comes.
    pub(crate) fn guest(alloc: Global) -> Result<AMQPUserInfo, NoMemory>
        ensures { IfOk result (λ info. info ≡ guest) }
    {
        let username = Text::new(alloc, "guest")?;
        let password = Text::new(alloc, "guest")?;
        Ok(AMQPUserInfo { username, password })
    }

    fn of_url(alloc: Global, url: &Url) -> Result<AMQPUserInfo, NoMemory>
        ensures { IfOk result (λ info. info ≡ user_info_of url.now) }
    {
        if url.username().is_empty() {
            return AMQPUserInfo::guest(alloc);
        }
        let username = decoded_text(alloc, url.username())?;
        let password = decoded_text(alloc, url.password().unwrap_or(""))?;
        Ok(AMQPUserInfo { username, password })
    }

    /// An equal user with an equal password, which shares the texts.
    pub fn try_clone(&self) -> Result<AMQPUserInfo, NoMemory>
        ensures { IfOk result (λ info. info ≡ self.now) }
    {
        let username = self.username.try_clone()?;
        let password = self.password.try_clone()?;
        Ok(AMQPUserInfo { username, password })
    }
}

// The port of AMQP (IANA).
const AMQP_PORT: u16 = 5672;

fn host(alloc: Global, url: &Url) -> Result<Text, NoMemory>
    ensures { IfOk result (λ host. host ≡ host_of url.now) }
{
    match url.host_str() {
        Some(host) => decoded_text(alloc, host),
        None => Text::new(alloc, "localhost"),
    }
}

impl AMQPAuthority {
    pub(crate) fn of_url(alloc: Global, url: &Url) -> Result<AMQPAuthority, NoMemory>
        ensures { IfOk result (λ authority. authority ≡ authority_of url.now) }
    {
        let userinfo = AMQPUserInfo::of_url(alloc, url)?;
        let host = host(alloc, url)?;
        let port = url.port().unwrap_or(AMQP_PORT);
        Ok(AMQPAuthority {
            userinfo,
            host,
            port,
        })
    }

    // The broker of this machine.
    pub(crate) fn local(alloc: Global) -> Result<AMQPAuthority, NoMemory>
        ensures { IfOk result (λ authority. authority ≡ local_authority) }
    {
        let userinfo = AMQPUserInfo::guest(alloc)?;
        let host = Text::new(alloc, "localhost")?;
        Ok(AMQPAuthority {
            userinfo,
            host,
            port: AMQP_PORT,
        })
    }

    /// An equal authority, which shares the texts.
    pub fn try_clone(&self) -> Result<AMQPAuthority, NoMemory>
        ensures { IfOk result (λ authority. authority ≡ self.now) }
    {
        let userinfo = self.userinfo.try_clone()?;
        let host = self.host.try_clone()?;
        Ok(AMQPAuthority {
            userinfo,
            host,
            port: self.port,
        })
    }
}
