//! Methods of the connection class and of the channel class.

ghost use Rattle.std.specs.Prelude.{◌≡◌, IfOk};
ghost use Rattle.amqp_frame.specs.declared.method.Method.TheVariants as methods;

use amqp_types::{FieldTable, LongString, NoMemory, ReplyCode, ShortString};
use std::alloc::Global;
use std::fmt;

/// A method of the connection class (10) or of the channel class (20), without its reserved
/// arguments (AMQP 0-9-1, class reference; `Blocked`, `Unblocked`, `UpdateSecret` and
/// `UpdateSecretOk` are extensions of RabbitMQ). Its `Debug` shows nothing of a response and of a
/// secret.
#[derive(PartialEq, Eq, Drop)]
pub enum Method {
    /// connection.start: the major and the minor version, the server's properties, its mechanisms
    /// and its locales, each of the last two parted by blanks.
    Start(u8, u8, FieldTable, LongString, LongString),
    /// connection.start-ok: the client's properties, the mechanism, the response and the locale.
    StartOk(FieldTable, ShortString, LongString, ShortString),
    /// connection.secure: the challenge.
    Secure(LongString),
    /// connection.secure-ok: the response.
    SecureOk(LongString),
    /// connection.tune: the greatest channel number, the greatest frame in octets, and the
    /// heartbeat in seconds; 0 is no limit, or no heartbeat.
    Tune(u16, u32, u16),
    /// connection.tune-ok: the same, as the client chose them.
    TuneOk(u16, u32, u16),
    /// connection.open: the virtual host.
    Open(ShortString),
    /// connection.open-ok.
    OpenOk,
    /// connection.close: a code and a text, and the class and the method that it is about.
    Close(ReplyCode, ShortString, u16, u16),
    /// connection.close-ok.
    CloseOk,
    /// connection.blocked: why the server takes no more content.
    Blocked(ShortString),
    /// connection.unblocked.
    Unblocked,
    /// connection.update-secret: the new secret, and why it is new.
    UpdateSecret(LongString, ShortString),
    /// connection.update-secret-ok.
    UpdateSecretOk,
    /// channel.open.
    ChannelOpen,
    /// channel.open-ok.
    ChannelOpenOk,
    /// channel.flow: whether content may be sent.
    ChannelFlow(bool),
    /// channel.flow-ok: whether content will be sent.
    ChannelFlowOk(bool),
    /// channel.close: a code and a text, and the class and the method that it is about.
    ChannelClose(ReplyCode, ShortString, u16, u16),
    /// channel.close-ok.
    ChannelCloseOk,
}

impl fmt::Debug for Method {
    ghost use Rattle.amqp_frame.specs.Methods.{debug_of};

    ghost debug_output = { debug_of };

    fn fmt<W: fmt::Write>(&self, f: &mut fmt::Formatter<W>) -> fmt::Result {
        match self {
            Method::Start(major, minor, properties, mechanisms, locales) => {
                let mut tuple = f.debug_tuple("Start");
                tuple.field(major).field(minor).field(properties);
                tuple.field(mechanisms).field(locales).finish()
            }
            Method::StartOk(..) => f.write_str("StartOk(..)"),
            Method::Secure(challenge) => f.debug_tuple("Secure").field(challenge).finish(),
            Method::SecureOk(_) => f.write_str("SecureOk(..)"),
            Method::Tune(channels, size, beat) => debug_numbers("Tune", *channels, *size, *beat, f),
            Method::TuneOk(channels, size, beat) => {
                debug_numbers("TuneOk", *channels, *size, *beat, f)
            }
            Method::Open(vhost) => f.debug_tuple("Open").field(vhost).finish(),
            Method::OpenOk => f.write_str("OpenOk"),
            Method::Close(code, text, class, id) => debug_close(
                "Close", *code, text, *class, *id, f,
            ),
            Method::CloseOk => f.write_str("CloseOk"),
            Method::Blocked(reason) => f.debug_tuple("Blocked").field(reason).finish(),
            Method::Unblocked => f.write_str("Unblocked"),
            Method::UpdateSecret(..) => f.write_str("UpdateSecret(..)"),
            Method::UpdateSecretOk => f.write_str("UpdateSecretOk"),
            Method::ChannelOpen => f.write_str("ChannelOpen"),
            Method::ChannelOpenOk => f.write_str("ChannelOpenOk"),
            Method::ChannelFlow(active) => f.debug_tuple("ChannelFlow").field(active).finish(),
            Method::ChannelFlowOk(active) => f.debug_tuple("ChannelFlowOk").field(active).finish(),
            Method::ChannelClose(code, text, class, id) => {
                debug_close("ChannelClose", *code, text, *class, *id, f)
            }
            Method::ChannelCloseOk => f.write_str("ChannelCloseOk"),
        }
    }
}

// A method of the three numbers that are agreed.
fn debug_numbers<W: fmt::Write>(
    name: &str,
    channel_max: u16,
    frame_max: u32,
    heartbeat: u16,
    f: &mut fmt::Formatter<W>,
) -> fmt::Result {
    let mut tuple = f.debug_tuple(name);
    tuple.field(&channel_max).field(&frame_max);
    tuple.field(&heartbeat).finish()
}

// A method that closes.
fn debug_close<W: fmt::Write>(
    name: &str,
    code: ReplyCode,
    text: &ShortString,
    class: u16,
    id: u16,
    f: &mut fmt::Formatter<W>,
) -> fmt::Result {
    let mut tuple = f.debug_tuple(name);
    tuple.field(&code).field(text);
    tuple.field(&class).field(&id).finish()
}

impl Method {
    ghost use Rattle.amqp_frame.specs.Methods.{class_of, number_of};

    /// The number of its class: 10 is connection, 20 is channel.
    pub fn class_id(&self) -> u16
        ensures { result ≡ class_of self.now }
    {
        match self {
            Method::ChannelOpen
            | Method::ChannelOpenOk
            | Method::ChannelFlow(_)
            | Method::ChannelFlowOk(_)
            | Method::ChannelClose(..)
            | Method::ChannelCloseOk => 20,
            _ => 10,
        }
    }

    /// Its number in its class.
    pub fn method_id(&self) -> u16
        ensures { result ≡ number_of self.now }
    {
        match self {
            Method::Start(..) | Method::ChannelOpen => 10,
            Method::StartOk(..) | Method::ChannelOpenOk => 11,
            Method::Secure(_) | Method::ChannelFlow(_) => 20,
            Method::SecureOk(_) | Method::ChannelFlowOk(_) => 21,
            Method::Tune(..) => 30,
            Method::TuneOk(..) => 31,
            Method::Open(_) | Method::ChannelClose(..) => 40,
            Method::OpenOk | Method::ChannelCloseOk => 41,
            Method::Close(..) => 50,
            Method::CloseOk => 51,
            Method::Blocked(_) => 60,
            Method::Unblocked => 61,
            Method::UpdateSecret(..) => 70,
            Method::UpdateSecretOk => 71,
        }
    }

    /// An equal method.
    pub fn try_clone(&self, alloc: Global) -> Result<Method, NoMemory>
        ensures { IfOk result (λ m. m ≡ self.now) }
    {
        match self {
            Method::Start(major, minor, properties, mechanisms, locales) => {
                clone_start(alloc, *major, *minor, properties, mechanisms, locales)
            }
            Method::StartOk(properties, mechanism, response, locale) => {
                clone_start_ok(alloc, properties, mechanism, response, locale)
            }
            Method::Secure(challenge) => challenge.try_clone(alloc).map(Method::Secure),
            Method::SecureOk(response) => response.try_clone(alloc).map(Method::SecureOk),
            Method::Tune(channels, frame, heartbeat) => {
                Ok(Method::Tune(*channels, *frame, *heartbeat))
            }
            Method::TuneOk(channels, frame, heartbeat) => {
                Ok(Method::TuneOk(*channels, *frame, *heartbeat))
            }
            Method::Open(host) => host.try_clone(alloc).map(Method::Open),
            Method::OpenOk => Ok(Method::OpenOk),
            Method::Close(code, text, class, method) => {
                let text = text.try_clone(alloc)?;
                Ok(Method::Close(*code, text, *class, *method))
            }
            Method::CloseOk => Ok(Method::CloseOk),
            Method::Blocked(reason) => reason.try_clone(alloc).map(Method::Blocked),
            Method::Unblocked => Ok(Method::Unblocked),
            Method::UpdateSecret(secret, reason) => clone_update_secret(alloc, secret, reason),
            Method::UpdateSecretOk => Ok(Method::UpdateSecretOk),
            Method::ChannelOpen => Ok(Method::ChannelOpen),
            Method::ChannelOpenOk => Ok(Method::ChannelOpenOk),
            Method::ChannelFlow(active) => Ok(Method::ChannelFlow(*active)),
            Method::ChannelFlowOk(active) => Ok(Method::ChannelFlowOk(*active)),
            Method::ChannelClose(code, text, class, method) => {
                let text = text.try_clone(alloc)?;
                Ok(Method::ChannelClose(*code, text, *class, *method))
            }
            Method::ChannelCloseOk => Ok(Method::ChannelCloseOk),
        }
    }
}

// Two equal long strings.
fn clone_two_long(
    alloc: Global,
    first: &LongString,
    second: &LongString,
) -> Result<(LongString, LongString), NoMemory>
    ensures { IfOk result (λ t. (t.0 ≡ first.now) × (t.1 ≡ second.now)) }
{
    let first = first.try_clone(alloc)?;
    match second.try_clone(alloc) {
        Ok(second) => Ok((first, second)),
        Err(refused) => {
            drop(first);
            Err(refused)
        }
    }
}

// An equal long string and an equal short string.
fn clone_long_and_short(
    alloc: Global,
    first: &LongString,
    second: &ShortString,
) -> Result<(LongString, ShortString), NoMemory>
    ensures { IfOk result (λ t. (t.0 ≡ first.now) × (t.1 ≡ second.now)) }
{
    let first = first.try_clone(alloc)?;
    match second.try_clone(alloc) {
        Ok(second) => Ok((first, second)),
        Err(refused) => {
            drop(first);
            Err(refused)
        }
    }
}

// An equal connection.start.
fn clone_start(
    alloc: Global,
    major: u8,
    minor: u8,
    properties: &FieldTable,
    mechanisms: &LongString,
    locales: &LongString,
) -> Result<Method, NoMemory>
    ensures { IfOk result (λ m. m ≡ methods.Start major minor properties.now mechanisms.now locales.now) }
{
    let properties = properties.try_clone(alloc)?;
    match clone_two_long(alloc, mechanisms, locales) {
        Ok((mechanisms, locales)) => {
            Ok(Method::Start(major, minor, properties, mechanisms, locales))
        }
        Err(refused) => {
            drop(properties);
            Err(refused)
        }
    }
}

// An equal mechanism, response and locale.
fn clone_login(
    alloc: Global,
    mechanism: &ShortString,
    response: &LongString,
    locale: &ShortString,
) -> Result<(ShortString, LongString, ShortString), NoMemory>
    ensures { IfOk result (λ t. (t.0 ≡ mechanism.now) × (t.1 ≡ response.now) × (t.2 ≡ locale.now)) }
{
    let mechanism = mechanism.try_clone(alloc)?;
    match clone_long_and_short(alloc, response, locale) {
        Ok((response, locale)) => Ok((mechanism, response, locale)),
        Err(refused) => {
            drop(mechanism);
            Err(refused)
        }
    }
}

// An equal connection.start-ok.
fn clone_start_ok(
    alloc: Global,
    properties: &FieldTable,
    mechanism: &ShortString,
    response: &LongString,
    locale: &ShortString,
) -> Result<Method, NoMemory>
    ensures { IfOk result (λ m. m ≡ methods.StartOk properties.now mechanism.now response.now locale.now) }
{
    let properties = properties.try_clone(alloc)?;
    match clone_login(alloc, mechanism, response, locale) {
        Ok((mechanism, response, locale)) => {
            Ok(Method::StartOk(properties, mechanism, response, locale))
        }
        Err(refused) => {
            drop(properties);
            Err(refused)
        }
    }
}

// An equal connection.update-secret.
fn clone_update_secret(
    alloc: Global,
    secret: &LongString,
    reason: &ShortString,
) -> Result<Method, NoMemory>
    ensures { IfOk result (λ m. m ≡ methods.UpdateSecret secret.now reason.now) }
{
    let (secret, reason) = clone_long_and_short(alloc, secret, reason)?;
    Ok(Method::UpdateSecret(secret, reason))
}
