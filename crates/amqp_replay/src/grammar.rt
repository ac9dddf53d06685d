//! What the lines of a script say.

ghost use Rattle.std.specs.Prelude.{◌≡◌, ◌<◌, ◌^◌, IfOk, IfSome, option_map};
ghost use Rattle.std.specs.Option.{option_copied};
ghost use Rattle.std.specs.Str.{IsAscii};
ghost use Rattle.amqp_commands.specs.declared.command.ChanRef.{ChanRef};
ghost use Rattle.amqp_commands.specs.declared.command.Cmd.TheVariants.{CloseConnection, CloseChannel};
ghost use Rattle.amqp_replay.specs.Grammar.{says, content_says, step_line, moment, words_say, line_of_words, command_of_words, limited, setup_or_refused, lone, link_line, room_line, bytes_line, shut_line, close_line, send_line, closes_numbered, closes, closes_by, numbered, number_in, rest_of, sends_data, is_passed_class, all_spelled, published_in, publishes_data, publish_line, zeros_published, flow_line, switch_of, secret_line, secrets};
ghost use Rattle.amqp_replay.specs.Budgets.{affordable_publish};
ghost use Rattle.amqp_replay.specs.Data.{spelled};
ghost use Rattle.amqp_replay.specs.Setup.{setting_of};
ghost use Rattle.amqp_replay.specs.Decimals.{number_16};
ghost use Rattle.amqp_replay.specs.Reasons.{GivesReason};

use crate::data::{Spelled, read_data};
use crate::decimals::number;
use crate::limits::{PIECE_BYTES, SECRET_BYTES, TEXT_BYTES};
use crate::lines::{Line, is_ignored, is_printable, is_within_limits};
use crate::setup::{Setting, is_setup, read_setting};
use crate::words::{cut, is};
use amqp_engine::GivenStep;
use amqp_frame::RawMethod;
use amqp_session::{ChanRef, Cmd, Properties};
use amqp_types::{LongString, NoMemory, ShortString};
use std::alloc::Global;
use std::marker::Model;

/// What a line says.
#[derive(Debug, Drop)]
pub enum Said {
    /// The line is empty or a comment.
    Nothing,
    Refused,
    /// What a session is made from.
    Setup(Setting),
    /// A step, and how many of its bytes are zeros that a number spells.
    Step(GivenStep, u64),
}

/// What a line says, where so many zeros may still be spelled by numbers.
pub fn says(alloc: Global, line: &Line, left: u64) -> Result<Said, NoMemory>
    ensures { IfOk result (λ said. said ≡ limited left (says line.now)) }
{
    if !is_within_limits(line) {
        return Ok(Said::Refused);
    }
    Ok(content_says(alloc, line.content, left)?)
}

// What the bytes of a line say.
fn content_says(alloc: Global, content: &[u8], left: u64) -> Result<Said, NoMemory>
    ensures { IfOk result (λ said. said ≡ limited left (content_says content.now)) }
{
    if !is_printable(content) {
        return Ok(Said::Refused);
    }
    if is_ignored(content) {
        return Ok(Said::Nothing);
    }
    if is_setup(content) {
        return Ok(setup_line(alloc, content)?);
    }
    Ok(step_line(alloc, content, left)?)
}

// What a setup line says.
fn setup_line(alloc: Global, content: &[u8]) -> Result<Said, NoMemory>
    requires { IsAscii content.now }
    ensures { IfOk result (λ said. said ≡ setup_or_refused (setting_of content.now)) }
{
    match read_setting(alloc, content)? {
        Some(setting) => Ok(Said::Setup(setting)),
        None => Ok(Said::Refused),
    }
}

// What a line says that says a step, with or without its moment.
fn step_line(alloc: Global, content: &[u8], left: u64) -> Result<Said, NoMemory>
    ensures { IfOk result (λ said. said ≡ limited left (step_line content.now)) }
{
    let [b'@', rest @ ..] = content else {
        return Ok(words_say(alloc, content, left)?);
    };
    let (digits, words) = cut(rest, b' ');
    match (number(digits, u64::MAX), words) {
        (Some(_), Some(words)) => Ok(words_say(alloc, words, left)?),
        _ => Ok(Said::Refused),
    }
}

/// The moment that a line names before its step, where it names one.
pub fn moment(content: &[u8]) -> Option<u64>
    ensures { result ≡ moment content.now }
{
    let [b'@', rest @ ..] = content else {
        return None;
    };
    let (digits, _) = cut(rest, b' ');
    number(digits, u64::MAX)
}

// What a line of these words says.
fn words_say(alloc: Global, words: &[u8], left: u64) -> Result<Said, NoMemory>
    ensures { IfOk result (λ said. said ≡ limited left (words_say words.now)) }
{
    let (word, rest) = cut(words, b' ');
    Ok(line_of_words(alloc, word, rest, left)?)
}

// What a line says that begins with this word.
fn line_of_words(
    alloc: Global,
    word: &[u8],
    rest: Option<&[u8]>,
    left: u64,
) -> Result<Said, NoMemory>
    ensures { IfOk result (λ said. said ≡ limited left (line_of_words word.now (option_copied rest.entry))) }
{
    if is(word, b"link") {
        return Ok(link(rest));
    }
    if is(word, b"refuse") {
        return Ok(lone(GivenStep::Refuse, rest));
    }
    if is(word, b"bytes") {
        return Ok(bytes(alloc, rest, left)?);
    }
    if is(word, b"end") {
        return Ok(lone(GivenStep::End, rest));
    }
    if is(word, b"fault") {
        return Ok(lone(GivenStep::Fault, rest));
    }
    if is(word, b"room") {
        return Ok(room(rest));
    }
    if is(word, b"writefail") {
        return Ok(lone(GivenStep::WriteFail, rest));
    }
    if is(word, b"tick") {
        return Ok(lone(GivenStep::Tick, rest));
    }
    Ok(command(alloc, word, rest, left)?)
}

// What a line says that tells the session to do something.
fn command(alloc: Global, word: &[u8], rest: Option<&[u8]>, left: u64) -> Result<Said, NoMemory>
    ensures { IfOk result (λ said. said ≡ limited left (command_of_words word.now (option_copied rest.entry))) }
{
    if is(word, b"open") {
        return Ok(lone(GivenStep::Command(Cmd::OpenChannel), rest));
    }
    if is(word, b"close") {
        return Ok(close(alloc, rest)?);
    }
    if is(word, b"send") {
        return Ok(send(alloc, rest, left)?);
    }
    if is(word, b"publish") {
        return Ok(publish(alloc, rest, left)?);
    }
    if is(word, b"flow") {
        return Ok(flow(rest));
    }
    if is(word, b"secret") {
        return Ok(secret(alloc, rest, left)?);
    }
    if is(word, b"shut") {
        return Ok(shut(alloc, rest)?);
    }
    Ok(Said::Refused)
}

// A line of one word alone.
fn lone(what: GivenStep, rest: Option<&[u8]>) -> Said
    ensures { result ≡ lone what (option_copied rest.entry) }
{
    match rest {
        None => Said::Step(what, 0),
        Some(_) => {
            drop(what);
            Said::Refused
        }
    }
}

// `link`, `link N`
fn link(rest: Option<&[u8]>) -> Said
    ensures { result ≡ link_line (option_copied rest.entry) }
{
    match rest {
        None => Said::Step(GivenStep::Link(None), 0),
        Some(digits) => match number(digits, u64::MAX) {
            None => Said::Refused,
            Some(n) => Said::Step(GivenStep::Link(Some(n)), 0),
        },
    }
}

// `room N`
fn room(rest: Option<&[u8]>) -> Said
    ensures { result ≡ room_line (option_copied rest.entry) }
{
    match rest {
        None => Said::Refused,
        Some(digits) => match number(digits, u64::MAX) {
            None => Said::Refused,
            Some(n) => Said::Step(GivenStep::Room(n), 0),
        },
    }
}

// `bytes DATA`
fn bytes(alloc: Global, rest: Option<&[u8]>, left: u64) -> Result<Said, NoMemory>
    ensures { IfOk result (λ said. said ≡ limited left (bytes_line (option_copied rest.entry))) }
{
    let Some(text) = rest else {
        return Ok(Said::Refused);
    };
    let Some(data) = read_data(alloc, text, left)? else {
        return Ok(Said::Refused);
    };
    let len = data.bytes().len();
    if len == 0 || len > PIECE_BYTES {
        drop(data);
        return Ok(Said::Refused);
    }
    let zeros = data.zeros();
    Ok(Said::Step(GivenStep::Bytes(data.into_bytes()), zeros))
}

// `shut CODE TEXT`
fn shut(alloc: Global, rest: Option<&[u8]>) -> Result<Said, NoMemory>
    ensures { IfOk result (λ said. said ≡ shut_line (option_copied rest.entry)) }
{
    match read_reason(alloc, rest)? {
        None => Ok(Said::Refused),
        Some(reason) => {
            let command = Cmd::CloseConnection(reason.code, reason.text);
            Ok(Said::Step(GivenStep::Command(command), 0))
        }
    }
}

// `close CH CODE TEXT`
fn close(alloc: Global, rest: Option<&[u8]>) -> Result<Said, NoMemory>
    ensures { IfOk result (λ said. said ≡ close_line (option_copied rest.entry)) }
{
    let Some(words) = rest else {
        return Ok(Said::Refused);
    };
    let (id, rest) = cut(words, b' ');
    let Some(id) = number(id, u16::MAX as u64) else {
        return Ok(Said::Refused);
    };
    match read_reason(alloc, rest)? {
        None => Ok(Said::Refused),
        Some(reason) => {
            let command = Cmd::CloseChannel(numbered(id as u16), reason.code, reason.text);
            Ok(Said::Step(GivenStep::Command(command), 0))
        }
    }
}

// A channel by its number alone.
fn numbered(id: u16) -> ChanRef
    ensures { result ≡ numbered id }
{
    ChanRef { id, opened: None }
}

// Why something is closed.
#[derive(Drop)]
struct Reason {
    code: u16,
    text: ShortString,
}

// `CODE TEXT`, where the text may be missing, and is empty then.
fn read_reason(alloc: Global, rest: Option<&[u8]>) -> Result<Option<Reason>, NoMemory>
    ensures { IfOk result (λ r. GivesReason r (option_copied rest.entry)) }
{
    let Some(words) = rest else {
        return Ok(None);
    };
    let (code, text) = cut(words, b' ');
    let text = text.unwrap_or(&[]);
    match number(code, u16::MAX as u64) {
        Some(code) if text.len() <= TEXT_BYTES => Ok(Some(Reason {
            code: code as u16,
            text: ShortString::from_vec(Vec::from_slice(alloc, text)?),
        })),
        _ => Ok(None),
    }
}

// `send CH CLASS METHOD DATA`
fn send(alloc: Global, rest: Option<&[u8]>, left: u64) -> Result<Said, NoMemory>
    ensures { IfOk result (λ said. said ≡ limited left (send_line (option_copied rest.entry))) }
{
    let (id, rest) = number_and_rest(rest);
    let (class, rest) = number_and_rest(rest);
    let (method, rest) = number_and_rest(rest);
    match (id, class, method, rest) {
        (Some(id), Some(class), Some(method), Some(text)) => {
            Ok(sends(alloc, id, class, method, read_data(alloc, text, left)?)?)
        }
        _ => Ok(Said::Refused),
    }
}

// A number at the front of the words that are left, and what follows its word.
fn number_and_rest(words: Option<&[u8]>) -> (Option<u16>, Option<&[u8]>)
    ensures number { result.0 ≡ number_in (option_copied words.entry) }
    ensures rest { option_copied result.1 ≡ rest_of (option_copied words.entry) }
{
    match words {
        None => (None, None),
        Some(words) => {
            let (digits, rest) = cut(words, b' ');
            (short_number(digits), rest)
        }
    }
}

// A number of 16 bits.
fn short_number(digits: &[u8]) -> Option<u16>
    ensures { result ≡ number_16 digits.now }
{
    match number(digits, u16::MAX as u64) {
        Some(n) => Some(n as u16),
        None => None,
    }
}

// The sending of a method with these arguments, where they are spelled.
fn sends(
    alloc: Global,
    id: u16,
    class: u16,
    method: u16,
    arguments: Option<Spelled>,
) -> Result<Said, NoMemory>
    ensures { IfOk result (λ said. said ≡ sends_data id class method arguments) }
{
    let Some(data) = arguments else {
        return Ok(Said::Refused);
    };
    if class == 10 || class == 20 {
        drop(data);
        return Ok(Said::Refused);
    }
    let zeros = data.zeros();
    let method = RawMethod::new(alloc, class, method, data.bytes().as_bytes());
    drop(data);
    let command = Cmd::Send(numbered(id), method?);
    Ok(Said::Step(GivenStep::Command(command), zeros))
}

// What is published: the arguments of the method, the properties and the body.
#[derive(Debug, Drop)]
struct Published {
    arguments: Spelled,
    properties: Spelled,
    body: Spelled,
}

impl Model for Published {
    ghost use Rattle.amqp_replay.specs.Grammar.{Published};

    ghost Value = { Published };

    ghost view = { λ p. record { arguments = p.arguments; properties = p.properties; body = p.body } };
}

// `publish CH CLASS METHOD DATA DATA DATA`
fn publish(alloc: Global, rest: Option<&[u8]>, left: u64) -> Result<Said, NoMemory>
    ensures { IfOk result (λ said. said ≡ limited left (publish_line (option_copied rest.entry))) }
{
    let (id, rest) = number_and_rest(rest);
    let (class, rest) = number_and_rest(rest);
    let (method, rest) = number_and_rest(rest);
    match (id, class, method) {
        (Some(id), Some(class), Some(method)) => {
            Ok(publishes(alloc, id, class, method, read_published(alloc, rest, left)?)?)
        }
        _ => Ok(Said::Refused),
    }
}

// What `DATA DATA DATA` spells.
fn read_published(
    alloc: Global,
    rest: Option<&[u8]>,
    left: u64,
) -> Result<Option<Published>, NoMemory>
    ensures { IfOk result (λ p. p ≡ affordable_publish left (published_in (option_copied rest.entry))) }
{
    let Some(words) = rest else {
        return Ok(None);
    };
    let (arguments, rest) = cut(words, b' ');
    let Some(words) = rest else {
        return Ok(None);
    };
    let (properties, rest) = cut(words, b' ');
    match rest {
        Some(body) => Ok(read_all(alloc, arguments, properties, body, left)?),
        None => Ok(None),
    }
}

// The three, where each is spelled, and where together they have no more zeros that a number spells.
fn read_all(
    alloc: Global,
    arguments: &[u8],
    properties: &[u8],
    body: &[u8],
    left: u64,
) -> Result<Option<Published>, NoMemory>
    ensures { IfOk result (λ p. p ≡ affordable_publish left
        (all_spelled (spelled arguments.now) (spelled properties.now) (spelled body.now))) }
{
    let Some(arguments) = read_data(alloc, arguments, left)? else {
        return Ok(None);
    };
    let left = left - arguments.zeros();
    let Some(properties) = read_data(alloc, properties, left)? else {
        return Ok(None);
    };
    let left = left - properties.zeros();
    let Some(body) = read_data(alloc, body, left)? else {
        return Ok(None);
    };
    Ok(Some(Published {
        arguments,
        properties,
        body,
    }))
}

// The publishing of a method with these data, where they are spelled.
fn publishes(
    alloc: Global,
    id: u16,
    class: u16,
    method: u16,
    published: Option<Published>,
) -> Result<Said, NoMemory>
    requires { IfSome published (λ p. zeros_published p < 2 ^ 64) }
    ensures { IfOk result (λ said. said ≡ publishes_data id class method published) }
{
    let Some(
        Published {
            arguments,
            properties,
            body,
        },
    ) = published
    else {
        return Ok(Said::Refused);
    };
    if class == 10 || class == 20 {
        return Ok(Said::Refused);
    }
    let zeros = arguments.zeros() + properties.zeros() + body.zeros();
    let Some(properties) = Properties::new(properties.into_bytes()) else {
        return Ok(Said::Refused);
    };
    let method = RawMethod::new(alloc, class, method, arguments.bytes().as_bytes())?;
    let command = Cmd::Publish(numbered(id), method, properties, body.into_bytes());
    Ok(Said::Step(GivenStep::Command(command), zeros))
}

// `secret DATA TEXT`, where the text may be missing, and is empty then.
fn secret(alloc: Global, rest: Option<&[u8]>, left: u64) -> Result<Said, NoMemory>
    ensures { IfOk result (λ said. said ≡ limited left (secret_line (option_copied rest.entry))) }
{
    let Some(words) = rest else {
        return Ok(Said::Refused);
    };
    let (data, reason) = cut(words, b' ');
    let secret = read_data(alloc, data, left)?;
    Ok(secrets(alloc, secret, reason.unwrap_or(&[]))?)
}

// The telling of a new secret, where it is spelled, for a reason.
fn secrets(alloc: Global, secret: Option<Spelled>, reason: &[u8]) -> Result<Said, NoMemory>
    ensures { IfOk result (λ said. said ≡ secrets secret reason.now) }
{
    let Some(data) = secret else {
        return Ok(Said::Refused);
    };
    if data.bytes().len() > SECRET_BYTES || reason.len() > TEXT_BYTES {
        drop(data);
        return Ok(Said::Refused);
    }
    let zeros = data.zeros();
    let secret = LongString::from_vec(data.into_bytes().into_vec());
    let reason = ShortString::from_vec(Vec::from_slice(alloc, reason)?);
    let command = Cmd::UpdateSecret(secret, reason);
    Ok(Said::Step(GivenStep::Command(command), zeros))
}

// `flow CH on`, `flow CH off`
fn flow(rest: Option<&[u8]>) -> Said
    ensures { result ≡ flow_line (option_copied rest.entry) }
{
    let (id, rest) = number_and_rest(rest);
    let (Some(id), Some(text)) = (id, rest) else {
        return Said::Refused;
    };
    match switch(text) {
        Some(active) => Said::Step(GivenStep::Command(Cmd::Flow(numbered(id), active)), 0),
        None => Said::Refused,
    }
}

// `on` or `off`
fn switch(text: &[u8]) -> Option<bool>
    ensures { result ≡ switch_of text.now }
{
    if is(text, b"on") {
        return Some(true);
    }
    if is(text, b"off") {
        return Some(false);
    }
    None
}
