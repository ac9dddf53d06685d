//! The options of the program, and what the words behind its name ask for.

ghost use Rattle.std.specs.Prelude.{◌≡◌, ◌↔◌, ℕ, List, [], Option, IfOk, IsTrue, is_some, length, map, option_map};
ghost use Rattle.amqp_tools.specs.Options.{as_given, flag_by, valued_by, with_value, next_by, collects, IsLast, IsOneOf, AreOf};

use crate::wanted::is;
use amqp_types::{NoMemory, Text};
use std::alloc::Global;

/// An option, as it is called in words.
#[derive(Clone, Copy, Debug, PartialEq, Eq)]
pub enum Opt {
    /// `--recover`: where a link is lost, it goes on over another.
    Recover,
    /// `--transient`: what is published is gone with the broker.
    Transient,
    /// `--quiet`: how much was done is not said.
    Quiet,
    /// `-0`: a body ends with an octet 0.
    Zero,
    /// `--length`: a body stands behind its length in four octets.
    Length,
    /// `--wait SECONDS`: for so long the first link is tried again.
    Wait,
    /// `--timeout SECONDS`: it ends where nothing comes of the broker for so long.
    Timeout,
    /// `--most OCTETS`: a body is not larger.
    Most,
    /// `--report FILE`: what became of each message is written there.
    Report,
    /// `--once PROPERTY`: what has a value that was printed is not printed again.
    Once,
    /// `--content-type TYPE`
    ContentType,
    /// `--header NAME=VALUE`
    Header,
    /// `--reply-to QUEUE`
    ReplyTo,
    /// `--correlation-id ID`
    CorrelationId,
    /// `--priority NUMBER`
    Priority,
    /// `--expiration MILLISECONDS`
    Expiration,
    /// `--message-id ID`
    MessageId,
    /// `--message-ids PREFIX`: each message has an id of its own.
    MessageIds,
}

/// An option that was given, with its value; the empty one where it has none.
#[derive(Clone, Copy)]
pub struct Given<'a> {
    pub option: Opt,
    pub value: &'a str,
}

/// The options that were given, in order, and the words behind them.
#[derive(Drop)]
pub struct Words<'a> {
    pub given: Vec<Given<'a>>,
    pub rest: &'a [Text],
}

// The option without a value that a word is.
fn flag_of(word: &Text) -> Option<Opt>
    ensures { result ≡ flag_by word.now }
{
    if is(word, b"--recover") {
        Some(Opt::Recover)
    } else if is(word, b"--transient") {
        Some(Opt::Transient)
    } else if is(word, b"--quiet") {
        Some(Opt::Quiet)
    } else if is(word, b"-0") {
        Some(Opt::Zero)
    } else if is(word, b"--length") {
        Some(Opt::Length)
    } else {
        None
    }
}

// The option with a value behind it that a word is.
fn valued_of(word: &Text) -> Option<Opt>
    ensures { result ≡ valued_by word.now }
{
    if is(word, b"--wait") {
        Some(Opt::Wait)
    } else if is(word, b"--timeout") {
        Some(Opt::Timeout)
    } else if is(word, b"--most") {
        Some(Opt::Most)
    } else if is(word, b"--report") {
        Some(Opt::Report)
    } else if is(word, b"--once") {
        Some(Opt::Once)
    } else if is(word, b"--content-type") {
        Some(Opt::ContentType)
    } else if is(word, b"--header") {
        Some(Opt::Header)
    } else if is(word, b"--reply-to") {
        Some(Opt::ReplyTo)
    } else if is(word, b"--correlation-id") {
        Some(Opt::CorrelationId)
    } else if is(word, b"--priority") {
        Some(Opt::Priority)
    } else if is(word, b"--expiration") {
        Some(Opt::Expiration)
    } else if is(word, b"--message-id") {
        Some(Opt::MessageId)
    } else if is(word, b"--message-ids") {
        Some(Opt::MessageIds)
    } else {
        None
    }
}

// The option at the front of words, and the words behind it; none where no option stands there.
fn next_of(words: &[Text]) -> Option<(Given<'_>, &[Text])>
    ensures { option_map (λ n. (as_given n.0, n.1.now)) result ≡ next_by words.now }
{
    match words {
        [word, rest @ ..] => match flag_of(word) {
            Some(option) => Some((Given { option, value: "" }, rest)),
            None => with_value(valued_of(word)?, rest),
        },
        [] => None,
    }
}

// An option with the value that stands at the front of words, and the words behind that.
fn with_value(option: Opt, words: &[Text]) -> Option<(Given<'_>, &[Text])>
    ensures { option_map (λ n. (as_given n.0, n.1.now)) result ≡ with_value option words.now }
{
    match words {
        [value, rest @ ..] => {
            let value = value.as_str();
            Some((Given { option, value }, rest))
        }
        [] => None,
    }
}

// Puts the options at the front of words behind those that were given, at most so many, and gives the words
// behind the last.
fn collect<'a>(
    words: &'a [Text],
    most: usize,
    given: &mut Vec<Given<'a>>,
) -> Result<&'a [Text], NoMemory>
    ensures { IfOk result (λ rest. (map as_given given.new.items, rest.now)
        ≡ collects most (map as_given given.old.items) words.now) }
{
    if most == 0 {
        return Ok(words);
    }
    match next_of(words) {
        Some((next, behind)) => {
            if given.push(next).is_err() {
                return Err(NoMemory);
            }
            collect(behind, most - 1, given)
        }
        None => Ok(words),
    }
}

/// The options at the front of words, in order, and the words behind the last. An option that lacks its value
/// is one of the words behind.
pub fn words_of(alloc: Global, words: &[Text]) -> Result<Words<'_>, NoMemory>
    ensures { IfOk result (λ w. (map as_given w.given.items, w.rest.now) ≡ collects (length words.now) [] words.now) }
{
    let mut given = Vec::new(alloc);
    match collect(words, words.len(), &mut given) {
        Ok(rest) => Ok(Words { given, rest }),
        Err(refused) => {
            drop(given);
            Err(refused)
        }
    }
}

/// Whether an option was given.
pub fn has(given: &[Given<'_>], option: Opt) -> bool
    ensures { (found : Option (List ℕ)) × IsLast option (map as_given given.now) found × (result ≡ is_some found) }
{
    value_of(given, option).is_some()
}

/// The value of an option, where it was given: that of the last.
pub fn value_of<'a>(given: &[Given<'a>], option: Opt) -> Option<&'a str>
    ensures { IsLast option (map as_given given.now) (option_map (λ v. v.now) result) }
{
    match given {
        [first, rest @ ..] => match value_of(rest, option) {
            Some(value) => Some(value),
            None if first.option == option => Some(first.value),
            None => None,
        },
        [] => None,
    }
}

/// Whether each option that was given is one of these.
pub fn are_of(given: &[Given<'_>], known: &[Opt]) -> bool
    ensures { IsTrue result ↔ AreOf known.now (map as_given given.now) }
{
    match given {
        [first, rest @ ..] => is_of(first.option, known) && are_of(rest, known),
        [] => true,
    }
}

// Whether an option is one of these.
fn is_of(option: Opt, known: &[Opt]) -> bool
    ensures { IsTrue result ↔ IsOneOf known.now option }
{
    match known {
        [first, rest @ ..] => *first == option || is_of(option, rest),
        [] => false,
    }
}
