//! What the words behind a program's name ask for.

ghost use Rattle.std.specs.Prelude.{◌≡◌, option_map};
ghost use Rattle.std.specs.Str.{bytes_eq};
ghost use Rattle.amqp_tools.specs.Wanted.{wants_help, job_by, publishing_by, consuming_by, IsCount};

use amqp_types::Text;

/// What the first word asks for.
#[derive(Clone, Copy, Debug, PartialEq, Eq)]
pub enum Job {
    /// `publish`: what is read is published.
    Publish,
    /// `consume`: what is delivered is printed.
    Consume,
}

/// Where a program publishes.
#[derive(Clone, Copy)]
pub struct Publishing<'a> {
    pub uri: &'a str,
    pub exchange: &'a str,
    pub key: &'a str,
}

/// What a program consumes.
#[derive(Clone, Copy)]
pub struct Consuming<'a> {
    pub uri: &'a str,
    pub queue: &'a str,
    /// The word that says how many messages, where there is one.
    pub count: Option<&'a str>,
}

/// Whether a word is this one.
pub fn is(word: &Text, this: &[u8]) -> bool
    ensures { result ≡ bytes_eq word.now this.now }
{
    word.as_str().as_bytes() == this
}

/// Whether the words ask for help.
pub fn wants_help(words: &[Text]) -> bool
    ensures { result ≡ wants_help words.now }
{
    match words {
        [word] => is(word, b"--help") || is(word, b"-h"),
        _ => false,
    }
}

/// What the first word asks for, and the words behind it.
pub fn job_of(words: &[Text]) -> Option<(Job, &[Text])>
    ensures { option_map (λ p. (p.0, p.1.now)) result ≡ job_by words.now }
{
    match words {
        [first, rest @ ..] if is(first, b"publish") => Some((Job::Publish, rest)),
        [first, rest @ ..] if is(first, b"consume") => Some((Job::Consume, rest)),
        _ => None,
    }
}

/// Where is published, by the words behind the options.
pub fn publishing_of(words: &[Text]) -> Option<Publishing<'_>>
    ensures { option_map (λ p. (p.uri.now, (p.exchange.now, p.key.now))) result ≡ publishing_by words.now }
{
    match words {
        [uri, exchange, key] => Some(Publishing {
            uri: uri.as_str(),
            exchange: exchange.as_str(),
            key: key.as_str(),
        }),
        _ => None,
    }
}

/// What is consumed, by the words behind the options.
pub fn consuming_of(words: &[Text]) -> Option<Consuming<'_>>
    ensures { option_map (λ c. (c.uri.now, (c.queue.now, option_map (λ n. n.now) c.count))) result
        ≡ consuming_by words.now }
{
    match words {
        [uri, queue] => Some(Consuming {
            uri: uri.as_str(),
            queue: queue.as_str(),
            count: None,
        }),
        [uri, queue, count] => Some(Consuming {
            uri: uri.as_str(),
            queue: queue.as_str(),
            count: Some(count.as_str()),
        }),
        _ => None,
    }
}

/// The number of 64 bits that a word is in decimal digits.
pub fn count_of(word: &str) -> Option<u64>
    ensures { IsCount word.now result }
{
    if word.as_bytes().first() == Some(&b'+') {
        return None;
    }
    match word.parse::<u64>() {
        Ok(count) => Some(count),
        Err(_) => None,
    }
}
