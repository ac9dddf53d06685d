//! What the words of a command line ask for.

ghost use Rattle.std.specs.Prelude.{◌≡◌};
ghost use Rattle.amqp_program.specs.Asked.{one_word, two_words, asked_by_words};

use amqp_replay::decimals::number;
use amqp_replay::limits::MOST_GENERATED;
use amqp_replay::words::is;
use amqp_types::Text;

/// What is asked for.
#[derive(Clone, Copy, Debug, PartialEq, Eq)]
pub enum Asked {
    /// The report of the script that a source gives.
    Replay,
    /// The script that a number makes, and the summary of its replay.
    Generate(u16),
    /// The verdict on the capture that a source gives.
    Check,
}

/// What the words ask for, where they are known.
pub fn asked_by(words: &[Text]) -> Option<Asked>
    ensures { result ≡ asked_by_words words.now }
{
    match words {
        [word] => one_word(word.as_str().as_bytes()),
        [word, digits] => two_words(word.as_str().as_bytes(), digits.as_str().as_bytes()),
        _ => None,
    }
}

// What one word asks for.
fn one_word(word: &[u8]) -> Option<Asked>
    ensures { result ≡ one_word word.now }
{
    if is(word, b"replay") {
        Some(Asked::Replay)
    } else if is(word, b"check") {
        Some(Asked::Check)
    } else {
        None
    }
}

// What a word and a number ask for.
fn two_words(word: &[u8], digits: &[u8]) -> Option<Asked>
    ensures { result ≡ two_words word.now digits.now }
{
    if !is(word, b"generate") {
        return None;
    }
    match number(digits, MOST_GENERATED) {
        Some(n) => Some(Asked::Generate(n as u16)),
        None => None,
    }
}
