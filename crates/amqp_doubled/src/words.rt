//! The words `double N`.

ghost use Rattle.std.specs.Prelude.{◌≡◌, ◌≤◌, IfSome};
ghost use Rattle.amqp_replay.specs.declared.limits.TheConstants.{MOST_GENERATED};
ghost use Rattle.amqp_doubled.specs.Numbers.{double_in, doubled_number};

use amqp_replay::decimals::number;
use amqp_replay::limits::MOST_GENERATED;
use amqp_replay::words::is;
use amqp_types::Text;

/// The number, where the words are `double` and one.
pub fn doubled_number(words: &[Text]) -> Option<u64>
    ensures value { result ≡ doubled_number words.now }
    ensures bound { IfSome result (λ n. n ≤ MOST_GENERATED) }
{
    match words {
        [word, digits] => double_in(word.as_str().as_bytes(), digits.as_str().as_bytes()),
        _ => None,
    }
}

// The number, where the word before it is `double`.
fn double_in(word: &[u8], digits: &[u8]) -> Option<u64>
    ensures value { result ≡ double_in word.now digits.now }
    ensures bound { IfSome result (λ n. n ≤ MOST_GENERATED) }
{
    if !is(word, b"double") {
        return None;
    }
    number(digits, MOST_GENERATED)
}
