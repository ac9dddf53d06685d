//! What the words behind `double` ask for.

ghost use Rattle.std.specs.Prelude.{◌≡◌, ◌^◌, IfSome, IfNone};
ghost use Rattle.amqp_double_port.specs.Asked.{IsNumberBelow, IsAskedBy};

use amqp_types::Text;

/// Where is listened, and how many clients are served.
#[derive(Clone, Copy, Debug, PartialEq, Eq)]
pub struct Asked {
    /// The port; 0 is one that the system chooses.
    pub port: u16,
    /// How many clients; none where they are served as long as they come.
    pub clients: Option<u64>,
}

/// The number of 64 bits that a word is in decimal digits.
pub fn number_of(word: &str) -> Option<u64>
    ensures { IsNumberBelow (2 ^ 64) word.now result }
{
    if word.as_bytes().first() == Some(&b'+') {
        return None;
    }
    match word.parse::<u64>() {
        Ok(number) => Some(number),
        Err(_) => None,
    }
}

// The port that a word is.
fn port_of(word: &str) -> Option<u16>
    ensures { IsNumberBelow (2 ^ 16) word.now result }
{
    if word.as_bytes().first() == Some(&b'+') {
        return None;
    }
    match word.parse::<u16>() {
        Ok(port) => Some(port),
        Err(_) => None,
    }
}

/// What the words ask for, where they are a port, or that and how many clients.
pub fn asked_of(words: &[Text]) -> Option<Asked>
    ensures asked { IfSome result (IsAskedBy words.now) }
    ensures none { IfNone result ((asked : Asked) → IsAskedBy words.now asked → ⊥) }
{
    match words {
        [port] => Some(Asked {
            port: port_of(port.as_str())?,
            clients: None,
        }),
        [port, clients] => Some(Asked {
            port: port_of(port.as_str())?,
            clients: Some(number_of(clients.as_str())?),
        }),
        _ => None,
    }
}
