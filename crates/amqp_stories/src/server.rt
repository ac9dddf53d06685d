//! A server that says what a script tells, and keeps what it heard.

ghost use Rattle.std.specs.Prelude.{◌≡◌, ◌≤◌, IfSome, false, length};
ghost use Rattle.amqp_engine.specs.Counts.{HasCause, is_fault};
ghost use Rattle.amqp_engine.specs.Log.{IsPiece};

use crate::names::octets_of;
use amqp_engine::Step;
use std::alloc::{AllocError, Global};

// What happens once so many commands have their numbers. A piece has octets.
#[derive(Drop)]
struct Happening {
    after: u64,
    what: What,
    octets: Vec<u8>,
}

#[derive(Clone, Copy)]
enum What {
    Link,
    Piece,
    End,
    Fault,
    Tick,
    Heard,
}

/// A server that says what its script tells, and keeps what it heard.
#[derive(Drop)]
pub struct Server {
    happenings: Vec<Happening>,
    done: usize,
    heard: Vec<u8>,
    faults: u64,
}

// What happens by this word, which is not the name of a frame.
fn what_of(word: &str) -> What {
    match word {
        "link" => What::Link,
        "fault" => What::Fault,
        "tick" => What::Tick,
        _ => What::End,
    }
}

// What a word says that is no number.
fn said_by(alloc: Global, after: u64, word: &str) -> Result<Happening, AllocError> {
    match word.strip_suffix('?') {
        Some(name) => {
            let octets = octets_of(alloc, name)?.unwrap_or(Vec::new(alloc));
            Ok(Happening {
                after,
                what: What::Heard,
                octets,
            })
        }
        None => happens_by(alloc, after, word),
    }
}

// Whether these octets have been heard, one after another.
fn has(heard: &[u8], octets: &[u8]) -> bool {
    for end in 0..heard.len() {
        if heard[..end + 1].ends_with(octets) {
            return true;
        }
    }
    false
}

// What happens by this word.
fn happens_by(alloc: Global, after: u64, word: &str) -> Result<Happening, AllocError> {
    match octets_of(alloc, word)? {
        Some(octets) => Ok(Happening {
            after,
            what: What::Piece,
            octets,
        }),
        None => Ok(Happening {
            after,
            what: what_of(word),
            octets: Vec::new(alloc),
        }),
    }
}

// The octets as a piece, which stands in the space; where they are none or too many, the end of the input.
fn piece(octets: &[u8], space: &mut [u8]) -> Step
    requires { 4096 ≤ length space.old }
    ensures piece { IsPiece result }
    ensures faultless { is_fault result ≡ false }
{
    let count = octets.len();
    if count == 0 || count > 4096 {
        return Step::End;
    }
    space[..count].copy_from_slice(octets);
    Step::Piece(count)
}

impl Server {
    /// A server by the words of a script: `link`, `tick`, `fault` and `end`, and the names of frames that it
    /// says. A number with a colon says how many commands have their numbers before what follows; the name of a
    /// frame with a `?` that what follows waits until that frame was heard.
    pub fn new(alloc: Global, script: &str) -> Result<Server, AllocError> {
        let mut happenings = Vec::new(alloc);
        let mut after = 0;
        for word in script.split_whitespace() {
            match word.strip_suffix(':') {
                Some(count) => after = count.parse::<u64>().unwrap_or(u64::MAX),
                None => happenings.push(said_by(alloc, after, word)?)?,
            }
        }
        Ok(Server {
            happenings,
            done: 0,
            heard: Vec::new(alloc),
            faults: 0,
        })
    }

    /// What happens next, where so many commands have their numbers; nothing where it waits for more, or all
    /// happened.
    pub fn next(&mut self, commands: u64, space: &mut [u8]) -> Option<Step>
        requires { 4096 ≤ length space.old }
        ensures piece { IfSome result IsPiece }
        ensures cause { IfSome result (λ step. HasCause step self.old.faults self.new.faults) }
        ensures faults { self.old.faults ≤ self.new.faults }
    {
        let happening = self.happenings.get(self.done)?;
        if happening.after > commands {
            return None;
        }
        let step = match happening.what {
            What::Link => Step::Linked,
            What::Piece => piece(&happening.octets, space),
            What::End => Step::End,
            What::Tick => Step::Tick,
            What::Heard => {
                if has(&self.heard, &happening.octets) {
                    self.done = self.done.saturating_add(1);
                }
                return None;
            }
            What::Fault => {
                self.faults = self.faults.saturating_add(1);
                Step::Fault
            }
        };
        self.done = self.done.saturating_add(1);
        Some(step)
    }

    /// Hears these octets. Whether memory was found for them.
    pub fn hear(&mut self, octets: &[u8]) -> bool
        ensures { self.new.faults ≡ self.old.faults }
    {
        self.heard.extend_from_slice(octets).is_ok()
    }

    /// What it heard, on one link after another.
    pub fn heard(&self) -> &[u8] {
        &self.heard
    }

    /// Lets nothing more happen.
    pub fn stop(&mut self)
        ensures { self.new.faults ≡ self.old.faults }
    {
        self.done = self.happenings.len();
    }
}
