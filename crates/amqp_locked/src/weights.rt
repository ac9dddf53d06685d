//! What a journal weighs, and what the state of its engine does: when it is worth while to let the journal begin
//! anew.
//!
//! To begin anew is to copy the state. So it is done only once as much was entered as the state holds: all
//! copies together then cost no more than what was entered. What is said here is a matter of cost alone.

use amqp_hub::Entry;
use amqp_session::{Cmd, Handed};

// What an entry takes beside its octets, and a frame that is handed out.
const ENTRY: u64 = 64;

// The octets of a frame beside its payload, of which a heartbeat has no more.
const FRAME: u64 = 8;

/// How many octets were entered since the journal began, how many wait to go out at most, and how many came that
/// may wait to be taken.
#[derive(Clone, Copy, Debug, PartialEq, Eq)]
pub(crate) struct Weights {
    entered: u64,
    outgoing: u64,
    incoming: u64,
}

// The octets of a command.
fn octets_of(cmd: &Cmd) -> u64 {
    match cmd {
        Cmd::Send(_, method) => method.args().len() as u64,
        Cmd::Publish(_, method, properties, body) => {
            let head = method.args().len() as u64;
            let said = properties.as_bytes().len() as u64;
            head.saturating_add(said).saturating_add(body.len() as u64)
        }
        Cmd::UpdateSecret(secret, _) => secret.as_bytes().len() as u64,
        _ => 0,
    }
}

// The sum of these.
fn sum(numbers: &[u64]) -> u64 {
    let mut sum: u64 = 0;
    'numbers: for number in numbers {
        sum = sum.saturating_add(*number);
    }
    sum
}

impl Weights {
    /// Nothing was entered, and the state holds nothing.
    pub(crate) fn none() -> Weights {
        Weights {
            entered: 0,
            outgoing: 0,
            incoming: 0,
        }
    }

    // The same with one entry more.
    fn with(self, entry: &Entry) -> Weights {
        let mut weights = self;
        match entry {
            Entry::Turn(turn) => {
                let came = turn.bytes.len() as u64;
                weights.enter(came);
                weights.incoming = weights.incoming.saturating_add(came.saturating_sub(FRAME));
                weights.outgoing = weights.outgoing.saturating_sub(sum(turn.notes.tooks()));
            }
            Entry::Called(_, _, cmd, _) => {
                let octets = octets_of(cmd);
                weights.enter(octets);
                weights.outgoing = weights
                    .outgoing
                    .saturating_add(octets)
                    .saturating_add(ENTRY);
            }
            Entry::Own(_) => weights.enter(0),
        }
        weights
    }

    // So many octets were entered.
    fn enter(&mut self, octets: u64) {
        self.entered = self.entered.saturating_add(octets).saturating_add(ENTRY);
    }

    /// The same with these entries more.
    pub(crate) fn with_all(self, entries: &[Entry]) -> Weights {
        let mut weights = self;
        'entries: for entry in entries {
            weights = weights.with(entry);
        }
        weights
    }

    /// Nothing waits to go out but what is unsent.
    pub(crate) fn clear(&mut self, unsent: u64) {
        self.outgoing = unsent;
    }

    /// These frames were taken.
    pub(crate) fn take(&mut self, frames: &[Handed]) {
        'frames: for frame in frames {
            let octets = (frame.bytes.len() as u64).saturating_add(ENTRY);
            self.incoming = self.incoming.saturating_sub(octets);
        }
    }

    /// What came may all have been taken.
    pub(crate) fn forget(&mut self) {
        self.incoming = 0;
    }

    /// The journal begins anew.
    pub(crate) fn begin_anew(&mut self) {
        self.entered = 0;
    }

    /// Whether at least so many octets were entered, and at least as many as the state holds.
    pub(crate) fn are_due(self, least: u64) -> bool {
        self.entered >= least && self.entered >= self.outgoing.saturating_add(self.incoming)
    }
}
