//! A port that plays the script of a server.

ghost use Rattle.std.specs.Prelude.{◌≡◌, ◌≤◌, None};

use crate::server::Server;
use amqp_engine::{Port, Step, Told, Wrote};

/// A port before a server. Once all happened, time passes.
#[derive(Drop)]
pub struct Played {
    pub server: Server,
}

impl Port for Played {
    ghost log = { λ p. None };

    ghost faults = { λ p. p.server.faults };

    ghost kept = { λ _. tt };

    fn connect(&mut self) {}

    fn next(&mut self, space: &mut [u8]) -> Told {
        let step = match self.server.next(u64::MAX, space) {
            Some(step) => step,
            None => Step::Tick,
        };
        Told { at: 0, step }
    }

    fn write(&mut self, first: &[u8], second: &[u8]) -> Wrote {
        if self.server.hear(first) && self.server.hear(second) {
            Wrote::Took(first.len() + second.len())
        } else {
            Wrote::NoMemory
        }
    }
}
