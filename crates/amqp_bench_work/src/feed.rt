//! A port that takes all, and gives what it is told to.

ghost use Rattle.std.specs.Prelude.{◌≡◌, ◌≤◌, None, false, length};
ghost use Rattle.amqp_engine.specs.Log.{IsPiece};
ghost use Rattle.amqp_engine.specs.Counts.{is_fault};

use amqp_engine::{Port, Step, Told, Wrote};
use amqp_types::NoMemory;
use std::alloc::Global;

/// The greatest length of a piece.
pub const PIECE: usize = 4096;

/// A port that takes all that is written and keeps none of it. It links whenever it is asked, and gives
/// octets of a server piece by piece; where all were given, only time passes.
#[derive(Drop)]
pub struct Feed {
    octets: Vec<u8>,
    given: usize,
    asked: bool,
    lost: bool,
    now: u64,
    taken: u64,
    ghost given_before: { given ≤ length octets.items },
}

impl Feed {
    /// A port with nothing to give.
    pub fn new(alloc: Global) -> Feed {
        Feed {
            octets: Vec::new(alloc),
            given: 0,
            asked: false,
            lost: false,
            now: 0,
            taken: 0,
        }
    }

    /// These octets are to be given from now on, and no others.
    pub fn give(&mut self, octets: &[u8]) -> Result<(), NoMemory> {
        self.given = 0;
        self.octets.clear();
        self.octets.extend_from_slice(octets)?;
        Ok(())
    }

    /// The same octets are to be given once more.
    pub fn give_again(&mut self) {
        self.given = 0;
    }

    /// In how many turns all that is left is given, and one more.
    pub fn turns(&self) -> u64 {
        (self.octets.len() / PIECE) as u64 + 2
    }

    /// The next step is the end of the input.
    pub fn lose(&mut self) {
        self.lost = true;
    }

    /// So many milliseconds pass.
    pub fn wait(&mut self, milliseconds: u64) {
        self.now = self.now.saturating_add(milliseconds);
    }

    /// How many octets were taken, on all links.
    pub fn taken(&self) -> u64 {
        self.taken
    }

    // The next piece; where all was given, the time, since who has no link waits for it.
    fn next_piece(&mut self, space: &mut [u8]) -> Step
        requires { 4096 ≤ length space.old }
        ensures piece { IsPiece result }
        ensures faultless { is_fault result ≡ false }
    {
        let rest = &self.octets[self.given..];
        let n = rest.len().min(PIECE);
        if n == 0 {
            return Step::Tick;
        }
        space[..n].copy_from_slice(&rest[..n]);
        self.given += n;
        Step::Piece(n)
    }
}

impl Port for Feed {
    ghost log = { λ p. None };

    ghost faults = { λ p. 0 };

    ghost kept = { λ _. tt };

    fn connect(&mut self) {
        self.asked = true;
    }

    fn next(&mut self, space: &mut [u8]) -> Told {
        let step = if self.asked {
            self.asked = false;
            Step::Linked
        } else if self.lost {
            self.lost = false;
            Step::End
        } else {
            self.next_piece(space)
        };
        Told { at: self.now, step }
    }

    fn write(&mut self, first: &[u8], second: &[u8]) -> Wrote {
        let offered = first.len() + second.len();
        self.taken = self.taken.saturating_add(offered as u64);
        Wrote::Took(offered)
    }
}
