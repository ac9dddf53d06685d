//! A port of one's own, and a session that runs over it.

ghost use Rattle.std.specs.Prelude.{◌≡◌, ◌≢◌, ◌≤◌, ℕ, List, [], None, Err, false, IsTrue, length};
ghost use Rattle.amqp_promise.specs.declared.io_fault.IoFault.{IoFault};
ghost use Rattle.amqp_engine.specs.Log.{IsPiece};
ghost use Rattle.amqp_engine.specs.Counts.{is_fault};
ghost use Rattle.amqp_engine.specs.Causes.{is_counted};

use amqp_engine::{IoLoop, Port, Step, Told, Wrote};
use amqp_session::{
    AuthProvider, ConnectionProperties, ErrorKind, IoFault, ProviderChoice, Result,
};
use amqp_uri::AMQPUri;
use std::alloc::Global;

/// The greatest length of a piece.
const PIECE: usize = 4096;

/// A port over octets that are there already. It gives what a server said, piece by piece, and keeps
/// what it takes. It tells nothing of itself, and never fails.
#[derive(Debug, Drop)]
pub struct Held {
    said_by_server: Vec<u8>,
    given: usize,
    taken: Vec<u8>,
    asked: bool,
    ghost given_before: { given ≤ length said_by_server.items },
}

impl Held {
    /// A port that gives these octets, once a link was asked for.
    pub fn new(alloc: Global, said_by_server: Vec<u8>) -> Held
        ensures { result.taken.items ≡ [] }
    {
        Held {
            said_by_server,
            given: 0,
            taken: Vec::new(alloc),
            asked: false,
        }
    }

    /// The octets that it took.
    pub fn taken(&self) -> &[u8]
        ensures { result.now ≡ self.now.taken.items }
    {
        &self.taken
    }

    // The next piece, or a tick where all was given.
    fn give(&mut self, space: &mut [u8]) -> Step
        requires { 4096 ≤ length space.old }
        ensures piece { IsPiece result }
        ensures faultless { is_fault result ≡ false }
        ensures kept { self.new.said_by_server.items ≡ self.old.said_by_server.items }
    {
        let rest = &self.said_by_server[self.given..];
        let n = rest.len().min(PIECE);
        if n == 0 {
            return Step::Tick;
        }
        space[..n].copy_from_slice(&rest[..n]);
        self.given += n;
        Step::Piece(n)
    }
}

impl Port for Held {
    ghost log = { λ p. None };

    ghost faults = { λ p. 0 };

    ghost Kept = { List ℕ };

    ghost kept = { λ p. p.said_by_server.items };

    fn connect(&mut self) {
        self.asked = true;
    }

    fn next(&mut self, space: &mut [u8]) -> Told {
        let step = if self.asked {
            self.asked = false;
            Step::Linked
        } else {
            self.give(space)
        };
        Told { at: 0, step }
    }

    fn write(&mut self, first: &[u8], second: &[u8]) -> Wrote {
        let offered = first.len() + second.len();
        if self.taken.reserve(offered).is_err() {
            return Wrote::NoMemory;
        }
        let _ = self.taken.extend_from_slice(first);
        let _ = self.taken.extend_from_slice(second);
        Wrote::Took(offered)
    }
}

/// Runs a new session of these properties with a server at this address over such a port, and says how
/// it ended, or that all turns were taken. What the server asks is answered by the provider of the
/// properties, or where they have none by that of the address. It does not end by a fault that a port
/// counts, since this one has none.
pub fn converse<C: ProviderChoice>(
    alloc: Global,
    uri: &AMQPUri,
    options: ConnectionProperties<C>,
    port: &mut Held,
    turns: u64,
) -> Result<()>
    requires { C.can options.choice }
    ensures { (fault : IoFault) → IsTrue (is_counted fault) → result ≢ Err (ErrorKind.IOError fault) }
{
    let (options, choice) = options.into_parts();
    match choice.provider(alloc, uri) {
        Ok(provider) => converse_by(alloc, uri, options, provider, port, turns),
        Err(refused) => {
            drop(options);
            Err(refused.into())
        }
    }
}

// The same, where this provider answers.
fn converse_by<A: AuthProvider>(
    alloc: Global,
    uri: &AMQPUri,
    options: ConnectionProperties,
    mut provider: A,
    port: &mut Held,
    turns: u64,
) -> Result<()>
    requires { A.can provider }
    ensures { (fault : IoFault) → IsTrue (is_counted fault) → result ≢ Err (ErrorKind.IOError fault) }
{
    match IoLoop::new(alloc, uri, options) {
        Ok(mut engine) => {
            let end = engine.run(port, &mut provider, turns);
            drop(provider);
            drop(engine);
            end
        }
        Err(e) => {
            drop(provider);
            Err(e)
        }
    }
}
