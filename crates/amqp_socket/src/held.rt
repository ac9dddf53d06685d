//! What was read of a socket and is not told yet.

ghost use Rattle.std.specs.Prelude.{◌≡◌, ◌≤◌, [], min, take, drop, length, IfOk, OnErr, nat_eq, ◌==◌};
ghost use Rattle.std.specs.Io.{ReadsAtMost};

use mio::net::TcpStream;
use std::alloc::{AllocError, Global};
use std::io;
use std::io::Read;
use std::marker::Model;

/// How many octets are read at once, at most.
const WIDTH: usize = 65_536;

/// How many octets a piece has at most.
const PIECE: usize = 4096;

/// The octets that were read of a socket and are not told yet, the first ones first.
#[derive(Drop)]
pub(crate) struct Held {
    octets: Vec<u8>,
    // where they begin, and how many there are
    from: usize,
    kept: usize,
}

impl Model for Held {
    ghost use Rattle.std.specs.Prelude.{ℕ, List, ◌≡◌, ◌+◌, ◌≤◌, take, drop, length};

    ghost Value = { List ℕ };

    ghost view = { λ h. take h.kept (drop h.from h.octets.items) };

    ghost invariant = { λ h. (length h.octets.items ≡ 65536) × (h.from + h.kept ≤ 65536) };
}

// Reads what there is: how many octets, none at the end.
fn read(stream: &mut TcpStream, space: &mut [u8]) -> io::Result<usize>
    ensures read { ReadsAtMost result space.new }
    ensures wide { length space.new ≡ length space.old }
{
    stream.read(space)
}

impl Held {
    // Nothing is held.
    pub(crate) fn new(alloc: Global) -> Result<Held, AllocError>
        ensures { IfOk result (λ h. h ≡ []) }
    {
        Ok(Held {
            octets: Vec::from_elem(alloc, 0, WIDTH)?,
            from: 0,
            kept: 0,
        })
    }

    // Whether nothing is held.
    pub(crate) fn is_empty(&self) -> bool
        ensures { result ≡ (length self.now == 0) }
    {
        self.kept == 0
    }

    // Nothing is held any more.
    pub(crate) fn clear(&mut self)
        ensures { self.new ≡ [] }
    {
        self.kept = 0;
    }

    // Reads what there is, in place of what was held: how many octets, none at the end.
    pub(crate) fn read(&mut self, stream: &mut TcpStream) -> io::Result<usize>
        ensures read { IfOk result (λ n. length self.new ≡ n) }
        ensures none { OnErr result (self.new ≡ []) }
    {
        self.from = 0;
        self.kept = 0;
        let n = read(stream, self.octets.as_mut_slice())?;
        self.kept = n;
        Ok(n)
    }

    // Puts the first octets at the front of a space, as many as a piece has, and holds the others.
    pub(crate) fn give(&mut self, space: &mut [u8]) -> usize
        requires { 4096 ≤ length space.old }
        ensures count { result ≡ min (length self.old) 4096 }
        ensures given { take result space.new ≡ take result self.old }
        ensures left { self.new ≡ drop result self.old }
        ensures wide { length space.new ≡ length space.old }
    {
        let n = self.kept.min(PIECE);
        space[..n].copy_from_slice(&self.octets[self.from..self.from + n]);
        self.from += n;
        self.kept -= n;
        n
    }
}
