//! The bytes that a port took on a link.

ghost use Rattle.std.specs.Prelude.{◌≡◌, ◌≤◌, ◌+◌, [], ◌++◌, length, take, OnOk, OnErr};

use amqp_types::NoMemory;
use std::alloc::Global;
use std::fmt;
use std::marker::Model;

/// Bytes in the order in which they were taken. Its `Debug` shows none of them, since how a client
/// logs in is among them.
#[derive(Drop)]
pub struct TakenBytes {
    bytes: Vec<u8>,
}

impl Model for TakenBytes {
    ghost use Rattle.std.specs.Prelude.{ℕ, List};

    ghost Value = { List ℕ };

    ghost view = { λ t. t.bytes.items };
}

impl fmt::Debug for TakenBytes {
    ghost use Rattle.std.specs.Prelude.{Some, codes};

    ghost debug_output = { λ _. Some (codes "TakenBytes { .. }") };

    fn fmt<W: fmt::Write>(&self, f: &mut fmt::Formatter<W>) -> fmt::Result {
        f.write_str("TakenBytes { .. }")
    }
}

impl TakenBytes {
    /// No bytes, for which it takes no memory.
    pub fn new(alloc: Global) -> TakenBytes
        ensures { result ≡ [] }
    {
        TakenBytes {
            bytes: Vec::new(alloc),
        }
    }

    /// The bytes, in order.
    pub fn as_bytes(&self) -> &[u8]
        ensures { result.now ≡ self.now }
    {
        &self.bytes
    }

    /// The first n bytes of both slices together go last.
    pub fn append(&mut self, first: &[u8], second: &[u8], n: usize) -> Result<(), NoMemory>
        requires { n ≤ length first.now + length second.now }
        ensures ok { OnOk result (self.new ≡ self.old ++ take n (first.now ++ second.now)) }
        ensures err { OnErr result (self.new ≡ self.old) }
    {
        let of_first = n.min(first.len());
        self.bytes.reserve(n)?;
        // There is room, so that nothing is asked for and nothing refused.
        let _ = self.bytes.extend_from_slice(&first[..of_first]);
        let _ = self.bytes.extend_from_slice(&second[..n - of_first]);
        Ok(())
    }
}
