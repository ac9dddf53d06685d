//! Where a script or a capture comes from, and where what is printed goes.

ghost use Rattle.std.specs.Prelude.{◌≡◌, ◌≢◌, ◌≤◌, ◌<◌, ◌++◌, [], ℕ, List, Option, IfSome, length, take, drop, option_map};
ghost use Rattle.amqp_replay.specs.Ends.{count_given, count_taken, FailedOnce};

/// What a source answers.
#[derive(Clone, Copy, Debug, PartialEq, Eq)]
pub enum Gave {
    /// So many bytes, at the front of the buffer; none at the end of the source.
    Got(usize),
    Failed,
}

/// What a sink answers.
#[derive(Clone, Copy, Debug, PartialEq, Eq)]
pub enum Put {
    /// So many bytes, from the front on.
    Took(usize),
    Failed,
}

/// Gives bytes, in any pieces.
pub trait Source {
    /// The bytes that are left, if the source tells.
    ghost left: { Self → Option (List ℕ) };

    /// How often the source failed. The count stays at the greatest number of 64 bits.
    ghost faults: { Self → ℕ };

    /// Reads into a buffer.
    fn read(&mut self, buffer: &mut [u8]) -> Gave
        ensures within { count_given result ≤ length buffer.old }
        ensures left { left self.new ≡ option_map (drop (count_given result)) (left self.old) }
        ensures bytes { IfSome (left self.old) (λ all.
            take (count_given result) buffer.new ≡ take (count_given result) all) }
        ensures end { 0 < length buffer.old → result ≡ Gave.Got 0 → IfSome (left self.old) (λ all. all ≡ []) }
        ensures cause { result ≡ Gave.Failed → FailedOnce (faults self.old) (faults self.new) }
        ensures kept { result ≢ Gave.Failed → faults self.new ≡ faults self.old };
}

/// Takes bytes, in any pieces.
pub trait Sink {
    /// The bytes that were taken, if the sink tells.
    ghost held: { Self → Option (List ℕ) };

    /// How often the sink failed. The count stays at the greatest number of 64 bits.
    ghost faults: { Self → ℕ };

    /// Takes bytes, some of them where there are any.
    fn write(&mut self, bytes: &[u8]) -> Put
        ensures within { count_taken result ≤ length bytes.now }
        ensures some { result ≡ Put.Took 0 → bytes.now ≡ [] }
        ensures held { held self.new ≡ option_map (λ all. all ++ take (count_taken result) bytes.now) (held self.old) }
        ensures cause { result ≡ Put.Failed → FailedOnce (faults self.old) (faults self.new) }
        ensures kept { result ≢ Put.Failed → faults self.new ≡ faults self.old };
}
