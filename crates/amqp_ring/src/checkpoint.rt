//! What a buffer kept at some time.

use std::marker::Model;

/// How many bytes a buffer kept, to which it can be rolled back.
#[derive(Clone, Copy, Debug, PartialEq, Eq)]
pub struct Checkpoint {
    kept: usize,
}

impl Model for Checkpoint {
    ghost use Rattle.std.specs.Prelude.{ℕ};

    ghost Value = { ℕ };

    ghost view = { λ c. c.kept };

    ghost inverse = { λ n. record { kept = n } };
}

impl Checkpoint {
    ghost use Rattle.std.specs.Prelude.{◌≡◌};

    pub(crate) fn of(kept: usize) -> Checkpoint
        ensures { result ≡ kept }
    {
        Checkpoint { kept }
    }

    pub(crate) fn kept(self) -> usize
        ensures { result ≡ self }
    {
        self.kept
    }
}
