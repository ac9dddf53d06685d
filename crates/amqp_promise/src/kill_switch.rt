//! A switch.

ghost use Rattle.std.specs.Prelude.{◌≡◌, true, false, not};

use std::marker::Model;
use std::mem;

/// A plain flag: whether something was killed.
#[derive(Debug, Drop)]
pub struct KillSwitch {
    is_killed: bool,
}

impl Model for KillSwitch {
    ghost use Rattle.std.specs.Prelude.{Bool};

    ghost Value = { Bool };

    ghost view = { λ s. s.is_killed };
}

impl KillSwitch {
    /// A switch that was not killed.
    pub fn new() -> KillSwitch
        ensures { result ≡ false }
    {
        KillSwitch { is_killed: false }
    }

    /// Kills it, and tells whether it was not killed before.
    pub fn kill(&mut self) -> bool
        ensures first { result ≡ not self.old }
        ensures killed { self.new ≡ true }
    {
        !mem::replace(&mut self.is_killed, true)
    }

    /// Whether it was killed.
    pub fn killed(&self) -> bool
        ensures { result ≡ self.now }
    {
        self.is_killed
    }

    /// Makes it one that was not killed.
    pub fn reset(&mut self)
        ensures { self.new ≡ false }
    {
        self.is_killed = false;
    }
}
