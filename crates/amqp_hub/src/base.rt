//! Where a journal begins.

ghost use Rattle.std.specs.Prelude.{◌≡◌, IfOk};

use amqp_engine::KeptLoop;
use amqp_types::{NoMemory, Payload64};
use std::alloc::Global;
use std::marker::Model;

/// Where a journal begins: the engine as it stood there, how many entries were let go before, and how
/// many commands had been made with each pass.
#[derive(Drop)]
pub struct Base {
    pub(crate) state: KeptLoop,
    pub(crate) entries: u64,
    pub(crate) made: Payload64,
}

impl Model for Base {
    ghost use Rattle.amqp_hub.specs.Guarded.{Beginning};

    ghost Value = { Beginning };

    ghost use Rattle.std.specs.Coded.{codes};
    ghost use Rattle.amqp_types.specs.ValueCode.{value_code};

    ghost coded = { Prim.hlevel (codes, value_code) };

    ghost view = { λ b. record { engine = b.state; entries = b.entries; made = b.made.numbers } };
}

impl Base {
    /// The engine as it stood.
    pub fn state(&self) -> &KeptLoop
        ensures { result.now ≡ self.now.engine }
    {
        &self.state
    }

    /// How many entries were let go before.
    pub fn entries(&self) -> u64
        ensures { result ≡ self.now.entries }
    {
        self.entries
    }

    /// How many commands had been made with each pass, in the order of their numbers.
    pub fn made(&self) -> &[u64]
        ensures { result.now ≡ self.now.made }
    {
        self.made.as_slice()
    }

    /// An equal base.
    pub fn try_clone(&self, alloc: Global) -> Result<Base, NoMemory>
        ensures { IfOk result (λ base. base ≡ self.now) }
    {
        let made = self.made.try_clone(alloc)?;
        let state = self.state.try_clone()?;
        Ok(Base {
            state,
            entries: self.entries,
            made,
        })
    }
}
