//! What a hub does about a mark that was found.

ghost use Rattle.std.specs.Prelude.{◌≡◌, ◌≤◌, ◌+◌, ◌++◌, ◌∷◌, [], None, Some, IfOk, IfErr, OnOk, OnErr, vec_len, vec_capacity};
ghost use Rattle.amqp_rules.specs.Commands.{command};
ghost use Rattle.amqp_engine.specs.Engine.{with_talk};
ghost use Rattle.amqp_journal.specs.declared.entry.Entry.TheVariants.{Own};
ghost use Rattle.amqp_hub.specs.Passes.{count_of, foreign};
ghost use Rattle.amqp_hub.specs.Due.{due_of};
ghost use Rattle.amqp_hub.specs.Owning.{owned, is_later};

use super::{Hub, Pass, entering, passes};
use crate::due::Due;
use crate::marks::Found;
use amqp_engine::IoLoop;
use amqp_journal::Entry;
use amqp_session::{Cmd, ErrorKind};
use amqp_types::NoMemory;
use std::alloc::Global;

impl Hub {
    /// Whether a pass is of this hub, or why it is not.
    pub fn admits(&self, pass: &Pass) -> amqp_session::Result<()>
        ensures ok { OnOk result (foreign pass.now self.now.counts ≡ None) }
        ensures err { IfErr result (λ e. (foreign pass.now self.now.counts ≡ Some e)
            × (e ≡ ErrorKind.ForeignPass pass.now.number pass.now.made (count_of pass.now.number self.now.counts))) }
    {
        match passes::admits(&self.counts, pass) {
            Ok(()) => Ok(()),
            Err(foreign) => Err(foreign.into()),
        }
    }

    /// Does what is due about a mark that was found. A command that is due is entered, and told to the
    /// session. It says whether the mark is to be looked at again.
    pub fn own(&mut self, found: &Found) -> Result<bool, NoMemory>
        ensures hub { OnOk result (self.new ≡ owned found.now.owner self.old) }
        ensures again { IfOk result (λ again. again ≡ is_later (due_of self.old.engine.talk found.now.owner)) }
        ensures err { OnErr result (self.new ≡ self.old) }
        ensures promises { self.old.engine.talk.made ≤ self.new.engine.talk.made }
    {
        match self.due(found.owner()) {
            Due::Now(cmd) => {
                enter_own(self.alloc, &mut self.engine, &mut self.journal, cmd)?;
                Ok(false)
            }
            Due::Later => Ok(true),
            Due::Never => Ok(false),
        }
    }
}

// A command of the hub's own is told to the engine, and entered.
fn enter_own(
    alloc: Global,
    engine: &mut IoLoop,
    journal: &mut Vec<Entry>,
    cmd: Cmd,
) -> Result<(), NoMemory>
    ensures engine { OnOk result (engine.new ≡ with_talk (command cmd) engine.old) }
    ensures journal { OnOk result (journal.new.items ≡ journal.old.items ++ Own cmd ∷ []) }
    ensures room { OnOk result (vec_len journal.new + 1 ≤ vec_capacity journal.new) }
    ensures same { OnErr result (engine.new ≡ engine.old) }
    ensures kept { OnErr result (journal.new.items ≡ journal.old.items) }
    ensures spare { OnErr result ((vec_len journal.new ≡ vec_len journal.old)
        × (vec_capacity journal.old ≤ vec_capacity journal.new)) }
{
    let kept = match entering::kept_copy(alloc, journal, &cmd, 0) {
        Ok(kept) => kept,
        Err(refused) => {
            drop(cmd);
            return Err(refused);
        }
    };
    match engine.command(cmd) {
        Ok(_) => {
            journal.push_reserved(Entry::Own(kept));
            Ok(())
        }
        Err(refused) => {
            drop(kept);
            drop(refused);
            Err(NoMemory)
        }
    }
}
