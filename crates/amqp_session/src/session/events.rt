//! What is told of the server's blocking, and to whom.

ghost use Rattle.std.specs.Prelude.{◌≡◌, IfOk, IsOk, OnOk, OnErr};
ghost use Rattle.amqp_promise.specs.Shown.{shown};
ghost use Rattle.amqp_rules.specs.Memory.{MakesNothing};
ghost use Rattle.amqp_rules.specs.ConnectionMethods.{on_blocked, on_unblocked};
ghost use Rattle.amqp_rules.specs.Commands.{listen};

use super::Session;
use amqp_answers::Event;
use amqp_promise::Shown;
use amqp_types::{NoMemory, ShortString, Text};
use std::alloc::Global;

impl Session {
    // Events are kept from now on, until the session ends.
    pub(super) fn listen(&mut self)
        ensures { self.new ≡ listen self.old }
    {
        if !self.has_ended() {
            self.events.listen();
        }
    }

    // The server wants nothing to be written any more, for this reason.
    pub(super) fn on_blocked(&mut self, reason: &ShortString) -> Result<(), NoMemory>
        ensures ok { OnOk result (self.new ≡ on_blocked reason.now self.old) }
        ensures err { OnErr result (self.new ≡ self.old) }
        ensures idle { MakesNothing self.old (on_blocked reason.now self.old) → IsOk result }
    {
        if self.events.listens() {
            self.events.reserve()?;
            let text = shown(self.alloc, reason)?;
            self.events.note_reserved(Event::ConnectionBlocked(text));
        }
        self.blocked = true;
        Ok(())
    }

    // The server lets writing go on.
    pub(super) fn on_unblocked(&mut self) -> Result<(), NoMemory>
        ensures ok { OnOk result (self.new ≡ on_unblocked self.old) }
        ensures err { OnErr result (self.new ≡ self.old) }
        ensures idle { MakesNothing self.old (on_unblocked self.old) → IsOk result }
    {
        self.events.reserve()?;
        self.events.note_reserved(Event::ConnectionUnblocked);
        self.blocked = false;
        Ok(())
    }
}

// The octets as a text that can be printed.
fn shown(alloc: Global, octets: &ShortString) -> Result<Text, NoMemory>
    ensures { IfOk result (λ text. text ≡ shown octets.now) }
{
    let shown = Shown {
        octets: octets.as_bytes(),
    };
    let text = format!(in alloc; "{shown}")?;
    Text::new(alloc, text.as_str())
}
