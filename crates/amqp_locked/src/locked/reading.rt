//! What is read of what lies under the lock.

ghost use Rattle.std.specs.Prelude.{◌≡◌, All, Some, IfOk, IfErr, OnOk, map, option_map, length};
ghost use Rattle.amqp_rules.specs.Talk.{end_of};
ghost use Rattle.amqp_rules.specs.Answers.{HandsOut};
ghost use Rattle.amqp_hub.specs.Passes.{count_of, made_of, first_foreign, IsForeign, places, gapless};

use super::Locked;
use amqp_hub::{Base, Ended, Entry, Pass, Tally};
use amqp_session::{ErrorKind, Result, Session};

impl Locked {
    /// The session.
    pub fn session(&self) -> &Session
        ensures { result.now ≡ self.now.hub.engine.talk }
    {
        self.hub.session()
    }

    /// How the session ended, where it has. Where memory for the copy of its error is refused, that is told
    /// in its place.
    pub fn ended(&self) -> Option<Ended>
        ensures { HandsOut (end_of self.now.hub.engine.talk) (option_map (λ e. e.end) result) }
    {
        self.hub.ended()
    }

    /// How many entries there are since the base.
    pub fn entries(&self) -> usize
        ensures { result ≡ length self.now.hub.journal }
    {
        self.hub.entries()
    }

    /// A copy of the entries since the base.
    pub fn journal(&self) -> Result<Vec<Entry>>
        ensures entries { IfOk result (λ entries. entries.items ≡ self.now.hub.journal) }
        ensures only { IfErr result (λ e. e ≡ ErrorKind.NoMemory) }
    {
        self.hub.journal()
    }

    /// A copy of the base.
    pub fn base(&self) -> Result<Base>
        ensures base { IfOk result (λ base. base ≡ self.now.hub.base) }
        ensures only { IfErr result (λ e. e ≡ ErrorKind.NoMemory) }
    {
        self.hub.base()
    }

    /// How many commands were made with each of these passes, where each is of this hub.
    pub fn tally(&self, passes: &[Pass]) -> Result<Tally>
        ensures foreign { IsForeign (first_foreign passes.now self.now.hub.counts) result }
        ensures home { OnOk result (All (λ p. count_of p.number self.now.hub.counts ≡ Some p.made) passes.now) }
        ensures counts { IfOk result (λ t. t.counts.items ≡ map (λ p. p.made) passes.now) }
        ensures hold { IfOk result (λ t. (t.base.value ≡ self.now.hub.base)
            × (t.journal.value.items ≡ self.now.hub.journal) × (t.held.value.items ≡ self.now.hub.counts)) }
        ensures places { IfOk result (λ t. All (λ p. places p.number t.journal.value.items
            ≡ gapless (made_of p.number t.base.value.made) p.made) passes.now) }
    {
        self.hub.tally(passes)
    }
}
