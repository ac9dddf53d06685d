//! What nobody will take is taken and let go.

ghost use Rattle.std.specs.Prelude.{◌≡◌, ◌≤◌, ℕ, min, nat_lt, length};
ghost use Rattle.amqp_hub.specs.Entering.{with_engine};
ghost use Rattle.amqp_locked.specs.UnderLock.{contents, watched, with_session};
ghost use Rattle.amqp_locked.specs.LettingGo.{LetsGo, LetsManyGo, may_come};
ghost use Rattle.amqp_locked.specs.Tidying.{Tidies};

use super::Locked;
use crate::polled::is_refused;
use amqp_hub::{Hub, Owner};
use amqp_session::{Answer, Result};

// How much of what nobody will take is asked for in one hold, beside what came since the last.
const ASKED: usize = 64;

impl Locked {
    /// Takes and lets go what nobody will take, as far as it is there: the answers whose handles were
    /// dropped, and the frames of openings whose channels were. It asks for as much as came since it was last
    /// called, and some more; what is still to come is asked for again later. So it costs no more where much
    /// is still to come.
    pub fn let_go(&mut self)
        ensures some { (n : ℕ) × (min 64 (length self.old.unasked.items) ≤ n)
            × LetsManyGo n self.old.unasked.items self.old.hub.engine.talk self.new.unasked.items
            self.new.hub.engine.talk }
        ensures rest { (self.new.hub ≡ (with_session self.new.hub.engine.talk (contents self.old)).hub)
            × (self.new.places ≡ self.old.places) × (self.new.found ≡ self.old.found)
            × (watched self.new ≡ watched self.old) }
    {
        let count = self.unasked.len().min(self.fresh.saturating_add(ASKED));
        self.fresh = 0;
        'let_go: for asked in 0..count {
            if let Some(owner) = self.unasked.pop_front() {
                if takes_what_is_there(&mut self.hub, owner) {
                    self.unasked.push_back_reserved(owner);
                }
            }
        }
    }

    /// Marks of handles that were dropped are found, what is due about each is done, and what nobody will take
    /// is let go, as before and after a turn: for a session that has ended, which takes no turn. Where memory
    /// is refused, what is still undone about the marks stays so.
    pub fn tidy(&mut self)
        ensures { Tidies (contents self.old) (contents self.new) }
    {
        let looked = self.look(0);
        self.let_go();
        let _ = looked;
    }

    /// Whether there is something that nobody will take.
    pub fn has_unasked(&self) -> bool
        ensures { result ≡ nat_lt 0 (length self.now.unasked.items) }
    {
        !self.unasked.is_empty()
    }
}

// Takes and lets go what this owned, as far as it is there. Whether more may come.
fn takes_what_is_there(hub: &mut Hub, owner: Owner) -> bool
    ensures goes { LetsGo owner hub.old.engine.talk hub.new.engine.talk result }
    ensures rest { hub.new ≡ with_engine (record hub.old.engine { talk = hub.new.engine.talk }) hub.old }
{
    match owner {
        Owner::Connection => false,
        Owner::Answer(number) => {
            let ended = hub.session().has_ended();
            may_come(hub.poll(number), ended)
        }
        Owner::Channel(opened) => {
            let still_there = may_come(hub.poll(opened), true);
            drop(hub.take_frames(opened));
            hub.session().opening(opened).is_some() || still_there
        }
    }
}

// Whether an answer may still come, or still be there. It takes what was given.
fn may_come(given: Option<Result<Answer>>, ended: bool) -> bool
    ensures { result ≡ may_come given ended }
{
    match given {
        None => !ended,
        Some(answer) => {
            let refused = is_refused(&answer);
            drop(answer);
            refused
        }
    }
}
