//! Marks of handles that were dropped are met and found, and what is due about each is done.

ghost use Rattle.std.specs.Prelude.{◌≡◌, ◌<◌, ◌≤◌, ◌+◌, ◌||◌, ◌&&◌, not, nat_lt, length, map, ℕ, List, OnOk, OnErr, vec_len, vec_capacity};
ghost use Rattle.std.specs.VecDeque.{deque_len, deque_capacity};
ghost use Rattle.amqp_hub.specs.declared.marks.Mark.{Mark};
ghost use Rattle.amqp_hub.specs.Due.{due_of};
ghost use Rattle.amqp_hub.specs.Owning.{is_later};
ghost use Rattle.amqp_locked.specs.UnderLock.{contents};
ghost use Rattle.amqp_locked.specs.Looking.{sorted, finds, released_first, released, released_times, acted_at, looked_from, any_due};
ghost use Rattle.amqp_locked.specs.Turning.{looked, releases};

use super::Locked;
use crate::late::Late;
use amqp_hub::{Due, Found, Hub, Owner};
use amqp_session::{ConnectionState, Session};
use amqp_types::NoMemory;

impl Locked {
    // Meets the marks of handles that were dropped, at the moment of a turn, finds those that may be, and does
    // what is due about each that is not done with.
    pub(super) fn look(&mut self, at: u64) -> Result<(), NoMemory>
        ensures ok { OnOk result ((found : List (ℕ × Mark))
            × (contents self.new ≡ looked at found (contents self.old))) }
        ensures err { OnErr result ((found : List (ℕ × Mark)) × (times : ℕ) × (left : ℕ)
            × (contents self.new ≡ looked_from left (released_times times at (finds at found (contents self.old))))) }
    {
        match self.gather(at) {
            Ok(()) => self.find(at),
            Err(refused) => Err(refused),
        }
    }

    // Finds those of the marks that are put off that may be, and does what is due about each that is not done
    // with.
    fn find(&mut self, at: u64) -> Result<(), NoMemory>
        ensures ok { OnOk result (contents self.new ≡ looked_from 0 (released at (contents self.old))) }
        ensures err { OnErr result ((times : ℕ) × (left : ℕ)
            × (contents self.new ≡ looked_from left (released_times times at (contents self.old)))) }
    {
        match self.release(at) {
            Ok(()) => self.act(),
            Err(refused) => Err(refused),
        }
    }

    // Meets the marks of handles that were dropped.
    fn gather(&mut self, at: u64) -> Result<(), NoMemory>
        ensures { (found : List (ℕ × Mark)) × (contents self.new ≡ finds at found (contents self.old)) }
    {
        let count = self.places.count();
        'gather: for _ in 0..count {
            self.make_places()?;
            match self.places.find() {
                Some(found) => self.sort(found, at),
                None => return Ok(()),
            }
        }
        Ok(())
    }

    // Makes a place for one more mark, wherever it goes.
    fn make_places(&mut self) -> Result<(), NoMemory>
        ensures same { contents self.new ≡ contents self.old }
        ensures found { OnOk result (vec_len self.new.found < vec_capacity self.new.found) }
        ensures late { OnOk result (deque_len self.new.late < deque_capacity self.new.late) }
        ensures unasked { OnOk result (deque_len self.new.unasked < deque_capacity self.new.unasked) }
    {
        self.found.reserve(1)?;
        self.late.reserve(1)?;
        self.unasked.reserve(1)?;
        Ok(())
    }

    // The mark of a channel is put off; that of the connection goes last among those that are not done with; that
    // of an answer, where it is not spent, among what nobody will take.
    fn sort(&mut self, found: Found, at: u64)
        requires found { vec_len self.old.found < vec_capacity self.old.found }
        requires late { deque_len self.old.late < deque_capacity self.old.late }
        requires unasked { deque_len self.old.unasked < deque_capacity self.old.unasked }
        ensures { contents self.new
            ≡ sorted at found.mark.spent found.mark.sent found.owner (contents self.old) }
    {
        match found.owner() {
            Owner::Answer(number) => {
                if !found.is_spent() {
                    self.unasked.push_back_reserved(Owner::Answer(number));
                    self.fresh = self.fresh.saturating_add(1);
                }
                drop(found);
            }
            Owner::Connection => self.found.push_reserved(found),
            Owner::Channel(opened) => {
                self.backlog.forget(opened);
                self.late.push_back_reserved(Late { found, since: at });
            }
        }
    }

    // Finds those of the marks that were put off that may be found.
    fn release(&mut self, at: u64) -> Result<(), NoMemory>
        ensures ok { OnOk result (contents self.new ≡ released at (contents self.old)) }
        ensures err { OnErr result (contents self.new ≡ contents self.old) }
    {
        let count = self.late.len();
        self.found.reserve(count)?;
        'release: for asked in 0..count {
            self.release_first(at);
        }
        Ok(())
    }

    // The first of the marks that are put off is found where it may be, and goes last among them where not.
    fn release_first(&mut self, at: u64)
        requires found { vec_len self.old.found < vec_capacity self.old.found }
        ensures first { contents self.new
            ≡ released_first at (contents self.old).watch.late (contents self.old) }
        ensures found { vec_len self.new.found ≤ vec_len self.old.found + 1 }
        ensures capacity { vec_capacity self.new.found ≡ vec_capacity self.old.found }
    {
        let state = self.hub.session().state();
        if let Some(late) = self.late.pop_front() {
            if late.may_be_found(at, state, self.cleared, self.limit) {
                let Late { found, since: _ } = late;
                self.found.push_reserved(found);
            } else {
                self.late.push_back_reserved(late);
            }
        }
    }

    // Does what is due about each mark that is not done with, the last first. What is done with goes among
    // what nobody will take.
    fn act(&mut self) -> Result<(), NoMemory>
        ensures ok { OnOk result (contents self.new ≡ looked_from 0 (contents self.old)) }
        ensures err { OnErr result ((left : ℕ) × (contents self.new ≡ looked_from left (contents self.old))) }
    {
        let mut at = self.found.len();
        'act: while at > 0 {
            self.act_on(at - 1)?;
            at -= 1;
        }
        Ok(())
    }

    // Does what is due about the mark at this place.
    #[tactic(auto, using(crate::proofs::Looking::acts_again, crate::proofs::Looking::owner_at))]
    fn act_on(&mut self, at: usize) -> Result<(), NoMemory>
        requires there { at < vec_len self.old.found }
        ensures ok { OnOk result (contents self.new ≡ acted_at at (contents self.old)) }
        ensures err { OnErr result (contents self.new ≡ contents self.old) }
        ensures left { at ≤ vec_len self.new.found }
    {
        self.unasked.reserve(1)?;
        let owner = self.found[at].owner();
        if self.hub.own(&self.found[at])? {
            return Ok(());
        }
        drop(self.found.remove(at));
        self.unasked.push_back_reserved(owner);
        self.fresh = self.fresh.saturating_add(1);
        Ok(())
    }

    /// Whether something is due about a mark, so that the next turn is not to wait: one that was found is no longer
    /// to be looked at again, or those that are put off may be found.
    pub fn has_due(&self) -> bool
        ensures { result ≡ any_due self.now.hub.engine.talk (contents self.now).found
            || (nat_lt 0 (length self.now.late.items) && releases self.now.hub.engine.talk) }
    {
        any_due(&self.hub, &self.found) || (!self.late.is_empty() && releases(self.hub.session()))
    }
}

// Whether one of these marks is no longer to be looked at again.
fn any_due(hub: &Hub, found: &[Found]) -> bool
    ensures { result ≡ any_due hub.now.engine.talk (map (λ f. f.owner) found.now) }
{
    'marks: for mark in found {
        if is_due(hub, mark.owner()) {
            return true;
        }
    }
    false
}

// Whether what this owned, once it was let go, is no longer to be looked at again.
fn is_due(hub: &Hub, owner: Owner) -> bool
    ensures { result ≡ not (is_later (due_of hub.now.engine.talk owner)) }
{
    let due = hub.due(owner);
    let later = matches!(due, Due::Later);
    drop(due);
    !later
}

// Whether each mark that is put off may be found.
fn releases(session: &Session) -> bool
    ensures { result ≡ releases session.now }
{
    session.state() != ConnectionState::Connected
        || (session.waiting() == 0 && session.unsent() == 0)
}
