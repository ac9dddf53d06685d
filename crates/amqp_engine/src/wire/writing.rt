//! The writing of frames.

ghost use Rattle.std.specs.Prelude.{◌≡◌, ◌≤◌, ◌<◌, ◌+◌, ◌*◌, List, [], ◌++◌, Some, None, true, false, IfNone, IfSome, OnOk, OnErr, IsTrue, IsFalse, option_map, length, is_some};
ghost use Rattle.amqp_auth.specs.declared.asked.Asked.{Asked};
ghost use Rattle.amqp_auth.specs.declared.asked.Question.{Question};
ghost use Rattle.amqp_rules.specs.Talk.{is_open};
ghost use Rattle.amqp_engine.specs.Log.{log_write, TookAtMost, PlansWrite};
ghost use Rattle.amqp_rules.specs.Writing.{overlong, end_overlong};
ghost use Rattle.amqp_engine.specs.Engine.{taken_by, with_talk, wrote, fitting_next, commit_one, commit_all, overlong_next, refuse_overlong, can_write};
ghost use Rattle.amqp_engine.specs.Turn.{offered, answered, is_all};
ghost use Rattle.amqp_engine.specs.Making.{making, FewParts, Writes};
ghost use Rattle.amqp_engine.specs.Noting.{took_by, fails_by};
ghost use Rattle.amqp_types.specs.Counts.{Rose};

use super::Wire;
use crate::port::{Port, Wrote};
use amqp_frame::write_frame;
use amqp_session::IoFault;
use amqp_types::{NoMemory, Payload64};

/// What came of an offer.
#[derive(Clone, Copy)]
struct Offered {
    answer: Wrote,
    // whether all of it was taken
    all: bool,
}

// Notes the answer to a write, for which a place was made.
fn note(answer: Wrote, tooks: &mut Payload64, failed: &mut bool)
    requires { 1 ≤ tooks.old.spare }
    ensures tooks { tooks.new.numbers ≡ tooks.old.numbers ++ took_by answer }
    ensures failed { failed.new ≡ fails_by failed.old answer }
{
    match answer {
        Wrote::Took(n) => tooks.push(n as u64),
        Wrote::NoMemory => tooks.push(0),
        Wrote::Failed => *failed = true,
    }
}

impl Wire {
    // Writes while all that is offered is taken, counts the offers as parts, and notes the answers. A
    // place for an answer is made before its offer.
    pub(super) fn write_all<P: Port>(
        &mut self,
        at: u64,
        port: &mut P,
        parts: &mut u64,
        tooks: &mut Payload64,
        failed: &mut bool,
    ) -> Result<(), NoMemory>
        requires few { FewParts parts.old }
        requires tooks { tooks.old.numbers ≡ [] }
        requires failed { failed.old ≡ false }
        ensures ok { OnOk result ((more : List Asked) (asked : List Question) → Writes tooks.new.numbers failed.new
            (making at None more asked self.old parts.old) (making at None more asked self.new parts.new)
            (P.log port.old) (P.log port.new) (P.faults port.old) (P.faults port.new)) }
        ensures err { OnErr result ((more : List Asked) (asked : List Question) → Writes tooks.new.numbers failed.new
            (making at (Some parts.new) more asked self.old parts.old)
            (making at (Some parts.new) more asked self.new parts.new)
            (P.log port.old) (P.log port.new) (P.faults port.old) (P.faults port.new)) }
        ensures grows { parts.old ≤ parts.new }
        ensures starved { self.new.starved ≡ self.old.starved }
        ensures faults { P.faults port.old ≤ P.faults port.new }
        ensures kept { P.kept port.new ≡ P.kept port.old }
    {
        // So few frames wait that the offers can be counted.
        let _waiting = self.session.waiting();
        tooks.reserve()?;
        'writes: while let Some(offered) = self.offer(at, port) {
            *parts += 1;
            note(offered.answer, tooks, failed);
            if let Wrote::NoMemory = offered.answer {
                return Err(NoMemory);
            }
            if !offered.all {
                return Ok(());
            }
            tooks.reserve()?;
        }
        Ok(())
    }

    // One offer, with the commits before it, where something is to be written.
    fn offer<P: Port>(&mut self, at: u64, port: &mut P) -> Option<Offered>
        ensures none { IfNone result
            (IsFalse (can_write self.old) × (self.new ≡ refuse_overlong self.old) × (P.log port.new ≡ P.log port.old)) }
        ensures due { IfSome result (λ r. IsTrue (can_write self.old)) }
        ensures within { IfSome result (λ r. TookAtMost (length (offered self.old)) r.answer) }
        ensures plays { IfSome result
            (λ r. IfSome (P.log port.old) (PlansWrite (length (offered self.old)) r.answer)) }
        ensures all { IfSome result (λ r. r.all ≡ is_all r.answer (length (offered self.old))) }
        ensures engine { IfSome result (λ r. self.new ≡ answered at r.answer self.old) }
        ensures told { IfSome result (λ r. P.log port.new
            ≡ option_map (log_write (offered self.old) r.answer) (P.log port.old)) }
        ensures cause { IfSome result
            (λ r. r.answer ≡ Wrote.Failed → Rose (P.faults port.old) (P.faults port.new)) }
        ensures faults { P.faults port.old ≤ P.faults port.new }
        ensures kept { P.kept port.new ≡ P.kept port.old }
    {
        if !self.session.is_open() || self.session.blocked() {
            return None;
        }
        self.commit_all();
        if !self.session.is_open() {
            self.settle();
            return None;
        }
        let offered = self.unsent.available_data();
        if offered == 0 {
            return None;
        }
        let (first, second) = self.unsent.slices();
        let answer = port.write(first, second);
        self.wrote(at, answer);
        Some(Offered {
            answer,
            all: answer.is_all(offered),
        })
    }

    // A write was answered.
    fn wrote(&mut self, at: u64, answer: Wrote)
        requires open { IsTrue (is_open self.old.talk) }
        requires within { taken_by answer ≤ length self.old.unsent }
        ensures { self.new ≡ wrote at answer self.old }
    {
        match answer {
            Wrote::Failed => self.session.lost(IoFault::BrokenPipe, at),
            Wrote::Took(_) | Wrote::NoMemory => {
                let taken = answer.taken();
                self.session.taken(taken as u64, at);
                self.unsent.consume(taken);
            }
        }
        self.settle();
    }

    // Commits frames while there is one that fits. Where the one that is next then is longer than the
    // whole capacity, the session has ended.
    fn commit_all(&mut self)
        ensures { self.new ≡ with_talk (end_overlong (overlong_next self.old)) (commit_all self.old) }
    {
        'commits: while self.commit_next() {}
    }

    // Commits the next frame where it fits, and says whether one did. Where it is longer than the
    // whole capacity, the session has ended.
    fn commit_next(&mut self) -> bool
        ensures some { result ≡ is_some (fitting_next self.old) }
        ensures commit { self.new ≡ with_talk (end_overlong (overlong self.old.talk)) (commit_one self.old) }
    {
        let space = self.session.capacity() - self.session.unsent();
        match self.session.next_frame(space) {
            Some(frame) => {
                // There is room for it.
                let _ = write_frame(&frame, &mut self.unsent);
                drop(frame);
                true
            }
            None => false,
        }
    }
}
