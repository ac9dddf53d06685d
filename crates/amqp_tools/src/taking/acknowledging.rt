//! What is acknowledged, and known to be.

ghost use Rattle.std.specs.Prelude.{◌≡◌, ◌++◌, ◌≤◌, ◌∷◌, [], true, false, None, IfOk, OnOk, Err, length, take, option_map};
ghost use Rattle.amqp_tools.specs.Taking.{standing, recent, wants_to_ask, flow_asked, flow_answered, lost_link};
ghost use Rattle.amqp_tools.specs.Taking.{tag_to_acknowledge, acknowledged, steps_to_acknowledge};
ghost use Rattle.amqp_tools.specs.Acknowledged.{Does};
ghost use Rattle.amqp_tools.specs.Sink.{take_if, count_faults};
ghost use Rattle.amqp_tools.specs.declared.tags.Deed.TheVariants.{Lost};

use super::{Taking, Untaken};
use crate::front::let_go;
use crate::sink::Sink;
use amqp_types::NoMemory;

/// How many marks are kept at least of those that are known to be acknowledged. Twice as many are kept at most.
const KEPT: usize = 65_536;

impl Taking {
    /// Has the sink take all that was printed, and gives the tag up to which it is to be acknowledged on this link,
    /// where there is something.
    pub fn acknowledge<S: Sink>(&mut self, sink: &mut S) -> Result<Option<u64>, Untaken>
        ensures tag { IfOk result (λ tag. tag ≡ tag_to_acknowledge self.old) }
        ensures new { OnOk result (self.new ≡ acknowledged self.old) }
        ensures taken { OnOk result (S.page sink.new ≡ option_map (take_if true) (S.page sink.old)) }
        ensures does { IfOk result (λ tag. Does (standing self.old) (steps_to_acknowledge tag) (standing self.new)) }
        ensures unwritten { result ≡ Err Untaken.Unwritten
            → S.faults sink.new ≡ count_faults false (S.faults sink.old) }
    {
        if !sink.flush() {
            return Err(Untaken::Unwritten);
        }
        if self.sent.extend_from_slice(&self.printed).is_err() {
            return Err(Untaken::NoMemory);
        }
        self.printed.clear();
        self.tags.flush();
        Ok(self.tags.acknowledge())
    }

    /// Whether the broker is to be asked for what was acknowledged: it isn't asked, and there is something.
    pub fn wants_to_ask(&self) -> bool
        ensures { result ≡ wants_to_ask self.now }
    {
        self.asked == 0 && !self.sent.is_empty()
    }

    /// The broker is asked for all that was acknowledged so far on this link.
    pub fn ask(&mut self)
        ensures { self.new ≡ flow_asked self.old }
    {
        self.asked = self.sent.len();
    }

    // The first so many of those that were sent are known to be acknowledged.
    fn know_sent(&mut self, count: usize) -> Result<(), NoMemory>
        requires { count ≤ length self.old.sent }
        ensures { OnOk result (self.new
            ≡ record self.old { known = recent (self.old.known ++ take count self.old.sent) }) }
    {
        self.known.extend_from_slice(&self.sent[..count])?;
        if self.known.len() >= 2 * KEPT {
            let_go(&mut self.known, KEPT);
        }
        Ok(())
    }

    /// It answered. Where memory is refused, nothing is known of what was done.
    pub fn answered(&mut self) -> Result<(), NoMemory>
        ensures { OnOk result (self.new ≡ flow_answered self.old) }
    {
        let asked = self.asked.min(self.sent.len());
        self.know_sent(asked)?;
        self.counted = self.counted.saturating_add(asked as u64);
        let_go(&mut self.sent, asked);
        self.asked = 0;
        Ok(())
    }

    /// The link is lost. Where memory is refused, nothing is known of what was done.
    pub fn lose(&mut self) -> Result<(), NoMemory>
        ensures new { OnOk result (self.new ≡ lost_link self.old) }
        ensures does { OnOk result (Does (standing self.old) ((Lost, None) ∷ []) (standing self.new)) }
    {
        self.unknown.extend_from_slice(&self.sent)?;
        self.lost.extend_from_slice(&self.printed)?;
        self.past.extend_from_slice(&self.known)?;
        self.known.clear();
        self.sent.clear();
        self.printed.clear();
        self.asked = 0;
        self.tags.lose();
        Ok(())
    }
}
