//! The journal begins anew where that is worth while.

ghost use Rattle.std.specs.Prelude.{◌≡◌, ◌⊎◌, IfOk, IfErr, OnOk, OnErr};
ghost use Rattle.amqp_hub.specs.Entering.{begun_anew, let_go};
ghost use Rattle.amqp_locked.specs.UnderLock.{contents, with_hub};

use super::Locked;
use amqp_session::{ErrorKind, Result};

impl Locked {
    /// Lets the journal begin anew where the engine stands, and gives how many entries were let go.
    pub fn settle(&mut self) -> Result<u64>
        ensures settled { OnOk result (contents self.new
            ≡ with_hub (begun_anew self.old.hub) (contents self.old)) }
        ensures let_go { IfOk result (λ n. n ≡ let_go self.old.hub) }
        ensures err { OnErr result (contents self.new ≡ contents self.old) }
        ensures only { IfErr result (λ e. e ≡ ErrorKind.NoMemory) }
    {
        let settled = self.hub.settle();
        if settled.is_ok() {
            self.weigh_anew();
        }
        settled
    }

    /// Lets the journal begin anew where at least so many octets were entered since it did, and about as many as
    /// the state of the engine holds. Where memory is refused, it goes on as it was.
    pub fn settle_when_due(&mut self, least: u64)
        ensures { (contents self.new ≡ contents self.old)
            ⊎ (contents self.new ≡ with_hub (begun_anew self.old.hub) (contents self.old)) }
    {
        self.weigh();
        if self.weights.are_due(least) {
            drop(self.settle());
        }
    }

    // What was entered since the last look is weighed.
    fn weigh(&mut self)
        ensures { contents self.new ≡ contents self.old }
    {
        if self.hub.entries() < self.weighed {
            self.weigh_anew();
        }
        self.weights = self.weights.with_all(self.hub.since(self.weighed));
        self.weighed = self.hub.entries();
        let session = self.hub.session();
        if session.waiting() == 0 {
            self.weights.clear(session.unsent());
        }
    }

    // The journal has begun anew.
    fn weigh_anew(&mut self)
        ensures { contents self.new ≡ contents self.old }
    {
        self.weighed = 0;
        self.weights.begin_anew();
    }
}
