//! Who answers what a server asks of its client to let it in.

ghost use Rattle.std.specs.Prelude.{◌≤◌, ℕ};
ghost use Rattle.amqp_auth.specs.Providers.{Exchange, Names, Lasts, Replies, Counts};

use crate::asked::{Asked, Question, Refusal};
use amqp_types::{LongString, NoMemory, ShortString};

/// Answers for a client, by a mechanism of SASL. The answers of a boxed provider are those of what is
/// in the box. A connection holds still while it asks: no call of a provider waits for anybody, nor calls
/// anything of its connection.
pub trait AuthProvider: Send + Sync + Drop {
    /// The closures that it stores, if there are any, may be called.
    ghost can: { Self → Type 0 };

    /// How often it refused, a count that never falls.
    ghost refusals: { Self → ℕ };

    /// Which questions with their answers may come from it, in order.
    ghost allows: { Self → Exchange → Type 0 };

    /// The name of the mechanism.
    fn mechanism(&self) -> Result<ShortString, NoMemory>
        requires { can self.now }
        ensures { Names (allows self.now) result };

    /// What the client says first.
    fn auth_starter(&mut self) -> Result<LongString, Refusal>
        requires { can self.old }
        ensures can { can self.new }
        ensures answer { Replies (allows self.old) (allows self.new) Question.Starter Asked.Starter result }
        ensures counted { Counts (refusals self.old) (refusals self.new) result }
        ensures never_falls { refusals self.old ≤ refusals self.new };

    /// The answer to a challenge of the server.
    fn continue_auth(&mut self, challenge: LongString) -> Result<LongString, Refusal>
        requires { can self.old }
        ensures can { can self.new }
        ensures answer { Replies (allows self.old) (allows self.new) (Question.Challenge challenge) Asked.Challenge
            result }
        ensures counted { Counts (refusals self.old) (refusals self.new) result }
        ensures never_falls { refusals self.old ≤ refusals self.new };

    /// For how many milliseconds the last secret is valid, if that is known.
    fn valid_for(&self) -> Option<u64>
        requires { can self.now }
        ensures { Lasts (allows self.now) result };

    /// A new secret.
    fn refresh(&mut self) -> Result<LongString, Refusal>
        requires { can self.old }
        ensures can { can self.new }
        ensures answer { Replies (allows self.old) (allows self.new) Question.Refresh Asked.Refreshed result }
        ensures counted { Counts (refusals self.old) (refusals self.new) result }
        ensures never_falls { refusals self.old ≤ refusals self.new };
}

impl AuthProvider for Box<dyn AuthProvider> {
    ghost can = { λ b. (AuthProvider-box b).can b.value };

    ghost refusals = { λ b. (AuthProvider-box b).refusals b.value };

    ghost allows = { λ b. (AuthProvider-box b).allows b.value };

    fn mechanism(&self) -> Result<ShortString, NoMemory> {
        (**self).mechanism()
    }

    fn auth_starter(&mut self) -> Result<LongString, Refusal> {
        (**self).auth_starter()
    }

    fn continue_auth(&mut self, challenge: LongString) -> Result<LongString, Refusal> {
        (**self).continue_auth(challenge)
    }

    fn valid_for(&self) -> Option<u64> {
        (**self).valid_for()
    }

    fn refresh(&mut self) -> Result<LongString, Refusal> {
        (**self).refresh()
    }
}
