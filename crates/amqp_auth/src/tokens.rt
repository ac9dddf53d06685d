//! Who makes the tokens by which a client logs in.

ghost use Rattle.std.specs.Prelude.{◌≤◌, ℕ};
ghost use Rattle.amqp_auth.specs.Providers.{Counts};
ghost use Rattle.amqp_auth.specs.Tokens.{Tokens, LastsToken, Creates};

use crate::asked::Refusal;
use amqp_types::LongString;

/// Makes tokens, and says how long the last one is valid. A connection holds still while it asks: no
/// call of a token provider waits for anybody, nor calls anything of its connection.
pub trait TokenProvider: Send + Sync + Drop {
    /// The closures that it stores, if there are any, may be called.
    ghost can: { Self → Type 0 };

    /// How often it refused, a count that never falls.
    ghost refusals: { Self → ℕ };

    /// Which answers may come from it, in order.
    ghost allows: { Self → Tokens → Type 0 };

    /// For how many milliseconds the last token is valid, if that is known.
    fn valid_for(&self) -> Option<u64>
        requires { can self.now }
        ensures { LastsToken (allows self.now) result };

    /// A new token.
    fn create_token(&mut self) -> Result<LongString, Refusal>
        requires { can self.old }
        ensures can { can self.new }
        ensures answer { Creates (allows self.old) (allows self.new) result }
        ensures counted { Counts (refusals self.old) (refusals self.new) result }
        ensures never_falls { refusals self.old ≤ refusals self.new };
}
