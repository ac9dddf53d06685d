//! What holds of both ends.

ghost use Rattle.std.specs.Prelude.{◌≡◌, ◌≤◌, true, List, length};
ghost use Rattle.amqp_frame.specs.Frames.{encoding};
ghost use Rattle.amqp_uri.specs.Login.{Login, sasl_text};
ghost use Rattle.amqp_uri.specs.declared.mechanism.SASLMechanism.{SASLMechanism};
ghost use Rattle.amqp_uri.specs.Mechanisms.{name_of};
ghost use Rattle.amqp_auth.specs.DefaultAnswers.{default_answer, AnswersEach};
ghost use Rattle.amqp_settings.specs.Config.{Options};
ghost use Rattle.amqp_settings.specs.Handshake.{start_ok};
ghost use Rattle.amqp_faultless.specs.Faultless.{is_frame_max, AreSayable};
ghost use Rattle.amqp_settings.specs.declared.configuration.Configuration.{Configuration};
ghost use Rattle.amqp_rules.specs.Talk.{Talk};
ghost use Rattle.amqp_written_rules.specs.Sayable.{AreInRange, CanBeSaid};
ghost use Rattle.amqp_engine.specs.Account.{IsNew};
ghost use Rattle.amqp_engine.specs.Engine.{begin};
ghost use Rattle.amqp_engine.specs.Turn.{Turn, AreTurns, AreTold, AreFit};
ghost use Rattle.amqp_engine.specs.Valid.{answered_in};
ghost use Rattle.amqp_double.specs.Doubles.{fresh};
ghost use Rattle.amqp_joining.specs.Plans.{JoinPlan, IsPlan};
ghost use Rattle.amqp_joining.specs.Joining.{Join, join, JoinsTurns, AreFed};
ghost use Rattle.amqp_both_ends.specs.TwoEnds.{TwoEnds, unasked};
ghost use Rattle.amqp_both_ends.specs.Logins.{SaysLogins};

/// A new session and a double, joined by any plan, both close, in as many turns as the plan takes at
/// most, unless memory was refused. The frames on their one link are legal, the double read them all, and
/// what was told is what a faultless server tells on a link with room.
pub fn both_ends_close()
    ensures { (t : Talk) (numbers : Configuration) (plan : JoinPlan) (us : List Turn) (last : Join) → IsNew t
        → CanBeSaid t.config → IsPlan plan → AreInRange numbers → is_frame_max numbers.frame_max ≡ true
        → AreTurns us (begin t) → AreTold us → AreFit us → AreFed us
        → JoinsTurns us (begin t) unasked (join (fresh numbers) plan) last
        → AreSayable t.config.options (answered_in us) → TwoEnds t plan us last }
{}

/// What the provider of an address answers to a login can be said, where its start-ok has at most 131,072
/// octets.
pub fn a_default_login_is_said()
    ensures { (options : Options) (mechanism : SASLMechanism) (login : Login)
        → length (encoding (start_ok options (name_of mechanism) (sasl_text mechanism login))) ≤ 131072
        → SaysLogins options (AnswersEach (default_answer mechanism login)) }
{}
