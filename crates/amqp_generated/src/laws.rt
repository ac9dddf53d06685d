//! What holds of all generated scripts.

ghost use Rattle.std.specs.Prelude.{◌≡◌, ◌≤◌, ◌⊎◌, ℕ, false, List, Option, Some, Ok};
ghost use Rattle.amqp_auth.specs.declared.asked.Asked.{Asked};
ghost use Rattle.amqp_rules.specs.Talk.{end_of};
ghost use Rattle.amqp_engine.specs.Log.{Log};
ghost use Rattle.amqp_replay.specs.declared.limits.TheConstants.{MOST_GENERATED};
ghost use Rattle.amqp_replay.specs.declared.status.TheConstants.{CLOSED, SINK_FAILED};
ghost use Rattle.amqp_replay.specs.Grammar.{parsed};
ghost use Rattle.amqp_replay.specs.Generator.{generated};
ghost use Rattle.amqp_replay.specs.GeneratedScenario.{generated_scenario};
ghost use Rattle.amqp_replay.specs.Top.{own_state, replayed_talk, AreRunAnswers, IsValid, Generates};
ghost use Rattle.amqp_generated.specs.Login.{guest_login};

use amqp_engine::a_valid_script_ends_closed;
use amqp_replay::a_generated_script_is_taken;

/// The script of a number up to 2,000 is a valid one, with whatever the provider of the address answers in
/// its run, and there are such answers. So its session ends Closed; and where the program answered the number,
/// its status says so, or that the sink failed.
pub fn a_generated_script_is_valid()
    ensures login { (count : ℕ) → count ≤ MOST_GENERATED
        → AreRunAnswers (own_state (generated_scenario count)) (generated_scenario count) guest_login }
    ensures valid { (count : ℕ) (answers : List Asked) → count ≤ MOST_GENERATED
        → AreRunAnswers (own_state (generated_scenario count)) (generated_scenario count) answers
        → IsValid (parsed false (generated count)) answers }
    ensures closed { (count : ℕ) (answers : List Asked) → count ≤ MOST_GENERATED
        → AreRunAnswers (own_state (generated_scenario count)) (generated_scenario count) answers
        → end_of (replayed_talk (generated_scenario count) answers) ≡ Some (Ok tt) }
    ensures status { (count : ℕ) (log : Option Log) (before after : Option (List ℕ)) (status : ℕ)
        → count ≤ MOST_GENERATED
        → Generates (generated count) (generated_scenario count) log before after status
        → (status ≡ CLOSED) ⊎ (status ≡ SINK_FAILED) }
{
    a_generated_script_is_taken();
    a_valid_script_ends_closed();
}
