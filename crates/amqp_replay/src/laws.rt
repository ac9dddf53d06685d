//! What holds of all replays.

ghost use Rattle.std.specs.Prelude.{◌≡◌, ◌≤◌, List, ℕ, Ok, false, map};
ghost use Rattle.std.specs.List.{AllByRecursion};
ghost use Rattle.amqp_auth.specs.declared.asked.Asked.{Asked};
ghost use Rattle.amqp_engine.specs.Play.{AreAnswered};
ghost use Rattle.amqp_engine.specs.Sending.{sendings, link_bytes, SendsInOrder};
ghost use Rattle.amqp_replay.specs.Grammar.{Scenario, parsed};
ghost use Rattle.amqp_replay.specs.Generator.{generated};
ghost use Rattle.amqp_replay.specs.GeneratedScenario.{generated_scenario};
ghost use Rattle.amqp_replay.specs.Top.{session_of, engine_of, replayed_turns, replayed_links};

use crate::limits::MOST_GENERATED;
use amqp_engine::{a_link_has_the_frames_sent, a_script_has_its_turns};

/// The bytes that a report prints of each link are the spellings of the frames that were sent on it,
/// in order, and then a part of the next one, whatever the provider answers.
pub fn a_report_has_the_frames_sent()
    ensures bytes { (s : Scenario) (answers : List Asked)
        → AreAnswered (replayed_turns s answers) (engine_of s)
        → replayed_links s answers ≡ map link_bytes (sendings (session_of s) (replayed_turns s answers)) }
    ensures order { (s : Scenario) (answers : List Asked)
        → AreAnswered (replayed_turns s answers) (engine_of s)
        → AllByRecursion SendsInOrder (sendings (session_of s) (replayed_turns s answers)) }
{
    a_script_has_its_turns();
    a_link_has_the_frames_sent();
}

/// No script is read so that it asks for a provider that was not handed.
pub fn no_script_names_a_provider_that_was_not_handed()
    ensures { (text : List ℕ) (s : Scenario) → parsed false text ≡ Ok s → s.handed ≡ false }
{}

/// The script that a number up to 2,000 makes is taken: none of its lines is refused, and they say the steps
/// that are written out for that number.
pub fn a_generated_script_is_taken()
    ensures { (count : ℕ) → count ≤ MOST_GENERATED → parsed false (generated count) ≡ Ok (generated_scenario count) }
{}
