//! The program, over what is handed to it.

ghost use Rattle.std.specs.Prelude.{◌≡◌, ◌≢◌, ◌⊎◌, ◌↔◌, ℕ, is_some, Some, None, IfSome, IsFalse};
ghost use Rattle.amqp_replay.specs.Ends.{FailedOnce};
ghost use Rattle.amqp_replay.specs.Generator.{generated};
ghost use Rattle.amqp_replay.specs.GeneratedScenario.{generated_scenario};
ghost use Rattle.amqp_replay.specs.Top.{handed_state, Replays, ReplaysSome, Generates, IsSilent};
ghost use Rattle.amqp_program.specs.declared.asked.Asked.{Asked};
ghost use Rattle.amqp_program.specs.Asked.{asked_by_words, reads_source};
ghost use Rattle.amqp_program.specs.Checks.{ChecksCapture, ChecksSomeCapture};
ghost use Rattle.amqp_doubled.specs.Numbers.{doubled_number};
ghost use Rattle.amqp_doubled.specs.Doubling.{Doubles};

use crate::doubling::double;
use crate::words::doubled_number;
use amqp_engine::ScriptedPort;
use amqp_program::top::top;
use amqp_replay::status::{CLOSED, NO_MEMORY, SINK_FAILED, SOURCE_FAILED, USAGE};
use amqp_replay::{Sink, Source};
use amqp_session::AuthProvider;
use amqp_types::Text;
use std::alloc::Global;

/// Answers the words of a command line, and gives the exit status. Asked to double, it reads nothing,
/// joins both ends of a link by the plan of a number, and writes how much was sent and answered. All
/// other words are answered as `top` does.
#[tactic(auto, using(crate::proofs::OtherWords::no_other))]
pub fn top_doubled<S: Source, K: Sink, P: ScriptedPort, A: AuthProvider>(
    alloc: Global,
    words: &[Text],
    source: &mut S,
    sink: &mut K,
    port: &mut P,
    handed: Option<A>,
) -> u8
    requires { IfSome handed A.can }
    ensures usage { (result ≡ USAGE) ↔ ((asked_by_words words.now ≡ None) × (doubled_number words.now ≡ None)) }
    ensures source_failed { result ≡ SOURCE_FAILED → FailedOnce (S.faults source.old) (S.faults source.new) }
    ensures source_kept { result ≢ SOURCE_FAILED → S.faults source.new ≡ S.faults source.old }
    ensures sink_failed { result ≡ SINK_FAILED → FailedOnce (K.faults sink.old) (K.faults sink.new) }
    ensures sink_kept { result ≢ SINK_FAILED → K.faults sink.new ≡ K.faults sink.old }
    ensures silent { IsSilent result → K.held sink.new ≡ K.held sink.old }
    ensures outcome { asked_by_words words.now ≡ Some Asked.Replay
        → IfSome (S.left source.old) (λ script. IsSilent result
        ⊎ Replays (is_some handed) (handed_state A.allows handed) script (P.log port.old) (P.log port.new)
        (K.held sink.old) (K.held sink.new) result) }
    ensures some_script { asked_by_words words.now ≡ Some Asked.Replay → IsSilent result
        ⊎ ReplaysSome (is_some handed) (handed_state A.allows handed) (S.left source.old)
        (P.log port.old) (P.log port.new) (K.held sink.old) (K.held sink.new) result }
    ensures generated { (count : ℕ) → asked_by_words words.now ≡ Some (Asked.Generate count) → (result ≡ NO_MEMORY)
        ⊎ Generates (generated count) (generated_scenario count) (P.log port.new)
        (K.held sink.old) (K.held sink.new) result }
    ensures checked { asked_by_words words.now ≡ Some Asked.Check
        → IfSome (S.left source.old) (λ text. IsSilent result
        ⊎ ChecksCapture text (K.held sink.old) (K.held sink.new) result) }
    ensures some_capture { asked_by_words words.now ≡ Some Asked.Check → IsSilent result
        ⊎ ChecksSomeCapture (S.left source.old) (K.held sink.old) (K.held sink.new) result }
    ensures portless { asked_by_words words.now ≡ Some Asked.Check → P.log port.new ≡ P.log port.old }
    ensures untouched { asked_by_words words.now ≡ None → P.log port.new ≡ P.log port.old }
    ensures doubled { (count : ℕ) → doubled_number words.now ≡ Some count → (result ≡ NO_MEMORY)
        ⊎ Doubles count (K.held sink.old) (K.held sink.new) result }
    ensures doubled_ends { (count : ℕ) → doubled_number words.now ≡ Some count
        → (result ≡ CLOSED) ⊎ (result ≡ SINK_FAILED) ⊎ (result ≡ NO_MEMORY) }
    ensures unread { IsFalse (reads_source (asked_by_words words.now))
        → (S.left source.new ≡ S.left source.old) × (S.faults source.new ≡ S.faults source.old) }
{
    match doubled_number(words) {
        Some(count) => {
            drop(handed);
            double(alloc, count as u16, sink)
        }
        None => top(alloc, words, source, sink, port, handed),
    }
}
