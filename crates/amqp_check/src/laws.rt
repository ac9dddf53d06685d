//! What holds of each capture.

ghost use Rattle.std.specs.Prelude.{◌≡◌, ◌↔◌, ◌++◌, ◌∷◌, [], ℕ, List};
ghost use Rattle.amqp_frame.specs.declared.frame.Frame.{Frame};
ghost use Rattle.amqp_legal.specs.Legal.{Legal};
ghost use Rattle.amqp_legal.specs.Speeches.{speech_of};
ghost use Rattle.amqp_legal.specs.declared.speech.Speech.{Speech as Spoken};
ghost use Rattle.amqp_check.specs.Findings.{IsLegallySaid, IsFinding};
ghost use Rattle.amqp_check.specs.Expected.{IsExpected};
ghost use Rattle.amqp_check.specs.Verdicts.{IsOnlyFrames, IsVerdict};
ghost use Rattle.amqp_check.specs.declared.capture.Verdict.{Verdict};
ghost use Rattle.amqp_check.specs.declared.capture.Verdict.TheVariants as verdict;
ghost use Rattle.amqp_check.specs.declared.finding.Finding.{Finding};

/// No capture has two verdicts.
pub fn captures_have_one_verdict()
    ensures { (client server : List ℕ) (one other : Verdict) → IsVerdict client server one
        → IsVerdict client server other → one ≡ other }
{}

/// What is found is the verdict, where both sides are frames and nothing else.
pub fn what_is_found_is_the_verdict()
    ensures { (client server : List ℕ) (finding : Finding) → IsFinding client finding
        → IsOnlyFrames client → IsOnlyFrames server → IsVerdict client server (verdict.Illegal finding.number) }
{}

/// Behind frames that are a legal conversation, a frame may be said exactly where it is what is
/// expected there, by the usage of the channels.
pub fn what_may_follow()
    ensures { (frames : List Frame) (s : Spoken) (f : Frame) → IsLegallySaid frames s
        → Legal (frames ++ f ∷ []) ↔ IsExpected frames (speech_of s) f }
{}
