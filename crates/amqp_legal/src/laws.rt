//! What is true of legal conversations, and of a speech that says them.

ghost use Rattle.std.specs.Prelude.{◌≡◌, ◌↔◌, ◌++◌, ◌∷◌, [], true, List, Some, IsTrue, is_some};
ghost use Rattle.amqp_frame.specs.declared.frame.Frame.{Frame};
ghost use Rattle.amqp_legal.specs.declared.speech.Speech.{Speech};
ghost use Rattle.amqp_legal.specs.Legal.{Legal, amqp_header};
ghost use Rattle.amqp_legal.specs.Decider.{is_legal, is_amqp_header, greeted, say};
ghost use Rattle.amqp_legal.specs.Speeches.{speech_of, after_header, HasSaid};

/// A decider takes the legal conversations, and no others.
pub fn the_decider_takes_legal_conversations()
    ensures sound { (frames : List Frame) → is_legal frames ≡ true → Legal frames }
    ensures complete { (frames : List Frame) → Legal frames → is_legal frames ≡ true }
{}

/// What begins a legal conversation is a legal one.
pub fn a_front_of_a_legal_conversation_is_legal()
    ensures { (frames rest : List Frame) → Legal (frames ++ rest) → Legal frames }
{}

/// Frames that are said one after another, the first of them the protocol header, may all be said
/// exactly where they are a legal conversation. A new speech has said the header alone. One that
/// says one more frame has said all that it had said before, and that frame; and the frame may be
/// said exactly where the conversation that it makes longer is legal.
pub fn a_speech_says_legal_conversations()
    ensures all { (first : Frame) (frames : List Frame)
        → Legal (first ∷ frames) ↔ (IsTrue (is_amqp_header first) × IsTrue (is_some (after_header frames))) }
    ensures begun { (s : Speech) → speech_of s ≡ greeted → HasSaid [] s }
    ensures gone_on { (frames : List Frame) (f : Frame) (old new : Speech) → HasSaid frames old
        → say f (speech_of old) ≡ Some (speech_of new) → HasSaid (frames ++ f ∷ []) new }
    ensures next { (frames : List Frame) (f : Frame) (s : Speech) → HasSaid frames s
        → IsTrue (is_some (say f (speech_of s))) ↔ Legal (amqp_header ∷ frames ++ f ∷ []) }
{}
