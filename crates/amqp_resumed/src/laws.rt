//! What holds of captures that begin late.

ghost use Rattle.std.specs.Prelude.{◌≡◌, ◌++◌, ◌∷◌, List, false};
ghost use Rattle.amqp_frame.specs.declared.frame.Frame.{Frame};
ghost use Rattle.amqp_legal.specs.Decider.{is_amqp_header};
ghost use Rattle.amqp_legal.specs.Legal.{Legal};
ghost use Rattle.amqp_resumed.specs.Rests.{IsTakenLate, IsSaidNowhere};

/// What is legal from its beginning on is taken from each border of frames on.
pub fn a_legal_conversation_is_taken_from_each_border()
    ensures { (before frames : List Frame) → Legal (before ++ frames) → IsTakenLate frames }
{}

/// What no conversation may say, whatever it said before, is refused from each border on that stands before it. The
/// protocol header is none such: it begins one.
pub fn what_is_said_nowhere_is_refused_from_each_border()
    ensures { (frame : Frame) → is_amqp_header frame ≡ false → IsSaidNowhere frame → (frames more : List Frame)
        → IsTakenLate (frames ++ frame ∷ more) → ⊥ }
{}
