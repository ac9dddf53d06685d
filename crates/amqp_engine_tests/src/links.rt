//! Which octets of a link spell what a client may say, by the definition alone.

ghost use Rattle.std.specs.Prelude.{ℕ, List, ◌∷◌, [], ◌++◌};
ghost use Rattle.amqp_frame.specs.FrameReading.{front};
ghost use Rattle.amqp_frame.specs.Sequences.{IsNoFrame};
ghost use Rattle.amqp_engine.specs.Sending.{Sending};
ghost use Rattle.amqp_engine.specs.Saying.{SpellLegal};
ghost use Rattle.amqp_engine_tests.specs.Links.{greeting, opens_0, greeted_link};

// The header alone may be said.
fn is_spelled()
    ensures { SpellLegal (greeted_link ∷ []) (greeting ∷ []) }
{}

// Whatever was committed, the octets of channel.open on channel 0 are none that may be sent, and behind
// the header nothing is that is no frame.
fn are_not_spelled()
    ensures channel_0 { (ss : List Sending) → SpellLegal ss (opens_0 ∷ []) → ⊥ }
    ensures no_frame { (ss : List Sending) (octets : List ℕ) → IsNoFrame (front octets 4294967295)
        → SpellLegal ss ((greeting ++ octets) ∷ []) → ⊥ }
{}

#[test]
fn a_header_is_spelled() {
    is_spelled();
}

#[test]
fn what_may_not_be_said_is_not_spelled() {
    are_not_spelled();
}
