//! Frames one after another, by the definition alone.

ghost use Rattle.std.specs.Prelude.{List, [], ◌∷◌, ◌++◌, take};
ghost use Rattle.amqp_frame.specs.declared.frame.Frame.TheVariants.{ProtocolHeader, Method, Heartbeat};
ghost use Rattle.amqp_frame.specs.declared.method.Method.TheVariants.{CloseOk};
ghost use Rattle.amqp_frame.specs.Sequences.{IsSequence};
ghost use Rattle.amqp_frame.specs.Sequences.SequenceEnd.{Complete, Cut, Broken};
ghost use Rattle.amqp_frame_tests.specs.Octets.{limit, version, header, heartbeat, heartbeat_on_1, close_ok, large};

// Whole frames, and each way in which octets end behind them.
fn are_sequences()
    ensures nothing { IsSequence [] limit [] 0 Complete }
    ensures complete { IsSequence (header ++ heartbeat ++ close_ok) limit
        (ProtocolHeader version ∷ Heartbeat ∷ Method 0 CloseOk ∷ []) 28 Complete }
    ensures cut { IsSequence (heartbeat ++ take 11 close_ok) limit (Heartbeat ∷ []) 8 Cut }
    ensures on_a_channel { IsSequence (heartbeat ++ heartbeat_on_1) limit (Heartbeat ∷ []) 8 Broken }
    ensures above_the_limit { IsSequence (close_ok ++ large) limit (Method 0 CloseOk ∷ []) 12 Broken }
{}

// A whole frame is left out, behind the others or before them, whatever the octets are said to end with.
fn are_no_sequences()
    ensures left_out { IsSequence (heartbeat ++ close_ok) limit (Heartbeat ∷ []) 8 Complete → ⊥ }
    ensures not_cut { IsSequence (heartbeat ++ close_ok) limit (Heartbeat ∷ []) 8 Cut → ⊥ }
    ensures not_broken { IsSequence (heartbeat ++ close_ok) limit (Heartbeat ∷ []) 8 Broken → ⊥ }
    ensures skipped { IsSequence (heartbeat ++ close_ok) limit (Method 0 CloseOk ∷ []) 20 Complete → ⊥ }
{}

#[test]
fn frames_stand_one_after_another() {
    are_sequences();
    are_no_sequences();
}
