//! What holds of both ends.

ghost use Rattle.std.specs.Prelude.{◌≡◌, [], ◌∷◌, List, Some};
ghost use Rattle.amqp_frame.specs.declared.frame.Frame.{Frame};
ghost use Rattle.amqp_promise.specs.declared.state.ConnectionState.TheVariants.{Connected};
ghost use Rattle.amqp_legal.specs.Legal.{amqp_header};
ghost use Rattle.amqp_legal.specs.Decider.{Speech, greeted, say_all};
ghost use Rattle.amqp_settings.specs.Config.{Options};
ghost use Rattle.amqp_rules.specs.Sound.{IsSound};
ghost use Rattle.amqp_rules.specs.Talk.{Talk};
ghost use Rattle.amqp_legal_rules.proofs.Ties.{IsTied, first_out};
ghost use Rattle.amqp_faultless.specs.Faultless.{Server};
ghost use Rattle.amqp_faultless.proofs.Greeted.{IsMet};
ghost use Rattle.amqp_faultless.proofs.Modest.{Modest};
ghost use Rattle.amqp_faultless.proofs.Speaks.{said_all};
ghost use Rattle.amqp_engine.specs.declared.port.Wrote.{Wrote};
ghost use Rattle.amqp_engine.specs.Turn.{Progress, drained};
ghost use Rattle.amqp_owing.specs.Owed.{Owes};
ghost use Rattle.amqp_joining.specs.Writes.{AreTooks, committed_through};

/// Where nothing waits and nothing is owed, the connection is open: so the last close is told then, and
/// after it nothing is left to tell but that the session ends.
pub fn a_quiet_session_is_connected()
    ensures { (s : Server) (t : Talk) (said : List Frame) (p : Speech) → IsMet s t
        → IsTied t (amqp_header ∷ said) → first_out t.outbox ≡ [] → say_all (Some greeted) said ≡ Some p
        → Owes p [] s → t.state ≡ Connected }
{}

/// Writes of which little is taken keep the tie of both ends: what was committed was said.
pub fn short_writes_keep_the_tie()
    ensures { (options : Options) (ws : List Wrote) (p : Progress) (s : Server) → AreTooks ws → IsSound p.engine.talk
        → Modest options p.engine.talk → IsMet s p.engine.talk
        → IsMet (said_all (committed_through ws p) s) (drained ws p).engine.talk }
{}
