//! What holds of the replies.

ghost use Rattle.std.specs.Prelude.{◌≡◌, ◌++◌, ◌∷◌, [], List, Some, true};
ghost use Rattle.amqp_frame.specs.declared.frame.Frame.{Frame};
ghost use Rattle.amqp_settings.specs.declared.configuration.Configuration.{Configuration};
ghost use Rattle.amqp_legal.specs.Legal.{amqp_header};
ghost use Rattle.amqp_legal.specs.Decider.{Speech, say, greeted};
ghost use Rattle.amqp_faultless.specs.Faultless.{Server, silent, said_to, heard_from, is_frame_max};
ghost use Rattle.amqp_double.specs.Replies.{replies};
ghost use Rattle.amqp_owing.specs.Owed.{Owes, Fits, Suits, all_said, Later};

/// What a double replies to each frame of a legal conversation, a faultless server may say after what
/// was said to it, in order and at any later time. After the protocol header start is owed. A frame that
/// may be said, and fits to how far the server is, adds its replies to those that are owed. The first
/// reply that is owed may be said, and the others are owed then; and it may also be said where further
/// frames were said meanwhile, which still may be said and still fit after it. A frame fits that suits
/// the server, as far as what was said does not decide that.
pub fn replies_are_faultless()
    ensures first { (numbers : Configuration)
        → Owes greeted (replies numbers amqp_header) (said_to amqp_header silent) }
    ensures said { (numbers : Configuration) (p p' : Speech) (rs : List Frame) (s : Server) (f : Frame)
        → is_frame_max numbers.frame_max ≡ true → Owes p rs s → say f p ≡ Some p' → Fits f s
        → Owes p' (rs ++ replies numbers f) (said_to f s) }
    ensures heard { (p : Speech) (rs : List Frame) (s : Server) (r : Frame) → Owes p (r ∷ rs) s
        → (s' : Server) × (heard_from s.stage r s ≡ Some s') × Owes p rs s' }
    ensures behind { (numbers : Configuration) (fs rs : List Frame) (p : Speech) (r : Frame) (s s' : Server)
        → is_frame_max numbers.frame_max ≡ true → Owes p (r ∷ rs) s → Later p fs s → heard_from s.stage r s ≡ Some s'
        → (heard_from (all_said fs s).stage r (all_said fs s) ≡ Some (all_said fs s')) × Later p fs s' }
    ensures fits { (p p' : Speech) (rs : List Frame) (s : Server) (f : Frame) → Owes p rs s → say f p ≡ Some p'
        → Suits f s → Fits f s }
{}
