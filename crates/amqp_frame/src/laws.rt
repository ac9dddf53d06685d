//! What holds of every spelling, and of frames one after another, whatever reads them.

ghost use Rattle.std.specs.Prelude.{◌≡◌, ◌≢◌, ℕ, ◌≤◌, List, ◌++◌, length};
ghost use Rattle.amqp_frame.specs.declared.frame.Frame.{Frame};
ghost use Rattle.amqp_frame.specs.declared.frame.Read.TheVariants as read;
ghost use Rattle.amqp_frame.specs.Frames.{FrameOf, encoding, Writable};
ghost use Rattle.amqp_frame.specs.Rules.{KeepsRules};
ghost use Rattle.amqp_types.specs.Forms.{IsOctets};
ghost use Rattle.amqp_frame.specs.declared.frame.Read.{Read};
ghost use Rattle.amqp_frame.specs.Fronts.{IsWithinLimit, IsFront};
ghost use Rattle.amqp_frame.specs.FrameReading.{front};
ghost use Rattle.amqp_frame.specs.Sequences.{Stand, SequenceEnd, IsSequence};

/// Each spelling of a frame is read as that frame, whatever follows it.
pub fn spelled_is_read()
    ensures { (frame : Frame) (text rest : List ℕ) (limit : ℕ) → FrameOf frame text
        → IsWithinLimit limit (length text) frame
        → front (text ++ rest) limit ≡ read.Whole frame (length text) }
{}

/// What is written of a frame that keeps the rules is one of its spellings, where four octets can
/// hold the length.
pub fn what_is_writable()
    ensures { (frame : Frame) → KeepsRules frame → length (encoding frame) ≤ 4294967295 → Writable frame }
{}

/// What is written is read again, whatever follows it: of every writable frame, and so of each that
/// keeps the rules.
pub fn written_is_read()
    ensures writable { (frame : Frame) (rest : List ℕ) (limit : ℕ) → Writable frame
        → IsWithinLimit limit (length (encoding frame)) frame
        → front (encoding frame ++ rest) limit ≡ read.Whole frame (length (encoding frame)) }
    ensures rules { (frame : Frame) (rest : List ℕ) (limit : ℕ) → KeepsRules frame
        → length (encoding frame) ≤ 4294967295 → IsWithinLimit limit (length (encoding frame)) frame
        → front (encoding frame ++ rest) limit ≡ read.Whole frame (length (encoding frame)) }
{}

/// No octets spell two frames, and no spelling of a frame begins another.
pub fn one_frame()
    ensures { (first second : Frame) (a b x y : List ℕ) → FrameOf first a → FrameOf second b → a ++ x ≡ b ++ y
        → (first ≡ second) × (a ≡ b) }
{}

/// Exactly one answer holds at the front of octets, and `front` is it. A whole frame has at least eight
/// octets, all of them there.
pub fn exactly_one_answer()
    ensures holds { (bytes : List ℕ) (limit : ℕ) → IsOctets bytes → IsFront bytes limit (front bytes limit) }
    ensures only { (bytes : List ℕ) (limit : ℕ) (answer : Read) → IsOctets bytes → IsFront bytes limit answer
        → front bytes limit ≡ answer }
    ensures size { (bytes : List ℕ) (limit n : ℕ) (frame : Frame) → front bytes limit ≡ read.Whole frame n
        → (8 ≤ n) × (n ≤ length bytes) }
{}

/// What is said of the front of octets stays when more octets come.
pub fn answer_stays()
    ensures { (bytes more : List ℕ) (limit : ℕ) → front bytes limit ≢ read.More
        → front (bytes ++ more) limit ≡ front bytes limit }
{}

/// Frames that stand one after another stay where they are when more octets come.
pub fn frames_stay()
    ensures { (bytes more : List ℕ) (limit start end : ℕ) (frames : List Frame) → Stand bytes limit start frames end
        → Stand (bytes ++ more) limit start frames end }
{}

/// Of two sequences of frames that start at the same place, the one that ends first begins the other,
/// and the rest of the other stands behind it.
pub fn sequences_agree()
    ensures { (bytes : List ℕ) (limit start end later : ℕ) (frames others : List Frame)
        → Stand bytes limit start frames end → Stand bytes limit start others later → end ≤ later
        → (rest : List Frame) × (others ≡ frames ++ rest) × Stand bytes limit end rest later }
{}

/// All whole frames that octets are, where the last of them ends, and how the octets end behind it, are
/// one.
pub fn one_sequence()
    ensures { (bytes : List ℕ) (limit place other : ℕ) (frames others : List Frame) (ending another : SequenceEnd)
        → IsSequence bytes limit frames place ending → IsSequence bytes limit others other another
        → (frames ≡ others) × (place ≡ other) × (ending ≡ another) }
{}
