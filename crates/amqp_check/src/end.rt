//! How what was captured of one side ends.

/// How the octets of one side of a link end.
#[derive(Clone, Copy)]
pub enum End {
    /// With a whole frame, or there is none.
    Whole,
    /// At this place no frame stands, whatever follows.
    Bad(u64),
    /// At this place a frame begins that is not all there.
    Cut(u64),
}
