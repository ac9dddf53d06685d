//! What was told, in one place each.

/// What a step was that was told.
#[derive(Clone, Copy, Debug, PartialEq, Eq)]
pub enum Marked {
    /// The link.
    Linked,
    /// More room.
    Room,
    /// A piece of the double's octets: where it begins in them, and how long it is.
    Piece(usize, usize),
    /// The command of this number, counted from 0.
    Command(usize),
}

/// A step that was told, and how many were told before it.
#[derive(Clone, Copy, Debug, PartialEq, Eq)]
pub struct Mark {
    pub before: u64,
    pub what: Marked,
}
