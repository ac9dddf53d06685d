//! What goes with a channel.

/// What of a channel is dropped.
#[derive(Clone, Copy, Debug, PartialEq, Eq)]
pub enum Scope {
    /// The groups that have not begun.
    Unbegun,
    /// The frames of the control lane, but channel.open and channel.close.
    Control,
    /// Both, and the awaited replies.
    All,
}
