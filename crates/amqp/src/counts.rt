//! How far who publishes is.

use std::io::Eprint;

/// How many messages were published, and what the broker said of them.
#[derive(Clone, Copy, PartialEq, Eq)]
pub struct Counts {
    pub published: u64,
    pub confirmed: u64,
    pub refused: u64,
    /// How many it gave back, since no queue takes them. It confirms these too.
    pub returned: u64,
}

/// Says counts on standard error, under no name: they are all that the line has.
pub fn tell<R: Eprint>(rt: &R, counts: Counts) {
    let Counts {
        published,
        confirmed,
        refused,
        returned,
    } = counts;
    // The status tells it where standard error does not take it.
    let _said = if refused == 0 && returned == 0 {
        eprintln!(rt; "{published} published, {confirmed} confirmed")
    } else {
        eprintln!(rt;
            "{published} published, {confirmed} confirmed, {refused} refused, {returned} without a queue"
        )
    };
}
