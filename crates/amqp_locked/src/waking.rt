//! For whom there is something after a turn: by counts before and after it.

ghost use Rattle.std.specs.Prelude.{◌≡◌};
ghost use Rattle.amqp_rules.specs.Ticks.{is_connected};
ghost use Rattle.amqp_locked.specs.Waking.{moved, news_after, news_for_all};

use crate::reading::Reading;
use amqp_engine::Step;
use amqp_hub::{Entry, Turn};
use amqp_session::ConnectionState;

/// What is counted under the lock, to be compared with what it was before a turn.
#[derive(Clone, Copy, Debug)]
pub struct Counts {
    pub(crate) state: ConnectionState,
    // how many channels are listed, how many frames wait to be committed, and how many promises had been made when
    // nothing waited to go out for the last time
    pub(crate) listed: u64,
    pub(crate) waiting: u64,
    pub(crate) cleared: u64,
    pub(crate) entries: usize,
    pub(crate) seen: Seen,
}

/// What was seen of the turns so far. Each count goes on at 0 after the greatest number of 64 bits.
#[derive(Clone, Copy, Debug)]
pub(crate) struct Seen {
    // steps that may change anything, and what was entered about marks
    pub(crate) others: u64,
    // frames that came whole, but for heartbeats; those of them that came on channels
    pub(crate) frames: u64,
    pub(crate) handed: u64,
    // octets that the port took
    pub(crate) taken: u64,
    // how many came on channels when nothing waited to go out for the last time
    pub(crate) replied: u64,
}

/// For whom there is something: those who wait for answers, for frames, for events, for the state of a channel, for
/// what goes out, and for the end. Whoever waits for the hub as a whole waits for any of these.
#[derive(Clone, Copy, Debug, PartialEq, Eq)]
pub struct News {
    /// Answers may be there that were not.
    pub answers: bool,
    /// Frames may have been handed out, or their channel is gone.
    pub frames: bool,
    /// Events may be there that were not.
    pub events: bool,
    /// The state of a channel may be another one.
    pub states: bool,
    /// Less may wait to go out.
    pub room: bool,
    /// The connection may have ended.
    pub end: bool,
}

impl News {
    /// Something for all who wait.
    pub fn for_all() -> News
        ensures { result ≡ news_for_all }
    {
        News {
            answers: true,
            frames: true,
            events: true,
            states: true,
            room: true,
            end: true,
        }
    }

    /// Whether there is something for anybody.
    pub fn is_any(self) -> bool {
        self.answers || self.frames || self.events || self.states || self.room || self.end
    }
}

/// For whom there is something where these were the counts before a turn, and these are those after it.
pub(crate) fn news_after(before: Counts, after: Counts) -> News
    ensures { result ≡ news_after before after }
{
    let moved = moved(before, after);
    let came = after.seen.frames != before.seen.frames;
    let handed = after.seen.handed != before.seen.handed;
    let took = after.seen.taken != before.seen.taken;
    let replies = took && before.seen.handed != before.seen.replied;
    let eased = after.waiting < before.waiting || after.cleared != before.cleared;
    News {
        answers: moved || came || took,
        frames: moved || handed,
        events: moved || came || replies,
        states: moved || came,
        room: moved || eased || took,
        end: moved,
    }
}

// Whether anything may be another than before: the connection is not open or was not, the number of its channels is
// another one, or a step came that may change anything.
fn moved(before: Counts, after: Counts) -> bool
    ensures { result ≡ moved before after }
{
    !is_connected(before.state)
        || !is_connected(after.state)
        || after.listed != before.listed
        || after.seen.others != before.seen.others
}

// Whether a connection in this state is open.
fn is_connected(state: ConnectionState) -> bool
    ensures { result ≡ is_connected state }
{
    matches!(state, ConnectionState::Connected)
}

impl Seen {
    /// No turn was seen.
    pub(crate) fn nothing() -> Seen {
        Seen {
            others: 0,
            frames: 0,
            handed: 0,
            taken: 0,
            replied: 0,
        }
    }

    /// The same with these entries more, which frames were read by.
    pub(crate) fn with_all(self, reading: &mut Reading, entries: &[Entry]) -> Seen {
        let mut seen = self;
        'entries: for entry in entries {
            seen = seen.with(reading, entry);
        }
        seen
    }

    // The same with one entry more.
    fn with(self, reading: &mut Reading, entry: &Entry) -> Seen {
        match entry {
            Entry::Turn(turn) => self.with_turn(reading, turn),
            Entry::Own(_) => self.with_other(),
            Entry::Called(..) => self,
        }
    }

    // The same with a turn more.
    fn with_turn(self, reading: &mut Reading, turn: &Turn) -> Seen {
        let seen = self.with_taken(turn.notes.tooks());
        match &turn.step {
            Step::Piece(_) => {
                let (frames, handed) = reading.read(turn.bytes.as_bytes());
                Seen {
                    frames: seen.frames.wrapping_add(frames),
                    handed: seen.handed.wrapping_add(handed),
                    ..seen
                }
            }
            Step::Room | Step::Tick => seen,
            Step::Linked => {
                reading.begin();
                seen.with_other()
            }
            _ => seen.with_other(),
        }
    }

    // The same with so many octets more that the port took at each of its writes.
    fn with_taken(self, tooks: &[u64]) -> Seen {
        let mut taken = self.taken;
        'tooks: for took in tooks {
            taken = taken.wrapping_add(*took);
        }
        Seen { taken, ..self }
    }

    // The same with something more that may change anything.
    fn with_other(self) -> Seen {
        Seen {
            others: self.others.wrapping_add(1),
            ..self
        }
    }

    /// The same once nothing waits to go out.
    pub(crate) fn replied(self) -> Seen {
        Seen {
            replied: self.handed,
            ..self
        }
    }
}
