//! What waits to be taken beside the session, where only so much may wait.

ghost use Rattle.std.specs.Prelude.{◌≡◌, ◌<◌, ◌-◌, ◌∷◌, [], Some, None, IfSome, IfNone, length, drop, slice_get, vec_len};
ghost use Rattle.amqp_locked.specs.Backlog.{frames_kept, frames_at, AreAll};

use amqp_session::{Event, Handed};
use amqp_types::NoMemory;
use std::alloc::Global;
use std::collections::VecDeque;
use std::mem;

/// The frames of one opening that wait to be taken, and how many went that nobody took.
#[derive(Drop)]
pub(crate) struct Lane {
    pub(crate) opened: u64,
    frames: Vec<Handed>,
    gone: u64,
}

/// The events, and the frames of each channel, that wait to be taken, where only so many may; and how many events went
/// that nobody took. Without a limit nothing is kept here, but by the session.
#[derive(Drop)]
pub(crate) struct Backlog {
    alloc: Global,
    limit: Option<usize>,
    events: VecDeque<Event>,
    gone: u64,
    lanes: Vec<Lane>,
}

// Lets the oldest go of more than so many, and tells how many these are.
fn cut(frames: &mut Vec<Handed>, limit: usize) -> u64
    ensures rest { frames.new.items ≡ drop (length frames.old.items - limit) frames.old.items }
    ensures gone { result ≡ length frames.old.items - limit }
{
    let over = frames.len().saturating_sub(limit);
    if over > 0 {
        frames.rotate_left(over);
        frames.truncate(limit);
    }
    over as u64
}

impl Lane {
    // These frames wait too; of more than so many the oldest go. Where memory is refused, those that waited go.
    fn keep(&mut self, came: Vec<Handed>, limit: usize) {
        if self.frames.reserve(came.len()).is_err() {
            self.gone = self.gone.saturating_add(self.frames.len() as u64);
            self.frames = came;
        } else {
            self.append(came);
        }
        self.gone = self.gone.saturating_add(cut(&mut self.frames, limit));
    }

    // These frames go last. Places for them were made.
    fn append(&mut self, came: Vec<Handed>) {
        for frame in came {
            drop(self.frames.push(frame));
        }
    }
}

impl Backlog {
    /// Nothing waits here.
    pub(crate) fn new(alloc: Global) -> Backlog
        ensures events { result.events.items ≡ [] }
        ensures lanes { result.lanes.items ≡ [] }
        ensures limit { result.limit ≡ None }
    {
        Backlog {
            alloc,
            limit: None,
            events: VecDeque::new(alloc),
            gone: 0,
            lanes: Vec::new(alloc),
        }
    }

    /// The same, where at most so many events wait, and so many frames of each channel.
    pub(crate) fn with_limit(self, limit: usize) -> Backlog
        ensures { result ≡ record self { limit = Some limit } }
    {
        Backlog {
            limit: Some(limit),
            ..self
        }
    }

    /// Whether only so much may wait.
    pub(crate) fn is_bounded(&self) -> bool {
        self.limit.is_some()
    }

    /// Makes a place for the frames of one channel more.
    pub(crate) fn reserve(&mut self) -> Result<(), NoMemory>
        ensures events { self.new.events ≡ self.old.events }
        ensures lanes { self.new.lanes.items ≡ self.old.lanes.items }
    {
        Ok(self.lanes.reserve(1)?)
    }

    /// A channel is opened by this promise. A place for its frames was made.
    pub(crate) fn open(&mut self, opened: u64)
        ensures events { self.new.events ≡ self.old.events }
    {
        if self.is_bounded() {
            let lane = Lane {
                opened,
                frames: Vec::new(self.alloc),
                gone: 0,
            };
            drop(self.lanes.push(lane));
        }
    }

    // Where the frames stand of the channel that this promise opened, if they do.
    fn place(&self, opened: u64) -> Option<usize>
        ensures within { IfSome result (λ at. at < vec_len self.now.lanes) }
        ensures there { IfSome result (λ at. frames_kept opened self.now.lanes.items
            ≡ frames_at (slice_get self.now.lanes.items at)) }
        ensures none { IfNone result (frames_kept opened self.now.lanes.items ≡ []) }
    {
        'lanes: for at in 0..self.lanes.len() {
            if self.lanes[at].opened == opened {
                return Some(at);
            }
        }
        None
    }

    /// The channel that this promise opened was dropped: its frames go.
    pub(crate) fn forget(&mut self, opened: u64)
        ensures events { self.new.events ≡ self.old.events }
    {
        if let Some(at) = self.place(opened) {
            drop(self.lanes.remove(at));
        }
    }

    /// Takes the frames of this opening that wait here, where there are some.
    pub(crate) fn take(&mut self, opened: u64) -> Option<Vec<Handed>>
        ensures events { self.new.events ≡ self.old.events }
        ensures some { IfSome result (λ frames. AreAll (frames_kept opened self.old.lanes.items) frames.items) }
        ensures none { IfNone result (frames_kept opened self.old.lanes.items ≡ []) }
    {
        let at = self.place(opened)?;
        let lane = &mut self.lanes[at];
        if lane.frames.is_empty() {
            return None;
        }
        Some(mem::replace(&mut lane.frames, Vec::new(self.alloc)))
    }

    /// How many frames of this opening went that nobody took.
    pub(crate) fn frames_gone(&self, opened: u64) -> u64 {
        match self.place(opened) {
            Some(at) => self.lanes[at].gone,
            None => 0,
        }
    }

    /// How many events went that nobody took.
    pub(crate) fn events_gone(&self) -> u64
        ensures { result ≡ self.now.gone }
    {
        self.gone
    }

    /// Takes the first of the events that wait here, where there is one.
    pub(crate) fn event(&mut self) -> Option<Event>
        ensures some { IfSome result (λ event. self.old.events.items ≡ event ∷ self.new.events.items) }
        ensures none { IfNone result ((self.old.events.items ≡ []) × (self.new.events.items ≡ [])) }
        ensures lanes { self.new.lanes ≡ self.old.lanes }
    {
        self.events.pop_front()
    }

    /// Makes a place for one event more.
    pub(crate) fn reserve_event(&mut self) -> Result<(), NoMemory>
        ensures same { self.new.events.items ≡ self.old.events.items }
        ensures lanes { self.new.lanes ≡ self.old.lanes }
    {
        Ok(self.events.reserve(1)?)
    }

    /// This event waits too; of more than may wait the oldest goes. A place for it was made.
    pub(crate) fn keep_event(&mut self, event: Event)
        ensures lanes { self.new.lanes ≡ self.old.lanes }
    {
        drop(self.events.push_back(event));
        let limit = self.limit.unwrap_or(usize::MAX);
        if self.events.len() > limit {
            drop(self.events.pop_front());
            self.gone = self.gone.saturating_add(1);
        }
    }

    /// How many channels have a place for their frames.
    pub(crate) fn count(&self) -> usize
        ensures { result ≡ length self.now.lanes.items }
    {
        self.lanes.len()
    }

    /// The promise that opened the channel at this place, where there is one.
    pub(crate) fn opened(&self, at: usize) -> Option<u64> {
        match self.lanes.get(at) {
            Some(lane) => Some(lane.opened),
            None => None,
        }
    }

    /// These frames of the channel at this place wait too; of more than may wait the oldest go.
    pub(crate) fn keep_frames(&mut self, at: usize, frames: Vec<Handed>)
        ensures events { self.new.events ≡ self.old.events }
    {
        let limit = self.limit.unwrap_or(usize::MAX);
        match self.lanes.get_mut(at) {
            Some(lane) => lane.keep(frames, limit),
            None => drop(frames),
        }
    }
}
