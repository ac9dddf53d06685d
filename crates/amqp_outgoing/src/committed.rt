//! The committed frames that are not wholly sent.

ghost use Rattle.std.specs.Prelude.{◌≡◌, ◌+◌, ◌<◌, ◌≤◌, ◌^◌, ◌++◌, ◌∷◌, [], length, OnOk, IfOk, IfSome, IfNone};
ghost use Rattle.amqp_outbox.specs.Items.{size_of};
ghost use Rattle.amqp_outgoing.specs.Marks.{left_in, is_close_ok, answers, then_of, mark_of, first_among, after_first};

use amqp_frame::{Frame, Method};
use amqp_maps::{Copied, queue};
use amqp_outbox::Item;
use amqp_types::{ChannelId, NoMemory};
use std::alloc::Global;
use std::collections::VecDeque;

/// What follows once a frame was sent whole.
#[derive(Clone, Copy)]
pub enum Then {
    /// Nothing follows.
    Nothing,
    /// This promise is answered.
    Answer(u64),
    /// This channel owes no close-ok any more.
    Pays(ChannelId),
    /// The session finishes, as the server closed it.
    Finish,
}

/// A committed frame.
#[derive(Clone, Copy)]
pub struct Mark {
    /// How many of its bytes are unsent.
    pub left: u64,
    /// What follows once all of them were taken.
    pub then: Then,
}

impl Mark {
    // The mark of a frame once it is committed, where it is at most so many bytes long.
    pub(crate) fn of_item(item: &Item, space: u64) -> Option<Mark>
        requires { space < 2 ^ 63 }
        ensures mark { IfSome result (λ m. m ≡ mark_of item.now) }
        ensures fits { IfSome result (λ m. size_of item.now ≤ space) }
        ensures long { IfNone result (space < size_of item.now) }
    {
        let left = item.encoded_len();
        if left > space {
            return None;
        }
        let then = then_of(item);
        Some(Mark { left, then })
    }
}

impl Copied for Mark {
    fn copied(&self, _alloc: Global) -> Result<Mark, NoMemory> {
        Ok(*self)
    }
}

// What follows once a frame was sent whole.
fn then_of(item: &Item) -> Then
    ensures { result ≡ then_of item.now }
{
    if is_close_ok(item.frame()) {
        return Then::Finish;
    }
    match item.frame() {
        Frame::Method(id, Method::ChannelCloseOk) => Then::Pays(*id),
        _ => answers(item.promise()),
    }
}

// What follows by the promise that a frame answers.
fn answers(promise: Option<u64>) -> Then
    ensures { result ≡ answers promise }
{
    match promise {
        Some(number) => Then::Answer(number),
        None => Then::Nothing,
    }
}

// Whether a frame is our answer to the server's close.
fn is_close_ok(frame: &Frame) -> bool
    ensures { result ≡ is_close_ok frame.now }
{
    matches!(frame, Frame::Method(0, Method::CloseOk))
}

/// The committed frames, in order, and how many of their bytes are unsent.
#[derive(Drop)]
pub struct Committed {
    marks: VecDeque<Mark>,
    unsent: u64,
    ghost counted: { unsent ≡ left_in marks.items },
}

impl Committed {
    ghost use Rattle.amqp_outgoing.specs.Places.{marks_in, places_in};

    /// No frame is committed.
    pub fn new(alloc: Global) -> Committed
        ensures { marks_in result ≡ [] }
    {
        Committed {
            marks: VecDeque::new(alloc),
            unsent: 0,
        }
    }

    /// The same frames, with places for so many more.
    pub fn try_clone(&self, alloc: Global, frames: usize) -> Result<Committed, NoMemory>
        ensures marks { IfOk result (λ c. marks_in c ≡ marks_in self.now) }
        ensures places { IfOk result (λ c. length (marks_in c) + frames ≤ places_in c) }
    {
        let mut marks = queue(alloc, &self.marks)?;
        marks.reserve(frames)?;
        Ok(Committed {
            marks,
            unsent: self.unsent,
        })
    }

    /// Makes places for so many frames more.
    pub fn reserve(&mut self, frames: usize) -> Result<(), NoMemory>
        ensures marks { marks_in self.new ≡ marks_in self.old }
        ensures kept { places_in self.old ≤ places_in self.new }
        ensures ok { OnOk result (length (marks_in self.old) + frames ≤ places_in self.new) }
    {
        self.marks.reserve(frames)?;
        Ok(())
    }

    /// A frame goes last.
    pub fn push(&mut self, mark: Mark)
        requires place { length (marks_in self.old) < places_in self.old }
        requires small { left_in (marks_in self.old) + mark.left < 2 ^ 64 }
        ensures marks { marks_in self.new ≡ marks_in self.old ++ mark ∷ [] }
        ensures kept { places_in self.new ≡ places_in self.old }
    {
        self.unsent += mark.left;
        self.marks.push_back_reserved(mark);
    }

    /// Takes out the first frame, where its last byte is among the next n. Else these n are taken
    /// from it.
    pub fn take_first(&mut self, n: u64) -> Option<Mark>
        ensures first { result ≡ first_among n (marks_in self.old) }
        ensures rest { marks_in self.new ≡ after_first n (marks_in self.old) }
        ensures kept { places_in self.new ≡ places_in self.old }
    {
        let mark = *self.marks.front()?;
        if mark.left <= n {
            self.unsent -= mark.left;
            return self.marks.pop_front();
        }
        if let Some(first) = self.marks.front_mut() {
            first.left -= n;
            self.unsent -= n;
        }
        None
    }

    /// Forgets all frames.
    pub fn clear(&mut self)
        ensures marks { marks_in self.new ≡ [] }
        ensures kept { places_in self.new ≡ places_in self.old }
    {
        self.marks.clear();
        self.unsent = 0;
    }

    /// How many bytes are unsent.
    pub fn unsent(&self) -> u64
        ensures { result ≡ left_in (marks_in self.now) }
    {
        self.unsent
    }
}
