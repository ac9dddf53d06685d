//! Frames that came, one after another, with the replies to them.

ghost use Rattle.std.specs.Prelude.{◌≡◌, ◌≤◌, [], length, IfOk, OnOk};
ghost use Rattle.amqp_frame.specs.FrameReading.{Yields};
ghost use Rattle.amqp_frame.specs.Sequences.{front_at};
ghost use Rattle.amqp_double.specs.Doubles.{greatest_limit};
ghost use Rattle.amqp_double.specs.Arrivals.{IsThere, AreArrivals, Adds};

use crate::replies::reply_to;
use amqp_frame::{Frame, Read, read_frame};
use amqp_settings::Configuration;
use amqp_types::NoMemory;
use std::alloc::Global;

/// A frame that came.
#[derive(Drop)]
pub struct Arrival {
    pub frame: Frame,
    /// How many octets it has.
    pub size: usize,
    /// The octets of the reply to it; none where nothing is replied.
    pub reply: Vec<u8>,
}

/// What stands behind the last whole frame.
#[derive(Clone, Copy)]
pub enum Behind {
    /// Nothing, or a frame that is not all there.
    More,
    /// No frame, whatever follows.
    NoFrame,
}

/// All whole frames that came.
#[derive(Drop)]
pub struct Arrivals {
    pub list: Vec<Arrival>,
    /// How long the replies to them are together.
    pub replies: usize,
    pub behind: Behind,
}

// What stands at a place. The size of a frame alone makes it bad only where no limit admits it.
#[tactic(auto, using(crate::proofs::Taking::whole_there))]
fn read_at(alloc: Global, bytes: &[u8], place: usize) -> Read
    requires { place ≤ length bytes.now }
    ensures front { Yields result (front_at bytes.now greatest_limit place) }
    ensures there { IsThere result place (length bytes.now) }
{
    let rest = &bytes[place..];
    read_frame(alloc, &rest, u32::MAX)
}

impl Arrivals {
    // One frame more, of so many octets, with the reply to it.
    fn add(
        &mut self,
        alloc: Global,
        numbers: Configuration,
        frame: Frame,
        size: usize,
    ) -> Result<(), NoMemory>
        ensures { OnOk result (Adds numbers frame size self.old self.new) }
    {
        let made = reply_to(alloc, numbers, &frame);
        let Ok(reply) = made else {
            drop(frame);
            return Err(NoMemory);
        };
        let Some(replies) = self.replies.checked_add(reply.len()) else {
            drop(frame);
            return Err(NoMemory);
        };
        self.list.push(Arrival { frame, size, reply })?;
        self.replies = replies;
        Ok(())
    }

    // Reads all frames that are whole from a place on.
    #[tactic(auto, using(crate::proofs::Taking::none_read, crate::proofs::Taking::all_read))]
    fn read(
        &mut self,
        alloc: Global,
        numbers: Configuration,
        bytes: &[u8],
        start: usize,
    ) -> Result<(), NoMemory>
        requires within { start ≤ length bytes.now }
        requires none { (self.old.list.items ≡ []) × (self.old.replies ≡ 0) }
        ensures { OnOk result (AreArrivals bytes.now numbers start self.new) }
    {
        let mut place = start;
        'arrivals: loop {
            match read_at(alloc, bytes, place) {
                Read::Whole(frame, size) => {
                    self.add(alloc, numbers, frame, size)?;
                    place += size;
                }
                Read::More => {
                    self.behind = Behind::More;
                    return Ok(());
                }
                Read::TooLarge(_) | Read::BadHeartbeat(_) | Read::Bad => {
                    self.behind = Behind::NoFrame;
                    return Ok(());
                }
                Read::NoMemory => return Err(NoMemory),
            }
        }
    }
}

/// Reads all frames that are whole from a place on.
pub fn read_arrivals(
    alloc: Global,
    numbers: Configuration,
    bytes: &[u8],
    start: usize,
) -> Result<Arrivals, NoMemory>
    requires { start ≤ length bytes.now }
    ensures { IfOk result (λ arrivals. AreArrivals bytes.now numbers start arrivals) }
{
    let mut arrivals = Arrivals {
        list: Vec::new(alloc),
        replies: 0,
        behind: Behind::More,
    };
    match arrivals.read(alloc, numbers, bytes, start) {
        Ok(()) => Ok(arrivals),
        Err(NoMemory) => {
            drop(arrivals);
            Err(NoMemory)
        }
    }
}
