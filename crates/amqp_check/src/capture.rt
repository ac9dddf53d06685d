//! The verdict on a captured link.

ghost use Rattle.std.specs.Prelude.{◌≡◌, ℕ, List, [], IfOk, length};
ghost use Rattle.amqp_frame.specs.declared.frame.Frame.{Frame};
ghost use Rattle.amqp_check.specs.Hearing.{IsSide, HasHeard};
ghost use Rattle.amqp_check.specs.Verdicts.{OnlyFrames, IsVerdict};

use crate::end::End;
use crate::frames::{Next, read_next};
use crate::judge::Judge;
use amqp_types::NoMemory;
use std::alloc::Global;

/// What is said of a captured link.
#[derive(Clone, Copy, Debug, PartialEq, Eq)]
pub enum Verdict {
    /// Both sides are frames and nothing else, so many of the client and so many of the server, and
    /// the client's are a legal conversation.
    Legal(u64, u64),
    /// At this place of the client's octets no frame stands.
    BadClient(u64),
    /// At this place of the client's octets a frame begins that is not all there.
    CutClient(u64),
    /// At this place of the server's octets no frame stands.
    BadServer(u64),
    /// At this place of the server's octets a frame begins that is not all there.
    CutServer(u64),
    /// Both sides are frames and nothing else, and this frame of the client, counted from 0, is the
    /// first by which the conversation is not legal.
    Illegal(u64),
}

// Hears the frames of one side, up to its end.
fn hear_all(alloc: Global, bytes: &[u8], judge: &mut Judge) -> Result<End, NoMemory>
    requires nothing { HasHeard [] judge.old }
    requires count { judge.old.frames ≡ 0 }
    ensures { IfOk result (λ end. (frames : List Frame) × IsSide bytes.now frames end × HasHeard frames judge.new) }
{
    let mut place = 0;
    'frames: loop {
        match read_next(alloc, bytes, place)? {
            Next::Frame(frame, used) => {
                judge.hear(&frame);
                drop(frame);
                place += used;
            }
            Next::End(end) => return Ok(end),
        }
    }
}

// How many frames one side has, and how it ends.
fn count_all(alloc: Global, bytes: &[u8]) -> Result<(u64, End), NoMemory>
    ensures { IfOk result (λ counted. (frames : List Frame) × IsSide bytes.now frames counted.1
        × (counted.0 ≡ length frames)) }
{
    let mut place = 0;
    let mut count = 0;
    'counted: loop {
        match read_next(alloc, bytes, place)? {
            Next::Frame(frame, used) => {
                drop(frame);
                place += used;
                count += 1;
            }
            Next::End(end) => return Ok((count, end)),
        }
    }
}

// The verdict where the client's side is frames and nothing else.
fn on_server(judge: &Judge, count: u64, end: End) -> Verdict
    ensures { (client server : List ℕ) (said answered : List Frame) → OnlyFrames client said → HasHeard said judge.now
        → IsSide server answered end → count ≡ length answered → IsVerdict client server result }
{
    match (end, judge.illegal) {
        (End::Bad(place), _) => Verdict::BadServer(place),
        (End::Cut(place), _) => Verdict::CutServer(place),
        (End::Whole, Some(frame)) => Verdict::Illegal(frame),
        (End::Whole, None) => Verdict::Legal(judge.frames, count),
    }
}

/// Reads both sides of a captured link, and says whether they are frames and nothing else, and
/// whether what the client said is legal: the client's octets are looked at first, then the
/// server's, then the conversation. Each frame is read once, and let go before the next.
pub fn check(alloc: Global, client: &[u8], server: &[u8]) -> Result<Verdict, NoMemory>
    ensures { IfOk result (λ verdict. IsVerdict client.now server.now verdict) }
{
    let mut judge = Judge::new(alloc)?;
    match hear_all(alloc, client, &mut judge)? {
        End::Bad(place) => Ok(Verdict::BadClient(place)),
        End::Cut(place) => Ok(Verdict::CutClient(place)),
        End::Whole => {
            let (count, end) = count_all(alloc, server)?;
            Ok(on_server(&judge, count, end))
        }
    }
}
