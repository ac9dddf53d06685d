//! The verdict on a captured link that begins at a border of frames.

ghost use Rattle.std.specs.Prelude.{◌≡◌, ℕ, List, IfOk, length};
ghost use Rattle.amqp_frame.specs.declared.frame.Frame.{Frame};
ghost use Rattle.amqp_check.specs.Hearing.{IsSide};
ghost use Rattle.amqp_check.specs.Verdicts.{OnlyFrames};
ghost use Rattle.amqp_resumed.specs.HeardRests.{HasHeardRest};
ghost use Rattle.amqp_resumed.specs.Rests.{IsLateVerdict};

use crate::hearing::{Hearing, count_all, hear_all};
use amqp_check::{End, Verdict};
use amqp_types::NoMemory;
use std::alloc::Global;

// The verdict where the client's side is frames and nothing else.
fn on_server(hearing: &Hearing, count: u64, end: End) -> Verdict
    ensures { (client server : List ℕ) (said answered : List Frame) → OnlyFrames client said
        → HasHeardRest said hearing.now → IsSide server answered end → count ≡ length answered
        → IsLateVerdict client server result }
{
    match (end, hearing.wrong) {
        (End::Bad(place), _) => Verdict::BadServer(place),
        (End::Cut(place), _) => Verdict::CutServer(place),
        (End::Whole, Some(frame)) => Verdict::Illegal(frame),
        (End::Whole, None) => Verdict::Legal(hearing.frames, count),
    }
}

/// Reads both sides of a captured link that begins late, each at a border of frames, and says whether
/// they are frames and nothing else, and whether what the client said is the rest of a legal conversation.
pub fn check_from(alloc: Global, client: &[u8], server: &[u8]) -> Result<Verdict, NoMemory>
    ensures { IfOk result (λ verdict. IsLateVerdict client.now server.now verdict) }
{
    let mut hearing = Hearing::new(alloc)?;
    match hear_all(alloc, client, &mut hearing)? {
        End::Bad(place) => Ok(Verdict::BadClient(place)),
        End::Cut(place) => Ok(Verdict::CutClient(place)),
        End::Whole => {
            let (count, end) = count_all(alloc, server)?;
            Ok(on_server(&hearing, count, end))
        }
    }
}
