//! Frames, one after another.

ghost use Rattle.std.specs.Prelude.{◌≤◌, length, IfOk};
ghost use Rattle.amqp_check.specs.Hearing.{IsNext};

use crate::end::End;
use amqp_frame::{Frame, Read, read_frame};
use amqp_types::NoMemory;
use std::alloc::Global;

/// What stands at a place.
#[derive(Drop)]
pub enum Next {
    /// A frame, and how many octets it has.
    Frame(Frame, usize),
    /// No whole frame.
    End(End),
}

/// What stands at a place. Its size alone makes a frame bad only where no limit admits it.
#[tactic(auto, using(crate::proofs::Reading::whole_next))]
pub fn read_next(alloc: Global, bytes: &[u8], place: usize) -> Result<Next, NoMemory>
    requires { place ≤ length bytes.now }
    ensures { IfOk result (λ next. IsNext bytes.now place next) }
{
    let rest = &bytes[place..];
    match read_frame(alloc, &rest, u32::MAX) {
        Read::Whole(frame, used) => Ok(Next::Frame(frame, used)),
        Read::More => Ok(Next::End(if rest.is_empty() {
            End::Whole
        } else {
            End::Cut(place as u64)
        })),
        Read::TooLarge(_) | Read::BadHeartbeat(_) | Read::Bad => {
            Ok(Next::End(End::Bad(place as u64)))
        }
        Read::NoMemory => Err(NoMemory),
    }
}
