//! Why a conversation is not legal.

ghost use Rattle.std.specs.Prelude.{IfOk, IfSome, IfNone};
ghost use Rattle.amqp_check.specs.Findings.{IsFinding, IsLegalSide};

use crate::expected::{Expected, behind_header};
use crate::frames::{Next, read_next};
use crate::judge::Judge;
use amqp_frame::Frame;
use amqp_legal::Speech;
use amqp_types::NoMemory;
use std::alloc::Global;

/// The first frame of a client that it may not say.
#[derive(Drop)]
pub struct Finding {
    /// Its number, counted from 0.
    pub number: u64,
    /// The place of its first octet.
    pub place: u64,
    /// What stands there.
    pub frame: Frame,
    /// What was said before it; before the first frame, as if the protocol header alone were said.
    pub said: Speech,
}

impl Finding {
    ghost use Rattle.std.specs.Prelude.{◌≡◌};
    ghost use Rattle.amqp_legal.specs.Speeches.{speech_of};
    ghost use Rattle.amqp_check.specs.Expected.{expected_after};

    /// What the client might have said in its place.
    pub fn expected(&self) -> Expected
        ensures { result ≡ expected_after self.now.number (speech_of self.now.said) }
    {
        if self.number == 0 {
            return Expected::Header;
        }
        behind_header(self.said.stage(), self.said.content())
    }
}

/// The first frame by which what a client said is not legal, with all that decides so; none where its
/// whole frames are a legal conversation.
pub fn first_illegal(alloc: Global, client: &[u8]) -> Result<Option<Finding>, NoMemory>
    ensures found { IfOk result (λ found. IfSome found (IsFinding client.now)) }
    ensures none { IfOk result (λ found. IfNone found (IsLegalSide client.now)) }
{
    let mut judge = Judge::new(alloc)?;
    let mut place = 0;
    'heard: loop {
        match read_next(alloc, client, place)? {
            Next::Frame(frame, used) => {
                judge.hear(&frame);
                if let Some(number) = judge.illegal {
                    return Ok(Some(Finding {
                        number,
                        place: place as u64,
                        frame,
                        said: judge.said,
                    }));
                }
                drop(frame);
                place += used;
            }
            Next::End(_) => return Ok(None),
        }
    }
}
