//! What is said of a client that was served: how that ended, and which frame it might not say.

use amqp_check::{Broken, Verdict, check, first_illegal};
use amqp_double::DoubleFault;
use amqp_double_socket::Ended;
use amqp_types::NoMemory;
use std::alloc::Global;

// How it ended, in words.
fn ending_name(ended: Ended) -> &'static str {
    match ended {
        Ended::Closed => "closed",
        Ended::Left => "left",
        Ended::Refused(_) => "was refused",
        Ended::Failed => "was lost",
        Ended::NoMemory => "was let go, as memory was refused,",
    }
}

/// The line of a client: its number, how its service ended, and behind how many frames.
pub fn line_of(
    alloc: Global,
    number: u64,
    ended: Ended,
    client: &[u8],
) -> Result<String, NoMemory> {
    let name = ending_name(ended);
    Ok(match check(alloc, client, &[])? {
        Verdict::Legal(frames, _) => {
            format!(in alloc; "client {number} {name} after {frames} frames")?
        }
        Verdict::CutClient(place) => {
            format!(in alloc; "client {number} {name} within the frame at byte {place}")?
        }
        Verdict::Illegal(frame) => format!(in alloc;
            "client {number} {name} at its frame {frame}"
        )?,
        Verdict::BadClient(place) => format!(in alloc; "client {number} {name} at byte {place}")?,
        Verdict::BadServer(_) | Verdict::CutServer(_) => format!(in alloc;
            "client {number} {name}"
        )?,
    })
}

// What stands at a place where no frame does, in three lines.
fn broken_at(alloc: Global, client: &[u8], place: u64) -> Result<String, NoMemory> {
    let rest = match client.get(place as usize..) {
        Some(rest) => rest,
        None => &[],
    };
    let broken = Broken {
        side: "client",
        place,
        rest,
        is_cut: false,
    };
    Ok(format!(in alloc; "{broken}")?)
}

// The first frame that the client may not say, in three lines.
fn unexpected_in(alloc: Global, client: &[u8]) -> Result<String, NoMemory> {
    let Some(finding) = first_illegal(alloc, client)? else {
        return Ok(String::new(alloc));
    };
    let shown = format!(in alloc; "{finding}");
    drop(finding);
    Ok(shown?)
}

/// Why a client was refused, in three lines; nothing where it was not.
pub fn told(alloc: Global, ended: Ended, client: &[u8]) -> Result<String, NoMemory> {
    match ended {
        Ended::Refused(DoubleFault::BadBytes(place)) => broken_at(alloc, client, place),
        Ended::Refused(DoubleFault::Unexpected(_)) => unexpected_in(alloc, client),
        _ => Ok(String::new(alloc)),
    }
}
