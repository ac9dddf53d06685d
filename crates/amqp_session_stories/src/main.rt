//! Tells stories of a session and a broker, line by line.
//!
//! A line `== NAME` of standard input begins a story, and `at PLACE` a session that stands there. Each other line
//! is a step: what is told to the session, or what is then seen of it, with what must be seen behind ` = `. Lines
//! that begin with `#` say why, and count for nothing. Of each story that holds, standard output has a line `ok
//! NAME`; of another the first step that does not, and what was seen. A line that is no step is printed, and ends
//! the program with status 1.
//!
//! A frame has the name that it has in `amqp_vectors`, or in `frames`, or is written `octets 01 0000 ..`. `1` is
//! channel 1, and `1:2` channel 1 as promise 2 opened it. `00*131072` is so many octets that are 0, and `max` the
//! greatest number.
//!
//! - Places: `new`, `linked`, `connected`, or `connected TUNE`, `with_channel`, `limited_with_channel OCTETS`,
//!   `recovering`, `recovering_with_channel`, `recovering_by_default`, `patient`, `named`, `half_named`, `noted
//!   OCTETS`, and then `to ADDRESS` where the broker is not that of this machine. Behind ` by ` stands who answers
//!   the server: an address, `tokens MILLISECONDS`, `tokens none`, whose time nobody knows, `one_token` or
//!   `no_token`.
//! - Told: `asked`, `linked`, `link_failed`, or `link_failed AT`, `piece`, `read FRAME`, `misread bad PLACE`, `lost
//!   reset`, `starved AT`, `advance AT`, `tick AT`, `take BYTES`, `send_all`, `copied`, `listen`, `drop_channel 1`,
//!   `drop_connection`.
//! - Commands, of which the promise is seen: `open_channel`, `open_channels COUNT` (the last), `close_channel 1`,
//!   `close`, `update_secret SECRET REASON`, `send 1 ARGUMENTS`, `publish 1 BODY`, `publish_properties 1
//!   PROPERTIES`, `flow 1 on`.
//! - Seen, and then taken: `written`, the next frame; `written_within BYTES`, whether there is one; `answer
//!   PROMISE`; `frames PROMISE`, what was handed out of the channel that it opened; `event`.
//! - Seen: `state`, `link`, `channel 1`, `opened PROMISE`, `agreed`, `capacity_after FRAME`, `said`, which is all
//!   that the provider answered, `end`, `shown`, and the rest by the names that `looks` has.
//! - At `double`, or `double_by_octets`, which is fed octet by octet, a client speaks to a double: `feeds FRAMES`,
//!   and whether they are heard; `says FRAME`, and its answer, which is sent; `output`, `sent BYTES`, `closed`.
#![tactic(auto)]

mod acts;
mod double;
mod frames;
mod looks;
mod properties;
mod providers;
mod seen;
mod sessions;
mod steps;
mod stories;
mod words;

use amqp_types::NoMemory;
use std::io::{self, BufRead, BufReader, BufWriter, ErrorKind, Write};
use std::process::ExitCode;
use stories::Stories;

// What became of a line, unless memory was refused.
fn known(answer: Result<bool, NoMemory>) -> io::Result<bool> {
    match answer {
        Ok(known) => Ok(known),
        Err(NoMemory) => Err(io::Error::from(ErrorKind::OutOfMemory)),
    }
}

// Tells all stories. Whether each line was one of a story.
fn are_told(rt: &HostRuntime) -> io::Result<bool> {
    let alloc = rt.alloc();
    let mut out = BufWriter::new(alloc, io::writer(rt))?;
    let mut stories = Stories::new(alloc);
    for line in BufReader::new(alloc, rt.reader())?.lines(alloc) {
        let goes_on = known(stories.line(line?.as_str()))?;
        out.write_all(stories.printed())?;
        if !goes_on {
            out.flush()?;
            return Ok(false);
        }
    }
    let ended = known(stories.end())?;
    out.write_all(stories.printed())?;
    out.flush()?;
    Ok(ended)
}

fn main(rt: HostRuntime) -> ExitCode {
    match are_told(&rt) {
        Ok(true) => ExitCode::SUCCESS,
        _ => ExitCode::FAILURE,
    }
}
