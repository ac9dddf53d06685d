//! What is said of a link that was judged: the line of the verdict, and what is wrong with it.

ghost use Rattle.std.specs.Prelude.{◌≡◌, IfOk};
ghost use Rattle.std.specs.String.{string_bytes};
ghost use Rattle.amqp_judge.specs.Lines.{verdict_text};

use crate::judging::Judging;
use crate::side::Side;
use amqp_check::{Broken, Finding, Verdict};
use amqp_types::NoMemory;
use std::alloc::Global;

/// A side of a link.
#[derive(Clone, Copy, Debug, PartialEq, Eq)]
pub enum Whose {
    Client,
    Server,
}

/// The line of a verdict.
pub fn verdict_line(alloc: Global, verdict: Verdict) -> Result<String, NoMemory>
    ensures { IfOk result (λ line. string_bytes line ≡ verdict_text verdict) }
{
    Ok(match verdict {
        Verdict::Legal(client, server) => format!(in alloc; "legal {client} {server}")?,
        Verdict::BadClient(place) => format!(in alloc; "bad client {place}")?,
        Verdict::CutClient(place) => format!(in alloc; "cut client {place}")?,
        Verdict::BadServer(place) => format!(in alloc; "bad server {place}")?,
        Verdict::CutServer(place) => format!(in alloc; "cut server {place}")?,
        Verdict::Illegal(frame) => format!(in alloc; "illegal frame {frame}")?,
    })
}

// Writes a line break, where something stands before.
fn begin_line(out: &mut String) -> Result<(), NoMemory> {
    if out.is_empty() {
        return Ok(());
    }
    Ok(out.push_str("\n")?)
}

// Writes what stands at the place of a side where no whole frame does.
fn put_broken(
    out: &mut String,
    name: &'static str,
    side: &Side,
    is_cut: bool,
) -> Result<(), NoMemory> {
    let broken = Broken {
        side: name,
        place: side.place(),
        rest: side.rest(),
        is_cut,
    };
    write!(out, "{broken}")?;
    Ok(())
}

// Writes what is wrong with how the octets of a side end.
fn put_end(out: &mut String, judging: &Judging, verdict: Verdict) -> Result<(), NoMemory> {
    let (client, server) = (judging.client_side().side(), judging.server_side().side());
    match verdict {
        Verdict::BadClient(_) => put_broken(out, "client", client, false),
        Verdict::CutClient(_) => put_broken(out, "client", client, true),
        Verdict::BadServer(_) => put_broken(out, "server", server, false),
        Verdict::CutServer(_) => put_broken(out, "server", server, true),
        Verdict::Illegal(_) | Verdict::Legal(..) => Ok(()),
    }
}

// Writes how the server closed last, where it did so with an error.
fn put_close(out: &mut String, judging: &Judging) -> Result<(), NoMemory> {
    match judging.server_side().closed() {
        Some(closing) if closing.is_error() => {
            begin_line(out)?;
            write!(out, "{closing}")?;
            Ok(())
        }
        _ => Ok(()),
    }
}

// A finding in its three lines.
fn shown(alloc: Global, finding: &Finding) -> Result<String, NoMemory> {
    Ok(format!(in alloc; "{finding}")?)
}

// The first frame that the client may not say, in three lines. It takes the finding.
fn finding_shown(alloc: Global, finding: Option<Finding>) -> Result<Option<String>, NoMemory> {
    let Some(finding) = finding else {
        return Ok(None);
    };
    let text = shown(alloc, &finding);
    drop(finding);
    Ok(Some(text?))
}

// Writes the first frame that the client may not say; or that there is none, where a side ends in what
// is none and the client's has frames.
fn put_finding(
    out: &mut String,
    alloc: Global,
    finding: Option<Finding>,
    has_frames: bool,
) -> Result<(), NoMemory> {
    match finding_shown(alloc, finding)? {
        Some(text) => {
            begin_line(out)?;
            out.push_str(&text)?;
        }
        None if has_frames && !out.is_empty() => {
            out.push_str("\nthe client's whole frames are a legal conversation")?;
        }
        None => {}
    }
    Ok(())
}

/// What is to be said of a link: how a side ends, the first frame that the client may not say, and how the server
/// closed last, where that was with an error. Nothing, where nothing is wrong.
pub fn told(alloc: Global, judging: Judging) -> Result<String, NoMemory> {
    let verdict = judging.verdict();
    let mut out = String::new(alloc);
    let mut closed = String::new(alloc);
    let put = match put_end(&mut out, &judging, verdict) {
        Ok(()) => put_close(&mut closed, &judging),
        Err(refused) => Err(refused),
    };
    let has_frames = judging.client_side().frames() > 0;
    let finding = judging.into_finding();
    match put {
        Ok(()) => put_finding(&mut out, alloc, finding, has_frames)?,
        Err(refused) => {
            drop(finding);
            return Err(refused);
        }
    }
    if !closed.is_empty() {
        begin_line(&mut out)?;
        out.push_str(&closed)?;
    }
    Ok(out)
}

/// What is to be said of a link of which one side was refused as too long: where its frame begins that is, which one
/// that is, and then what is to be said of all that was taken before.
pub fn told_too_long(alloc: Global, judging: Judging, whose: Whose) -> Result<String, NoMemory> {
    let (name, place, number) = match whose {
        Whose::Client => {
            let client = judging.client_side();
            ("client", client.side().place(), client.frames())
        }
        Whose::Server => {
            let server = judging.server_side();
            ("server", server.side().place(), server.frames())
        }
    };
    let said = told(alloc, judging)?;
    let mut out = format!(in alloc;
        "{name} byte {place}: frame {number} is too long to be judged"
    )?;
    if !said.is_empty() {
        out.push_str("\n")?;
        out.push_str(&said)?;
    }
    Ok(out)
}
