//! What is wrong with a capture, as an engineer reads it: where, what stands there or was said before it, and what
//! may stand there; and then all else that is known.

use crate::captured::{Capture, Captured, Side, line_of_octet, read_capture};
use crate::refused::why_refused;
use amqp_check::{Broken, Verdict, check, first_illegal, last_close, other_protocol};
use amqp_resumed::first_wrong;
use amqp_types::NoMemory;
use std::alloc::Global;

fn side_name(side: Side) -> &'static str {
    match side {
        Side::Client => "client",
        Side::Server => "server",
    }
}

// Writes the line of a capture that has the octet of a side at a place.
fn put_line(
    out: &mut String,
    alloc: Global,
    side: Side,
    place: u64,
    text: &[u8],
) -> Result<(), NoMemory> {
    if let Some(line) = line_of_octet(alloc, side, place, text)? {
        write!(out, "line {line}, ")?;
    }
    Ok(())
}

// What a capture has at a place of a side where no whole frame stands.
fn explain_broken(
    alloc: Global,
    text: &[u8],
    side: Side,
    octets: &[u8],
    place: u64,
    is_cut: bool,
) -> Result<String, NoMemory> {
    let mut out = String::new(alloc);
    put_line(&mut out, alloc, side, place, text)?;
    let rest = octets.get(place as usize..).unwrap_or(&[]);
    let broken = Broken {
        side: side_name(side),
        place,
        rest,
        is_cut,
    };
    write!(out, "{broken}")?;
    Ok(out)
}

// Writes what a side looks like that begins with these octets, where that is no AMQP 0-9-1.
fn put_protocol(out: &mut String, place: u64, octets: &[u8]) -> Result<(), NoMemory> {
    match other_protocol(octets) {
        Some(looks) if place == 0 => {
            out.push_str("\n")?;
            Ok(out.push_str(looks)?)
        }
        _ => Ok(()),
    }
}

// Writes the first frame of the client that it may not say, and whether there is one.
fn put_illegal(
    out: &mut String,
    alloc: Global,
    text: &[u8],
    client: &[u8],
) -> Result<bool, NoMemory> {
    let Some(finding) = first_illegal(alloc, client)? else {
        return Ok(false);
    };
    let place = finding.place;
    let shown = format!(in alloc; "{finding}");
    drop(finding);
    put_line(out, alloc, Side::Client, place, text)?;
    out.push_str(&shown?)?;
    put_protocol(out, place, client)?;
    if place == 0 {
        put_late(out, alloc, text, client)?;
    }
    Ok(true)
}

// Writes what the client's frames are if a conversation began before them, where no protocol header begins them.
fn put_late(out: &mut String, alloc: Global, text: &[u8], client: &[u8]) -> Result<(), NoMemory> {
    if client.starts_with(b"AMQP") {
        return Ok(());
    }
    let Some(finding) = first_wrong(alloc, client)? else {
        out.push_str(
            "\nif it began before, its whole frames are the rest of a legal conversation",
        )?;
        return Ok(());
    };
    let place = finding.place;
    let shown = format!(in alloc; "{finding}");
    drop(finding);
    out.push_str("\nif it began before:\n")?;
    put_line(out, alloc, Side::Client, place, text)?;
    Ok(out.push_str(&shown?)?)
}

// Whether the client's side has a whole frame, where the verdict is that a side ends in what is none.
fn has_frames(verdict: Verdict, client: &[u8]) -> bool {
    match verdict {
        Verdict::BadClient(place) | Verdict::CutClient(place) => place != 0,
        _ => !client.is_empty(),
    }
}

// Writes what the client's whole frames are, where a side ends in what is none.
fn put_rest(out: &mut String, alloc: Global, text: &[u8], client: &[u8]) -> Result<(), NoMemory> {
    out.push_str("\n")?;
    if !put_illegal(out, alloc, text, client)? {
        out.push_str("the client's whole frames are a legal conversation")?;
    }
    Ok(())
}

// What is wrong with both sides of a link; nothing, where nothing is.
fn explain_verdict(
    alloc: Global,
    text: &[u8],
    sides: &Captured,
    verdict: Verdict,
) -> Result<String, NoMemory> {
    let (client, server) = (&sides.client, &sides.server);
    let mut out = match verdict {
        Verdict::Legal(..) => return Ok(String::new(alloc)),
        Verdict::Illegal(_) => {
            let mut out = String::new(alloc);
            put_illegal(&mut out, alloc, text, client)?;
            return Ok(out);
        }
        Verdict::BadClient(at) => explain_broken(alloc, text, Side::Client, client, at, false)?,
        Verdict::CutClient(at) => explain_broken(alloc, text, Side::Client, client, at, true)?,
        Verdict::BadServer(at) => explain_broken(alloc, text, Side::Server, server, at, false)?,
        Verdict::CutServer(at) => explain_broken(alloc, text, Side::Server, server, at, true)?,
    };
    if has_frames(verdict, client) {
        put_rest(&mut out, alloc, text, client)?;
    }
    Ok(out)
}

// Writes how the server closed last, where it did so with an error.
fn put_close(out: &mut String, alloc: Global, text: &[u8], server: &[u8]) -> Result<(), NoMemory> {
    let Some(closing) = last_close(alloc, server)? else {
        return Ok(());
    };
    let (place, is_error) = (closing.place, closing.is_error());
    let shown = format!(in alloc; "{closing}");
    drop(closing);
    if !is_error {
        return Ok(());
    }
    if !out.is_empty() {
        out.push_str("\n")?;
    }
    put_line(out, alloc, Side::Server, place, text)?;
    out.push_str(&shown?)?;
    Ok(())
}

// What is to be said of both sides of a link.
fn explain_sides(alloc: Global, text: &[u8], sides: &Captured) -> Result<Option<String>, NoMemory> {
    let verdict = check(alloc, &sides.client, &sides.server)?;
    let mut out = explain_verdict(alloc, text, sides, verdict)?;
    put_close(&mut out, alloc, text, &sides.server)?;
    Ok(if out.is_empty() { None } else { Some(out) })
}

/// What is to be said of the capture that a text is. Where the verdict on it is another than that it is legal: in
/// three lines where, what stands there or was said before it, and what may stand there; then what else it looks
/// like, what it is if it began before the capture, whether the client's whole frames are legal, and how the server
/// closed last, where it did so with an error. Where one of its lines is refused: which and why. Else nothing, but
/// for that close.
pub fn explain(alloc: Global, text: &[u8]) -> Result<Option<String>, NoMemory> {
    match read_capture(alloc, text)? {
        Capture::Refused(number) => why_refused(alloc, text, number),
        Capture::Sides(sides) => {
            let told = explain_sides(alloc, text, &sides);
            drop(sides);
            told
        }
    }
}
