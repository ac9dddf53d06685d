//! The report of a replay.

ghost use Rattle.std.specs.Prelude.{◌≡◌, ◌≢◌, ◌++◌, ◌+◌, ◌<◌, ◌^◌, ◌↔◌, Some, Ok, Err, OnOk, IfOk, IsTrue, slice_get, length};
ghost use Rattle.std.specs.List.{flat_map};
ghost use Rattle.std.specs.String.{string_bytes};
ghost use Rattle.amqp_rules.specs.Talk.{end_of};
ghost use Rattle.amqp_rules.specs.Answers.{answer_of, events_of};
ghost use Rattle.amqp_replay.specs.Report.{link_report, link_lines, answer_line, answer_lines, answer_text, kind_text, frame_line, frame_lines, event_text, event_line, event_lines, hexadecimal, end_line, report, refusal};

use amqp_engine::{IoLoop, ScriptedPort};
use amqp_frame::RawKind;
use amqp_session::{Answer, ErrorKind, Event, Handed};
use amqp_types::{NoMemory, Text};
use std::alloc::Global;
use std::marker::Model;

/// What is printed, and the status that goes with it.
#[derive(Debug, Drop)]
pub struct Printout {
    status: u8,
    text: String,
}

impl Model for Printout {
    ghost use Rattle.std.specs.String.{string_bytes};
    ghost use Rattle.amqp_replay.specs.Report.{Printout};

    ghost Value = { Printout };

    ghost view = { λ p. record { status = p.status; text = string_bytes p.text } };
}

impl Printout {
    /// A printout of this text, with this status.
    pub fn new(status: u8, text: String) -> Printout
        ensures { result ≡ record { status = status; text = string_bytes text } }
    {
        Printout { status, text }
    }

    /// The status.
    pub fn status(&self) -> u8
        ensures { result ≡ self.now.status }
    {
        self.status
    }

    /// What is printed.
    pub fn as_bytes(&self) -> &[u8]
        ensures { result.now ≡ self.now.text }
    {
        self.text.as_bytes()
    }
}

/// The report of an engine over its port. It takes the answers to the promises, the frames handed out
/// and the events.
pub fn report<P: ScriptedPort>(
    alloc: Global,
    engine: &mut IoLoop,
    port: &P,
) -> Result<String, NoMemory>
    ensures { IfOk result (λ text. string_bytes text ≡ report (P.links_taken port.now) engine.old.talk) }
{
    let mut out = String::new(alloc);
    match put_report(alloc, &mut out, engine, port) {
        Ok(()) => Ok(out),
        Err(e) => {
            drop(out);
            Err(e)
        }
    }
}

// All lines of a report.
fn put_report<P: ScriptedPort>(
    alloc: Global,
    out: &mut String,
    engine: &mut IoLoop,
    port: &P,
) -> Result<(), NoMemory>
    ensures { OnOk result (string_bytes out.new
        ≡ string_bytes out.old ++ report (P.links_taken port.now) engine.old.talk) }
{
    put_links(alloc, out, port)?;
    put_answers(out, engine)?;
    put_frames(alloc, out, engine)?;
    put_events(out, engine)?;
    let end = ended(engine)?;
    let put = put_end(out, &end);
    drop(end);
    put?;
    Ok(())
}

// The lines of the links, which are counted from 1.
fn put_links<P: ScriptedPort>(alloc: Global, out: &mut String, port: &P) -> Result<(), NoMemory>
    ensures { OnOk result (string_bytes out.new ≡ string_bytes out.old ++ link_lines (P.links_taken port.now)) }
{
    let count = port.links();
    'links: for k in 0..count {
        put_link(alloc, out, k as u64 + 1, port.link(k))?;
    }
    Ok(())
}

// The lines of the promises. It takes their answers.
fn put_answers(out: &mut String, engine: &mut IoLoop) -> Result<(), NoMemory>
    ensures answers { OnOk result (string_bytes out.new ≡ string_bytes out.old ++ answer_lines engine.old.talk) }
    ensures frames { frame_lines engine.new.talk ≡ frame_lines engine.old.talk }
    ensures events { events_of engine.new.talk ≡ events_of engine.old.talk }
    ensures end { end_of engine.new.talk ≡ end_of engine.old.talk }
{
    let count = engine.session().promises();
    'answers: for number in 0..count {
        let answer = engine.answer(number);
        let put = put_answer(out, number, &answer);
        drop(answer);
        put?;
    }
    Ok(())
}

// Whether memory was refused for the copy of an error.
fn is_refused<T>(answer: &Option<amqp_session::Result<T>>) -> bool
    ensures { IsTrue result ↔ (answer.now ≡ Some (Err ErrorKind.NoMemory)) }
{
    match answer {
        Some(Err(error)) => *error.kind() == ErrorKind::NoMemory,
        _ => false,
    }
}

/// How the session ended.
pub fn ended(engine: &IoLoop) -> Result<Option<amqp_session::Result<()>>, NoMemory>
    ensures { IfOk result (λ end. end ≡ end_of engine.now.talk) }
{
    let end = engine.session().end();
    if is_refused(&end) {
        drop(end);
        return Err(NoMemory);
    }
    Ok(end)
}

// The line of a link.
fn put_link(alloc: Global, out: &mut String, number: u64, bytes: &[u8]) -> Result<(), NoMemory>
    ensures { OnOk result (string_bytes out.new ≡ string_bytes out.old ++ link_report (number, bytes.now)) }
{
    write!(out, "link {number} ")?;
    put_digits(alloc, out, bytes)?;
    out.push_str("\n")?;
    Ok(())
}

/// Bytes in hexadecimal.
pub fn put_digits(alloc: Global, out: &mut String, bytes: &[u8]) -> Result<(), NoMemory>
    ensures { OnOk result (string_bytes out.new ≡ string_bytes out.old ++ hexadecimal bytes.now) }
{
    if bytes.is_empty() {
        out.push_str("-")?;
        return Ok(());
    }
    let digits = hex::encode(alloc, bytes)?;
    let put = out.push_str(&digits);
    drop(digits);
    put?;
    Ok(())
}

// The line of a promise, unless memory was refused for the copy of its error.
fn put_answer(
    out: &mut String,
    number: u64,
    answer: &Option<amqp_session::Result<Answer>>,
) -> Result<(), NoMemory>
    ensures line { OnOk result (string_bytes out.new ≡ string_bytes out.old ++ answer_line number answer.now) }
    ensures whole { OnOk result (answer.now ≢ Some (Err ErrorKind.NoMemory)) }
{
    if is_refused(answer) {
        return Err(NoMemory);
    }
    write!(out, "answer {number} ")?;
    put_answer_text(out, answer)?;
    out.push_str("\n")?;
    Ok(())
}

// An answer, or that there is none.
fn put_answer_text(
    out: &mut String,
    answer: &Option<amqp_session::Result<Answer>>,
) -> Result<(), NoMemory>
    ensures { OnOk result (string_bytes out.new ≡ string_bytes out.old ++ answer_text answer.now) }
{
    match answer {
        None => out.push_str("pending")?,
        Some(Ok(value)) => put_value(out, *value)?,
        Some(Err(error)) => write!(out, "err {error}")?,
    }
    Ok(())
}

// What a promise was answered with.
fn put_value(out: &mut String, value: Answer) -> Result<(), NoMemory>
    ensures { OnOk result (string_bytes out.new ≡ string_bytes out.old ++ answer_text (Some (Ok value))) }
{
    match value {
        Answer::Connected => out.push_str("ok connected")?,
        Answer::Channel(id, _) => write!(out, "ok channel {id}")?,
        Answer::Done => out.push_str("ok done")?,
        Answer::Sent => out.push_str("ok sent")?,
        Answer::Flow(true) => out.push_str("ok flow on")?,
        Answer::Flow(false) => out.push_str("ok flow off")?,
    }
    Ok(())
}

// The frames handed out, of the channel that each promise opened.
fn put_frames(alloc: Global, out: &mut String, engine: &mut IoLoop) -> Result<(), NoMemory>
    ensures frames { OnOk result (string_bytes out.new ≡ string_bytes out.old ++ frame_lines engine.old.talk) }
    ensures events { events_of engine.new.talk ≡ events_of engine.old.talk }
    ensures end { end_of engine.new.talk ≡ end_of engine.old.talk }
{
    let count = engine.session().promises();
    'openings: for number in 0..count {
        let frames = engine.take_frames(number)?;
        put_each(alloc, out, &frames)?;
    }
    Ok(())
}

// Frames of one channel.
fn put_each(alloc: Global, out: &mut String, frames: &[Handed]) -> Result<(), NoMemory>
    ensures { OnOk result (string_bytes out.new ≡ string_bytes out.old ++ flat_map frame_line frames.now) }
{
    'frames: for frame in frames {
        put_frame(alloc, out, frame)?;
    }
    Ok(())
}

// The line of a frame.
fn put_frame(alloc: Global, out: &mut String, frame: &Handed) -> Result<(), NoMemory>
    ensures { OnOk result (string_bytes out.new ≡ string_bytes out.old ++ frame_line frame.now) }
{
    let (id, kind) = (frame.channel, kind_text(frame.kind));
    write!(out, "frame {id} {kind} ")?;
    put_digits(alloc, out, frame.bytes.as_bytes())?;
    out.push_str("\n")?;
    Ok(())
}

// The word for a kind of frame.
fn kind_text(kind: RawKind) -> &'static str
    ensures { result.now ≡ kind_text kind }
{
    match kind {
        RawKind::RawMethod => "method",
        RawKind::Header => "header",
        RawKind::Body => "body",
    }
}

// The lines of the events. It takes them.
fn put_events(out: &mut String, engine: &mut IoLoop) -> Result<(), NoMemory>
    ensures events { OnOk result (string_bytes out.new ≡ string_bytes out.old ++ event_lines engine.old.talk) }
    ensures end { end_of engine.new.talk ≡ end_of engine.old.talk }
{
    'events: while let Some(event) = engine.event() {
        let put = put_event(out, &event);
        drop(event);
        put?;
    }
    Ok(())
}

// Whether memory was refused for the copy of the error of an event.
fn is_untold(event: &Event) -> bool
    ensures { IsTrue result ↔ (event.now ≡ Event.Error ErrorKind.NoMemory) }
{
    match event {
        Event::Error(error) => *error.kind() == ErrorKind::NoMemory,
        _ => false,
    }
}

// The line of an event, unless memory was refused for the copy of its error.
fn put_event(out: &mut String, event: &Event) -> Result<(), NoMemory>
    ensures line { OnOk result (string_bytes out.new ≡ string_bytes out.old ++ event_line event.now) }
    ensures whole { OnOk result (event.now ≢ Event.Error ErrorKind.NoMemory) }
{
    if is_untold(event) {
        return Err(NoMemory);
    }
    out.push_str("event ")?;
    put_event_text(out, event)?;
    out.push_str("\n")?;
    Ok(())
}

// What is told to those who listen.
fn put_event_text(out: &mut String, event: &Event) -> Result<(), NoMemory>
    ensures { OnOk result (string_bytes out.new ≡ string_bytes out.old ++ event_text event.now) }
{
    match event {
        Event::Connected => out.push_str("connected")?,
        Event::ConnectionBlocked(reason) => put_blocked(out, reason)?,
        Event::ConnectionUnblocked => out.push_str("unblocked")?,
        Event::SendFlow(true) => out.push_str("flow on")?,
        Event::SendFlow(false) => out.push_str("flow off")?,
        Event::Error(error) => write!(out, "error {error}")?,
    }
    Ok(())
}

// The server blocks, for this reason.
fn put_blocked(out: &mut String, reason: &Text) -> Result<(), NoMemory>
    ensures { OnOk result (string_bytes out.new
        ≡ string_bytes out.old ++ event_text (Event.ConnectionBlocked reason.now)) }
{
    let text = reason.as_str();
    write!(out, "blocked {text}")?;
    Ok(())
}

/// The last line.
pub fn put_end(out: &mut String, end: &Option<amqp_session::Result<()>>) -> Result<(), NoMemory>
    ensures { OnOk result (string_bytes out.new ≡ string_bytes out.old ++ end_line end.now) }
{
    match end {
        None => out.push_str("end running\n")?,
        Some(Ok(())) => out.push_str("end closed\n")?,
        Some(Err(error)) => write!(out, "end error {error}\n")?,
    }
    Ok(())
}

/// What is printed of a script with a line that is refused.
pub fn refusal(alloc: Global, number: u64) -> Result<String, NoMemory>
    ensures { IfOk result (λ text. string_bytes text ≡ refusal number) }
{
    Ok(format!(in alloc; "script line {number} refused\n")?)
}
