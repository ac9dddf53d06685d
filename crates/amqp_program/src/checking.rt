//! The capture that a source gives, and the verdict on it.

ghost use Rattle.std.specs.Prelude.{◌≡◌, ◌≢◌, ◌⊎◌, IfOk, IfSome};
ghost use Rattle.std.specs.String.{string_bytes};
ghost use Rattle.amqp_check.specs.Verdicts.{IsVerdict};
ghost use Rattle.amqp_check.specs.declared.capture.Verdict.{Verdict};
ghost use Rattle.amqp_replay.specs.Ends.{FailedOnce};
ghost use Rattle.amqp_replay.specs.Top.{IsSilent};
ghost use Rattle.amqp_program.specs.Captures.{captured};
ghost use Rattle.amqp_program.specs.CapturesRead.{capture_read};
ghost use Rattle.amqp_program.specs.Checks.{verdict_line, verdict_status, verdict_printout, capture_refusal, IsChecked, ChecksCapture, ChecksSomeCapture};

use crate::captured::{Capture, read_capture};
use amqp_check::{Verdict, check};
use amqp_replay::status::{CLOSED, FAILED, NO_MEMORY, REFUSED, SINK_FAILED, SOURCE_FAILED, USAGE};
use amqp_replay::transfer::{ReadFault, put_printout, read_all};
use amqp_replay::{Printout, Sink, Source};
use amqp_types::NoMemory;
use std::alloc::Global;

/// Reads a capture of a link from a source, and writes the verdict on it to a sink. Gives the exit
/// status.
pub fn check_capture<S: Source, K: Sink>(alloc: Global, source: &mut S, sink: &mut K) -> u8
    ensures known { result ≢ USAGE }
    ensures source_failed { result ≡ SOURCE_FAILED → FailedOnce (S.faults source.old) (S.faults source.new) }
    ensures source_kept { result ≢ SOURCE_FAILED → S.faults source.new ≡ S.faults source.old }
    ensures sink_failed { result ≡ SINK_FAILED → FailedOnce (K.faults sink.old) (K.faults sink.new) }
    ensures sink_kept { result ≢ SINK_FAILED → K.faults sink.new ≡ K.faults sink.old }
    ensures silent { IsSilent result → K.held sink.new ≡ K.held sink.old }
    ensures checked { IfSome (S.left source.old) (λ text. IsSilent result
        ⊎ ChecksCapture text (K.held sink.old) (K.held sink.new) result) }
    ensures some_capture { IsSilent result
        ⊎ ChecksSomeCapture (S.left source.old) (K.held sink.old) (K.held sink.new) result }
{
    match read_all(alloc, source) {
        Ok(text) => answer(alloc, &text, sink),
        Err(ReadFault::SourceFailed) => SOURCE_FAILED,
        Err(ReadFault::NoMemory) => NO_MEMORY,
    }
}

// Answers a capture.
fn answer<K: Sink>(alloc: Global, text: &[u8], sink: &mut K) -> u8
    ensures known { (result ≢ USAGE) × (result ≢ SOURCE_FAILED) }
    ensures sink_failed { result ≡ SINK_FAILED → FailedOnce (K.faults sink.old) (K.faults sink.new) }
    ensures sink_kept { result ≢ SINK_FAILED → K.faults sink.new ≡ K.faults sink.old }
    ensures silent { IsSilent result → K.held sink.new ≡ K.held sink.old }
    ensures checked { IsSilent result ⊎ ChecksCapture text.now (K.held sink.old) (K.held sink.new) result }
{
    match print(alloc, text) {
        Ok(printout) => put_printout(sink, printout),
        Err(NoMemory) => NO_MEMORY,
    }
}

// What is printed of a capture.
fn print(alloc: Global, text: &[u8]) -> Result<Printout, NoMemory>
    ensures checked { IfOk result (IsChecked (captured text.now)) }
    ensures status { IfOk result (λ p. (p.status ≡ REFUSED) ⊎ ((p.status ≡ CLOSED) ⊎ (p.status ≡ FAILED))) }
{
    let capture = read_capture(alloc, text)?;
    print_capture(alloc, capture)
}

// What is printed of what was read of a capture. It takes what was read.
fn print_capture(alloc: Global, capture: Capture) -> Result<Printout, NoMemory>
    ensures checked { IfOk result (IsChecked (capture_read capture)) }
    ensures status { IfOk result (λ p. (p.status ≡ REFUSED) ⊎ ((p.status ≡ CLOSED) ⊎ (p.status ≡ FAILED))) }
{
    match capture {
        Capture::Refused(number) => Ok(Printout::new(REFUSED, refusal(alloc, number)?)),
        Capture::Sides(sides) => {
            let printout = print_sides(alloc, &sides.client, &sides.server);
            drop(sides);
            printout
        }
    }
}

// What is printed of the octets of both sides.
fn print_sides(alloc: Global, client: &[u8], server: &[u8]) -> Result<Printout, NoMemory>
    ensures checked { IfOk result (λ p. (v : Verdict) × IsVerdict client.now server.now v × (p ≡ verdict_printout v)) }
    ensures status { IfOk result (λ p. (p.status ≡ CLOSED) ⊎ (p.status ≡ FAILED)) }
{
    let verdict = check(alloc, client, server)?;
    print_verdict(alloc, verdict)
}

// What is printed of a verdict.
fn print_verdict(alloc: Global, verdict: Verdict) -> Result<Printout, NoMemory>
    ensures { IfOk result (λ p. p ≡ verdict_printout verdict) }
{
    Ok(Printout::new(status_of(verdict), line(alloc, verdict)?))
}

// The status of a verdict.
fn status_of(verdict: Verdict) -> u8
    ensures { result ≡ verdict_status verdict }
{
    match verdict {
        Verdict::Legal(..) => CLOSED,
        _ => FAILED,
    }
}

// The line of a verdict.
fn line(alloc: Global, verdict: Verdict) -> Result<String, NoMemory>
    ensures { IfOk result (λ text. string_bytes text ≡ verdict_line verdict) }
{
    Ok(match verdict {
        Verdict::Legal(client, server) => format!(in alloc; "legal {client} {server}\n")?,
        Verdict::BadClient(place) => format!(in alloc; "bad client {place}\n")?,
        Verdict::CutClient(place) => format!(in alloc; "cut client {place}\n")?,
        Verdict::BadServer(place) => format!(in alloc; "bad server {place}\n")?,
        Verdict::CutServer(place) => format!(in alloc; "cut server {place}\n")?,
        Verdict::Illegal(frame) => format!(in alloc; "illegal frame {frame}\n")?,
    })
}

// What is printed of a capture with a line that is refused.
fn refusal(alloc: Global, number: u64) -> Result<String, NoMemory>
    ensures { IfOk result (λ text. string_bytes text ≡ capture_refusal number) }
{
    Ok(format!(in alloc; "capture line {number} refused\n")?)
}
