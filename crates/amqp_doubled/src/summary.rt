//! The summary of a session that ended Closed.

ghost use Rattle.std.specs.Prelude.{◌≡◌, ◌++◌, ◌≤◌, if◌then◌else◌, OnOk, IfOk, Some, Ok};
ghost use Rattle.std.specs.String.{string_bytes};
ghost use Rattle.amqp_rules.specs.Talk.{end_of};
ghost use Rattle.amqp_replay.specs.Summary.{is_ok, count_ok, sent_text, answered_text, summary};
ghost use Rattle.amqp_doubled.specs.Doubling.{summary_line};

use amqp_engine::IoLoop;
use amqp_session::Answer;
use amqp_types::NoMemory;
use std::alloc::Global;

/// How much was sent, how many answers are no errors, and that the session ended Closed. It takes the
/// answers to the promises.
pub fn closed_summary(alloc: Global, sent: u64, engine: &mut IoLoop) -> Result<String, NoMemory>
    ensures { IfOk result (λ text. end_of engine.old.talk ≡ Some (Ok tt)
        → string_bytes text ≡ summary sent engine.old.talk) }
{
    let answered = count_ok(engine);
    let text = line(alloc, sent, answered)?;
    Ok(text)
}

// The line that says so.
fn line(alloc: Global, sent: u64, answered: u64) -> Result<String, NoMemory>
    ensures { IfOk result (λ text. string_bytes text ≡ summary_line sent answered) }
{
    let mut out = String::new(alloc);
    match put_line(&mut out, sent, answered) {
        Ok(()) => Ok(out),
        Err(e) => {
            drop(out);
            Err(e)
        }
    }
}

// The same, behind what was written.
fn put_line(out: &mut String, sent: u64, answered: u64) -> Result<(), NoMemory>
    ensures { OnOk result (string_bytes out.new ≡ string_bytes out.old ++ summary_line sent answered) }
{
    put_sent(out, sent)?;
    put_answered(out, answered)?;
    out.push_str("end closed\n")?;
    Ok(())
}

// How many octets were sent.
fn put_sent(out: &mut String, sent: u64) -> Result<(), NoMemory>
    ensures { OnOk result (string_bytes out.new ≡ string_bytes out.old ++ sent_text sent) }
{
    write!(out, "# sent {sent} bytes, ")?;
    Ok(())
}

// How many answers are no errors.
fn put_answered(out: &mut String, answered: u64) -> Result<(), NoMemory>
    ensures { OnOk result (string_bytes out.new ≡ string_bytes out.old ++ answered_text answered) }
{
    write!(out, "{answered} answers ok, ")?;
    Ok(())
}

// How many promises were answered, and not with an error. It takes their answers.
fn count_ok(engine: &mut IoLoop) -> u64
    ensures count { result ≡ count_ok engine.old.talk }
    ensures end { end_of engine.new.talk ≡ end_of engine.old.talk }
{
    let count = engine.session().promises();
    let mut answered = 0;
    'answers: for number in 0..count {
        answered += one_if_ok(engine.answer(number));
    }
    answered
}

// 1 for an answer that is no error. It takes the answer.
fn one_if_ok(answer: Option<amqp_session::Result<Answer>>) -> u64
    ensures value { result ≡ (if is_ok answer then 1 else 0) }
    ensures bound { result ≤ 1 }
{
    let ok = matches!(&answer, Some(Ok(_)));
    drop(answer);
    if ok { 1 } else { 0 }
}
