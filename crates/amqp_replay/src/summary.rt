//! The summary of a replay.

ghost use Rattle.std.specs.Prelude.{◌≡◌, ◌++◌, ◌≤◌, if◌then◌else◌, OnOk};
ghost use Rattle.std.specs.String.{string_bytes};
ghost use Rattle.amqp_rules.specs.Talk.{end_of};
ghost use Rattle.amqp_replay.specs.Summary.{first_len, is_ok, count_ok, sent_text, answered_text, summary};

use crate::report::{ended, put_end};
use amqp_engine::{IoLoop, ScriptedPort};
use amqp_session::Answer;
use amqp_types::NoMemory;

/// The summary of an engine that sent so many bytes. It takes the answers to the promises.
pub fn put_summary(out: &mut String, sent: u64, engine: &mut IoLoop) -> Result<(), NoMemory>
    ensures { OnOk result (string_bytes out.new ≡ string_bytes out.old ++ summary sent engine.old.talk) }
{
    let answered = count_ok(engine);
    put_sent(out, sent)?;
    put_answered(out, answered)?;
    let end = ended(engine)?;
    let put = put_end(out, &end);
    drop(end);
    put?;
    Ok(())
}

// How many bytes were sent.
fn put_sent(out: &mut String, sent: u64) -> Result<(), NoMemory>
    ensures { OnOk result (string_bytes out.new ≡ string_bytes out.old ++ sent_text sent) }
{
    write!(out, "# sent {sent} bytes, ")?;
    Ok(())
}

// How many answers are no errors.
fn put_answered(out: &mut String, answered: u64) -> Result<(), NoMemory>
    ensures { OnOk result (string_bytes out.new ≡ string_bytes out.old ++ answered_text answered) }
{
    write!(out, "{answered} answers ok, ")?;
    Ok(())
}

/// How many bytes the first link took.
pub fn first_len<P: ScriptedPort>(port: &P) -> u64
    ensures { result ≡ first_len (P.links_taken port.now) }
{
    let count = port.links();
    if count == 0 {
        return 0;
    }
    port.link(0).len() as u64
}

// How many promises were answered, and not with an error. It takes their answers.
fn count_ok(engine: &mut IoLoop) -> u64
    ensures count { result ≡ count_ok engine.old.talk }
    ensures end { end_of engine.new.talk ≡ end_of engine.old.talk }
{
    let count = engine.session().promises();
    let mut answered = 0;
    'answers: for number in 0..count {
        answered += one_if_ok(engine.answer(number));
    }
    answered
}

// 1 for an answer that is no error. It takes the answer.
fn one_if_ok(answer: Option<amqp_session::Result<Answer>>) -> u64
    ensures value { result ≡ (if is_ok answer then 1 else 0) }
    ensures bound { result ≤ 1 }
{
    let ok = matches!(&answer, Some(Ok(_)));
    drop(answer);
    if ok { 1 } else { 0 }
}
