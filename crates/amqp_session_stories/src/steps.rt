//! The steps of a session, one after another.

use crate::acts::{self, succeeds};
use crate::frames::frame_of;
use crate::seen;
use crate::stories::Done;
use crate::words::number_of;
use amqp_session::{AuthList, AuthProvider, Session};
use amqp_types::NoMemory;
use std::alloc::Global;

/// A step without what must be seen, and that, where something must: it stands behind ` = `.
pub fn parts_of(step: &str) -> (&str, Option<&str>) {
    match step.split_once(" = ") {
        Some((act, wanted)) => (act, Some(wanted)),
        None => (step, None),
    }
}

/// What became of a step by which this was seen, and this must be seen.
pub fn judged(done: Done, seen: &str, wanted: Option<&str>) -> Done {
    match (done, wanted) {
        (Done::Told, None) => Done::Told,
        (Done::Seen, Some(wanted)) if seen == wanted => Done::Told,
        (Done::Seen, Some(_)) | (Done::Fails, None) => Done::Fails,
        _ => Done::Unknown,
    }
}

/// Puts the step with which the steps of a session end, and what was seen.
pub fn push_end(told: &mut String, step: &str, seen: &str, done: Done) -> Result<Done, NoMemory> {
    told.push_str(step)?;
    if done == Done::Fails {
        write!(told, "; seen: {seen}")?;
    }
    Ok(done)
}

/// Tells steps, up to the first that does not hold or is none; then it and what was seen stand in the text.
pub fn told<A: AuthProvider>(
    alloc: Global,
    session: &mut Session,
    provider: &mut A,
    auths: &mut AuthList,
    steps: &[String],
    told: &mut String,
) -> Result<Done, NoMemory>
    requires { A.can provider.old }
{
    let mut seen = String::new(alloc);
    for step in steps {
        seen.clear();
        let (act, wanted) = parts_of(step.as_str());
        let done = done(alloc, session, provider, auths, act, &mut seen)?;
        let done = judged(done, seen.as_str(), wanted);
        if done != Done::Told {
            return push_end(told, step.as_str(), seen.as_str(), done);
        }
    }
    Ok(Done::Told)
}

// Does a step, and puts what is seen into the text.
fn done<A: AuthProvider>(
    alloc: Global,
    session: &mut Session,
    provider: &mut A,
    auths: &mut AuthList,
    act: &str,
    seen: &mut String,
) -> Result<Done, NoMemory>
    requires { A.can provider.old }
    ensures { A.can provider.new }
{
    match act.split_once(' ') {
        Some(("read", name)) => read(alloc, session, provider, auths, name),
        Some(("tick", at)) => tick(session, provider, auths, at),
        None if act == "said" => {
            seen::push_answers(seen, auths)?;
            Ok(Done::Seen)
        }
        None => acts::alone(alloc, session, act, seen),
        Some((word, others)) => acts::with(alloc, session, word, others, seen),
    }
}

/// Reads the frame of this name. What it asks is asked of the provider.
pub fn read<A: AuthProvider>(
    alloc: Global,
    session: &mut Session,
    provider: &mut A,
    auths: &mut AuthList,
    name: &str,
) -> Result<Done, NoMemory>
    requires { A.can provider.old }
    ensures { A.can provider.new }
{
    match frame_of(alloc, name)? {
        Some(frame) => succeeds(session.frame(frame, 0, provider, auths)),
        None => Ok(Done::Unknown),
    }
}

// Time goes by.
fn tick<A: AuthProvider>(
    session: &mut Session,
    provider: &mut A,
    auths: &mut AuthList,
    at: &str,
) -> Result<Done, NoMemory>
    requires { A.can provider.old }
    ensures { A.can provider.new }
{
    match number_of(at) {
        Some(at) => succeeds(session.tick(at, provider, auths)),
        None => Ok(Done::Unknown),
    }
}
