//! The line at which a session ended.

use super::replays::handshake;
use amqp_engine::MemoryPort;
use amqp_program::top::top;
use amqp_replay::status::{CLOSED, FAILED};
use amqp_replay::{MemorySink, MemorySource, ended_at, line_of_step};
use amqp_session::DefaultAuthProvider;
use amqp_types::Text;
use std::alloc::Global;
use std::test::Fail;

// Steps of a script with a setting, comments and empty lines, and the lines that say them.
const LINES: [(u64, Option<u64>); 5] = [
    (0, Some(3)),
    (1, Some(3)),
    (2, Some(6)),
    (3, Some(7)),
    (4, None),
];

#[test]
fn lines_that_say_steps(rt: HostRuntime) -> Result<(), Fail> {
    let text = b"name first\n# second\nlink\n\r\n#\nrefuse\r\nend";
    let mut wrong: Option<u64> = None;
    for (step, line) in LINES {
        if line_of_step(text, step) != line {
            wrong = Some(step);
        }
    }
    assert!(rt; wrong == None && line_of_step(b"", 1) == None);
    Ok(())
}

// The status of a script, and how many steps its port told.
fn steps_told(alloc: Global, script: &[u8]) -> Result<(u8, u64), Fail> {
    let words = vec![in alloc; Text::new(alloc, "replay")?]?;
    let mut source = MemorySource::new(script, &[]);
    let mut sink = MemorySink::new(alloc, usize::MAX, &[]);
    let mut port = MemoryPort::new(alloc, Vec::new(alloc))?;
    let nobody: Option<DefaultAuthProvider> = None;
    let status = top(alloc, &words, &mut source, &mut sink, &mut port, nobody);
    let steps = port.told();
    drop(port);
    Ok((status, steps))
}

#[test]
fn a_port_counts_its_steps(rt: HostRuntime) -> Result<(), Fail> {
    let version = b"locale de\n# another version\nlink\nbytes 414d515000000800\nlink\nend\n";
    assert!(rt; steps_told(rt.alloc(), version)? == (FAILED, 2));
    assert!(rt; ended_at(FAILED, version, 2) == Some(4) && ended_at(CLOSED, version, 2) == None);
    Ok(())
}

#[test]
fn a_port_counts_all_steps(rt: HostRuntime) -> Result<(), Fail> {
    let whole = handshake(rt.alloc())?;
    assert!(rt; steps_told(rt.alloc(), &whole)? == (CLOSED, 6));
    Ok(())
}
