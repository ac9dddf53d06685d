//! After how many parts of a turn memory was refused.

ghost use Rattle.std.specs.Prelude.{None};

use crate::story::{Driven, new_engine};
use crate::support::{Happens, Outcome, port};
use amqp_engine::{MemoryPort, Port, Record, Told, Wrote};
use amqp_session::ErrorKind;
use amqp_vectors::START;
use std::alloc::Global;
use std::process::Abort;

/// A port that gives the steps of a script, takes nothing, and refuses memory at its last write.
#[derive(Drop)]
struct Refusing {
    script: MemoryPort,
    writes_left: u64,
}

impl Port for Refusing {
    ghost log = { λ p. None };

    ghost faults = { λ p. p.script.faults };

    ghost kept = { λ _. tt };

    fn connect(&mut self) {
        self.script.connect();
    }

    fn next(&mut self, space: &mut [u8]) -> Told {
        self.script.next(space)
    }

    fn write(&mut self, _first: &[u8], _second: &[u8]) -> Wrote {
        self.writes_left = self.writes_left.saturating_sub(1);
        if self.writes_left == 0 {
            Wrote::NoMemory
        } else {
            Wrote::Took(0)
        }
    }
}

// After how many parts the turn was cut, where a run ends since memory was refused.
fn starved_in(port: &mut Refusing, driven: &mut Driven) -> Option<u64> {
    match driven.engine.run(port, &mut driven.provider, 10) {
        Ok(()) => None,
        Err(error) => {
            let refused = matches!(error.kind(), ErrorKind::NoMemory);
            drop(error);
            if refused {
                driven.engine.starved()
            } else {
                None
            }
        }
    }
}

fn starved_over(alloc: Global, port: &mut Refusing) -> Outcome<Option<u64>> {
    let mut driven = new_engine(alloc)?;
    let starved = starved_in(port, &mut driven);
    drop(driven);
    Ok(starved)
}

// The same, where the port refuses memory at this write.
fn starved_at(alloc: Global, script: &[Happens], write: u64) -> Outcome<Option<u64>> {
    let script = port(alloc, script)?;
    let mut port = Refusing {
        script,
        writes_left: write,
    };
    let starved = starved_over(alloc, &mut port);
    drop(port);
    starved
}

/// What happens in the turn before the link's offer or in the turn after it, the write at which
/// memory is refused, and the parts of the turn until then.
#[derive(Clone, Copy)]
struct Row {
    name: &'static str,
    script: &'static [Happens],
    write: u64,
    parts: u64,
}

const ROWS: &[Row] = &[
    Row {
        name: "the link and the offer",
        script: &[Happens::Link(None)],
        write: 1,
        parts: 2,
    },
    Row {
        name: "room is no part",
        script: &[Happens::Link(None), Happens::Room(1)],
        write: 2,
        parts: 1,
    },
    Row {
        name: "a tick is one",
        script: &[Happens::Link(None), Happens::Tick],
        write: 2,
        parts: 2,
    },
    Row {
        name: "a command is one",
        script: &[Happens::Link(None), Happens::Close],
        write: 2,
        parts: 2,
    },
    Row {
        name: "a link that was not asked for is none",
        script: &[Happens::Link(None), Happens::Link(None)],
        write: 2,
        parts: 1,
    },
    Row {
        name: "the piece, the frame and the offer",
        script: &[Happens::Link(None), Happens::Bytes(START)],
        write: 2,
        parts: 3,
    },
    Row {
        name: "a piece that holds no whole frame",
        script: &[Happens::Link(None), Happens::Bytes("01")],
        write: 2,
        parts: 2,
    },
];

fn are_counted<A: Abort>(rt: &A, alloc: Global, rows: &[Row]) -> Outcome<()> {
    for row in rows {
        let parts = starved_at(alloc, row.script, row.write)?;
        assert!(rt; parts == Some(row.parts), "{}", row.name);
    }
    Ok(())
}

#[test]
fn parts_are_counted(rt: HostRuntime) -> Outcome<()> {
    are_counted(&rt, rt.alloc(), ROWS)
}

#[test]
fn a_turn_is_cut_before_its_first_part(rt: HostRuntime) -> Outcome<()> {
    let notes = Record::cut(rt.alloc());
    let starved = notes.starved();
    drop(notes);
    assert!(rt; starved == Some(0));
    Ok(())
}
