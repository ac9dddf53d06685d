//! A port that refuses memory.

ghost use Rattle.std.specs.Prelude.{Some};

use super::replays::handshake;
use amqp_engine::{Given, MemoryPort, Port, ScriptedPort, Told, Wrote};
use amqp_program::top::top;
use amqp_replay::status::NO_MEMORY;
use amqp_replay::{MemorySink, MemorySource};
use amqp_session::DefaultAuthProvider;
use amqp_types::{NoMemory, Text};
use std::alloc::Global;
use std::test::Fail;

/// A port that refuses memory at a write.
#[derive(Drop)]
struct Refusing {
    script: MemoryPort,
    writes_left: u64,
}

impl Port for Refusing {
    ghost log = { λ p. Some p.script.log };

    ghost faults = { λ p. p.script.faults };

    ghost kept = { λ _. tt };

    fn connect(&mut self) {
        self.script.connect();
    }

    fn next(&mut self, space: &mut [u8]) -> Told {
        self.script.next(space)
    }

    fn write(&mut self, first: &[u8], second: &[u8]) -> Wrote {
        self.writes_left = self.writes_left.saturating_sub(1);
        if self.writes_left == 0 {
            return Wrote::NoMemory;
        }
        self.script.write(first, second)
    }
}

impl ScriptedPort for Refusing {
    ghost use Rattle.std.specs.Prelude.{refl};

    ghost links_taken = { λ p. p.script.log.links };

    ghost ties = { λ p. refl };

    fn load(&mut self, steps: Vec<Given>) -> Result<(), NoMemory> {
        self.script.load(steps)
    }

    fn links(&self) -> usize {
        self.script.links()
    }

    fn link(&self, k: usize) -> &[u8] {
        self.script.link(k)
    }
}

// The status and how many bytes are printed of the handshake, where the port refuses memory at this
// write.
fn without_memory(alloc: Global, write: u64) -> Result<(u8, usize), Fail> {
    let text = handshake(alloc)?;
    let words = vec![in alloc; Text::new(alloc, "replay")?]?;
    let script = MemoryPort::new(alloc, Vec::new(alloc))?;
    let mut source = MemorySource::new(&text, &[]);
    let mut sink = MemorySink::new(alloc, usize::MAX, &[]);
    let mut port = Refusing {
        script,
        writes_left: write,
    };
    let nobody: Option<DefaultAuthProvider> = None;
    let status = top(alloc, &words, &mut source, &mut sink, &mut port, nobody);
    drop(port);
    Ok((status, sink.held().len()))
}

#[test]
fn a_port_without_memory_prints_nothing(rt: HostRuntime) -> Result<(), Fail> {
    for write in 1..=4 {
        assert!(rt;
            without_memory(rt.alloc(), write)? == (NO_MEMORY, 0),
            "at write {write}"
        );
    }
    Ok(())
}
