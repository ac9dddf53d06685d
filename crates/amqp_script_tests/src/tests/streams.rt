//! Readers and writers as sources and sinks.

ghost use Rattle.std.specs.Prelude.{◌≤◌, IfOk};

use amqp_replay::{Gave, Put, Reading, Sink, Source, Writing};
use std::alloc::Global;
use std::io::{self, ErrorKind, Read, Write};
use std::test::Fail;

/// A stream that is interrupted so many times, and then serves a byte at a time or fails.
#[derive(Drop)]
struct Interrupted {
    times: u64,
    serves: bool,
}

impl Interrupted {
    // Serves so many bytes at most.
    fn answer(&mut self, most: usize) -> io::Result<usize>
        ensures { IfOk result (λ n. n ≤ most) }
    {
        if self.times > 0 {
            self.times -= 1;
            return Err(io::Error::from(ErrorKind::Interrupted));
        }
        if self.serves {
            Ok(most.min(1))
        } else {
            Err(io::Error::from(ErrorKind::BrokenPipe))
        }
    }
}

impl Read for Interrupted {
    fn read(&mut self, buf: &mut [u8]) -> io::Result<usize> {
        let n = self.answer(buf.len())?;
        if n > 0 {
            buf[0] = b'x';
        }
        Ok(n)
    }
}

impl Write for Interrupted {
    fn write(&mut self, buf: &[u8]) -> io::Result<usize> {
        self.answer(buf.len())
    }

    fn flush(&mut self) -> io::Result<()> {
        Ok(())
    }
}

// What a source gives of a reader that is interrupted so often, and whether it keeps this text.
fn read_of(alloc: Global, times: u64, serves: bool, text: &[u8]) -> (Gave, bool) {
    let mut source = Reading::new(alloc, Interrupted { times, serves });
    let gave = source.read(&mut [0; 4]);
    (gave, source.text() == Some(text))
}

#[test]
fn an_interrupted_read_is_made_again(rt: HostRuntime) -> Result<(), Fail> {
    let alloc = rt.alloc();
    assert!(rt; read_of(alloc, 0, true, b"x") == (Gave::Got(1), true));
    assert!(rt; read_of(alloc, 3, true, b"x") == (Gave::Got(1), true));
    assert!(rt; read_of(alloc, 3, false, b"") == (Gave::Failed, true));
    Ok(())
}

// What a sink takes whose writer is interrupted so often.
fn write_of(times: u64, serves: bool, bytes: &[u8]) -> Put {
    let mut sink = Writing::new(Interrupted { times, serves });
    sink.write(bytes)
}

#[test]
fn an_interrupted_write_is_made_again(rt: HostRuntime) -> Result<(), Fail> {
    assert!(rt; write_of(0, true, b"xyz") == Put::Took(1));
    assert!(rt; write_of(3, true, b"xyz") == Put::Took(1));
    assert!(rt; write_of(3, true, b"") == Put::Took(0));
    assert!(rt; write_of(3, false, b"xyz") == Put::Failed);
    Ok(())
}

/// A writer that takes nothing.
#[derive(Drop)]
struct Full;

impl Write for Full {
    fn write(&mut self, _buf: &[u8]) -> io::Result<usize> {
        Ok(0)
    }

    fn flush(&mut self) -> io::Result<()> {
        Ok(())
    }
}

#[test]
fn to_take_nothing_is_a_failure(rt: HostRuntime) -> Result<(), Fail> {
    let mut sink = Writing::new(Full);
    assert!(rt; sink.write(b"x") == Put::Failed);
    assert!(rt; sink.write(b"") == Put::Took(0));
    Ok(())
}
