//! What became of each message, a line each.

use amqp_client::Stop;
use std::alloc::Global;
use std::fs;
use std::io::{BufWriter, Write};
use std::rt::Files;

/// How many octets are written at once.
const BLOCK: usize = 65_536;

/// Where it is written what became of each message; nowhere where no file was named.
#[derive(Drop)]
pub struct Report<F: Write + Drop> {
    out: Option<BufWriter<F>>,
}

/// A report into a file of this name, which is made anew.
pub fn report_to<R: Files>(
    rt: &R,
    alloc: Global,
    path: Option<&str>,
) -> Result<Report<R::File>, Stop> {
    let Some(path) = path else {
        return Ok(Report { out: None });
    };
    let Ok(file) = fs::create(rt, path) else {
        return Err(Stop::Unreported);
    };
    match BufWriter::with_capacity(alloc, BLOCK, file) {
        Ok(out) => Ok(Report { out: Some(out) }),
        Err(_) => Err(Stop::Unreported),
    }
}

impl<F: Write + Drop> Report<F> {
    /// Whether there is one.
    pub fn is_wanted(&self) -> bool {
        self.out.is_some()
    }

    /// Says what became of a message: what the broker did, and the code with which it gave it back.
    pub fn say(&mut self, message: u64, what: &str, code: Option<u16>) -> Result<(), Stop> {
        let Some(out) = &mut self.out else {
            return Ok(());
        };
        let written = match code {
            Some(code) => writeln!(out, "{message} returned {code}"),
            None => writeln!(out, "{message} {what}"),
        };
        match written {
            Ok(()) => Ok(()),
            Err(_) => Err(Stop::Unreported),
        }
    }

    /// Writes all that was said.
    pub fn flush(&mut self) -> Result<(), Stop> {
        let Some(out) = &mut self.out else {
            return Ok(());
        };
        match out.flush() {
            Ok(()) => Ok(()),
            Err(_) => Err(Stop::Unreported),
        }
    }
}
