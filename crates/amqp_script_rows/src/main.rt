//! Replays named scripts in memory, one after the other, and prints the status and the report of each; and says of
//! octets what stands at their front.
//!
//! Standard input holds scripts, cases of octets behind a line `=== frames`, up to a line `=== scripts`, and captures
//! behind a line `=== captures`.
//!
//! A line `== NAME` begins a script, and the lines up to the next such line are its text. In them `\` and two
//! hexadecimal digits stand for the byte of that number, and a `\` at a line's end says that no line feed follows. So
//! a carriage return is written `\0d`, a backslash `\5c`, a line of the script that begins with `== ` begins with
//! `\3d` here, and the last line ends with `\` where the script lacks its last line feed. Standard output has for each
//! script a line `== NAME status N` and then its report.
//!
//! A capture has a name and a text as a script has. Its answer is a line `== NAME status N`, the line of its verdict,
//! and what is said of it on standard error, a `> ` before each line.
//!
//! A case of octets is a line `LIMIT: OCTETS`, the octets in hexadecimal with blanks anywhere; its answer is the read
//! as `Debug` shows it, and for a frame that uses all the octets what it is written as. Lines that begin with `#` name
//! the cases; they stand in the output as they are, and so do empty lines.
#![tactic(auto)]

mod captures;
mod cases;
mod replays;
mod rows;

use amqp_types::NoMemory;
use rows::{Row, name_in};
use std::alloc::Global;
use std::io::{self, BufRead, BufReader, ErrorKind, Write};

// What lines are.
#[derive(Clone, Copy)]
enum Part {
    Scripts,
    Frames,
    Captures,
}

// What the lines behind this one are, where it says that.
fn part_in(line: &str) -> Option<Part> {
    match line {
        "=== scripts" => Some(Part::Scripts),
        "=== frames" => Some(Part::Frames),
        "=== captures" => Some(Part::Captures),
        _ => None,
    }
}

// What is answered to a script or a capture.
fn printed(alloc: Global, part: Part, row: &Row) -> Result<Vec<u8>, NoMemory> {
    match part {
        Part::Captures => captures::printed(alloc, row),
        Part::Scripts | Part::Frames => replays::printed(alloc, row),
    }
}

// Prints what is answered to a script or a capture.
fn print(rt: &HostRuntime, part: Part, row: Row) -> io::Result<()> {
    let printed = printed(rt.alloc(), part, &row);
    drop(row);
    match printed {
        Ok(text) => rt.stdout().write_all(&text),
        Err(NoMemory) => Err(io::Error::from(ErrorKind::OutOfMemory)),
    }
}

// Prints what is answered to the last of them, where there is one.
fn print_last(rt: &HostRuntime, part: Part, row: Option<Row>) -> io::Result<()> {
    match row {
        Some(last) => print(rt, part, last),
        None => Ok(()),
    }
}

// Begins a script or a capture, once the one before it is answered, or goes on with it.
fn go_on(rt: &HostRuntime, part: Part, row: &mut Option<Row>, line: &str) -> io::Result<()> {
    if let Some(name) = name_in(line) {
        let next = Row::new(rt.alloc(), name)?;
        return print_last(rt, part, row.replace(next));
    }
    if let Some(last) = row.as_mut() {
        last.push_line(line)?;
    }
    Ok(())
}

// Prints what stands at the front of octets.
fn tell(rt: &HostRuntime, line: &str) -> io::Result<()> {
    let answer = cases::answer(rt.alloc(), line)?;
    println!(rt; "{answer}")
}

fn main(rt: HostRuntime) -> io::Result<()> {
    let mut part = Part::Scripts;
    let mut row: Option<Row> = None;
    for line in BufReader::new(rt.alloc(), rt.reader())?.lines(rt.alloc()) {
        let line = line?;
        match (part_in(line.as_str()), part) {
            (Some(next), _) => {
                print_last(&rt, part, row.take())?;
                part = next;
            }
            (None, Part::Frames) => tell(&rt, line.as_str())?,
            (None, part) => go_on(&rt, part, &mut row, line.as_str())?,
        }
    }
    print_last(&rt, part, row)
}
