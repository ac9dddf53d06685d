//! Named scripts, as lines of text spell them.

ghost use Rattle.std.specs.Prelude.{◌<◌};

use std::alloc::{AllocError, Global};

/// A named script.
#[derive(Debug, Drop)]
pub struct Row {
    name: String,
    script: Vec<u8>,
}

/// The name in a line that begins a script.
pub fn name_in(line: &str) -> Option<&str> {
    line.strip_prefix("== ")
}

impl Row {
    /// A script with this name and no bytes yet.
    pub fn new(alloc: Global, name: &str) -> Result<Row, AllocError> {
        Ok(Row {
            name: name.to_string(alloc)?,
            script: Vec::new(alloc),
        })
    }

    /// What the script is called.
    pub fn name(&self) -> &str {
        self.name.as_str()
    }

    /// The bytes of the script.
    pub fn script(&self) -> &[u8] {
        &self.script
    }

    /// Adds the bytes that a line spells.
    pub fn push_line(&mut self, line: &str) -> Result<(), AllocError> {
        let mut spelling = Spelling::Plain;
        for byte in line.as_bytes() {
            spelling = self.push_byte(spelling, *byte)?;
        }
        if !matches!(spelling, Spelling::Backslash) {
            self.script.push(b'\n')?;
        }
        Ok(())
    }

    // Adds a byte, unless it begins or goes on with the spelling of another.
    fn push_byte(&mut self, spelling: Spelling, byte: u8) -> Result<Spelling, AllocError> {
        match (spelling, byte) {
            (Spelling::Plain, b'\\') => Ok(Spelling::Backslash),
            (Spelling::Plain, _) => {
                self.script.push(byte)?;
                Ok(Spelling::Plain)
            }
            (Spelling::Backslash, _) => Ok(Spelling::Digit(byte)),
            (Spelling::Digit(high), _) => {
                self.script.push(digit(high) * 16 + digit(byte))?;
                Ok(Spelling::Plain)
            }
        }
    }
}

/// Where in the spelling of a byte a line stands.
#[derive(Clone, Copy, Debug)]
enum Spelling {
    Plain,
    /// After a backslash.
    Backslash,
    /// After a backslash and this digit.
    Digit(u8),
}

// The value of a hexadecimal digit; of another byte none.
fn digit(byte: u8) -> u8
    ensures { result < 16 }
{
    match byte {
        b'0'..=b'9' => byte - b'0',
        b'a'..=b'f' => byte - b'a' + 10,
        _ => 0,
    }
}
