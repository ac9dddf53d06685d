//! Stories, one after another: what is printed of each.

use crate::providers;
use amqp_types::NoMemory;
use std::alloc::Global;
use std::mem;

/// What became of a step, or of all the steps of a session.
#[derive(Clone, Copy, Debug, PartialEq, Eq)]
pub enum Done {
    /// It was told, or it holds.
    Told,
    /// It looks at the session; what was seen stands in a text.
    Seen,
    /// It does not hold; what was seen instead stands in a text.
    Fails,
    /// It is no step.
    Unknown,
}

/// The story that is told, and what is to be printed.
#[derive(Drop)]
pub struct Stories {
    alloc: Global,
    name: String,
    place: String,
    steps: Vec<String>,
    sessions: u64,
    holds: bool,
    printed: String,
}

impl Stories {
    /// No story yet.
    pub fn new(alloc: Global) -> Stories {
        Stories {
            alloc,
            name: String::new(alloc),
            place: String::new(alloc),
            steps: Vec::new(alloc),
            sessions: 0,
            holds: true,
            printed: String::new(alloc),
        }
    }

    /// What the last call has to print.
    pub fn printed(&self) -> &[u8] {
        self.printed.as_bytes()
    }

    /// Takes the next line. Whether it stands where it may, and all that it ends is made of steps.
    pub fn line(&mut self, line: &str) -> Result<bool, NoMemory> {
        self.printed.clear();
        if line.is_empty() || line.starts_with('#') {
            return Ok(true);
        }
        if let Some(name) = line.strip_prefix("== ") {
            return self.begin(name);
        }
        if let Some(place) = line.strip_prefix("at ") {
            return self.stand(place);
        }
        if self.place.is_empty() {
            return self.refuse(line);
        }
        self.steps.push(line.to_string(self.alloc)?)?;
        Ok(true)
    }

    /// Ends the last story. Whether all that it ends is made of steps.
    pub fn end(&mut self) -> Result<bool, NoMemory> {
        self.printed.clear();
        self.finish()
    }

    fn begin(&mut self, name: &str) -> Result<bool, NoMemory> {
        let known = self.finish()?;
        self.name = name.to_string(self.alloc)?;
        self.sessions = 0;
        self.holds = true;
        Ok(known)
    }

    fn stand(&mut self, place: &str) -> Result<bool, NoMemory> {
        let known = self.tell()?;
        if self.name.is_empty() {
            return self.refuse(place);
        }
        self.place = place.to_string(self.alloc)?;
        Ok(known)
    }

    // Tells what is left of a story, and that it holds, if it does.
    fn finish(&mut self) -> Result<bool, NoMemory> {
        if !self.tell()? {
            return Ok(false);
        }
        if self.name.is_empty() {
            return Ok(true);
        }
        if self.sessions == 0 {
            return self.refuse("a story without a session");
        }
        if self.holds {
            writeln!(self.printed, "ok {}", self.name)?;
        }
        Ok(true)
    }

    // Tells the steps of a session, where there is one.
    fn tell(&mut self) -> Result<bool, NoMemory> {
        if self.place.is_empty() {
            return Ok(true);
        }
        if self.steps.is_empty() {
            return self.refuse("a session without a step");
        }
        let place = mem::replace(&mut self.place, String::new(self.alloc));
        let steps = mem::replace(&mut self.steps, Vec::new(self.alloc));
        self.sessions = self.sessions.saturating_add(1);
        let mut told = String::new(self.alloc);
        match providers::told(self.alloc, place.as_str(), &steps, &mut told)? {
            Done::Unknown => self.refuse(told.as_str()),
            Done::Fails => self.fail(told.as_str()),
            _ => Ok(true),
        }
    }

    // A story of which a step does not hold.
    fn fail(&mut self, told: &str) -> Result<bool, NoMemory> {
        self.holds = false;
        writeln!(self.printed, "{}: {told}", self.name)?;
        Ok(true)
    }

    // A line that is no step.
    fn refuse(&mut self, line: &str) -> Result<bool, NoMemory> {
        writeln!(self.printed, "{}: no step: {line}", self.name)?;
        Ok(false)
    }
}
