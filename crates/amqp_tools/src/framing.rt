//! How bodies stand one after another in a stream of octets.

ghost use Rattle.std.specs.Prelude.{◌≡◌, ◌==◌, ◌<◌, ◌≤◌, ◌+◌, ◌++◌, None, true, [], false, IfOk, IfSome, OnOk, length, drop, position, if◌then◌else◌};
ghost use Rattle.amqp_tools.specs.Bodies.{next_part, without_next_part, delimited_part, last_body, behind_length, body_at, is_delimiter};
ghost use Rattle.amqp_tools.specs.declared.framing.Part.TheVariants.{More, End, Torn};

use crate::front::let_go;
use amqp_types::{NoMemory, Payload};
use std::alloc::Global;
use std::marker::Model;

/// How bodies stand one after another.
#[derive(Clone, Copy, Debug, PartialEq, Eq)]
pub enum Framing {
    /// A line feed ends each; the last may lack it.
    Lines,
    /// An octet 0 ends each; the last may lack it.
    Zeros,
    /// The length of each stands before it, in four octets, the highest first.
    Lengths,
}

/// What comes next of a stream.
#[derive(Drop)]
pub enum Part {
    /// A body.
    Body(Payload),
    /// More octets are to come first.
    More,
    /// The stream has ended.
    End,
    /// A body has more octets than these, which it may have.
    TooLarge(usize),
    /// The stream ended within a body behind its length.
    Torn,
}

/// Octets that came, and the bodies that stand in them.
#[derive(Drop)]
pub struct Bodies {
    alloc: Global,
    framing: Framing,
    // how many octets a body may have
    most: usize,
    held: Vec<u8>,
    // the first octet that was not given
    at: usize,
    // how many octets from there on were looked at, and are no end of a body
    seen: usize,
    ended: bool,
}

impl Model for Bodies {
    ghost use Rattle.std.specs.Prelude.{◌≡◌, ◌+◌, ◌≤◌, drop, take, length, position, None};
    ghost use Rattle.amqp_tools.specs.Bodies.{Stream, is_delimiter};

    ghost Value = { Stream };

    ghost view = { λ b. record {
      framing = b.framing;
      most = b.most;
      rest = drop b.at b.held.items;
      ended = b.ended;
    } };

    ghost invariant = { λ b. (b.at + b.seen ≤ length b.held.items)
        × (position (is_delimiter b.framing) (take b.seen (drop b.at b.held.items)) ≡ None) };
}

// The place of the first such octet.
fn place_of(octets: &[u8], octet: u8) -> Option<usize>
    ensures at { result ≡ position (λ o. o == octet) octets.now }
    ensures within { IfSome result (λ at. at < length octets.now) }
{
    octets.iter().position(|o| *o == octet)
}

// What stands behind so many octets.
fn behind(octets: &[u8], count: usize) -> &[u8]
    requires { count ≤ length octets.now }
    ensures { result.now ≡ drop count octets.now }
{
    &octets[count..]
}

impl Bodies {
    /// None came of a stream whose bodies stand so, and have at most so many octets.
    pub fn new(alloc: Global, framing: Framing, most: usize) -> Bodies
        ensures { result ≡ record { framing = framing; most = most; rest = []; ended = false } }
    {
        Bodies {
            alloc,
            framing,
            most,
            held: Vec::new(alloc),
            at: 0,
            seen: 0,
            ended: false,
        }
    }

    /// Octets came.
    pub fn push(&mut self, octets: &[u8]) -> Result<(), NoMemory>
        ensures { OnOk result (self.new ≡ record self.old { rest = self.old.rest ++ octets.now }) }
    {
        let_go(&mut self.held, self.at);
        self.at = 0;
        self.held.extend_from_slice(octets)?;
        Ok(())
    }

    /// No more octets come.
    pub fn end(&mut self)
        ensures { self.new ≡ record self.old { ended = true } }
    {
        self.ended = true;
    }

    /// The next body.
    pub fn next(&mut self) -> Result<Part, NoMemory>
        ensures part { IfOk result (λ part. part ≡ (next_part self.old).0) }
        ensures new { OnOk result (self.new ≡ without_next_part self.old) }
    {
        match self.framing {
            Framing::Lines => self.until(b'\n'),
            Framing::Zeros => self.until(0),
            Framing::Lengths => self.behind_length(),
        }
    }

    // The next body that such an octet ends.
    fn until(&mut self, octet: u8) -> Result<Part, NoMemory>
        requires { is_delimiter self.old.framing ≡ (λ o. o == octet) }
        ensures part { IfOk result (λ part. part ≡ (delimited_part self.old).0) }
        ensures new { OnOk result (self.new
            ≡ record self.old { rest = drop (delimited_part self.old).1 self.old.rest }) }
    {
        match self.found(octet) {
            Some(size) => self.give(0, size, 1),
            None => {
                self.see_all();
                self.last()
            }
        }
    }

    // Where the next such octet stands among those that are left.
    fn found(&self, octet: u8) -> Option<usize>
        requires { is_delimiter self.now.framing ≡ (λ o. o == octet) }
        ensures at { result ≡ position (is_delimiter self.now.framing) self.now.rest }
        ensures within { IfSome result (λ at. at < length self.now.rest) }
    {
        let rest = behind(&self.held, self.at);
        let unseen = behind(rest, self.seen);
        match place_of(unseen, octet) {
            Some(place) => Some(self.seen + place),
            None => None,
        }
    }

    // All that is left was looked at, and ends no body.
    fn see_all(&mut self)
        requires { position (is_delimiter self.old.framing) self.old.rest ≡ None }
        ensures { self.new ≡ self.old }
    {
        self.seen = self.held.len() - self.at;
    }

    // The last body, where no more octets come.
    fn last(&mut self) -> Result<Part, NoMemory>
        ensures part { IfOk result (λ part. part ≡ (last_body self.old).0) }
        ensures new { OnOk result (self.new ≡ record self.old { rest = drop (last_body self.old).1 self.old.rest }) }
    {
        let size = self.held.len() - self.at;
        if size > self.most {
            Ok(Part::TooLarge(self.most))
        } else if !self.ended {
            Ok(Part::More)
        } else if size == 0 {
            Ok(Part::End)
        } else {
            self.give(0, size, 0)
        }
    }

    // The next body behind its length.
    fn behind_length(&mut self) -> Result<Part, NoMemory>
        ensures part { IfOk result (λ part. part ≡ (behind_length self.old).0) }
        ensures new { OnOk result (self.new
            ≡ record self.old { rest = drop (behind_length self.old).1 self.old.rest }) }
    {
        let rest = &self.held[self.at..];
        if rest.len() < 4 {
            return Ok(self.cut_off(rest.is_empty()));
        }
        let mut octets = [0; 4];
        octets.copy_from_slice(&rest[..4]);
        let size = u32::from_be_bytes(octets) as usize;
        if size > self.most {
            Ok(Part::TooLarge(self.most))
        } else if rest.len() < size + 4 {
            Ok(self.cut_off(false))
        } else {
            self.give(4, size, 0)
        }
    }

    // What comes next where no whole body is there: whether no octet is.
    fn cut_off(&self, is_empty: bool) -> Part
        ensures { result ≡ (if self.now.ended then (if is_empty then End else Torn) else More) }
    {
        match (self.ended, is_empty) {
            (false, _) => Part::More,
            (true, true) => Part::End,
            (true, false) => Part::Torn,
        }
    }

    // Gives the body of so many octets that stands behind so many others, and before so many that end it.
    fn give(&mut self, before: usize, size: usize, after: usize) -> Result<Part, NoMemory>
        requires { before + size + after ≤ length self.old.rest }
        ensures part { IfOk result (λ part. part ≡ (body_at self.old before size (before + size + after)).0) }
        ensures new { OnOk result (self.new
            ≡ record self.old { rest = drop (body_at self.old before size (before + size + after)).1 self.old.rest }) }
    {
        if size > self.most {
            return Ok(Part::TooLarge(self.most));
        }
        let rest = &self.held[self.at..];
        let body = Payload::new(self.alloc, &rest[before..before + size])?;
        self.at += before + size + after;
        self.seen = 0;
        Ok(Part::Body(body))
    }
}
