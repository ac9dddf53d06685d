//! What is noted of a turn.

ghost use Rattle.std.specs.Prelude.{◌≡◌, [], Some, false, IfOk};
ghost use Rattle.amqp_engine.specs.Turn.{no_notes, cut_notes};
ghost use Rattle.amqp_engine.specs.Noting.{notes_in};

use amqp_session::{Asked, AuthList};
use amqp_types::{NoMemory, Payload64};
use std::alloc::Global;
use std::marker::Model;
use std::mem;

/// What is noted of a turn, with spare places for what will be.
#[derive(Debug, Drop)]
pub(crate) struct Noted {
    alloc: Global,
    pub(crate) tooks: Payload64,
    pub(crate) failed: bool,
    pub(crate) auths: AuthList,
    pub(crate) starved: Option<u64>,
}

/// What is noted of a turn: what the port answered to its writes, what the provider answered, and
/// where memory was refused, how many of its parts were done. A place is made before each write and
/// each question.
#[derive(Debug, Drop)]
pub struct Record {
    noted: Noted,
}

impl Model for Record {
    ghost use Rattle.amqp_engine.specs.Turn.{Notes};

    ghost Value = { Notes };

    ghost use Rattle.amqp_engine.specs.Noting.{notes_in};

    ghost view = { λ r. notes_in r.noted };
}

impl Noted {
    // Nothing is noted. It takes no memory.
    pub(crate) fn new(alloc: Global) -> Noted
        ensures { notes_in result ≡ no_notes }
    {
        Noted {
            alloc,
            tooks: Payload64::empty(alloc),
            failed: false,
            auths: AuthList::new(alloc),
            starved: None,
        }
    }

    // Forgets all, and keeps the places.
    pub(crate) fn clear(&mut self)
        ensures { notes_in self.new ≡ no_notes }
    {
        let mut tooks = mem::replace(&mut self.tooks, Payload64::empty(self.alloc)).into_vec();
        tooks.clear();
        self.tooks = Payload64::from_vec(tooks);
        self.failed = false;
        self.auths.clear();
        self.starved = None;
    }
}

impl Record {
    /// Nothing is noted. It takes no memory.
    pub fn new(alloc: Global) -> Record
        ensures { result ≡ no_notes }
    {
        Record {
            noted: Noted::new(alloc),
        }
    }

    /// What is noted of a turn that was cut before its first part. It takes no memory.
    pub fn cut(alloc: Global) -> Record
        ensures { result ≡ cut_notes }
    {
        let mut noted = Noted::new(alloc);
        noted.starved = Some(0);
        Record { noted }
    }

    // Moves out what is noted.
    pub(crate) fn take(&mut self) -> Noted
        ensures { notes_in result ≡ self.old }
    {
        let alloc = self.noted.alloc;
        mem::replace(&mut self.noted, Noted::new(alloc))
    }

    // Moves in what is noted.
    pub(crate) fn put(&mut self, noted: Noted)
        ensures { self.new ≡ notes_in noted }
    {
        self.noted = noted;
    }

    /// An equal record.
    pub fn try_clone(&self, alloc: Global) -> Result<Record, NoMemory>
        ensures { IfOk result (λ r. r ≡ self.now) }
    {
        let tooks = self.noted.tooks.try_clone(alloc)?;
        let auths = self.noted.auths.try_clone(alloc)?;
        Ok(Record {
            noted: Noted {
                alloc,
                tooks,
                failed: self.noted.failed,
                auths,
                starved: self.noted.starved,
            },
        })
    }

    /// How many bytes each write took, in order.
    pub fn tooks(&self) -> &[u64]
        ensures { result.now ≡ self.now.tooks }
    {
        self.noted.tooks.as_slice()
    }

    /// Whether one more write failed.
    pub fn failed(&self) -> bool
        ensures { result ≡ self.now.failed }
    {
        self.noted.failed
    }

    /// What the provider answered, in order.
    pub fn auths(&self) -> &[Asked]
        ensures { result.now ≡ self.now.auths }
    {
        self.noted.auths.as_slice()
    }

    /// After how many of its parts the turn was cut, where memory was refused.
    pub fn starved(&self) -> Option<u64>
        ensures { result ≡ self.now.starved }
    {
        self.noted.starved
    }
}
