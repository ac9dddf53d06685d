//! The names of messages that were printed, of the last ones.

ghost use Rattle.std.specs.Prelude.{◌≡◌, OnOk};
ghost use Rattle.amqp_tools.specs.Names.{no_names, has_name, keep_name, windowed, put_name};

use amqp_types::NoMemory;
use std::alloc::Global;
use std::collections::BTreeSet;
use std::marker::Model;
use std::mem;

/// How many names are kept at least. Twice as many are kept at most.
const WINDOW: usize = 65_536;

/// The names that were printed, in two parts: where the later is full, the earlier is let go.
#[derive(Drop)]
pub struct Once {
    alloc: Global,
    earlier: BTreeSet<Vec<u8>>,
    later: BTreeSet<Vec<u8>>,
}

impl Model for Once {
    ghost use Rattle.std.specs.Prelude.{map};
    ghost use Rattle.amqp_tools.specs.Names.{PrintedNames};

    ghost Value = { PrintedNames };

    ghost view = { λ o. record {
      earlier = map (λ n. n.items) o.earlier.keys;
      later = map (λ n. n.items) o.later.keys;
    } };
}

impl Once {
    /// None was printed.
    pub fn new(alloc: Global) -> Once
        ensures { result ≡ no_names }
    {
        Once {
            alloc,
            earlier: BTreeSet::new(alloc),
            later: BTreeSet::new(alloc),
        }
    }

    /// Whether a name is among those that are kept.
    pub fn has(&self, name: &[u8]) -> bool
        ensures { result ≡ has_name self.now name.now }
    {
        self.later.contains(name) || self.earlier.contains(name)
    }

    /// A message with this name was printed.
    pub fn keep(&mut self, name: &[u8]) -> Result<(), NoMemory>
        ensures { OnOk result (self.new ≡ keep_name name.now self.old) }
    {
        let name = Vec::from_slice(self.alloc, name)?;
        self.begin_window();
        self.put(name)
    }

    // Where the window is full another begins.
    fn begin_window(&mut self)
        ensures { self.new ≡ windowed self.old }
    {
        if self.later.len() < WINDOW {
            return;
        }
        self.earlier = mem::replace(&mut self.later, BTreeSet::new(self.alloc));
    }

    // One name more.
    fn put(&mut self, name: Vec<u8>) -> Result<(), NoMemory>
        ensures { OnOk result (self.new ≡ record self.old { later = put_name name.items self.old.later }) }
    {
        let _is_new = self.later.insert(name)?;
        Ok(())
    }
}
