//! How much waits.

ghost use Rattle.std.specs.Prelude.{◌≡◌, ◌+◌, ◌<◌, ◌≤◌, ◌^◌, ◌↔◌, length, IsTrue};
ghost use Rattle.amqp_outbox.specs.Items.{size_of, octets_of};

use crate::group::Group;
use crate::item::Item;

/// How many frames wait, and how many octets spell them.
#[derive(Clone, Copy, Debug)]
pub struct Tally {
    pub frames: u64,
    pub octets: u64,
}

impl Tally {
    /// Nothing waits.
    pub fn none() -> Tally
        ensures frames { result.frames ≡ 0 }
        ensures octets { result.octets ≡ 0 }
    {
        Tally {
            frames: 0,
            octets: 0,
        }
    }

    /// Whether so many frames more, of so many octets in all, can be counted.
    pub fn has_room(&self, frames: u64, octets: u64) -> bool
        ensures { IsTrue result ↔ (self.now.frames + frames < 2 ^ 64) × (self.now.octets + octets < 2 ^ 64) }
    {
        frames <= u64::MAX - self.frames && octets <= u64::MAX - self.octets
    }

    /// A frame more waits.
    pub fn add(&mut self, item: &Item)
        requires frames { self.old.frames + 1 < 2 ^ 64 }
        requires octets { self.old.octets + size_of item.now < 2 ^ 64 }
        ensures frames { self.new.frames ≡ self.old.frames + 1 }
        ensures octets { self.new.octets ≡ self.old.octets + size_of item.now }
    {
        self.frames += 1;
        self.octets += item.encoded_len();
    }

    /// A frame no longer waits.
    pub fn take(&mut self, item: &Item)
        requires frames { 1 ≤ self.old.frames }
        requires octets { size_of item.now ≤ self.old.octets }
        ensures frames { self.new.frames + 1 ≡ self.old.frames }
        ensures octets { self.new.octets + size_of item.now ≡ self.old.octets }
    {
        self.frames -= 1;
        self.octets -= item.encoded_len();
    }

    /// The frames of a group wait.
    pub fn add_group(&mut self, group: &Group)
        requires frames { self.old.frames + length group.now < 2 ^ 64 }
        requires octets { self.old.octets + octets_of group.now < 2 ^ 64 }
        ensures frames { self.new.frames ≡ self.old.frames + length group.now }
        ensures octets { self.new.octets ≡ self.old.octets + octets_of group.now }
    {
        self.frames += group.len();
        self.octets += group.octets();
    }

    /// The frames of a group no longer wait.
    pub fn take_group(&mut self, group: &Group)
        requires frames { length group.now ≤ self.old.frames }
        requires octets { octets_of group.now ≤ self.old.octets }
        ensures frames { self.new.frames + length group.now ≡ self.old.frames }
        ensures octets { self.new.octets + octets_of group.now ≡ self.old.octets }
    {
        self.frames -= group.len();
        self.octets -= group.octets();
    }
}
