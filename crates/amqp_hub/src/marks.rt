//! Marks of what was let go: a handle that is dropped leaves its mark, and whoever keeps its place finds it.
//!
//! The box of a mark is made with its handle, and moved into a cell where the handle is dropped: that takes
//! no memory and waits for nobody. Each dropped handle also says at which place it is, and which was dropped
//! before it; so what is found costs as much as what was dropped, however many handles live.

ghost use Rattle.std.specs.Prelude.{◌≡◌, ◌<◌, ◌≤◌, ◌-◌, [], map, None, Some, slice_get, OnOk, OnSome, IfOk, IfNone, IfSome, length, vec_len, vec_capacity};
ghost use Rattle.std.specs.Arc.{arc_value};
ghost use Rattle.once_cell.specs.Once.{cell_name};
ghost use Rattle.amqp_hub.specs.Marks.{kept_in, cell_in, StandsAt, IsFound, IsReadThere};

use crate::due::Owner;
use amqp_types::NoMemory;
use once_cell::race::{Note, OnceBox};
use std::alloc::Global;
use std::mem;
use std::sync::Arc;
use std::sync::atomic::AtomicU64;
use std::sync::atomic::Ordering::SeqCst;

// What a dropped handle leaves: whether it was spent, and how many promises had been made once the last thing
// was sent with it, 0 where none was.
#[derive(Clone, Copy, Debug, PartialEq, Eq)]
struct Mark {
    spent: bool,
    sent: u64,
}

// What a handle and its place share: the cell of the mark, and the number of the place whose handle was
// dropped before this one. Places are numbered from 1 on; 0 is none.
#[derive(Drop)]
struct Spot {
    cell: OnceBox<Mark>,
    before: AtomicU64,
}

/// The mark of a handle. Where it is dropped, it is left at its place.
pub struct DropMark {
    last: Arc<AtomicU64>,
    spot: Arc<Spot>,
    number: u64,
    spent: AtomicU64,
    sent: AtomicU64,
    mark: Box<Mark>,
}

impl DropMark {
    /// The answer was given: nothing is done about it once its handle is dropped. Marks of connections and
    /// channels have nothing to spend.
    pub fn spend(&self) {
        self.spent.store(1, SeqCst);
    }

    /// Something was sent with this handle, by the command whose promise has this number. Marks of answers and
    /// of connections have nothing to say here.
    pub fn say_sent(&self, number: u64) {
        self.sent.store(number.saturating_add(1), SeqCst);
    }

    /// How many promises had been made once the last thing was sent with this handle, 0 where none was.
    pub fn sent(&self) -> u64 {
        self.sent.load(SeqCst)
    }
}

impl Drop for DropMark {
    fn drop(self) {
        let DropMark {
            last,
            spot,
            number,
            spent,
            sent,
            mut mark,
        } = self;
        mark.spent = spent.into_inner() != 0;
        mark.sent = sent.into_inner();
        let _ = spot.cell.set(mark);
        say_last(&last, &spot.before, number);
    }
}

// The number of the place that is looked at next: that of the chain, or the last whose handle was dropped, which
// then begins the chain.
fn dropped_next(last: &AtomicU64, next: u64) -> u64 {
    if next == 0 {
        last.swap(0, SeqCst)
    } else {
        next
    }
}

// The place of this number is the last whose handle was dropped; before it comes the one that was.
fn say_last(last: &AtomicU64, before: &AtomicU64, number: u64) {
    let mut seen = last.load(SeqCst);
    for _ in 0..u64::MAX {
        before.store(seen, SeqCst);
        match last.compare_exchange(seen, number, SeqCst, SeqCst) {
            Ok(_) => return,
            Err(now) => seen = now,
        }
    }
}

/// A mark that was found at its place.
#[derive(Drop)]
pub struct Found {
    mark: Mark,
    note: Note<Mark>,
    owner: Owner,
    ghost filled: { note.known ≡ Some mark },
}

impl Found {
    /// Whose mark it is.
    pub fn owner(&self) -> Owner
        ensures { result ≡ self.now.owner }
    {
        self.owner
    }

    /// Whether it is spent.
    pub fn is_spent(&self) -> bool
        ensures { result ≡ self.now.mark.spent }
    {
        self.mark.spent
    }

    /// How many promises had been made once the last thing was sent with its handle, 0 where none was.
    pub fn sent(&self) -> u64
        ensures { result ≡ self.now.mark.sent }
    {
        self.mark.sent
    }
}

// Where the mark of a handle is looked for.
#[derive(Drop)]
struct Place {
    spot: Arc<Spot>,
    owner: Owner,
}

impl Place {
    // The mark, where the handle was dropped.
    fn look(&self) -> Option<Found>
        ensures owner { IfSome result (λ found. found.owner ≡ self.now.owner) }
        ensures cell { IfSome result (λ found. found.note.cell ≡ cell_name (arc_value self.now.spot).cell) }
    {
        let mut note = self.spot.cell.note();
        let mark = match self.spot.cell.get_as(&mut note) {
            Some(mark) => *mark,
            None => return None,
        };
        Some(Found {
            mark,
            note,
            owner: self.owner,
        })
    }
}

// A place that a handle has, or one that is free, with the number of the next free one.
#[derive(Drop)]
enum Slot {
    Kept(Place),
    Free(u64),
}

/// What a mark and its place are made of, before it is known whose they are.
#[derive(Drop)]
pub struct Made {
    last: Arc<AtomicU64>,
    here: Arc<Spot>,
    there: Arc<Spot>,
    mark: Box<Mark>,
    ghost one: { arc_value there ≡ arc_value here },
}

/// The places of handles.
#[derive(Drop)]
pub struct Places {
    last: Arc<AtomicU64>,
    next: u64,
    free: u64,
    slots: Vec<Slot>,
}

impl Places {
    /// No place.
    pub fn new(alloc: Global) -> Result<Places, NoMemory>
        ensures { IfOk result (λ places. map kept_in places.slots.items ≡ []) }
    {
        Ok(Places {
            last: Arc::new(alloc, AtomicU64::new(0))?,
            next: 0,
            free: 0,
            slots: Vec::new(alloc),
        })
    }

    /// What a mark and its place are made of, and room for the place. Nothing can fail after it.
    pub fn make(&mut self, alloc: Global) -> Result<Made, NoMemory>
        ensures places { map kept_in self.new.slots.items ≡ map kept_in self.old.slots.items }
        ensures room { OnOk result (vec_len self.new.slots < vec_capacity self.new.slots) }
    {
        self.slots.reserve(1)?;
        let mark = Box::new(
            alloc,
            Mark {
                spent: false,
                sent: 0,
            },
        )?;
        let here = Arc::new(
            alloc,
            Spot {
                cell: OnceBox::new(alloc),
                before: AtomicU64::new(0),
            },
        )?;
        let there = Arc::try_clone(&here)?;
        let last = Arc::try_clone(&self.last)?;
        Ok(Made {
            last,
            here,
            there,
            mark,
        })
    }

    /// The mark of a handle with this owner, whose place is kept from now on.
    pub fn keep(&mut self, made: Made, owner: Owner) -> DropMark
        requires room { vec_len self.old.slots < vec_capacity self.old.slots }
        ensures stands { StandsAt result.number owner (map kept_in self.old.slots.items)
            (map kept_in self.new.slots.items) }
        ensures cell { slice_get (map cell_in self.new.slots.items) (result.number - 1)
            ≡ Some (Some (cell_name (arc_value result.spot).cell)) }
    {
        let Made {
            last,
            here,
            there,
            mark,
        } = made;
        let number = self.stand(Place { spot: here, owner });
        DropMark {
            last,
            spot: there,
            number,
            spent: AtomicU64::new(0),
            sent: AtomicU64::new(0),
            mark,
        }
    }

    // The place stands where one is free, else at the end. Its number.
    fn stand(&mut self, place: Place) -> u64
        requires room { vec_len self.old.slots < vec_capacity self.old.slots }
        ensures stands { StandsAt result place.owner (map kept_in self.old.slots.items)
            (map kept_in self.new.slots.items) }
        ensures cell { slice_get (map cell_in self.new.slots.items) (result - 1)
            ≡ Some (Some (cell_name (arc_value place.spot).cell)) }
    {
        let number = self.free;
        match self.free_after(number) {
            Some(next) => {
                self.free = next;
                self.slots[number as usize - 1] = Slot::Kept(place);
                number
            }
            None => {
                self.slots.push_reserved(Slot::Kept(place));
                self.slots.len() as u64
            }
        }
    }

    // The number of the free place after this one, where this one is free.
    fn free_after(&self, number: u64) -> Option<u64>
        ensures within { OnSome result ((0 < number) × (number ≤ vec_len self.now.slots)) }
        ensures free { OnSome result (slice_get (map kept_in self.now.slots.items) (number - 1) ≡ Some None) }
    {
        if number == 0 || number > self.slots.len() as u64 {
            return None;
        }
        match &self.slots[number as usize - 1] {
            Slot::Free(next) => Some(*next),
            Slot::Kept(_) => None,
        }
    }

    /// The mark of a handle that was dropped, where there is one, the last dropped first. Its place is free
    /// from now on.
    #[tactic(auto, using(crate::proofs::Standing::is_found, crate::proofs::Standing::is_read))]
    pub fn find(&mut self) -> Option<Found>
        ensures found { IfSome result (λ found. IsFound found.owner (map kept_in self.old.slots.items)
            (map kept_in self.new.slots.items)) }
        ensures mark { IfSome result (λ found. IsReadThere found.owner found.note.cell self.old.slots.items
            self.new.slots.items) }
        ensures none { IfNone result (map kept_in self.new.slots.items ≡ map kept_in self.old.slots.items) }
    {
        let number = dropped_next(&self.last, self.next);
        if number == 0 || number > self.slots.len() as u64 {
            self.next = 0;
            return None;
        }
        let at = number as usize - 1;
        match self.look_at(at) {
            Some((found, before)) => {
                self.next = before;
                self.slots[at] = Slot::Free(self.free);
                self.free = number;
                Some(found)
            }
            None => {
                self.next = 0;
                None
            }
        }
    }

    // The mark at the place of this index, and the number of the place whose handle was dropped before.
    fn look_at(&self, at: usize) -> Option<(Found, u64)>
        requires { at < vec_len self.now.slots }
        ensures owner { IfSome result (λ r. slice_get (map kept_in self.now.slots.items) at ≡ Some (Some r.0.owner)) }
        ensures cell { IfSome result (λ r. slice_get (map cell_in self.now.slots.items) at
            ≡ Some (Some r.0.note.cell)) }
    {
        match &self.slots[at] {
            Slot::Kept(place) => match place.look() {
                Some(found) => Some((found, place.spot.before.load(SeqCst))),
                None => None,
            },
            Slot::Free(_) => None,
        }
    }

    /// How many places there are, free ones too.
    pub fn count(&self) -> usize
        ensures { result ≡ length (map kept_in self.now.slots.items) }
    {
        self.slots.len()
    }
}
