//! What is inside a joined port.

ghost use Rattle.std.specs.Prelude.{◌≡◌, ◌≢◌, ◌≤◌, ◌<◌, ◌+◌, ◌-◌, ◌++◌, ◌∷◌, ◌==◌, ◌%◌, ◌&&◌, [], ℕ, List, length, drop, take, min, not, true, false, nat_lt, slice_index, vec_capacity, if◌then◌else◌};
ghost use Rattle.std.specs.Prelude.{Some, None, Err, IfOk, OnOk, OnErr};
ghost use Rattle.amqp_engine.specs.Counts.{is_fault};
ghost use Rattle.amqp_engine.specs.Log.{piece_bytes, IsPiece};
ghost use Rattle.amqp_engine.specs.Plan.{at_most_64};

use crate::marks::{Mark, Marked};
use amqp_double::{Double, DoubleFault};
use amqp_engine::{Step, Write, Wrote};
use amqp_joining::Plan;
use amqp_session::Cmd;
use amqp_types::NoMemory;
use std::alloc::Global;
use std::collections::VecDeque;

/// What is inside a joined port: how far its plan and its double are, and what it tells of that.
#[derive(Drop)]
pub struct Inside {
    pub alloc: Global,
    pub double: Double,
    pub plan: Plan,
    /// Which cut is taken next.
    pub cut_at: usize,
    /// Which room is taken next.
    pub room_at: usize,
    /// Copies of the commands that were not given.
    pub commands: VecDeque<Cmd>,
    /// The last close, where it was not given.
    pub close: Option<Cmd>,
    /// How much room the link has.
    pub room: u64,
    /// Whether the last write took less than was offered, and no room was told since.
    pub short: bool,
    /// Whether the link was told.
    pub linked: bool,
    /// Whether a link is asked for.
    pub asked: bool,
    /// How many steps had been told when one was asked for last.
    pub asked_at: Option<u64>,
    /// The steps that were told, but for ticks.
    pub marks: Vec<Mark>,
    /// How many steps were told, with the ticks.
    pub told: u64,
    /// The writes that were told.
    pub writes: Vec<Write>,
    /// What was taken.
    pub taken: Vec<u8>,
    /// How many octets had been taken when the link was told.
    pub link_at: usize,
}

impl Inside {
    ghost use Rattle.amqp_joining.specs.Joining.{place_after};
    ghost use Rattle.amqp_joined.specs.Ports.{last_close};
    ghost use Rattle.amqp_joined.specs.Insides.{join_of, output_of, Holds, TellsByRule, WritesByRule, Feeds, OnlyRoomier};

    /// A link is asked for.
    pub fn ask(&mut self)
        ensures { self.new ≡ record self.old {
          asked = true;
          asked_at = if self.old.asked then self.old.asked_at else Some self.old.told;
        } }
    {
        if !self.asked {
            self.asked_at = Some(self.told);
        }
        self.asked = true;
    }

    /// The next step. The octets of a piece stand at the front of the space.
    pub fn next(&mut self, space: &mut [u8]) -> Step
        requires holds { Holds self.old }
        requires space { 4096 ≤ length space.old }
        ensures tells { TellsByRule result (piece_bytes result space.new) self.old self.new }
        ensures piece { IsPiece result }
        ensures faultless { is_fault result ≡ false }
    {
        if self.wants_link() {
            self.link();
            return Step::Linked;
        }
        if self.short {
            self.more_room();
            return Step::Room;
        }
        if self.has_output() {
            return Step::Piece(self.piece(space));
        }
        self.command()
    }

    // Whether a link is asked for, and none was told.
    fn wants_link(&self) -> bool
        ensures { result ≡ (self.now.asked && not self.now.linked) }
    {
        self.asked && !self.linked
    }

    // Whether the double has something to tell.
    fn has_output(&self) -> bool
        ensures { result ≡ not (length (output_of self.now) == 0) }
    {
        !self.double.output().is_empty()
    }

    // The link is told, with the next room.
    fn link(&mut self)
        requires holds { Holds self.old }
        requires wanted { (self.old.asked && not self.old.linked) ≡ true }
        ensures { TellsByRule Step.Linked [] self.old self.new }
    {
        self.asked = false;
        self.linked = true;
        self.link_at = self.taken.len();
        self.add_room();
        self.mark(Marked::Linked);
    }

    // More room is told.
    fn more_room(&mut self)
        requires holds { Holds self.old }
        requires linked { (self.old.asked && not self.old.linked) ≡ false }
        requires short { self.old.short ≡ true }
        ensures { TellsByRule Step.Room [] self.old self.new }
    {
        self.add_room();
        self.mark(Marked::Room);
    }

    // The next piece is put at the front of the space, and told: how long it is.
    #[tactic(auto, using(crate::proofs::Steps::cut_most))]
    fn piece(&mut self, space: &mut [u8]) -> usize
        requires holds { Holds self.old }
        requires space { 4096 ≤ length space.old }
        requires linked { (self.old.asked && not self.old.linked) ≡ false }
        requires long { self.old.short ≡ false }
        requires some { (length (output_of self.old) == 0) ≡ false }
        ensures tells { TellsByRule (Step.Piece result) (take result space.new) self.old self.new }
        ensures piece { (1 ≤ result) × (result ≤ 4096) }
    {
        let count = self.put(space);
        let start = self.double.sent_len();
        self.double.sent(count);
        self.cut_at = after(self.cut_at, self.plan.cuts.as_slice().len());
        self.mark(Marked::Piece(start, count));
        count
    }

    // The next piece is put at the front of the space: how long it is.
    fn put(&self, space: &mut [u8]) -> usize
        requires cut { self.now.cut_at < length self.now.plan.cuts.numbers }
        requires most { slice_index self.now.plan.cuts.numbers self.now.cut_at ≤ 4096 }
        requires space { 4096 ≤ length space.old }
        ensures count { result ≡ min (length (output_of self.now))
            (slice_index self.now.plan.cuts.numbers self.now.cut_at) }
        ensures octets { take result space.new ≡ take result (output_of self.now) }
    {
        let output = self.double.output();
        let cut = self.plan.cuts.as_slice()[self.cut_at] as usize;
        let count = output.len().min(cut);
        space[..count].copy_from_slice(&output[..count]);
        count
    }

    // The next command is told, the last close behind them, and then ticks.
    #[tactic(auto, using(crate::proofs::Steps::place_command))]
    fn command(&mut self) -> Step
        requires holds { Holds self.old }
        requires linked { (self.old.asked && not self.old.linked) ≡ false }
        requires long { self.old.short ≡ false }
        requires none { (length (output_of self.old) == 0) ≡ true }
        ensures tells { TellsByRule result [] self.old self.new }
        ensures is { is_fault result ≡ false }
        ensures piece { IsPiece result }
        ensures octets { (octets : List ℕ) → piece_bytes result octets ≡ [] }
    {
        let number = self.plan.commands.len() - self.commands.len();
        match self.commands.pop_front() {
            Some(command) => {
                self.mark(Marked::Command(number));
                Step::Command(command)
            }
            None => self.close_or_tick(number),
        }
    }

    // The last close is told, and then ticks.
    #[tactic(auto, using(crate::proofs::Steps::place_close, crate::proofs::Steps::tells_tick))]
    fn close_or_tick(&mut self, number: usize) -> Step
        requires holds { Holds self.old }
        requires linked { (self.old.asked && not self.old.linked) ≡ false }
        requires long { self.old.short ≡ false }
        requires none { (length (output_of self.old) == 0) ≡ true }
        requires commands { self.old.commands.items ≡ [] }
        requires number { number ≡ length self.old.plan.commands.items }
        ensures tells { TellsByRule result [] self.old self.new }
        ensures is { is_fault result ≡ false }
        ensures piece { IsPiece result }
        ensures octets { (octets : List ℕ) → piece_bytes result octets ≡ [] }
    {
        match self.close.take() {
            Some(close) => {
                self.mark(Marked::Command(number));
                Step::Command(close)
            }
            None => {
                self.told = self.told.saturating_add(1);
                Step::Tick
            }
        }
    }

    // The next room is added.
    fn add_room(&mut self)
        requires { self.old.room_at < length self.old.plan.rooms.numbers }
        ensures { self.new ≡ record self.old {
          room = at_most_64 (self.old.room + slice_index self.old.plan.rooms.numbers self.old.room_at);
          room_at = place_after self.old.plan.rooms.numbers self.old.room_at;
          short = false;
        } }
    {
        let rooms = self.plan.rooms.as_slice();
        self.room = self.room.saturating_add(rooms[self.room_at]);
        self.room_at = after(self.room_at, rooms.len());
        self.short = false;
    }

    // A step is told, and marked.
    fn mark(&mut self, what: Marked)
        requires { length self.old.marks.items < vec_capacity self.old.marks }
        ensures same { self.new ≡ record self.old {
          marks = self.new.marks;
          told = at_most_64 (self.old.told + 1);
        } }
        ensures marks { self.new.marks.items
            ≡ self.old.marks.items ++ record { before = self.old.told; what = what } ∷ [] }
        ensures places { vec_capacity self.new.marks ≡ vec_capacity self.old.marks }
    {
        self.marks.push_reserved(Mark {
            before: self.told,
            what,
        });
        self.told = self.told.saturating_add(1);
    }

    /// Takes the first octets of both slices together, as many as there is room for, and feeds the double.
    #[tactic(auto, using(crate::proofs::Steps::writes_nothing))]
    pub fn write(&mut self, first: &[u8], second: &[u8]) -> Wrote
        requires { Holds self.old }
        ensures { WritesByRule (first.now ++ second.now) result self.old self.new }
    {
        let offered = first.len() + second.len();
        let count = fitting(self.room, offered);
        let Ok(octets) = front(self.alloc, first, second, count) else {
            return Wrote::NoMemory;
        };
        let fed = self.feed(&octets);
        drop(octets);
        if fed.is_err() {
            return Wrote::NoMemory;
        }
        self.room -= count as u64;
        self.short = count < offered;
        self.writes.push_reserved(Write {
            before: self.told,
            offered,
            answer: Wrote::Took(count),
        });
        Wrote::Took(count)
    }

    // The double is fed, where there is memory for that and for all that is told of it.
    fn feed(&mut self, octets: &[u8]) -> Result<(), NoMemory>
        ensures ok { OnOk result (Feeds octets.now self.old self.new) }
        ensures err { OnErr result (OnlyRoomier self.old self.new) }
    {
        let beside = self.commands.len() + 3;
        self.writes.reserve(1)?;
        self.taken.reserve(octets.len())?;
        if is_no_memory(self.double.feed_with(octets, &mut self.marks, beside)) {
            return Err(NoMemory);
        }
        // The memory was taken before, so this cannot be refused.
        let _ = self.taken.extend_from_slice(octets);
        Ok(())
    }
}

// The place after one in a list of so many, which is taken again from the front.
fn after(at: usize, count: usize) -> usize
    requires { at < count }
    ensures { result ≡ (at + 1) % count }
{
    (at + 1) % count
}

// The lesser of what is offered and the room.
fn fitting(room: u64, offered: usize) -> usize
    ensures { result ≡ min room offered }
{
    if room < offered as u64 {
        room as usize
    } else {
        offered
    }
}

// Whether a double found no memory.
fn is_no_memory(fed: Result<(), DoubleFault>) -> bool
    ensures { (result ≡ false → fed ≢ Err DoubleFault.NoMemory) × (result ≡ true → fed ≡ Err DoubleFault.NoMemory) }
{
    match fed {
        Err(DoubleFault::NoMemory) => true,
        _ => false,
    }
}

// The first octets of both slices together, so many of them.
fn front(alloc: Global, first: &[u8], second: &[u8], count: usize) -> Result<Vec<u8>, NoMemory>
    requires { count ≤ length first.now + length second.now }
    ensures { IfOk result (λ octets. octets.items ≡ take count (first.now ++ second.now)) }
{
    let of_first = count.min(first.len());
    let mut octets = Vec::from_slice(alloc, &first[..of_first])?;
    octets.extend_from_slice(&second[..count - of_first])?;
    Ok(octets)
}
