//! Which messages of a queue were printed, acknowledged, and are known to be acknowledged.

ghost use Rattle.std.specs.Prelude.{◌≡◌, ◌≢◌, ◌⊎◌, ◌||◌, nat_lt, true, false, None, IfOk, OnOk, Err, length, option_map};
ghost use Rattle.amqp_tools.specs.Taking.{nothing_taken, left, still_unsent, may_come_again, is_done, standing};
ghost use Rattle.amqp_tools.specs.Taking.{settled_unknown, settled_all, found_again, looked_at};
ghost use Rattle.amqp_tools.specs.Taking.{coming_by, coming_at, come_by, come_as, name_in, is_none_left, steps_of};
ghost use Rattle.amqp_tools.specs.Tags.{may};
ghost use Rattle.amqp_tools.specs.Acknowledged.{Does, beginning, is_known, kept_with};
ghost use Rattle.amqp_tools.specs.Sink.{give_more, delimited, count_faults, HasNoLength};
ghost use Rattle.amqp_tools.specs.declared.taking.Coming.TheVariants.{Wanted, Named};
ghost use Rattle.amqp_tools.specs.declared.tags.Deed.TheVariants.{Printed};

mod acknowledging;

use crate::framing::Framing;
use crate::marks::{Mark, mark_of, take_out};
use crate::once::Once;
use crate::sink::{Sink, print};
use crate::tags::Tags;
use amqp_types::NoMemory;
use std::alloc::Global;
use std::marker::Model;

/// What was done with a delivery.
#[derive(Clone, Copy, Debug, PartialEq, Eq)]
pub enum Coming {
    /// It was printed.
    Wanted,
    /// It was not, since a message of its name was. It is acknowledged too.
    Named,
    /// It was not: as many as are wanted were printed.
    Unwanted,
    /// The broker broke off its numbers, which go upwards.
    Astray,
}

/// Why a message could not be taken. Nothing is known then of what was done.
#[derive(Clone, Copy, Debug, PartialEq, Eq)]
pub enum Untaken {
    /// The sink failed.
    Unwritten,
    /// Memory was refused.
    NoMemory,
}

impl From<NoMemory> for Untaken {
    ghost use Rattle.std.specs.Prelude.{◌≡◌};
    ghost use Rattle.amqp_tools.specs.declared.taking.Untaken.TheVariants as why;

    ghost from_gives = { λ _ e. e ≡ why.NoMemory };

    fn from(_refused: NoMemory) -> Untaken {
        Untaken::NoMemory
    }
}

/// A delivery that is whole.
#[derive(Clone, Copy)]
pub struct Delivery<'a> {
    pub tag: u64,
    /// Whether the broker says that it may have delivered the message before.
    pub redelivered: bool,
    /// The name by which a message is told that was printed, where it has one.
    pub name: Option<&'a [u8]>,
    pub body: &'a [u8],
}

/// The messages that were taken of a queue, over one link after another.
#[derive(Drop)]
pub struct Taking {
    // how many are wanted; any number where it is not said
    wanted: Option<u64>,
    // how many are known to be acknowledged
    counted: u64,
    // how far the deliveries of this link are
    tags: Tags,
    // those that were printed on this link and not acknowledged
    printed: Vec<Mark>,
    // those whose acknowledgement was sent on this link, and how many of them the broker is asked for
    sent: Vec<Mark>,
    asked: usize,
    // those whose acknowledgement was sent on a link that was lost before the broker answered for it
    unknown: Vec<Mark>,
    // those that were printed on a lost link, and not acknowledged
    lost: Vec<Mark>,
    // those that are known to be acknowledged on this link, of the last ones, and the same of lost links
    known: Vec<Mark>,
    past: Vec<Mark>,
    // how many came again
    again: u64,
    // the names of those that were printed
    once: Once,
}

impl Model for Taking {
    ghost use Rattle.amqp_tools.specs.Taking.{Taken};

    ghost Value = { Taken };

    ghost view = { λ t. record {
      wanted = t.wanted;
      counted = t.counted;
      tags = t.tags;
      printed = t.printed.items;
      sent = t.sent.items;
      asked = t.asked;
      unknown = t.unknown.items;
      lost = t.lost.items;
      known = t.known.items;
      past = t.past.items;
      again = t.again;
      names = t.once;
    } };
}

impl Taking {
    /// None was taken of so many that are wanted.
    pub fn new(alloc: Global, wanted: Option<u64>) -> Taking
        ensures taken { result ≡ nothing_taken wanted }
        ensures begins { standing result ≡ beginning }
    {
        Taking {
            wanted,
            counted: 0,
            tags: Tags::new(),
            printed: Vec::new(alloc),
            sent: Vec::new(alloc),
            asked: 0,
            unknown: Vec::new(alloc),
            lost: Vec::new(alloc),
            known: Vec::new(alloc),
            past: Vec::new(alloc),
            again: 0,
            once: Once::new(alloc),
        }
    }

    /// How many more may be printed: those that are wanted without those that were printed on this link, and
    /// without those of which it is not known whether they are acknowledged. Any number where none is said.
    pub fn left(&self) -> Option<u64>
        ensures { result ≡ left self.now }
    {
        let wanted = self.wanted?;
        let taken = self
            .counted
            .saturating_add(self.sent.len() as u64)
            .saturating_add(self.printed.len() as u64)
            .saturating_add(self.unknown.len() as u64);
        Some(wanted.saturating_sub(taken))
    }

    /// How many are wanted that are neither known to be acknowledged nor sent to be on this link.
    pub fn unsent(&self) -> Option<u64>
        ensures { result ≡ still_unsent self.now }
    {
        let wanted = self.wanted?;
        Some(wanted.saturating_sub(self.counted.saturating_add(self.sent.len() as u64)))
    }

    /// Whether some that were counted on a lost link may come again, since the broker may have forgotten that they
    /// were acknowledged.
    pub fn may_come_again(&self) -> bool
        ensures { result ≡ may_come_again self.now }
    {
        !self.past.is_empty()
    }

    /// Whether as many as are wanted are known to be acknowledged, and none of them may come again.
    pub fn is_done(&self) -> bool
        ensures { result ≡ is_done self.now }
    {
        match self.wanted {
            Some(wanted) => self.counted >= wanted && !self.may_come_again(),
            None => false,
        }
    }

    /// How many are known to be acknowledged.
    pub fn counted(&self) -> u64
        ensures { result ≡ self.now.counted }
    {
        self.counted
    }

    /// How many came again.
    pub fn again(&self) -> u64
        ensures { result ≡ self.now.again }
    {
        self.again
    }

    /// Of how many it is not known whether they are acknowledged.
    pub fn unknown(&self) -> usize
        ensures { result ≡ length self.now.unknown }
    {
        self.unknown.len()
    }

    /// A delivery came: it is printed where it is wanted, and no message of its name was printed.
    pub fn come<S: Sink>(
        &mut self,
        sink: &mut S,
        framing: Framing,
        delivery: Delivery<'_>,
    ) -> Result<Coming, Untaken>
        ensures what { IfOk result (λ what. what ≡ coming_by delivery.entry self.old) }
        ensures new { OnOk result (self.new ≡ come_by delivery.entry self.old) }
        ensures printed { IfOk result (λ what. what ≡ Wanted
            → S.page sink.new ≡ option_map (give_more (delimited framing delivery.entry.body.now)) (S.page sink.old)) }
        ensures other { IfOk result (λ what. what ≢ Wanted → S.page sink.new ≡ S.page sink.old) }
        ensures does { IfOk result (λ what. Does (standing self.old)
            (steps_of what delivery.entry.tag (name_in delivery.entry)) (standing self.new)) }
        ensures unwritten { result ≡ Err Untaken.Unwritten
            → (S.faults sink.new ≡ count_faults false (S.faults sink.old))
            ⊎ HasNoLength framing delivery.entry.body.now }
    {
        if !self.tags.may_come(delivery.tag) {
            return Ok(Coming::Astray);
        }
        let mark = mark_of(delivery.body);
        self.look(delivery.redelivered, mark)?;
        self.take(sink, framing, delivery, mark)
    }

    // Whether nothing more is printed on this link.
    fn is_over(&self) -> bool
        ensures { result ≡ (is_none_left (left self.now) || self.now.tags.passed) }
    {
        match self.left() {
            Some(0) => true,
            _ => self.tags.has_passed(),
        }
    }

    // Takes a delivery whose tag is above the last.
    fn take<S: Sink>(
        &mut self,
        sink: &mut S,
        framing: Framing,
        delivery: Delivery<'_>,
        mark: Mark,
    ) -> Result<Coming, Untaken>
        requires { nat_lt self.old.tags.last delivery.tag ≡ true }
        ensures what { IfOk result (λ what. what ≡ coming_at (name_in delivery.entry) self.old) }
        ensures new { IfOk result (λ what. self.new
            ≡ come_as what delivery.entry.tag mark (name_in delivery.entry) self.old) }
        ensures printed { IfOk result (λ what. what ≡ Wanted
            → S.page sink.new ≡ option_map (give_more (delimited framing delivery.entry.body.now)) (S.page sink.old)) }
        ensures other { IfOk result (λ what. what ≢ Wanted → S.page sink.new ≡ S.page sink.old) }
        ensures unwritten { result ≡ Err Untaken.Unwritten
            → (S.faults sink.new ≡ count_faults false (S.faults sink.old))
            ⊎ HasNoLength framing delivery.entry.body.now }
    {
        if self.is_over() {
            self.tags.pass_over(delivery.tag);
            return Ok(Coming::Unwanted);
        }
        if self.is_known(delivery.name) {
            self.know(delivery.tag, mark)?;
            return Ok(Coming::Named);
        }
        self.print_new(sink, framing, delivery, mark)?;
        Ok(Coming::Wanted)
    }

    // The delivery with this tag and this mark is not printed, as a message of its name was.
    fn know(&mut self, tag: u64, mark: Mark) -> Result<(), NoMemory>
        requires { may self.old.tags (Printed tag) ≡ true }
        ensures { OnOk result (self.new ≡ come_as Named tag mark None self.old) }
    {
        if self.printed.push(mark).is_err() {
            return Err(NoMemory);
        }
        self.tags.print(tag);
        Ok(())
    }

    // A delivery with this mark is printed.
    fn print_new<S: Sink>(
        &mut self,
        sink: &mut S,
        framing: Framing,
        delivery: Delivery<'_>,
        mark: Mark,
    ) -> Result<(), Untaken>
        requires { may self.old.tags (Printed delivery.tag) ≡ true }
        ensures new { OnOk result (self.new
            ≡ come_as Wanted delivery.entry.tag mark (name_in delivery.entry) self.old) }
        ensures printed { OnOk result
            (S.page sink.new ≡ option_map (give_more (delimited framing delivery.entry.body.now)) (S.page sink.old)) }
        ensures unwritten { result ≡ Err Untaken.Unwritten
            → (S.faults sink.new ≡ count_faults false (S.faults sink.old))
            ⊎ HasNoLength framing delivery.entry.body.now }
    {
        self.know(delivery.tag, mark)?;
        if !print(sink, framing, delivery.body) {
            return Err(Untaken::Unwritten);
        }
        self.keep(delivery.name)?;
        Ok(())
    }

    // Whether a message of this name was printed.
    fn is_known(&self, name: Option<&[u8]>) -> bool
        ensures { result ≡ is_known self.now.names (option_map (λ n. n.now) name.entry) }
    {
        match name {
            Some(name) => self.once.has(name),
            None => false,
        }
    }

    // A message of this name was printed.
    fn keep(&mut self, name: Option<&[u8]>) -> Result<(), NoMemory>
        ensures { OnOk result (self.new ≡ record self.old {
          names = kept_with (option_map (λ n. n.now) name.entry) self.old.names;
        }) }
    {
        match name {
            Some(name) => self.once.keep(name),
            None => Ok(()),
        }
    }

    // What a delivery tells of others. One that is none of those whose acknowledgement is not known says that they
    // are acknowledged: the broker delivers what comes again first, and in order.
    fn look(&mut self, redelivered: bool, mark: Mark) -> Result<(), NoMemory>
        ensures { OnOk result (self.new ≡ looked_at redelivered mark self.old) }
    {
        if redelivered && take_out(&mut self.unknown, mark) {
            self.again = self.again.saturating_add(1);
            return Ok(());
        }
        self.settle()?;
        if redelivered {
            self.find(mark);
        } else {
            self.lost.clear();
            self.past.clear();
        }
        Ok(())
    }

    // A message with this mark came that may have come before. Where it was counted, its acknowledgement was forgotten.
    fn find(&mut self, mark: Mark)
        ensures { self.new ≡ found_again mark self.old }
    {
        if take_out(&mut self.lost, mark) {
            self.again = self.again.saturating_add(1);
        } else if take_out(&mut self.past, mark) {
            self.counted = self.counted.saturating_sub(1);
            self.again = self.again.saturating_add(1);
        } else {
            self.past.clear();
        }
    }

    /// Nothing comes again: what is not known counts as acknowledged. Where memory is refused, nothing is known of what
    /// was done.
    pub fn settle_all(&mut self) -> Result<(), NoMemory>
        ensures { OnOk result (self.new ≡ settled_all self.old) }
    {
        self.settle()?;
        self.past.clear();
        Ok(())
    }

    // What is not known counts as acknowledged, as far as is known yet.
    fn settle(&mut self) -> Result<(), NoMemory>
        ensures { OnOk result (self.new ≡ settled_unknown self.old) }
    {
        self.past.extend_from_slice(&self.unknown)?;
        self.counted = self.counted.saturating_add(self.unknown.len() as u64);
        self.unknown.clear();
        Ok(())
    }
}
