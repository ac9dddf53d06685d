//! The outbox.

ghost use Rattle.std.specs.Prelude.{◌≡◌, ◌++◌, length};
ghost use Rattle.amqp_outbox.specs.Items.{octets_of, items_of_groups};
ghost use Rattle.amqp_outbox.specs.Order.{waiting};

mod dropping;
mod lanes;
mod replies;

use crate::awaiting::Awaiting;
use crate::group::Group;
use crate::item::Item;
use crate::lane::Lane;
use crate::tally::Tally;
use std::alloc::Global;
use std::collections::VecDeque;

/// The frames that wait to go out, and the replies that are awaited.
///
/// A call that adds takes memory, which can be refused; nothing is changed then. Where several
/// things are to be added or none, places are made for them first, by the calls `reserve_`, and
/// those that end in `_reserved` take no memory. Memory is refused too where more would wait than 64
/// bits can count.
#[derive(Debug, Drop)]
pub struct Outbox {
    alloc: Global,
    control: Lane<Item>,
    publish: Lane<Group>,
    begun: VecDeque<Item>,
    awaiting: Awaiting,
    /// How much waits in the two lanes and of the begun group.
    tally: Tally,
    ghost counted: { tally.frames
        ≡ length (begun.items ++ waiting control.slots.entries ++ items_of_groups (waiting publish.slots.entries)) },
    ghost measured: { tally.octets
        ≡ octets_of (begun.items ++ waiting control.slots.entries ++ items_of_groups (waiting publish.slots.entries)) },
}
