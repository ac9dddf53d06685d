//! The bytes that are read, one after another.

ghost use Rattle.std.specs.Prelude.{◌≡◌};
ghost use Rattle.std.specs.Iterator.{YieldsFirst, item_count};
ghost use Rattle.amqp_ring.specs.Contexts.{context_bytes};
ghost use Rattle.amqp_ring.specs.Iterators.{bytes_left};

use crate::context::ParsingContext;

/// The bytes of a context in order.
#[derive(Drop)]
pub struct Elements<'a> {
    rest: ParsingContext<'a>,
}

impl<'a> ParsingContext<'a> {
    /// The bytes in order.
    pub fn iter_elements(&self) -> Elements<'a>
        ensures { bytes_left result ≡ context_bytes self.now }
    {
        Elements { rest: *self }
    }
}

impl Iterator for Elements<'_> {
    type Item = u8;

    ghost next_gives = { YieldsFirst bytes_left };

    ghost remaining = { item_count bytes_left };

    fn next(&mut self) -> Option<u8> {
        self.rest.next()
    }
}
