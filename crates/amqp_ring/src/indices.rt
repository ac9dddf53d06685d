//! The bytes that are read with their places, one after another.

ghost use Rattle.std.specs.Prelude.{◌<◌, ◌+◌, ◌^◌, length};
ghost use Rattle.amqp_ring.specs.Contexts.{context_bytes};

use crate::context::ParsingContext;

/// The pairs of a place and its byte in order, the places being counted from 0.
#[derive(Drop)]
pub struct Indices<'a> {
    place: usize,
    rest: ParsingContext<'a>,
    ghost fits: { place + length (context_bytes rest) < 2 ^ 64 },
}

impl<'a> ParsingContext<'a> {
    ghost use Rattle.std.specs.Prelude.{◌≡◌};
    ghost use Rattle.std.specs.List.{enumerate_from};
    ghost use Rattle.amqp_ring.specs.Iterators.{pairs_left};

    /// The pairs of a place and its byte in order, the places being counted from 0.
    pub fn iter_indices(&self) -> Indices<'a>
        ensures { pairs_left result ≡ enumerate_from 0 (context_bytes self.now) }
    {
        // Its clause says that the places fit.
        let _fits = self.input_len();
        Indices {
            place: 0,
            rest: *self,
        }
    }
}

impl Iterator for Indices<'_> {
    ghost use Rattle.std.specs.Iterator.{YieldsFirst, item_count};
    ghost use Rattle.amqp_ring.specs.Iterators.{pairs_left};

    type Item = (usize, u8);

    ghost next_gives = { YieldsFirst pairs_left };

    ghost remaining = { item_count pairs_left };

    fn next(&mut self) -> Option<(usize, u8)> {
        let byte = self.rest.next()?;
        let place = self.place;
        self.place += 1;
        Some((place, byte))
    }
}
