//! What holds of every buffer, and of all that is read in two pieces.

ghost use Rattle.std.specs.Prelude.{◌≡◌, ◌≢◌, ◌+◌, ◌++◌, ℕ, List, drop, length, max};
ghost use Rattle.amqp_frame.specs.declared.frame.Read.{Read};
ghost use Rattle.amqp_frame.specs.declared.frame.Read.TheVariants as read;
ghost use Rattle.amqp_frame.specs.FrameReading.{front, Yields};
ghost use Rattle.amqp_frame.specs.Fronts.{IsFront};
ghost use Rattle.amqp_ring.specs.Ring.{Ring, capacity, consumed, filled, written, rolled_back, grown, emptied};
ghost use Rattle.amqp_ring.specs.Changes.{Change, changes};

use crate::context::ParsingContext;
use amqp_frame::{Read, read_frame};
use std::alloc::Global;

/// A rollback to a checkpoint gives back the bytes that were kept there, whatever was filled,
/// written, grown and lent since then.
pub fn a_rollback_gives_what_was_kept()
    ensures { (b : Ring) (xs : List Change) → (rolled_back (length b.kept) (changes xs b)).kept ≡ b.kept }
{}

/// A buffer that grows keeps what it kept, and has the greater one of both capacities.
pub fn a_growth_keeps_what_is_kept()
    ensures kept { (b : Ring) (size : ℕ) → (grown size b).kept ≡ b.kept }
    ensures size { (b : Ring) (size : ℕ) → capacity (grown size b) ≡ max size (capacity b) }
{}

/// The capacity is the same after every other call.
pub fn only_growth_changes_the_capacity()
    ensures consumed { (b : Ring) (n : ℕ) → capacity (consumed n b) ≡ capacity b }
    ensures filled { (b : Ring) (n : ℕ) → capacity (filled n b) ≡ capacity b }
    ensures written { (b : Ring) (bytes : List ℕ) → capacity (written bytes b) ≡ capacity b }
    ensures rolled_back { (b : Ring) (n : ℕ) → capacity (rolled_back n b) ≡ capacity b }
    ensures emptied { (b : Ring) → capacity (emptied b) ≡ capacity b }
{}

/// A rest of what is kept stays, and nothing before it, once as many bytes are consumed as its offset.
pub fn a_rest_stays_kept()
    ensures { (b : Ring) (n offset : ℕ) → offset + length (drop n b.kept) ≡ length b.kept
        → (consumed offset b).kept ≡ drop n b.kept }
{}

/// What stands at the front of two slices is what stands at the front of their bytes joined.
pub fn read_in_pieces(alloc: Global, first: &[u8], second: &[u8], limit: u32) -> Read
    ensures holds { result ≢ Read.NoMemory → IsFront (first.now ++ second.now) limit result }
    ensures exact { Yields result (front (first.now ++ second.now) limit) }
{
    read_frame(alloc, &ParsingContext::from_slices(first, second), limit)
}
