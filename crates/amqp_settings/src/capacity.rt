//! How many bytes can be unsent.

ghost use Rattle.std.specs.Prelude.{◌≡◌, ◌<◌, ◌≤◌, ◌^◌, max};
ghost use Rattle.amqp_settings.specs.Capacities.{frame_min_size, greatest_capacity, capacity_for};
ghost use Rattle.amqp_settings.specs.Config.{own_numbers};

use crate::configuration::{FRAME_MIN_SIZE, own_numbers};
use amqp_types::FrameSize;
use amqp_uri::AMQPUri;
use std::marker::Model;

/// The fewest bytes that can be unsent, however short a frame may be.
pub const LEAST_CAPACITY: u64 = 131_072;

/// The most bytes that can be unsent, however long a frame may be: 128 MiB.
const GREATEST_CAPACITY: u64 = 134_217_728;

/// For how many of the longest frames there is room.
const FRAMES: u64 = 32;

/// How many bytes can be unsent. It is the length of a buffer, and 32 bits can say it, as they say the
/// length of a frame; the least frame that every peer takes fits.
#[derive(Drop)]
pub struct Capacity {
    octets: u64,
}

impl Model for Capacity {
    ghost use Rattle.std.specs.Prelude.{ℕ, ◌<◌, ◌≤◌, ◌^◌};
    ghost use Rattle.amqp_settings.specs.Capacities.{frame_min_size};

    ghost Value = { ℕ };

    ghost view = { λ c. c.octets };

    ghost invariant = { λ c. (c.octets < 2 ^ 32) × (frame_min_size ≤ c.octets) };
}

impl Capacity {
    /// The capacity for frames of at most so many octets.
    pub fn of(frame_max: FrameSize) -> Capacity
        ensures { result ≡ capacity_for frame_max }
    {
        Capacity {
            octets: capacity_for(frame_max),
        }
    }

    /// The same capacity.
    pub fn copied(&self) -> Capacity
        ensures { result ≡ self.now }
    {
        Capacity {
            octets: self.octets,
        }
    }

    /// The capacity for frames of at most so many octets, and never less than it was.
    pub fn grown(&self, frame_max: FrameSize) -> Capacity
        ensures { result ≡ max self.now (capacity_for frame_max) }
    {
        Capacity {
            octets: self.octets.max(capacity_for(frame_max)),
        }
    }

    /// How many octets that is.
    pub fn octets(&self) -> u64
        ensures octets { result ≡ self.now }
        ensures small { result < 2 ^ 32 }
        ensures large { frame_min_size ≤ result }
    {
        self.octets
    }
}

// How many bytes can be unsent where a frame has at most so many octets.
fn capacity_for(frame_max: FrameSize) -> u64
    ensures capacity { result ≡ capacity_for frame_max }
    ensures least { LEAST_CAPACITY ≤ result }
    ensures within { result ≤ greatest_capacity }
{
    let longest = frame_max.max(FRAME_MIN_SIZE) as u64;
    (FRAMES * longest).min(GREATEST_CAPACITY)
}

/// How many bytes can be unsent on a connection to this address, before the server says how long a
/// frame may be.
pub fn initial_capacity(uri: &AMQPUri) -> u64
    ensures capacity { result ≡ capacity_for (own_numbers uri.now.query).frame_max }
    ensures least { LEAST_CAPACITY ≤ result }
    ensures small { result < 2 ^ 32 }
{
    capacity_for(own_numbers(&uri.query).frame_max)
}
