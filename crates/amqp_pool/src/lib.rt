//! A pool of channels over one connection: at most so many, each used by one caller at a time.
//!
//! A `Pool` leases channels out. `Pool::lease` gives one that is open and idle, or else opens one more,
//! or says that the pool is full. `Pool::collect` takes the answers to what was opened. A `Lease` is
//! neither copied nor dropped: it ends where it is given back. A channel that was lost is never leased
//! again.
#![tactic(auto)]

mod closing;
mod collecting;
mod laws;
mod lease;
mod looking;
mod pool;

pub use laws::{a_lost_channel_stays_lost, promises_of_a_pool_are_below};
pub use lease::{Back, Lease, Leased};
pub use pool::Pool;
