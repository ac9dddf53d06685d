//! Connections whose callers share an engine under a lock.
//!
//! A `Connection` keeps a `Hub` under one lock, which a loop on a thread of its own drives over a
//! port. Connections, channels and what waits for answers are handles on it: each call is one hold of
//! the lock. A handle that is let go says so to the loop.
#![tactic(auto)]

mod abandon;
mod builder;
mod changes;
mod channel;
mod connect;
mod connection;
mod errors;
mod frames;
mod listener;
mod live;
mod mio_spawner;
mod nudge;
mod patience;
mod pending;
mod reaching;
mod recovery;
mod room;
mod sending;
mod shared;
mod spawner;
mod status;
mod upkeep;

pub use amqp_hub::{Base, Ended, Entry, Hub, Owner, Pass, Receipt, Tally, Turn};
pub use amqp_socket::{Cause, Standing, Watch, resolved};
pub use builder::ConnectionBuilder;
pub use channel::Channel;
pub use connect::Connect;
pub use connection::Connection;
pub use errors::error_of_address;
pub use frames::NextFrames;
pub use listener::{EventsListener, NextEvent};
pub use live::{LoopJob, ThreadHandle};
pub use mio_spawner::MioSpawner;
pub use nudge::Nudge;
pub use pending::{Answered, Gives, Pending};
pub use reaching::Unreached;
pub use recovery::{Recovered, Recovery};
pub use room::UntilRoom;
pub use sending::UntilSent;
pub use spawner::{SpawnFault, Spawner, Started};
pub use status::{ChannelStatus, ConnectionStatus};
