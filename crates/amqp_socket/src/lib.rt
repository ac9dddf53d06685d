//! Sockets of the system as ports of an engine.
//!
//! A `MioPort` connects to one address over TCP and waits for the system by `mio`. It tells that time has
//! passed at least each 500 milliseconds, whatever else comes, and that there is room again after each
//! write of which the system took a part. What it waits for is ended by a `mio::Waker`. Where a `Watch` shows
//! it how its session stands, it bounds how long a connection is opened and closed.
#![tactic(auto)]

mod address;
mod alive;
mod held;
mod limits;
mod mio_port;
mod resolving;
mod watch;

pub use address::address_of;
pub use mio_port::MioPort;
pub use resolving::resolved;
pub use watch::{Cause, Standing, Watch, is_told_as_it_is};
