//! Both ends of a link joined: an engine's port whose other end is a server double. How the double's
//! octets are cut, how much room the link has each time, and what the session is told to do, is a plan.
#![tactic(auto)]

mod inside;
mod joined_port;
mod marks;

pub use amqp_joining::Plan;
pub use joined_port::JoinedPort;
