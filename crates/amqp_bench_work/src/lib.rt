//! What `amqp_bench` does so many times without a thread: body frames that are written or read in memory, sends and
//! publishes over a session that is driven call by call, sends over a hub, messages through an engine, and what a
//! server or a caller may do to an engine again and again.
#![tactic(auto)]

mod client;
mod driven;
mod feed;
pub mod growth;
pub mod publishes;
pub mod sends;
pub mod settled;
pub mod through;
pub mod wire;
