//! The program with both ends joined beside it. Asked to `double N`, it joins a client and a server double
//! over a link that is cut and has room by turns, opens N channels, publishes a message on each, and writes
//! how much was sent and answered. All other words are those of `amqp_program`.
#![tactic(auto)]

mod commands;
mod doubling;
mod summary;
mod top;
mod words;

pub use top::top_doubled;
