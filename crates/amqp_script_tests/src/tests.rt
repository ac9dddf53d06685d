//! What is expected stands in the standard and in scripts that were worked out by hand, never in what
//! this program printed.

mod checking;
mod computed;
mod ends;
mod generating;
mod handed;
mod joined;
mod limits;
mod lines;
mod memory;
mod replays;
mod streams;
