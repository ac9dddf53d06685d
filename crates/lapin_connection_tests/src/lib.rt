//! Tests of what stands on threads and sockets: sockets as ports, a connection from end to end, and
//! the small callers to copy.
#![tactic(auto)]

#[cfg(test)]
mod live;
#[cfg(test)]
mod socket;
#[cfg(test)]
mod uses;
