//! Tests of hubs, and of the pools over them, applied by hand over ports that play a script.
#![tactic(auto)]

#[cfg(test)]
mod hub;
#[cfg(test)]
mod leases;
#[cfg(test)]
mod memory;
#[cfg(test)]
mod support;
