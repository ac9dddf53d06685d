//! Tests of `amqp_promise`.
#![tactic(auto)]

#[cfg(test)]
mod cells;
#[cfg(test)]
mod errors;
#[cfg(test)]
mod memory;
#[cfg(test)]
mod promises;
#[cfg(test)]
mod support;
#[cfg(test)]
mod threads;
