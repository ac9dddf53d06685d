//! Stories of an engine over ports in memory, line by line.
//!
//! What is expected stands in the standard and in recorded conversations, never in what the engine
//! gave. A frame is a text in hexadecimal, as `amqp_vectors` has them.
#![tactic(auto)]

#[cfg(test)]
mod accounts;
#[cfg(test)]
mod copies;
#[cfg(test)]
mod ends;
#[cfg(test)]
mod keeping;
#[cfg(test)]
mod links;
#[cfg(test)]
mod listening;
#[cfg(test)]
mod parts;
#[cfg(test)]
mod recovering;
#[cfg(test)]
mod runs;
#[cfg(test)]
mod sayings;
#[cfg(test)]
mod scripts;
#[cfg(test)]
mod story;
#[cfg(test)]
mod support;
#[cfg(test)]
mod turns;
