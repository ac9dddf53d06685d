//! Tests of crates that each stand by themselves below a session: buffers, lanes and addresses.
#![tactic(auto)]

#[cfg(test)]
mod outbox;
#[cfg(test)]
mod ring;
#[cfg(test)]
mod uri;
