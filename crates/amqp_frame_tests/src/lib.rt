//! Tests of what is made of frames: frames and their values by themselves, what a client may say of
//! them, and captures of a link.
#![tactic(auto)]

#[cfg(test)]
mod check;
#[cfg(test)]
mod legal;
#[cfg(test)]
mod wire;
