//! Tests of `amqp_judge`, where both sides come in pieces, of `amqp_resumed`, from each border of frames on, and of
//! what `amqp_double_port` says of clients that `amqp_double_socket` serves.
#![tactic(auto)]

#[cfg(test)]
mod judged;
#[cfg(test)]
mod rests;
#[cfg(test)]
mod served;
#[cfg(test)]
mod support;
