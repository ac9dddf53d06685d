//! Tests of `amqp_ring`.

mod buffers;
mod contexts;
mod memory;
mod steps;
