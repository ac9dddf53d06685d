//! Tests of `amqp_socket`, against listeners of the same process.

mod addresses;
mod links;
mod nudges;
mod quiet;
mod reaching;
mod seen;
mod times;
