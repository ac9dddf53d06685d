//! Tests of `amqp_uri`.

mod addresses;
mod computed;
mod copies;
mod faults;
mod login;
mod memory;
mod queries;
mod support;
