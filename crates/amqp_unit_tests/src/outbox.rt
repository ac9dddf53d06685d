//! Tests of `amqp_outbox`.

mod copies;
mod counts;
mod lanes;
mod refusals;
mod replies;
mod steps;
mod support;
