//! Tests of `amqp_check`: captures and their verdicts, and what is told of the first frame that a
//! client may not say.

mod captures;
mod findings;
mod support;
