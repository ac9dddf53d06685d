//! Tests of `amqp_methods`. What is spelled, and what is read, was spelled by rabbitmq-c 0.11
//! (`amqp_encode_method`) of the same arguments.

mod heard;
mod properties;
mod said;
