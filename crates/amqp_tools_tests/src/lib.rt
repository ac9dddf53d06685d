//! Tests of `amqp_tools`, and of `amqp_methods`, which it stands on. Payloads were spelled by rabbitmq-c
//! 0.11 (`amqp_encode_method`).
#![tactic(auto)]

#[cfg(test)]
mod arriving;
#[cfg(test)]
mod confirms;
#[cfg(test)]
mod methods;
#[cfg(test)]
mod taking;
#[cfg(test)]
mod wanted;
