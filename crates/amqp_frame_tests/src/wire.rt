//! Tests of `amqp_types` and `amqp_frame`, by subject. What only compares the frame that octets
//! spell with the expected one is a line of `amqp_script_rows`.

mod errors;
mod reading;
mod sequences;
mod strings;
mod support;
mod values;
mod writing;
