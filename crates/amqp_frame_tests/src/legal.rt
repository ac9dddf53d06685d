//! Tests of `amqp_legal`: conversations in rows, and what a speech tells of what was said in it.

mod channels;
mod contents;
mod introductions;
mod speeches;
mod support;
