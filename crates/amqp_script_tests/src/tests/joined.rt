//! Tests of `amqp_joined`: an engine and a double, joined by plans; and what an engine says to a double,
//! frame by frame.

mod ends;
mod linked;
mod said;
mod words;
