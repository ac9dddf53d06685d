//! Tests of a connection from end to end, whose server is a list of what it hears and says.

mod lines;
mod server;
