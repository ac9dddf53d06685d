//! An AMQP address and the texts of the SASL mechanisms: what a program is told of where and as whom
//! it connects. Contracts see an address as a function of the URL that its text parses to.
#![tactic(auto)]

mod authority;
mod credentials;
mod decoding;
mod fault;
mod mechanism;
mod query;
mod uri;

pub use authority::{AMQPAuthority, AMQPUserInfo};
pub use credentials::Credentials;
pub use fault::UriFault;
pub use mechanism::SASLMechanism;
pub use query::AMQPQuery;
pub use uri::AMQPUri;
