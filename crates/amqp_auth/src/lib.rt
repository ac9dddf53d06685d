//! Authentication: who answers what a server asks of its client to let it in (AMQP 0-9-1, 4.2 of its
//! reference: connection.start and connection.secure), and the lists of those answers.
//!
//! An `AuthProvider` names a mechanism of SASL and answers by it. The one that goes by an address and
//! the one that goes by tokens are here; a caller may have its own.
#![tactic(auto)]

mod asked;
mod asking;
mod auth_list;
mod choice;
mod default_provider;
mod default_tokens;
mod provider;
mod token_auth;
mod tokens;

pub use asked::{Asked, Question, Refusal};
pub use asking::{ask_challenge, ask_mechanism, ask_refresh, ask_starter, ask_valid_for};
pub use auth_list::AuthList;
pub use choice::{HandedProvider, ProviderChoice};
pub use default_provider::DefaultAuthProvider;
pub use default_tokens::DefaultTokenProvider;
pub use provider::AuthProvider;
pub use token_auth::TokenAuthProvider;
pub use tokens::TokenProvider;
