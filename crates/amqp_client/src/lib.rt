//! What the program at a broker does that has one connection with one channel: it opens both, sends methods, hears
//! what comes, links again where a link is lost, and says why it went no further.
#![tactic(auto)]

mod client;
mod closing;
mod links;
mod own;
mod stop;
mod words;

pub use client::{Client, LIMIT, Next, within};
pub use links::Links;
pub use own::{Own, Told};
pub use stop::{Stop, explain};
pub use words::{address, short, words_given};
