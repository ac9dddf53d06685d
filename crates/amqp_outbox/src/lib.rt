//! The outbox of a session: the frames that wait to go out, and the replies that are awaited.
//!
//! Frames wait in two lanes. The control lane overtakes the publish lane, whose groups go out
//! unbroken: once its first frame went, nothing stands before the rest of a group. Contracts see
//! an `Outbox` as plain lists, by the definition `queued`, and each call is its rule of `specs/`,
//! which its list `Lib.antt` gives in reading order.
#![tactic(auto)]

mod awaiting;
mod group;
mod item;
mod kinds;
mod lane;
mod numbers;
mod outbox;
mod replies;
mod reply;
mod scope;
mod tally;

pub use group::Group;
pub use item::Item;
pub use outbox::Outbox;
pub use reply::{Awaited, Reply};
pub use scope::Scope;
