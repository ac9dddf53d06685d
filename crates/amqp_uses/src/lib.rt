//! Uses of sessions, engines, frames and tables, as a caller writes them, each proved. The first ones
//! to read are `open_over` and, by hand, `open_and_send`.
#![tactic(auto)]

mod callers;
mod carrying;
mod driving;
mod journal;
mod messages;
mod opening;
mod pooled;
mod pooling;
mod port;
mod table;
mod wire;

pub use callers::{
    channel, connected, count_blocking, frames_in_a_task, lasting, publish, publish_again,
    publish_as, publish_once, publish_with_room,
};
pub use carrying::tell_and_take;
pub use driving::{
    Came, Client, bodies_received, hear_next, new_client, open_and_send, opened, say_next,
};
pub use journal::{new_hub, open_and_settle};
pub use messages::{Delivery, next_delivery, publication_of, publish_text};
pub use opening::{Connection, open_over};
pub use pooled::publish_from_pool;
pub use pooling::{Begun, Finished, Sending, begin_message, finish_message};
pub use port::{Held, converse};
pub use table::{table_with, text_in};
pub use wire::{frame_in, octets_of};
