//! What the program at a broker knows beside its connection: what its words ask for, which publishes the
//! broker has not answered, what its methods tell, and the message that arrives.
#![tactic(auto)]

mod arriving;
mod confirms;
mod framing;
mod front;
mod heard;
mod laws;
mod marks;
mod once;
mod options;
mod sink;
pub mod status;
mod tags;
mod taking;
mod wanted;

pub use arriving::{Arriving, Stage, size_in};
pub use confirms::{Confirms, Open, each_is_answered_or_not};
pub use framing::{Bodies, Framing, Part};
pub use heard::{Heard, told_by};
pub use laws::what_is_acknowledged_was_printed;
pub use marks::{Mark, mark_of};
pub use once::Once;
pub use options::{Given, Opt, Words, are_of, has, value_of, words_of};
pub use sink::{MemorySink, Sink, Written, print};
pub use tags::{Deed, Tags};
pub use taking::{Coming, Delivery, Taking, Untaken};
pub use wanted::{
    Consuming, Job, Publishing, consuming_of, count_of, job_of, publishing_of, wants_help,
};
