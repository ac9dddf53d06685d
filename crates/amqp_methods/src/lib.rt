//! Methods of the classes basic, queue and confirm, which frames carry as octets: those that a client
//! says are spelled, and those by which a server delivers and confirms are read; and the properties of a
//! message.
#![tactic(auto)]

mod headers;
mod heard;
mod laws;
mod options;
mod properties;
mod rest;
mod said;

pub use headers::{header_named, headers_of};
pub use heard::{Ack, Deliver, Nack, Returned, read_ack, read_deliver, read_nack, read_return};
pub use laws::{
    properties_are_read_as_they_are_spelled, what_is_heard_is_read, what_is_read_was_spelled,
};
pub use options::{
    BasicAckOptions, BasicConsumeOptions, BasicPublishOptions, BasicQosOptions,
    ConfirmSelectOptions, QueueDeclareOptions,
};
pub use properties::{BasicProperties, read_properties};
pub use said::{
    basic_ack, basic_cancel, basic_consume, basic_publish, basic_qos, confirm_select, queue_declare,
};
