//! What is said of a method by flags.

/// Of basic.publish.
#[derive(Clone, Copy, Debug, Default, PartialEq, Eq)]
pub struct BasicPublishOptions {
    /// The server returns what no queue takes.
    pub mandatory: bool,
    /// The server returns what no consumer can take at once. RabbitMQ does not know it.
    pub immediate: bool,
}

/// Of basic.consume.
#[derive(Clone, Copy, Debug, Default, PartialEq, Eq)]
pub struct BasicConsumeOptions {
    /// What this connection publishes is not delivered to it.
    pub no_local: bool,
    /// What is delivered counts as acknowledged.
    pub no_ack: bool,
    /// No other consumer takes of the queue.
    pub exclusive: bool,
    /// No consume-ok answers.
    pub nowait: bool,
}

/// Of basic.ack.
#[derive(Clone, Copy, Debug, Default, PartialEq, Eq)]
pub struct BasicAckOptions {
    /// All up to this delivery are acknowledged.
    pub multiple: bool,
}

/// Of basic.qos.
#[derive(Clone, Copy, Debug, Default, PartialEq, Eq)]
pub struct BasicQosOptions {
    /// It counts for all consumers of the channel together, at RabbitMQ; by the standard, of the connection.
    pub global: bool,
}

/// Of queue.declare.
#[derive(Clone, Copy, Debug, Default, PartialEq, Eq)]
pub struct QueueDeclareOptions {
    /// It is asked for whether the queue is there, and none is made.
    pub passive: bool,
    /// The queue outlives the server.
    pub durable: bool,
    /// The queue is this connection's, and goes with it.
    pub exclusive: bool,
    /// The queue goes with its last consumer.
    pub auto_delete: bool,
    /// No declare-ok answers.
    pub nowait: bool,
}

/// Of confirm.select.
#[derive(Clone, Copy, Debug, Default, PartialEq, Eq)]
pub struct ConfirmSelectOptions {
    /// No select-ok answers.
    pub nowait: bool,
}
