//! The names of methods, as AMQP 0-9-1 and RabbitMQ's extensions of it give them.

use amqp_frame::Method;

/// The name of a method that is read with its arguments: class, method and both numbers.
pub fn name_of(method: &Method) -> &'static str {
    match method {
        Method::Start(..) => "connection.start (10.10)",
        Method::StartOk(..) => "connection.start-ok (10.11)",
        Method::Secure(_) => "connection.secure (10.20)",
        Method::SecureOk(_) => "connection.secure-ok (10.21)",
        Method::Tune(..) => "connection.tune (10.30)",
        Method::TuneOk(..) => "connection.tune-ok (10.31)",
        Method::Open(_) => "connection.open (10.40)",
        Method::OpenOk => "connection.open-ok (10.41)",
        Method::Close(..) => "connection.close (10.50)",
        Method::CloseOk => "connection.close-ok (10.51)",
        Method::Blocked(_) => "connection.blocked (10.60)",
        Method::Unblocked => "connection.unblocked (10.61)",
        Method::UpdateSecret(..) => "connection.update-secret (10.70)",
        Method::UpdateSecretOk => "connection.update-secret-ok (10.71)",
        Method::ChannelOpen => "channel.open (20.10)",
        Method::ChannelOpenOk => "channel.open-ok (20.11)",
        Method::ChannelFlow(_) => "channel.flow (20.20)",
        Method::ChannelFlowOk(_) => "channel.flow-ok (20.21)",
        Method::ChannelClose(..) => "channel.close (20.40)",
        Method::ChannelCloseOk => "channel.close-ok (20.41)",
    }
}

fn connection_method(number: u16) -> &'static str {
    match number {
        10 => "connection.start",
        11 => "connection.start-ok",
        20 => "connection.secure",
        21 => "connection.secure-ok",
        30 => "connection.tune",
        31 => "connection.tune-ok",
        40 => "connection.open",
        41 => "connection.open-ok",
        50 => "connection.close",
        51 => "connection.close-ok",
        60 => "connection.blocked",
        61 => "connection.unblocked",
        70 => "connection.update-secret",
        71 => "connection.update-secret-ok",
        _ => "method",
    }
}

fn channel_method(number: u16) -> &'static str {
    match number {
        10 => "channel.open",
        11 => "channel.open-ok",
        20 => "channel.flow",
        21 => "channel.flow-ok",
        40 => "channel.close",
        41 => "channel.close-ok",
        _ => "method",
    }
}

fn exchange_method(number: u16) -> &'static str {
    match number {
        10 => "exchange.declare",
        11 => "exchange.declare-ok",
        20 => "exchange.delete",
        21 => "exchange.delete-ok",
        30 => "exchange.bind",
        31 => "exchange.bind-ok",
        40 => "exchange.unbind",
        51 => "exchange.unbind-ok",
        _ => "method",
    }
}

fn queue_method(number: u16) -> &'static str {
    match number {
        10 => "queue.declare",
        11 => "queue.declare-ok",
        20 => "queue.bind",
        21 => "queue.bind-ok",
        30 => "queue.purge",
        31 => "queue.purge-ok",
        40 => "queue.delete",
        41 => "queue.delete-ok",
        50 => "queue.unbind",
        51 => "queue.unbind-ok",
        _ => "method",
    }
}

fn basic_method(number: u16) -> &'static str {
    match number {
        10 => "basic.qos",
        11 => "basic.qos-ok",
        20 => "basic.consume",
        21 => "basic.consume-ok",
        30 => "basic.cancel",
        31 => "basic.cancel-ok",
        40 => "basic.publish",
        50 => "basic.return",
        60 => "basic.deliver",
        70 => "basic.get",
        71 => "basic.get-ok",
        72 => "basic.get-empty",
        80 => "basic.ack",
        90 => "basic.reject",
        100 => "basic.recover-async",
        110 => "basic.recover",
        111 => "basic.recover-ok",
        120 => "basic.nack",
        _ => "method",
    }
}

fn confirm_method(number: u16) -> &'static str {
    match number {
        10 => "confirm.select",
        11 => "confirm.select-ok",
        _ => "method",
    }
}

fn tx_method(number: u16) -> &'static str {
    match number {
        10 => "tx.select",
        11 => "tx.select-ok",
        20 => "tx.commit",
        21 => "tx.commit-ok",
        30 => "tx.rollback",
        31 => "tx.rollback-ok",
        _ => "method",
    }
}

/// The name of a method by the numbers of its class and of itself; `method`, where it has none.
pub fn method_name(class: u16, number: u16) -> &'static str {
    match class {
        10 => connection_method(number),
        20 => channel_method(number),
        40 => exchange_method(number),
        50 => queue_method(number),
        60 => basic_method(number),
        85 => confirm_method(number),
        90 => tx_method(number),
        _ => "method",
    }
}
