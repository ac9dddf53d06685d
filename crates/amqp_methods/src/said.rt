//! Methods that a client says.

ghost use Rattle.std.specs.Prelude.{◌≡◌, ◌⊎◌, ◌≤◌, ◌<◌, ◌*◌, ◌+◌, ◌↔◌, if◌then◌else◌, length, IfOk, IfErr, Err};
ghost use Rattle.amqp_types.specs.Spelling.{spell_table};
ghost use Rattle.amqp_types.specs.declared.strings.TypeFault.TheVariants.{TooLong};
ghost use Rattle.amqp_frame.specs.Lengths.{capped};
ghost use Rattle.amqp_methods.specs.Said.{publish_method, consume_method, ack_method, cancel_method, qos_method, declare_method, select_method};

use crate::options::{
    BasicAckOptions, BasicConsumeOptions, BasicPublishOptions, BasicQosOptions,
    ConfirmSelectOptions, QueueDeclareOptions,
};
use amqp_frame::{FixedRoom, RawMethod, Room, put_short, put_table, table_len};
use amqp_types::{FieldTable, NoMemory, ShortString, TypeFault};
use std::alloc::Global;

// A flag, and those of higher bits.
fn flag(set: bool, higher: u8) -> u8
    requires { higher < 128 }
    ensures is { result ≡ (if set then 1 else 0) + 2 * higher }
    ensures small { result ≤ 2 * higher + 1 }
{
    if set { 2 * higher + 1 } else { 2 * higher }
}

/// basic.publish to an exchange, the empty name being the one that every queue is bound to by its own
/// name. Content follows it: see `Cmd::Publish` of amqp_session.
pub fn basic_publish(
    alloc: Global,
    exchange: &ShortString,
    routing_key: &ShortString,
    options: BasicPublishOptions,
) -> Result<RawMethod, NoMemory>
    ensures { IfOk result (λ method. method ≡ publish_method exchange.now routing_key.now options) }
{
    let flags = flag(options.mandatory, flag(options.immediate, 0));
    let mut room = FixedRoom::new(alloc, exchange.len() + routing_key.len() + 5)?;
    room.put(&[0, 0]);
    put_short(exchange.as_bytes(), &mut room);
    put_short(routing_key.as_bytes(), &mut room);
    room.put(&[flags]);
    RawMethod::new(alloc, 60, 40, room.as_slice())
}

/// basic.consume: what comes to a queue is delivered to a consumer of this tag, the empty one being a tag
/// that the server makes.
pub fn basic_consume(
    alloc: Global,
    queue: &ShortString,
    consumer_tag: &ShortString,
    options: BasicConsumeOptions,
    arguments: &FieldTable,
) -> Result<RawMethod, TypeFault>
    ensures ok { IfOk result (λ method. method ≡ consume_method queue.now consumer_tag.now options arguments.now) }
    ensures too_long { (result ≡ Err (TooLong (capped (length (spell_table arguments.now)))))
        ↔ (4294967295 < length (spell_table arguments.now)) }
    ensures only { IfErr result (λ e. (e ≡ TypeFault.NoMemory)
        ⊎ (e ≡ TooLong (capped (length (spell_table arguments.now))))) }
{
    let size = size_of(arguments)?;
    let acks = flag(options.exclusive, flag(options.nowait, 0));
    let flags = flag(options.no_local, flag(options.no_ack, acks));
    let mut room = FixedRoom::new(alloc, queue.len() + consumer_tag.len() + 5 + size)?;
    room.put(&[0, 0]);
    put_short(queue.as_bytes(), &mut room);
    put_short(consumer_tag.as_bytes(), &mut room);
    room.put(&[flags]);
    put_table(arguments, &mut room);
    Ok(RawMethod::new(alloc, 60, 20, room.as_slice())?)
}

/// basic.ack of a delivery, by its tag.
pub fn basic_ack(
    alloc: Global,
    delivery_tag: u64,
    options: BasicAckOptions,
) -> Result<RawMethod, NoMemory>
    ensures { IfOk result (λ method. method ≡ ack_method delivery_tag options) }
{
    let mut room = FixedRoom::new(alloc, 9)?;
    room.put(&delivery_tag.to_be_bytes());
    room.put(&[flag(options.multiple, 0)]);
    RawMethod::new(alloc, 60, 80, room.as_slice())
}

/// basic.cancel: nothing more is delivered to the consumer of this tag.
pub fn basic_cancel(
    alloc: Global,
    consumer_tag: &ShortString,
    nowait: bool,
) -> Result<RawMethod, NoMemory>
    ensures { IfOk result (λ method. method ≡ cancel_method consumer_tag.now nowait) }
{
    let mut room = FixedRoom::new(alloc, consumer_tag.len() + 2)?;
    put_short(consumer_tag.as_bytes(), &mut room);
    room.put(&[flag(nowait, 0)]);
    RawMethod::new(alloc, 60, 30, room.as_slice())
}

/// basic.qos: at most so many deliveries are unacknowledged, 0 being any number; of their octets nothing
/// is said.
pub fn basic_qos(
    alloc: Global,
    prefetch_count: u16,
    options: BasicQosOptions,
) -> Result<RawMethod, NoMemory>
    ensures { IfOk result (λ method. method ≡ qos_method prefetch_count options) }
{
    let mut room = FixedRoom::new(alloc, 7)?;
    room.put(&[0, 0, 0, 0]);
    room.put(&prefetch_count.to_be_bytes());
    room.put(&[flag(options.global, 0)]);
    RawMethod::new(alloc, 60, 10, room.as_slice())
}

/// queue.declare of a queue, the empty name being one that the server makes.
pub fn queue_declare(
    alloc: Global,
    queue: &ShortString,
    options: QueueDeclareOptions,
    arguments: &FieldTable,
) -> Result<RawMethod, TypeFault>
    ensures ok { IfOk result (λ method. method ≡ declare_method queue.now options arguments.now) }
    ensures too_long { (result ≡ Err (TooLong (capped (length (spell_table arguments.now)))))
        ↔ (4294967295 < length (spell_table arguments.now)) }
    ensures only { IfErr result (λ e. (e ≡ TypeFault.NoMemory)
        ⊎ (e ≡ TooLong (capped (length (spell_table arguments.now))))) }
{
    let size = size_of(arguments)?;
    let last = flag(
        options.exclusive,
        flag(options.auto_delete, flag(options.nowait, 0)),
    );
    let flags = flag(options.passive, flag(options.durable, last));
    let mut room = FixedRoom::new(alloc, queue.len() + 4 + size)?;
    room.put(&[0, 0]);
    put_short(queue.as_bytes(), &mut room);
    room.put(&[flags]);
    put_table(arguments, &mut room);
    Ok(RawMethod::new(alloc, 50, 10, room.as_slice())?)
}

/// confirm.select: the server confirms what is published on the channel from now on.
pub fn confirm_select(alloc: Global, options: ConfirmSelectOptions) -> Result<RawMethod, NoMemory>
    ensures { IfOk result (λ method. method ≡ select_method options) }
{
    RawMethod::new(alloc, 85, 10, &[flag(options.nowait, 0)])
}

// How many octets a table is spelled by, where four octets can say it.
pub(crate) fn size_of(table: &FieldTable) -> Result<usize, TypeFault>
    ensures ok { IfOk result (λ size. (size ≡ length (spell_table table.now)) × (size ≤ 4294967295)) }
    ensures err { IfErr result (λ e. (e ≡ TooLong (capped (length (spell_table table.now))))
        × (4294967295 < length (spell_table table.now))) }
{
    let size = table_len(table);
    if size > u32::MAX as u64 {
        return Err(TypeFault::TooLong(size));
    }
    Ok(size as usize)
}
