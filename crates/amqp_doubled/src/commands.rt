//! The plan that a number makes.

ghost use Rattle.std.specs.Prelude.{◌≡◌, ◌≤◌, ◌++◌, OnOk, IfOk, map, replicate};
ghost use Rattle.std.specs.List.{range_with_len};
ghost use Rattle.amqp_commands.specs.declared.command.Cmd.{Cmd};
ghost use Rattle.amqp_joining.specs.Plans.{IsPlan, join_plan_of};
ghost use Rattle.amqp_doubled.specs.Numbers.{hello_command, doubled_commands, doubled_plan};

use amqp_frame::RawMethod;
use amqp_joined::Plan;
use amqp_session::{ChanRef, Cmd, Properties};
use amqp_types::{NoMemory, Payload, Payload64};
use std::alloc::Global;

/// To the exchange without a name, with the routing key `hello`.
const ARGUMENTS: [u8; 10] = *b"\x00\x00\x00\x05hello\x00";

/// The plan of a number: so many channels are opened, and a message is published on each.
pub fn plan_of(alloc: Global, count: u16) -> Result<Plan, NoMemory>
    requires { count ≤ 2000 }
    ensures plan { IfOk result (λ plan. join_plan_of plan ≡ doubled_plan count) }
    ensures is { IfOk result (λ plan. IsPlan (join_plan_of plan)) }
{
    let cuts = Payload64::new(alloc, &[1, 7, 4096])?;
    let rooms = Payload64::new(alloc, &[1, 100, 5000])?;
    match commands_of(alloc, count) {
        Ok(commands) => Ok(Plan {
            cuts,
            rooms,
            commands,
        }),
        Err(e) => Err(e),
    }
}

// All commands.
fn commands_of(alloc: Global, count: u16) -> Result<Vec<Cmd>, NoMemory>
    requires { count ≤ 2000 }
    ensures { IfOk result (λ commands. commands.items ≡ doubled_commands count) }
{
    let mut commands = Vec::new(alloc);
    push_openings(&mut commands, count)?;
    push_publishings(alloc, &mut commands, count)?;
    Ok(commands)
}

// So many channels are opened.
fn push_openings(commands: &mut Vec<Cmd>, count: u16) -> Result<(), NoMemory>
    requires { count ≤ 2000 }
    ensures { OnOk result (commands.new.items ≡ commands.old.items ++ replicate count Cmd.OpenChannel) }
{
    'channels: for id in 1..=count {
        commands.push(Cmd::OpenChannel)?;
    }
    Ok(())
}

// A message is published on each.
fn push_publishings(alloc: Global, commands: &mut Vec<Cmd>, count: u16) -> Result<(), NoMemory>
    requires { count ≤ 2000 }
    ensures { OnOk result (commands.new.items
        ≡ commands.old.items ++ map hello_command (range_with_len 1 count)) }
{
    'channels: for id in 1..=count {
        let command = publish(alloc, id)?;
        commands.push(command)?;
    }
    Ok(())
}

// A message is published on a channel, whose number tells the size of its body.
fn publish(alloc: Global, id: u16) -> Result<Cmd, NoMemory>
    ensures { IfOk result (λ command. command ≡ hello_command id) }
{
    let size = id as u64 * 7919 % 9000;
    let body = Payload::from_vec(vec![in alloc; 0; size as usize]?);
    let method = RawMethod::new(alloc, 60, 40, &ARGUMENTS)?;
    let channel = ChanRef { id, opened: None };
    let octets = Payload::new(alloc, b"\x00\x00")?;
    match Properties::new(octets) {
        Some(properties) => Ok(Cmd::Publish(channel, method, properties, body)),
        None => Err(NoMemory),
    }
}
