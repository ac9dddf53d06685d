//! A plan for both ends of a link.

ghost use Rattle.std.specs.Prelude.{◌≡◌, ◌≤◌, ℕ, ◌↔◌, ◌-◌, ◌^◌, min, IsTrue};
ghost use Rattle.std.specs.List.{AllByRecursion};
ghost use Rattle.amqp_joining.specs.Plans.{join_plan_of, IsPlan, text_octets, command_turns, turns_for_all, turns_of};

use amqp_session::Cmd;
use amqp_types::{NoMemory, Payload64};
use std::alloc::Global;

/// The longest piece, in octets.
const LONGEST_CUT: u64 = 4096;

/// The turns of a plan with no commands: one for each octet that both ends say then, one for the link and
/// one for the close.
const TURNS: u64 = 131_543;

/// The turns of a command with no texts and payloads.
const TURNS_OF_A_COMMAND: u64 = 81;

/// How the double's octets are cut, how much room the link has each time, and what the session is told to
/// do once all is quiet. Cuts and rooms are taken in order, and again from the front.
#[derive(Debug, Drop)]
pub struct Plan {
    /// How long the pieces are, each 1 to 4,096 octets.
    pub cuts: Payload64,
    /// How much room the link gets each time, in octets, at least 1.
    pub rooms: Payload64,
    /// What the session is told to do, in order.
    pub commands: Vec<Cmd>,
}

impl Plan {
    /// Whether it can be joined by: it has a cut and a room, each cut is 1 to 4,096 and each room at least 1.
    pub fn is_one(&self) -> bool
        ensures { IsTrue result ↔ IsPlan (join_plan_of self.now) }
    {
        let (cuts, rooms) = (self.cuts.as_slice(), self.rooms.as_slice());
        !cuts.is_empty() && !rooms.is_empty() && are_cuts(cuts) && are_rooms(rooms)
    }

    /// How many turns are enough, or the greatest number where that is less. It takes no memory.
    pub fn turns(&self) -> u64
        ensures { result ≡ turns_of (join_plan_of self.now) }
    {
        turns_for_all(&self.commands)
    }
}

// Whether each piece may be so long.
fn are_cuts(cuts: &[u64]) -> bool
    ensures { IsTrue result ↔ AllByRecursion (λ (n : ℕ). (1 ≤ n) × (n ≤ 4096)) cuts.now }
{
    cuts.iter().all(|n| 1 <= *n && *n <= LONGEST_CUT)
}

// Whether there is room each time.
fn are_rooms(rooms: &[u64]) -> bool
    ensures { IsTrue result ↔ AllByRecursion (λ (n : ℕ). 1 ≤ n) rooms.now }
{
    rooms.iter().all(|n| 1 <= *n)
}

// How many turns are enough for these commands.
fn turns_for_all(commands: &[Cmd]) -> u64
    ensures { result ≡ turns_for_all commands.now }
{
    let mut turns = TURNS;
    'commands: for command in commands {
        turns = turns.saturating_add(turns_for(command));
    }
    turns
}

// How many turns a command adds.
fn turns_for(command: &Cmd) -> u64
    ensures { result ≡ min (command_turns command.now) (2 ^ 64 - 1) }
{
    let octets = text_octets(command);
    TURNS_OF_A_COMMAND
        .saturating_add(octets)
        .saturating_add(octets)
}

// How many octets the texts and payloads of a command have.
fn text_octets(command: &Cmd) -> u64
    ensures { result ≡ min (text_octets command.now) (2 ^ 64 - 1) }
{
    match command {
        Cmd::CloseChannel(_, _, text) | Cmd::CloseConnection(_, text) => text.len() as u64,
        Cmd::UpdateSecret(secret, reason) => {
            (secret.len() as u64).saturating_add(reason.len() as u64)
        }
        Cmd::Send(_, method) => (method.args().len() as u64).saturating_add(4),
        Cmd::Publish(_, method, properties, body) => (method.args().len() as u64)
            .saturating_add(4)
            .saturating_add(properties.as_bytes().len() as u64)
            .saturating_add(body.len() as u64),
        Cmd::OpenChannel
        | Cmd::Flow(..)
        | Cmd::DropChannel(_)
        | Cmd::DropConnection
        | Cmd::Listen => 0,
    }
}
