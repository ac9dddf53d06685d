//! Reading a script.

ghost use Rattle.std.specs.Prelude.{◌≡◌, IfOk};
ghost use Rattle.amqp_engine.specs.Plan.{ArePieces};
ghost use Rattle.amqp_replay.specs.Grammar.{parsed};
ghost use Rattle.amqp_replay.specs.Lines.{lines};
ghost use Rattle.amqp_replay.specs.Scripts.{script_read, ScriptArePieces, line_of_step, ended_at};

use crate::grammar::{Said, moment, says};
use crate::limits::ZERO_BYTES;
use crate::lines::{Lines, is_ignored};
use crate::setup::{Progress, is_setup};
use crate::status::FAILED;
use amqp_engine::Given;
use amqp_session::ConnectionProperties;
use amqp_types::NoMemory;
use amqp_uri::AMQPUri;
use std::alloc::Global;
use std::marker::Model;

/// What a script says.
#[derive(Debug, Drop)]
pub struct Scenario {
    /// Where the session connects, and as whom.
    pub uri: AMQPUri,
    /// What is said of the client.
    pub options: ConnectionProperties,
    /// Whether the provider of authentication that was handed to the program is used.
    pub handed: bool,
    /// Whether the events of the session are kept.
    pub listens: bool,
    /// The steps that are played.
    pub steps: Vec<Given>,
}

impl Model for Scenario {
    ghost use Rattle.amqp_settings.specs.Config.{config_of};
    ghost use Rattle.amqp_replay.specs.Grammar.{Scenario};

    ghost Value = { Scenario };

    ghost use Rattle.std.specs.Coded.{codes};
    ghost use Rattle.amqp_types.specs.ValueCode.{value_code};

    ghost coded = { Prim.hlevel (codes, value_code) };

    ghost view = { λ s. record {
      config = config_of s.uri s.options.plain;
      handed = s.handed;
      listens = s.listens;
      steps = s.steps.items;
    } };
}

/// What was read of a script.
#[derive(Debug, Drop)]
pub enum Script {
    Played(Scenario),
    /// The number of the first line that is refused.
    Refused(u64),
}

/// What a script says, where a provider of authentication was handed to the program or not.
pub fn parse(alloc: Global, has_provider: bool, text: &[u8]) -> Result<Script, NoMemory>
    ensures script { IfOk result (λ script. script_read script ≡ parsed has_provider text.now) }
    ensures pieces { IfOk result ScriptArePieces }
{
    let mut progress = Progress::new(alloc, has_provider)?;
    let mut steps = Vec::new(alloc);
    let mut lines = Lines::new(text);
    // how many zeros may still be spelled by numbers
    let mut left = ZERO_BYTES;
    // the moment of the last step
    let mut at = 0;
    'lines: while let Some(line) = lines.take_line() {
        match says(alloc, &line, left)? {
            Said::Nothing => {}
            Said::Refused => return Ok(Script::Refused(line.number)),
            Said::Setup(setting) => match progress.set(alloc, setting)? {
                Some(next) => progress = next,
                None => return Ok(Script::Refused(line.number)),
            },
            Said::Step(what, zeros) => {
                progress.note_step();
                at = moment(line.content).unwrap_or(at);
                steps.push(Given { at, what })?;
                left -= zeros;
            }
        }
    }
    let handed = progress.has_provider();
    let listens = progress.has_listen();
    let (uri, options) = progress.into_config();
    Ok(Script::Played(Scenario {
        uri,
        options,
        handed,
        listens,
        steps,
    }))
}

/// The number of the line that says a step, the steps of a script being counted from 1.
pub fn line_of_step(text: &[u8], step: u64) -> Option<u64>
    ensures { result ≡ line_of_step step (lines text.now) }
{
    let mut lines = Lines::new(text);
    // the steps up to that one
    let mut left = step;
    'lines: while let Some(line) = lines.take_line() {
        if is_ignored(line.content) || is_setup(line.content) {
            continue;
        }
        if left <= 1 {
            return Some(line.number);
        }
        left -= 1;
    }
    None
}

/// The number of the line at which a script was answered so, after so many steps: the line whose step
/// ended the session with an error, where one did.
pub fn ended_at(status: u8, text: &[u8], told: u64) -> Option<u64>
    ensures { result ≡ ended_at status told text.now }
{
    if status == FAILED {
        line_of_step(text, told)
    } else {
        None
    }
}
