//! A script that is replayed, or made of a number, and the status that goes with it.

ghost use Rattle.std.specs.Prelude.{◌≡◌, ◌≢◌, ◌⊎◌, ◌↔◌, ℕ, length, is_some, false, Some, None, Ok, IfOk, IfSome, OnOk, MatchResult, if◌then◌else◌};
ghost use Rattle.std.specs.String.{string_bytes};
ghost use Rattle.amqp_settings.specs.Config.{config_of};
ghost use Rattle.amqp_rules.specs.Talk.{end_of};
ghost use Rattle.amqp_rules.specs.Commands.{command};
ghost use Rattle.amqp_engine.specs.Log.{loaded};
ghost use Rattle.amqp_engine.specs.Engine.{begin, with_talk};
ghost use Rattle.amqp_engine.specs.Plan.{ArePieces};
ghost use Rattle.amqp_replay.specs.Grammar.{Scenario, parsed};
ghost use Rattle.amqp_replay.specs.Generator.{generated};
ghost use Rattle.amqp_replay.specs.Scripts.{script_read, ScriptArePieces};
ghost use Rattle.amqp_replay.specs.Ends.{FailedOnce};
ghost use Rattle.amqp_replay.specs.Top.{set_up, engine_of, handed_state, own_state, provider_state, end_status, reported, summed, printout, refused_printout, Prints, Replays, ReplaysSome, Generates, IsSilent};
ghost use Rattle.amqp_replay.specs.Runs.{IsReplayed, IsMade, made_of_generated};

use crate::ends::{Sink, Source};
use crate::generator::generated;
use crate::report::{Printout, ended, refusal, report};
use crate::script::{Scenario, Script, parse};
use crate::status::{
    CLOSED, FAILED, NO_MEMORY, REFUSED, RUNNING, SINK_FAILED, SOURCE_FAILED, USAGE,
};
use crate::summary::{first_len, put_summary};
use crate::transfer::{ReadFault, put_printout, read_all};
use amqp_engine::{IoLoop, ScriptedPort, a_valid_script_ends_closed};
use amqp_session::{AuthProvider, Cmd, ConnectionProperties, DefaultAuthProvider};
use amqp_types::{NoMemory, Text};
use amqp_uri::AMQPUri;
use std::alloc::Global;

/// Reads a script from a source, replays it over a port, and writes the report to a sink. Gives the exit
/// status. A script may say that the provider of authentication that is handed here is used, where one
/// is handed; else it is that of the address.
pub fn replay<S: Source, K: Sink, P: ScriptedPort, A: AuthProvider>(
    alloc: Global,
    source: &mut S,
    sink: &mut K,
    port: &mut P,
    handed: Option<A>,
) -> u8
    requires { IfSome handed A.can }
    ensures known { result ≢ USAGE }
    ensures source_failed { result ≡ SOURCE_FAILED → FailedOnce (S.faults source.old) (S.faults source.new) }
    ensures source_kept { result ≢ SOURCE_FAILED → S.faults source.new ≡ S.faults source.old }
    ensures sink_failed { result ≡ SINK_FAILED → FailedOnce (K.faults sink.old) (K.faults sink.new) }
    ensures sink_kept { result ≢ SINK_FAILED → K.faults sink.new ≡ K.faults sink.old }
    ensures silent { IsSilent result → K.held sink.new ≡ K.held sink.old }
    ensures outcome { IfSome (S.left source.old) (λ script. IsSilent result
        ⊎ Replays (is_some handed) (handed_state A.allows handed) script (P.log port.old) (P.log port.new)
        (K.held sink.old) (K.held sink.new) result) }
    ensures some_script { IsSilent result
        ⊎ ReplaysSome (is_some handed) (handed_state A.allows handed) (S.left source.old)
        (P.log port.old) (P.log port.new) (K.held sink.old) (K.held sink.new) result }
{
    match read_all(alloc, source) {
        Ok(script) => answer(alloc, &script, sink, port, handed),
        Err(ReadFault::SourceFailed) => SOURCE_FAILED,
        Err(ReadFault::NoMemory) => NO_MEMORY,
    }
}

// Answers a script.
fn answer<K: Sink, P: ScriptedPort, A: AuthProvider>(
    alloc: Global,
    script: &[u8],
    sink: &mut K,
    port: &mut P,
    handed: Option<A>,
) -> u8
    requires { IfSome handed A.can }
    ensures known { (result ≢ USAGE) × (result ≢ SOURCE_FAILED) }
    ensures sink_failed { result ≡ SINK_FAILED → FailedOnce (K.faults sink.old) (K.faults sink.new) }
    ensures sink_kept { result ≢ SINK_FAILED → K.faults sink.new ≡ K.faults sink.old }
    ensures silent { IsSilent result → K.held sink.new ≡ K.held sink.old }
    ensures outcome { IsSilent result
        ⊎ Replays (is_some handed) (handed_state A.allows handed) script.now (P.log port.old) (P.log port.new)
        (K.held sink.old) (K.held sink.new) result }
{
    // What is printed of a script of a faultless server says that its session ended Closed.
    a_valid_script_ends_closed();
    match print(alloc, script, port, handed) {
        Ok(printout) => put_printout(sink, printout),
        Err(NoMemory) => NO_MEMORY,
    }
}

/// Replays the script that a number makes over a port, and writes that script and a summary to a sink.
/// Gives the exit status.
pub fn generate<K: Sink, P: ScriptedPort>(
    alloc: Global,
    count: u16,
    sink: &mut K,
    port: &mut P,
) -> u8
    ensures known { (result ≢ USAGE) × (result ≢ SOURCE_FAILED) }
    ensures sink_failed { result ≡ SINK_FAILED → FailedOnce (K.faults sink.old) (K.faults sink.new) }
    ensures sink_kept { result ≢ SINK_FAILED → K.faults sink.new ≡ K.faults sink.old }
    ensures silent { IsSilent result → K.held sink.new ≡ K.held sink.old }
    ensures outcome { (result ≡ NO_MEMORY) ⊎ MatchResult (parsed false (generated count))
        (λ s. Generates (generated count) s (P.log port.new) (K.held sink.old) (K.held sink.new) result)
        (λ number. Prints (refused_printout number) (K.held sink.old) (K.held sink.new) result
        × (P.log port.new ≡ P.log port.old)) }
{
    // What is printed of a script of a faultless server says that its session ended Closed.
    a_valid_script_ends_closed();
    match print_number(alloc, count, port) {
        Ok(printout) => put_printout(sink, printout),
        Err(NoMemory) => NO_MEMORY,
    }
}

// What is printed of a script.
fn print<P: ScriptedPort, A: AuthProvider>(
    alloc: Global,
    script: &[u8],
    port: &mut P,
    handed: Option<A>,
) -> Result<Printout, NoMemory>
    requires { IfSome handed A.can }
    ensures { IfOk result (IsMade (provider_state (handed_state A.allows handed))
        (parsed (is_some handed) script.now) printout (P.log port.old) (P.log port.new)) }
{
    match parse(alloc, handed.is_some(), script)? {
        Script::Refused(number) => Ok(Printout::new(REFUSED, refusal(alloc, number)?)),
        Script::Played(scenario) => print_scenario(alloc, scenario, port, handed),
    }
}

// What is printed of a number.
fn print_number<P: ScriptedPort>(
    alloc: Global,
    count: u16,
    port: &mut P,
) -> Result<Printout, NoMemory>
    ensures { IfOk result (IsMade own_state (parsed false (generated count)) (made_of_generated (generated count))
        (P.log port.old) (P.log port.new)) }
{
    let script = generated(alloc, count)?;
    let read = parse(alloc, false, script.as_bytes())?;
    Ok(print_generated(alloc, script, read, port)?)
}

// What is printed of a generated script, by what was read of it.
fn print_generated<P: ScriptedPort>(
    alloc: Global,
    script: String,
    read: Script,
    port: &mut P,
) -> Result<Printout, NoMemory>
    requires { ScriptArePieces read }
    ensures { IfOk result (IsMade own_state (script_read read) (made_of_generated (string_bytes script))
        (P.log port.old) (P.log port.new)) }
{
    match read {
        Script::Refused(number) => {
            drop(script);
            Ok(Printout::new(REFUSED, refusal(alloc, number)?))
        }
        Script::Played(scenario) => print_generated_scenario(alloc, script, scenario, port),
    }
}

// What is printed of a script of which no line is refused.
fn print_scenario<P: ScriptedPort, A: AuthProvider>(
    alloc: Global,
    scenario: Scenario,
    port: &mut P,
    handed: Option<A>,
) -> Result<Printout, NoMemory>
    requires pieces { ArePieces scenario.steps }
    requires can { IfSome handed A.can }
    ensures { IfOk result (IsMade (provider_state (handed_state A.allows handed)) (Ok scenario) printout
        (P.log port.old) (P.log port.new)) }
{
    let mut engine = play(alloc, scenario, port, handed)?;
    let printout = print_report(alloc, &mut engine, port);
    drop(engine);
    Ok(printout?)
}

// What is printed of a generated script of which no line is refused.
fn print_generated_scenario<P: ScriptedPort>(
    alloc: Global,
    script: String,
    scenario: Scenario,
    port: &mut P,
) -> Result<Printout, NoMemory>
    requires { ArePieces scenario.steps }
    ensures { IfOk result (IsMade own_state (Ok scenario) (made_of_generated (string_bytes script))
        (P.log port.old) (P.log port.new)) }
{
    let mut engine = play_alone(alloc, scenario, port)?;
    let printout = print_summary(script, &mut engine, port);
    drop(engine);
    Ok(printout?)
}

// The status that goes with the end of a session.
fn end_status(end: &Option<amqp_session::Result<()>>) -> u8
    ensures { result ≡ end_status end.now }
{
    match end {
        None => RUNNING,
        Some(Ok(())) => CLOSED,
        Some(Err(_)) => FAILED,
    }
}

// The status that goes with the end of an engine's session.
fn status(engine: &IoLoop) -> Result<u8, NoMemory>
    ensures { IfOk result (λ status. status ≡ end_status (end_of engine.now.talk)) }
{
    let end = ended(engine)?;
    let status = end_status(&end);
    drop(end);
    Ok(status)
}

// The report of a run.
fn print_report<P: ScriptedPort>(
    alloc: Global,
    engine: &mut IoLoop,
    port: &P,
) -> Result<Printout, NoMemory>
    ensures { IfOk result (λ p. p ≡ reported (P.links_taken port.now) engine.old.talk) }
{
    let status = status(engine)?;
    Ok(Printout::new(status, report(alloc, engine, port)?))
}

// A generated script, and the summary of its run.
fn print_summary<P: ScriptedPort>(
    script: String,
    engine: &mut IoLoop,
    port: &P,
) -> Result<Printout, NoMemory>
    ensures { IfOk result (λ p. p ≡ summed (string_bytes script) (P.links_taken port.now) engine.old.talk) }
{
    let mut out = script;
    let status = status(engine)?;
    put_summary(&mut out, first_len(port), engine)?;
    Ok(Printout::new(status, out))
}

// The provider that was handed, where the script says that it is used.
fn chosen<A: AuthProvider>(is_said: bool, handed: Option<A>) -> Option<A>
    ensures { result ≡ (if is_said then handed else None) }
{
    if is_said {
        return handed;
    }
    drop(handed);
    None
}

// Plays the steps of a script over the port: the engine that ran. Where the script says so, the
// provider that was handed is asked.
fn play<P: ScriptedPort, A: AuthProvider>(
    alloc: Global,
    scenario: Scenario,
    port: &mut P,
    handed: Option<A>,
) -> Result<IoLoop, NoMemory>
    requires pieces { ArePieces scenario.steps }
    requires can { IfSome handed A.can }
    ensures { IfOk result (λ e. IsReplayed (provider_state (handed_state A.allows handed) scenario) scenario e.talk
        (P.links_taken port.new) (P.log port.new)) }
{
    match chosen(scenario.handed, handed) {
        Some(provider) => play_by(alloc, scenario, port, provider),
        None => play_alone(alloc, scenario, port),
    }
}

// The same, where the provider of the address is asked.
fn play_alone<P: ScriptedPort>(
    alloc: Global,
    scenario: Scenario,
    port: &mut P,
) -> Result<IoLoop, NoMemory>
    requires { ArePieces scenario.steps }
    ensures { IfOk result (λ e. IsReplayed (own_state scenario) scenario e.talk (P.links_taken port.new)
        (P.log port.new)) }
{
    match DefaultAuthProvider::new(alloc, &scenario.uri) {
        Ok(provider) => play_by(alloc, scenario, port, provider),
        Err(e) => {
            drop(scenario);
            Err(e)
        }
    }
}

// The same, where this provider is asked.
fn play_by<P: ScriptedPort, A: AuthProvider>(
    alloc: Global,
    scenario: Scenario,
    port: &mut P,
    mut provider: A,
) -> Result<IoLoop, NoMemory>
    requires pieces { ArePieces scenario.steps }
    requires can { A.can provider }
    ensures { IfOk result (λ e. IsReplayed (A.allows provider) scenario e.talk (P.links_taken port.new)
        (P.log port.new)) }
{
    let Scenario {
        uri,
        options,
        handed: _,
        listens,
        steps,
    } = scenario;
    let turns = steps.len() as u64;
    if let Err(e) = port.load(steps) {
        drop(uri);
        drop(options);
        drop(provider);
        return Err(e);
    }
    let engine = engine_of(alloc, &uri, options, listens);
    drop(uri);
    match engine {
        Ok(mut engine) => {
            let ran = run(&mut engine, port, &mut provider, turns);
            drop(provider);
            match ran {
                Ok(()) => Ok(engine),
                Err(e) => {
                    drop(engine);
                    Err(e)
                }
            }
        }
        Err(e) => {
            drop(provider);
            Err(e)
        }
    }
}

// The engine of a script before its first step, which keeps its events where it is told to.
fn engine_of(
    alloc: Global,
    uri: &AMQPUri,
    options: ConnectionProperties,
    listens: bool,
) -> Result<IoLoop, NoMemory>
    ensures { IfOk result (λ e. e ≡ begin (set_up listens (config_of uri.now options.plain))) }
{
    let Ok(engine) = IoLoop::new(alloc, uri, options) else {
        return Err(NoMemory);
    };
    if listens {
        return listening(engine);
    }
    Ok(engine)
}

// The engine, once it was told to keep its events.
fn listening(engine: IoLoop) -> Result<IoLoop, NoMemory>
    ensures { IfOk result (λ e. e ≡ with_talk (command Cmd.Listen) engine) }
{
    let mut engine = engine;
    let told = engine.command(Cmd::Listen).is_ok();
    if !told {
        drop(engine);
        return Err(NoMemory);
    }
    Ok(engine)
}

// Runs the engine of a script over a port that was loaded with as many steps as there are turns.
fn run<P: ScriptedPort, A: AuthProvider>(
    engine: &mut IoLoop,
    port: &mut P,
    provider: &mut A,
    turns: u64,
) -> Result<(), NoMemory>
    requires { A.can provider.old }
    ensures { (s : Scenario) → engine.old ≡ engine_of s → turns ≡ length s.steps
        → P.log port.old ≡ Some (loaded s.steps)
        → OnOk result (IsReplayed (A.allows provider.old) s engine.new.talk (P.links_taken port.new)
        (P.log port.new)) }
{
    // What is printed tells how the session ended.
    drop(engine.run(port, provider, turns));
    if engine.starved().is_some() {
        return Err(NoMemory);
    }
    Ok(())
}
