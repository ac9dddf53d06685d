//! A port whose other end is a double.

ghost use Rattle.std.specs.Prelude.{◌≡◌, ◌≢◌, ◌≤◌, ◌<◌, ◌⊎◌, ◌+◌, ◌-◌, ◌^◌, ◌++◌, [], ℕ, vec_capacity, true, false, Some, None, Ok, Err, IfOk, IfSome, IsSome, length, option_map};
ghost use Rattle.amqp_types.specs.Counts.{Rose};
ghost use Rattle.amqp_engine.specs.Counts.{HasCause};
ghost use Rattle.amqp_promise.specs.declared.error.ErrorKind.{ErrorKind};
ghost use Rattle.amqp_settings.specs.declared.configuration.Configuration.{Configuration};
ghost use Rattle.amqp_rules.specs.Talk.{Talk, has_ended, end_of};
ghost use Rattle.amqp_rules.specs.Answers.{HandsOut};
ghost use Rattle.amqp_engine.specs.Account.{Ran};
ghost use Rattle.amqp_engine.specs.Log.{log_ask, log_step, log_write, piece_bytes, IsPiece, TookAtMost, PlansStep, PlansWrite};
ghost use Rattle.amqp_engine.specs.Turn.{wants_ask};
ghost use Rattle.amqp_double.specs.Doubles.{fresh};
ghost use Rattle.amqp_joining.specs.Plans.{JoinPlan, IsPlan, join_plan_of};
ghost use Rattle.amqp_joining.specs.Joining.{JoinWrites};
ghost use Rattle.amqp_joined.specs.Ports.{last_close, joined_new};
ghost use Rattle.amqp_joined.specs.Insides.{joined_state_of, Holds};
ghost use Rattle.amqp_joined.specs.Reached.{HasCome};
ghost use Rattle.amqp_joined.specs.JoinedRuns.{RunsJoined, TakesJoined, AreNewEnds, AreEnough, RunsClosed};
ghost use Rattle.amqp_both_ends.specs.Logins.{SaysLogins};

use crate::inside::Inside;
use crate::marks::Mark;
use amqp_double::Double;
use amqp_engine::{IoLoop, Port, Told, Wrote};
use amqp_joining::Plan;
use amqp_session::{AuthProvider, Cmd, ErrorKind, Result};
use amqp_types::{NoMemory, ShortString};
use std::alloc::Global;
use std::collections::VecDeque;
use std::marker::Model;

/// A port that feeds a double what it takes, and tells what that answers, by a plan. All its moments
/// are 0, it never fails, and `next` takes no memory.
#[derive(Drop)]
pub struct JoinedPort {
    inside: Inside,
}

impl Model for JoinedPort {
    ghost use Rattle.amqp_joined.specs.Ports.{JoinedState};
    ghost use Rattle.amqp_joined.specs.Insides.{joined_state_of, HoldsAll};

    ghost Value = { JoinedState };

    ghost view = { λ p. joined_state_of p.inside };

    ghost invariant = { λ p. HoldsAll p.inside };
}

// The last command.
fn last_close(alloc: Global) -> std::result::Result<Cmd, NoMemory>
    ensures { IfOk result (λ close. close ≡ last_close) }
{
    match ShortString::new(alloc, b"OK") {
        Ok(text) => Ok(Cmd::CloseConnection(200, text)),
        Err(_) => Err(NoMemory),
    }
}

// Copies of commands.
fn copies_of(alloc: Global, commands: &[Cmd]) -> std::result::Result<VecDeque<Cmd>, NoMemory>
    ensures { IfOk result (λ copies. copies.items ≡ commands.now) }
{
    let mut copies = VecDeque::new(alloc);
    copies.reserve(commands.len())?;
    'commands: for command in commands {
        copies.push_back_reserved(command.try_clone(alloc)?);
    }
    Ok(copies)
}

/// What a port makes of its plan at first.
#[derive(Drop)]
struct Made {
    marks: Vec<Mark>,
    commands: VecDeque<Cmd>,
    close: Cmd,
}

// Places for the link, the commands and the last close; and copies of the commands.
fn made_for(alloc: Global, commands: &[Cmd]) -> std::result::Result<Made, NoMemory>
    ensures places { IfOk result (λ made. length commands.now + 2 ≤ vec_capacity made.marks) }
    ensures marks { IfOk result (λ made. made.marks.items ≡ []) }
    ensures commands { IfOk result (λ made. made.commands.items ≡ commands.now) }
    ensures close { IfOk result (λ made. made.close ≡ last_close) }
{
    let mut marks = Vec::new(alloc);
    marks.reserve(commands.len() + 2)?;
    let commands = copies_of(alloc, commands)?;
    let close = last_close(alloc)?;
    Ok(Made {
        marks,
        commands,
        close,
    })
}

// Nothing was told and nothing was taken.
#[tactic(auto, using(crate::proofs::Steps::begins))]
fn begun(alloc: Global, double: Double, plan: Plan, made: Made) -> Inside
    ensures holds { IsPlan (join_plan_of plan) → length plan.commands.items + 2 ≤ vec_capacity made.marks
        → made.marks.items ≡ [] → made.commands.items ≡ plan.commands.items → made.close ≡ last_close
        → double ≡ fresh double.numbers → Holds result }
    ensures state { made.marks.items ≡ [] → made.commands.items ≡ plan.commands.items
        → joined_state_of result ≡ joined_new double (join_plan_of plan) }
{
    let Made {
        marks,
        commands,
        close,
    } = made;
    Inside {
        alloc,
        double,
        plan,
        cut_at: 0,
        room_at: 0,
        commands,
        close: Some(close),
        room: 0,
        short: false,
        linked: false,
        asked: false,
        asked_at: None,
        marks,
        told: 0,
        writes: Vec::new(alloc),
        taken: Vec::new(alloc),
        link_at: 0,
    }
}

impl JoinedPort {
    ghost use Rattle.amqp_joined.specs.Ports.{kept_plan};

    /// A port to this double, which heard nothing yet, by this plan. The places of the link and of the
    /// commands are made at once, and so is a second copy of each command.
    pub fn new(
        alloc: Global,
        double: Double,
        plan: Plan,
    ) -> std::result::Result<JoinedPort, NoMemory>
        requires plan { IsPlan (join_plan_of plan) }
        requires double { double ≡ fresh double.numbers }
        ensures { IfOk result (λ port. port ≡ joined_new double (join_plan_of plan)) }
    {
        match made_for(alloc, &plan.commands) {
            Ok(made) => {
                let inside = begun(alloc, double, plan, made);
                Ok(JoinedPort { inside })
            }
            Err(e) => {
                drop(double);
                drop(plan);
                Err(e)
            }
        }
    }

    /// The double.
    pub fn double(&self) -> &Double
        ensures { result.now ≡ self.now.join.double }
    {
        &self.inside.double
    }

    /// The plan.
    pub fn plan(&self) -> &Plan
        ensures { join_plan_of result.now ≡ self.now.join.plan }
    {
        &self.inside.plan
    }

    /// What was taken, as it stands on the link.
    pub fn link(&self) -> &[u8]
        ensures { result.now ≡ self.now.join.taken }
    {
        &self.inside.taken
    }

    /// How many octets were taken.
    pub fn taken(&self) -> u64
        ensures { result ≡ length self.now.join.taken }
    {
        self.inside.taken.len() as u64
    }

    /// Runs an engine over this port, with answers of this provider, turn by turn, and answers as
    /// `IoLoop::run` does; but where memory was refused, an error is told as `NoMemory`. Of a new engine over
    /// a new port, with as many turns as the plan takes, it answers Ok, and both ends are closed then; or
    /// memory was refused, and it answers `NoMemory`.
    pub fn run<A: AuthProvider>(
        &mut self,
        engine: &mut IoLoop,
        provider: &mut A,
        turns: u64,
    ) -> Result<()>
        requires { A.can provider.old }
        ensures can { A.can provider.new }
        ensures turns { Ran turns engine.old engine.new (Some self.old.log) (Some self.new.log)
            (A.allows provider.old) (A.allows provider.new) }
        ensures joined { (numbers : Configuration) (plan : JoinPlan) → self.old ≡ joined_new (fresh numbers) plan
            → wants_ask engine.old ≡ true → turns < 2 ^ 64 - 1
            → RunsJoined turns engine.old engine.new self.old self.new }
        ensures both_ends { (t : Talk) (numbers : Configuration) (plan : JoinPlan)
            → AreNewEnds t numbers plan engine.old self.old → AreEnough turns plan
            → SaysLogins t.config.options (A.allows provider.old)
            → (result ≡ Ok tt) ⊎ ((result ≡ Err ErrorKind.NoMemory) × (engine.new.starved ≢ None)) }
        ensures both_ends_close { (t : Talk) (numbers : Configuration) (plan : JoinPlan)
            → AreNewEnds t numbers plan engine.old self.old → AreEnough turns plan
            → SaysLogins t.config.options (A.allows provider.old) → result ≡ Ok tt
            → RunsClosed turns t engine.new self.old self.new }
        ensures ended { IfSome (end_of engine.new.talk) (λ end. HandsOut (Some end) (Some result)) }
        ensures out_of_turns { has_ended engine.new.talk ≡ false → result ≡ Err ErrorKind.OutOfTurns }
        ensures only_out_of_turns { has_ended engine.old.talk ≡ false → result ≡ Err ErrorKind.OutOfTurns
            → has_ended engine.new.talk ≡ false }
        ensures kept { kept_plan self.new ≡ kept_plan self.old }
    {
        self.take_turns(engine, provider, turns);
        end_of_run(engine)
    }

    // Takes so many turns, or fewer where the session ends. The port's story is told turn by turn, since
    // what `IoLoop::run` says of a port is what it tells in the end.
    fn take_turns<A: AuthProvider>(&mut self, engine: &mut IoLoop, provider: &mut A, turns: u64)
        requires { A.can provider.old }
        ensures can { A.can provider.new }
        ensures turns { TakesJoined turns engine.old engine.new self.old self.new
            (A.allows provider.old) (A.allows provider.new) }
        ensures kept { kept_plan self.new ≡ kept_plan self.old }
    {
        self.hold();
        'turns: for _ in 0..turns {
            if engine.session().has_ended() {
                break;
            }
            // How the session stands is told in the end.
            drop(engine.run(self, provider, 1));
            self.hold();
        }
    }

    // What the port tells says how it came to be as it is. It is called for this clause alone.
    fn hold(&self)
        ensures { HasCome self.now }
    {
        let _held = self.inside.told;
    }
}

// How a session ended, or that it did not.
fn end_of_run(engine: &IoLoop) -> Result<()>
    ensures ended { IfSome (end_of engine.now.talk) (λ end. HandsOut (Some end) (Some result)) }
    ensures out_of_turns { has_ended engine.now.talk ≡ false → result ≡ Err ErrorKind.OutOfTurns }
    ensures only_out_of_turns { result ≡ Err ErrorKind.OutOfTurns
        → (has_ended engine.now.talk ≡ false) ⊎ (end_of engine.now.talk ≡ Some (Err ErrorKind.OutOfTurns)) }
    ensures refused { engine.now.starved ≢ None → has_ended engine.now.talk ≡ true
        → (result ≡ Ok tt) ⊎ (result ≡ Err ErrorKind.NoMemory) }
{
    match engine.session().end() {
        None => Err(ErrorKind::OutOfTurns.into()),
        Some(Ok(())) => Ok(()),
        Some(Err(error)) => {
            if engine.starved().is_some() {
                drop(error);
                return Err(ErrorKind::NoMemory.into());
            }
            Err(error)
        }
    }
}

impl Port for JoinedPort {
    ghost use Rattle.amqp_joining.specs.Joining.{JoinWrites};
    ghost use Rattle.amqp_joined.specs.Ports.{KeptPlan, kept_plan, TellsStep};

    ghost log = { λ p. Some p.log };

    ghost faults = { λ p. 0 };

    ghost Kept = { KeptPlan };

    ghost kept = { kept_plan };

    fn connect(&mut self)
        ensures told { Some self.new.log ≡ option_map log_ask (Some self.old.log) }
        ensures faults { 0 ≤ 0 }
        ensures kept { kept_plan self.new ≡ kept_plan self.old }
        ensures join { self.new.join ≡ self.old.join }
    {
        self.inside.ask();
    }

    #[tactic(auto, using(crate::proofs::Steps::step_keeps))]
    fn next(&mut self, space: &mut [u8]) -> Told
        requires space { 4096 ≤ length space.old }
        ensures piece { IsPiece result.step }
        ensures told { Some self.new.log
            ≡ option_map (log_step result.at result.step (piece_bytes result.step space.new)) (Some self.old.log) }
        ensures plays { IfSome (Some self.old.log)
            (PlansStep result.at result.step (piece_bytes result.step space.new)) }
        ensures cause { HasCause result.step 0 0 }
        ensures faults { 0 ≤ 0 }
        ensures kept { kept_plan self.new ≡ kept_plan self.old }
        ensures rule { TellsStep result.at result.step (piece_bytes result.step space.new) self.old.log.asked
            self.old.join self.new.join }
    {
        Told {
            at: 0,
            step: self.inside.next(space),
        }
    }

    #[tactic(auto, using(crate::proofs::Steps::write_keeps))]
    fn write(&mut self, first: &[u8], second: &[u8]) -> Wrote
        ensures within { TookAtMost (length (first.now ++ second.now)) result }
        ensures told { Some self.new.log ≡ option_map (log_write (first.now ++ second.now) result) (Some self.old.log) }
        ensures plays { IfSome (Some self.old.log) (PlansWrite (length (first.now ++ second.now)) result) }
        ensures cause { result ≡ Wrote.Failed → Rose 0 0 }
        ensures faults { 0 ≤ 0 }
        ensures kept { kept_plan self.new ≡ kept_plan self.old }
        ensures rule { JoinWrites (first.now ++ second.now) result self.old.join self.new.join }
    {
        self.inside.write(first, second)
    }
}
